//! What a task or a routine was seen to have beside its block, by number.
ghost use Rattle.std.specs.Prelude.{◌≡◌};

use crate::column::Column;
use crate::load_updates::LoadUpdates;
use abstract_state::{LiveVal, RoutineVal};
use flow_model::Update;
use indexmap::IndexSet;
use osek_values::{BlockNo, Held, Memory};
use std::alloc::{AllocError, Global};
use std::hash::{Hash, Hasher};
use std::marker::Model;

/// What a Live task has beside its block; of a routine it is a stack alone.
#[derive(Drop)]
pub struct Load {
    pub further: u8,
    pub inside: bool,
    pub held: Held,
}

impl Load {
    ghost use Rattle.std.specs.{Prelude.{◌≡◌}, Bool.{OnTrue}};
    ghost use Rattle.numbered_sets.specs.Slots.{no_load, load_of, routine_load, carrying};

    /// That of a task that is outside and holds nothing.
    pub fn none() -> Load
        ensures { result ≡ no_load }
    {
        Load {
            further: 0,
            inside: false,
            held: Held::new(),
        }
    }

    /// Whether it is that.
    pub fn is_none(&self) -> bool
        ensures { OnTrue result (self.now ≡ no_load) }
    {
        self.further == 0 && !self.inside && self.held.is_empty()
    }

    /// That of a Live task.
    pub fn of(live: &LiveVal) -> Load
        ensures { result ≡ load_of live.now }
    {
        Load {
            further: live.further,
            inside: live.inside,
            held: live.held.copy(),
        }
    }

    /// That of a routine.
    pub fn of_routine(routine: &RoutineVal) -> Load
        ensures { result ≡ routine_load routine.now }
    {
        Load {
            further: 0,
            inside: false,
            held: routine.held.copy(),
        }
    }

    /// What a Live task with it is at a block.
    pub fn at(&self, block: BlockNo) -> LiveVal
        ensures { result ≡ carrying block self.now }
    {
        LiveVal {
            block,
            further: self.further,
            inside: self.inside,
            held: self.held.copy(),
        }
    }

    /// Another that is the same. It takes no memory.
    pub fn copy(&self) -> Load
        ensures { result ≡ self.now }
    {
        Load {
            further: self.further,
            inside: self.inside,
            held: self.held.copy(),
        }
    }
}

impl PartialEq for Load {
    ghost use Rattle.numbered_sets.specs.LoadKeys.{same_load, keys_alike};

    ghost eq = { same_load };

    ghost laws = { keys_alike };

    fn eq(&self, other: &Load) -> bool {
        self.further == other.further
            && self.inside == other.inside
            && self.held.as_slice() == other.held.as_slice()
    }
}

impl Eq for Load {
    ghost use Rattle.numbered_sets.specs.LoadKeys.{keys_equal};

    ghost laws = { keys_equal };
}

impl Hash for Load {
    ghost use Rattle.numbered_sets.specs.LoadKeys.{key_input, key_fed};

    ghost hash_input = { key_input };

    ghost respects_eq = { key_fed };

    fn hash<H: Hasher>(&self, state: &mut H) {
        self.further.hash(state);
        self.inside.hash(state);
        for resource in self.held.as_slice() {
            resource.0.hash(state);
        }
    }
}

/// Different loads in the order of first use: each has its place as its number. What updates made of them is kept beside them.
#[derive(Drop)]
pub struct Loads {
    seen: IndexSet<Load>,
    updates: LoadUpdates,
}

const MOST: usize = 4294967296;

impl Model for Loads {
    ghost use Rattle.std.specs.Prelude.{◌≤◌, ◌^◌, List, length};
    ghost use Rattle.numbered_sets.specs.{declared.loads.Load.{Load}, Slots.{AreDistinct}, LoadUpdates.{AreLoadUpdates}};

    ghost Value = { List Load };

    ghost view = { λ s. s.seen.keys };

    ghost invariant = { λ s. AreDistinct s.seen.keys × (length s.seen.keys ≤ 2 ^ 32) × AreLoadUpdates s.seen.keys s.updates.known };
}

impl Clone for Loads {
    ghost is_clone = { λ loads copy. copy ≡ loads };

    fn clone(&self) -> Result<Loads, AllocError> {
        let mut copy = Loads::new(*self.seen.allocator());
        for number in 0..self.len() {
            let Ok(_number) = copy.number(self.at(number)) else {
                return Err(AllocError);
            };
        }
        Ok(copy)
    }
}

impl Loads {
    ghost use Rattle.std.specs.Prelude.{ℕ, List, ◌≡◌, ◌≢◌, ◌<◌, ◌≤◌, ◌^◌, [], length, slice_index_or, IfOk, OnOk, OnErr, IfSome, IfNone};
    ghost use Rattle.numbered_sets.specs.{Slots.{no_load, AreDistinct, IsLoadNumber, IsGrownBy}, LoadUpdates.{IsNumberAfter, AreNumbersAfter}};

    /// No load yet.
    pub fn new(alloc: Global) -> Loads
        ensures { result ≡ [] }
    {
        Loads {
            seen: IndexSet::new(alloc),
            updates: LoadUpdates::new(alloc),
        }
    }

    /// How many loads there are.
    pub fn len(&self) -> usize
        ensures { result ≡ length self.now }
    {
        self.seen.len()
    }

    /// The load with a number.
    pub fn at(&self, number: usize) -> &Load
        requires { number < length self.now }
        ensures { IsLoadNumber self.now result.now number }
    {
        &self.seen.as_slice()[number]
    }

    /// None stands twice.
    pub fn are_distinct(&self)
        ensures { AreDistinct self.now }
    {
        let _seen = &self.seen;
    }

    /// There are no more than numbers of 32 bits.
    pub fn are_few(&self)
        ensures { length self.now ≤ 2 ^ 32 }
    {
        let _seen = &self.seen;
    }

    /// The number of a load, if it has one.
    pub fn find(&self, load: &Load) -> Option<usize>
        ensures number { IfSome result (IsLoadNumber self.now load.now) }
        ensures few { IfSome result (λ k. k < 2 ^ 32) }
        ensures none { IfNone result ((k : ℕ) → k < length self.now → slice_index_or self.now k no_load ≢ load.now) }
    {
        self.seen.get_index_of(load)
    }

    /// The number of a load, which comes in last where it is new.
    pub fn number(&mut self, load: &Load) -> Result<usize, Memory>
        ensures loads { OnOk result (IsGrownBy load.now self.old self.new) }
        ensures number { IfOk result (IsLoadNumber self.new load.now) }
        ensures few { IfOk result (λ k. k < 2 ^ 32) }
        ensures err { OnErr result (self.new ≡ self.old) }
    {
        // a task has far fewer loads, so this is never so
        if self.len() >= MOST {
            return Err(Memory);
        }
        let key = load.copy();
        let (number, _is_new) = self.seen.insert_full(key)?;
        Ok(number)
    }

    /// The numbers of what an update makes of loads, as far as they are known.
    pub fn numbers_after(&self, update: &Update) -> Option<&Column>
        ensures { IfSome result (λ numbers. AreNumbersAfter self.now update.now numbers.now) }
    {
        self.updates.numbers(update)
    }

    /// Keeps the number of what an update makes of a load.
    pub fn note(&mut self, update: &Update, load: usize, after: usize) -> Result<(), Memory>
        requires { IsNumberAfter self.old update.now load after }
        ensures { self.new ≡ self.old }
    {
        let alloc = *self.seen.allocator();
        self.updates.note(alloc, update, load, after)?;
        Ok(())
    }
}
