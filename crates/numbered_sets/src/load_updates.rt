//! What updates make of loads, by number.
ghost use Rattle.std.specs.{Prelude.{◌≡◌}, Bool.{OnTrue}};
ghost use Rattle.numbered_sets.specs.{declared.loads.Load.{Load}, LoadUpdates.{load_after}};

use crate::column::Column;
use flow_model::Update;
use osek_values::{Memory, Seq};
use std::alloc::Global;

/// An update, and for each load the number of what it makes of it, or `NONE` where that isn't known.
#[derive(Drop)]
pub struct LoadsAfter {
    pub update: Update,
    pub numbers: Column,
}

/// The updates that loads went through. What one makes of a load is looked up once, wherever what has the load stands.
#[derive(Drop)]
pub struct LoadUpdates {
    pub known: Seq<LoadsAfter>,
}

impl LoadsAfter {
    ghost use Rattle.std.specs.Prelude.{List, ◌≡◌, ◌<◌, ◌^◌};
    ghost use Rattle.numbered_sets.specs.{declared.loads.Load.{Load}, LoadUpdates.{IsNumberAfter, AreNumbersAfter}};

    /// Nothing is known yet.
    pub fn new(alloc: Global, update: Update) -> LoadsAfter
        ensures update { result.update ≡ update }
        ensures numbers { (loads : List Load) → AreNumbersAfter loads result.update result.numbers }
    {
        LoadsAfter {
            update,
            numbers: Column::new(alloc),
        }
    }

    /// Keeps the number of what the update makes of a load.
    pub fn note(&mut self, load: usize, after: usize) -> Result<(), Memory>
        requires load { load < 2 ^ 32 }
        requires after { after < 2 ^ 32 }
        ensures update { self.new.update ≡ self.old.update }
        ensures numbers { (loads : List Load) → AreNumbersAfter loads self.old.update self.old.numbers → IsNumberAfter loads self.old.update load after →
            AreNumbersAfter loads self.old.update self.new.numbers }
    {
        self.numbers.widen(load + 1)?;
        self.numbers.put(load, after as u32);
        Ok(())
    }
}

impl LoadUpdates {
    ghost use Rattle.std.specs.Prelude.{List, ◌≡◌, ◌<◌, ◌^◌, [], IfSome, IfOk};
    ghost use Rattle.numbered_sets.specs.{declared.loads.Load.{Load}, LoadUpdates.{IsNumberAfter, AreNumbersAfter, AreLoadUpdates, HasUpdateAt}};

    /// No update yet.
    pub fn new(alloc: Global) -> LoadUpdates
        ensures { result.known ≡ [] }
    {
        LoadUpdates {
            known: Seq::new(alloc),
        }
    }

    /// The numbers of what an update makes of loads, as far as they are known.
    pub fn numbers(&self, update: &Update) -> Option<&Column>
        ensures { IfSome result (λ numbers. (loads : List Load) → AreLoadUpdates loads self.now.known → AreNumbersAfter loads update.now numbers.now) }
    {
        match self.place_of(update) {
            None => None,
            Some(place) => Some(&self.known.at(place).numbers),
        }
    }

    /// Keeps the number of what an update makes of a load.
    pub fn note(
        &mut self,
        alloc: Global,
        update: &Update,
        load: usize,
        after: usize,
    ) -> Result<(), Memory>
        requires load { load < 2 ^ 32 }
        requires after { after < 2 ^ 32 }
        ensures { (loads : List Load) → AreLoadUpdates loads self.old.known → IsNumberAfter loads update.now load after → AreLoadUpdates loads self.new.known }
    {
        let place = self.place_for(alloc, update)?;
        let known = self.known.at_mut(place);
        known.note(load, after)?;
        Ok(())
    }

    // the place of an update, which comes in last where it is new
    fn place_for(&mut self, alloc: Global, update: &Update) -> Result<usize, Memory>
        ensures known { (loads : List Load) → AreLoadUpdates loads self.old.known → AreLoadUpdates loads self.new.known }
        ensures place { IfOk result (HasUpdateAt update.now self.new.known) }
    {
        if let Some(place) = self.place_of(update) {
            return Ok(place);
        }
        let update = update.copy(alloc)?;
        self.known.push(LoadsAfter::new(alloc, update))?;
        Ok(self.known.len() - 1)
    }

    // the place of an update that makes the same of each load
    fn place_of(&self, update: &Update) -> Option<usize>
        ensures { IfSome result (HasUpdateAt update.now self.now.known) }
    {
        for place in 0..self.known.len() {
            if do_the_same(&self.known.at(place).update, update) {
                return Some(place);
            }
        }
        None
    }
}

// whether two updates are seen to make the same of each load, wherever they leave what has it
fn do_the_same(one: &Update, other: &Update) -> bool
    ensures { OnTrue result ((x : Load) → load_after one.now x ≡ load_after other.now x) }
{
    match (one, other) {
        (
            Update::Take { resource, .. },
            Update::Take {
                resource: taken,
                ..
            },
        ) => resource == taken,
        (Update::Give { .. }, Update::Give { .. }) => true,
        (Update::More, Update::More) => true,
        (Update::Again(_), Update::Again(_)) => true,
        (Update::Leave(_), Update::Leave(_)) => true,
        (Update::Inside, Update::Inside) => true,
        _ => false,
    }
}
