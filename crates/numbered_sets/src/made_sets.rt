//! What updates made of a component's sets, where they have many numbers.
ghost use Rattle.std.specs.{Prelude.{◌≡◌}, Bool.{OnTrue}};

use crate::numbered_set::NumberedSet;
use flow_model::Update;
use osek_values::{Memory, Seq};
use std::alloc::Global;

/// What an update made of a set.
#[derive(Drop)]
pub struct MadeSet {
    /// Where it was asked. Nothing rests on it.
    pub place: u32,
    pub update: Update,
    pub given: NumberedSet,
    pub made: NumberedSet,
}

/// What updates made of sets. A place asks again with a set that has grown, and what the update makes of the numbers that
/// came in is all that is new.
#[derive(Drop)]
pub struct MadeSets {
    pub sets: Seq<MadeSet>,
    /// Where the next one is looked for first: places ask in one order mostly.
    pub next: usize,
    /// How much they take, in words.
    pub words: usize,
}

// As much is kept at most, of each component: a megabyte.
const MOST: usize = 131072;

impl MadeSets {
    ghost use Rattle.std.specs.Prelude.{◌≡◌, ◌<◌, [], length, slice_index_or, IfSome, IfNone, OnOk};
    ghost use Rattle.numbered_sets.specs.{declared.made_sets.MadeSet.{MadeSet}, Keeping.{AreStillMade, IsKeptOf, made_set, with_further}};

    /// Nothing was made yet.
    pub fn new(alloc: Global) -> MadeSets
        ensures { result.sets ≡ [] }
    {
        MadeSets {
            sets: Seq::new(alloc),
            next: 0,
            words: 0,
        }
    }

    /// Where it stands what an update made for a place of a set that was within this one.
    pub fn find(&mut self, place: u32, update: &Update, numbers: &NumberedSet) -> Option<usize>
        ensures same { self.new.sets ≡ self.old.sets }
        ensures found { IfSome result (IsKeptOf update.now numbers.now self.new.sets) }
        ensures none { IfNone result (self.new ≡ self.old) }
    {
        let begin = self.next.min(self.sets.len());
        let found = match self.find_from(place, update, numbers, begin) {
            Some(at) => Some(at),
            None => self.find_from(place, update, numbers, 0),
        };
        if let Some(at) = found {
            self.next = at + 1;
        }
        found
    }

    // the same from a place in the list on
    fn find_from(
        &self,
        place: u32,
        update: &Update,
        numbers: &NumberedSet,
        from: usize,
    ) -> Option<usize>
        ensures { IfSome result (IsKeptOf update.now numbers.now self.now.sets) }
    {
        for at in from..self.sets.len() {
            let kept = self.sets.at(at);
            if kept.place == place
                && are_same(&kept.update, update)
                && kept.given.is_within(numbers)
            {
                return Some(at);
            }
        }
        None
    }

    /// Keeps what an update made, if there is room.
    pub fn keep(
        &mut self,
        alloc: Global,
        place: u32,
        update: &Update,
        given: &NumberedSet,
        made: &NumberedSet,
    ) -> Result<(), Memory>
        ensures { OnOk result (AreStillMade self.old.sets (made_set place update.now given.now made.now) self.new.sets) }
    {
        if self.words >= MOST {
            return Ok(());
        }
        let update = update.copy(alloc)?;
        let given = given.copy(alloc)?;
        let made = made.copy(alloc)?;
        // an update and two sets take some words besides
        self.words = self
            .words
            .saturating_add(given.words())
            .saturating_add(made.words())
            .saturating_add(64);
        self.sets.push(MadeSet {
            place,
            update,
            given,
            made,
        })?;
        Ok(())
    }

    /// Keeps what the update that stands somewhere made of further numbers too, if there is room.
    pub fn extend(
        &mut self,
        at: usize,
        given: &NumberedSet,
        made: &NumberedSet,
    ) -> Result<(), Memory>
        requires { at < length self.old.sets }
        ensures { OnOk result ((none : MadeSet) → AreStillMade self.old.sets (with_further (slice_index_or self.old.sets at none) given.now made.now) self.new.sets) }
    {
        if self.words >= MOST {
            return Ok(());
        }
        let kept = self.sets.at_mut(at);
        let before = kept.given.words().saturating_add(kept.made.words());
        kept.given.join(given)?;
        kept.made.join(made)?;
        let after = kept.given.words().saturating_add(kept.made.words());
        self.words = self.words.saturating_add(after.saturating_sub(before));
        Ok(())
    }

    /// What was made of a set, as it stands somewhere.
    pub fn at(&self, at: usize) -> &MadeSet
        requires { at < length self.now.sets }
        ensures { (none : MadeSet) → slice_index_or self.now.sets at none ≡ result.now }
    {
        self.sets.at(at)
    }
}

// whether two updates are seen to be the same; those that set a value are not looked at
fn are_same(one: &Update, other: &Update) -> bool
    ensures { OnTrue result (one.now ≡ other.now) }
{
    match (one, other) {
        (Update::Block(one), Update::Block(other)) => one == other,
        (
            Update::Take { resource, block },
            Update::Take {
                resource: taken,
                block: to,
            },
        ) => resource == taken && block == to,
        (Update::Give { block }, Update::Give { block: to }) => block == to,
        (Update::More, Update::More) => true,
        (Update::Again(one), Update::Again(other)) => one == other,
        (Update::Leave(one), Update::Leave(other)) => one == other,
        (Update::Inside, Update::Inside) => true,
        (Update::Release(one), Update::Release(other)) => one.is(other),
        _ => false,
    }
}
