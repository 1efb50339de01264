//! The values of one domain that were seen, which pools may share.
ghost use Rattle.std.specs.Prelude.{◌≡◌};

use crate::judged::JudgedTests;
use crate::made_sets::MadeSets;
use crate::numbered_entry::NumberedEntry;
use crate::numbered_set::NumberedSet;
use crate::seen_values::SeenValues;
use abstract_state::{Domain, PartValue};
use flow_model::{Test, Update};
use osek_values::Memory;
use std::alloc::Global;
use std::marker::Model;
use std::mem;
use std::rc::Rc;

/// Values by number, which several pools may have. One that is new to a pool comes into values of its own: a copy, where others have them too.
/// What tests they passed is kept beside them, for each pool by itself, and what updates made of large sets of them.
#[derive(Drop)]
pub struct SharedValues {
    seen: Rc<SeenValues>,
    judged: JudgedTests,
    kept: MadeSets,
}

impl Model for SharedValues {
    ghost use Rattle.numbered_sets.specs.{Judging.{AreJudgedTests}, Keeping.{AreMadeSets}, Pools.{Values}};

    ghost Value = { Values };

    ghost view = { λ s. s.seen.value };

    ghost invariant = { λ s. AreJudgedTests s.seen.value.values s.judged.tests × AreMadeSets s.seen.value.values s.kept.sets };
}

impl SharedValues {
    ghost use Rattle.std.specs.Prelude.{ℕ, ◌≡◌, ◌<◌, length, slice_set, IfOk, OnOk, OnErr, IsTrue};
    ghost use Rattle.abstract_state.specs.{declared.value.PartValue.{PartValue}, Domains.{IsWithin, domain_size}};
    ghost use Rattle.flow_model.specs.Tests.{updated};
    ghost use Rattle.numbered_sets.specs.{Numbers.{has_number}, NumberedEntries.{numbers_at}, Passing.{IsSifted}, Pools.{no_values, value_seen, IsNumberOf, IsExtended}, Made.{AreMade}, Keeping.{AreMadeSets}};

    /// No value yet.
    pub fn new(alloc: Global, domain: Domain) -> Result<SharedValues, Memory>
        ensures { IfOk result (λ values. values ≡ no_values domain) }
    {
        let seen = Rc::new(alloc, SeenValues::new(alloc, domain))?;
        Ok(SharedValues {
            seen,
            judged: JudgedTests::new(alloc),
            kept: MadeSets::new(alloc),
        })
    }

    /// The values.
    pub fn seen(&self) -> &SeenValues
        ensures { result.now ≡ self.now }
    {
        &self.seen
    }

    /// The number of a value, which comes in last where it is new.
    pub fn number(&mut self, value: &PartValue) -> Result<usize, Memory>
        requires { IsWithin self.old.domain value.now }
        ensures values { OnOk result (self.new ≡ value_seen self.old value.now) }
        ensures number { IfOk result (IsNumberOf self.new.values value.now) }
        ensures below { IfOk result (λ n. n < domain_size self.old.domain) }
        ensures err { OnErr result (self.new ≡ self.old) }
    {
        if self.is_shared() {
            if let Some(number) = self.seen.number_of(value) {
                self.seen.are_values();
                return Ok(number);
            }
            self.make_own()?;
        }
        let Some(own) = Rc::get_mut(&mut self.seen) else {
            return Err(Memory);
        };
        let number = own.number(value)?;
        Ok(number)
    }

    /// The numbers of what an update makes of the values with the numbers of a set. Those that are new come in last, also
    /// where memory is wanted. What it makes of a large set is kept for the next time that a place asks; 0 is none.
    pub fn numbers_after(
        &mut self,
        alloc: Global,
        numbers: &NumberedSet,
        update: &Update,
        place: u32,
    ) -> Result<NumberedSet, Memory>
        requires known { (n : ℕ) → IsTrue (has_number numbers.now n) → n < length self.old.values }
        requires within { (n : ℕ) (v : PartValue) → IsTrue (has_number numbers.now n) → IsNumberOf self.old.values v n → IsWithin self.old.domain (updated update.now v) }
        ensures domain { self.new.domain ≡ self.old.domain }
        ensures grown { IsExtended self.old.values self.new.values }
        ensures made { IfOk result (AreMade (updated update.now) self.new.values numbers.now (length self.old.values)) }
    {
        if place == 0 || !numbers.is_large() {
            return self.moved(alloc, numbers, update);
        }
        let mut kept = mem::replace(&mut self.kept, MadeSets::new(alloc));
        let made = self.moved_since(alloc, numbers, update, place, &mut kept)?;
        self.kept = kept;
        Ok(made)
    }

    // The same where the set is large: what is kept of part of it isn't looked up again.
    fn moved_since(
        &mut self,
        alloc: Global,
        numbers: &NumberedSet,
        update: &Update,
        place: u32,
        kept: &mut MadeSets,
    ) -> Result<NumberedSet, Memory>
        requires known { (n : ℕ) → IsTrue (has_number numbers.now n) → n < length self.old.values }
        requires within { (n : ℕ) (v : PartValue) → IsTrue (has_number numbers.now n) → IsNumberOf self.old.values v n → IsWithin self.old.domain (updated update.now v) }
        requires kept { AreMadeSets self.old.values kept.old.sets }
        ensures domain { self.new.domain ≡ self.old.domain }
        ensures grown { IsExtended self.old.values self.new.values }
        ensures made { IfOk result (AreMade (updated update.now) self.new.values numbers.now (length self.old.values)) }
        ensures kept { OnOk result (AreMadeSets self.new.values kept.new.sets) }
    {
        let Some(at) = kept.find(place, update, numbers) else {
            let made = self.moved(alloc, numbers, update)?;
            kept.keep(alloc, place, update, numbers, &made)?;
            return Ok(made);
        };
        let mut answer = kept.at(at).made.copy_for(alloc, numbers.domain())?;
        let since = numbers.without(alloc, &kept.at(at).given)?;
        if since.is_empty() {
            return Ok(answer);
        }
        let made = self.moved(alloc, &since, update)?;
        answer.join(&made)?;
        kept.extend(at, &since, &made)?;
        Ok(answer)
    }

    // what an update makes of each value with a number of a set
    fn moved(
        &mut self,
        alloc: Global,
        numbers: &NumberedSet,
        update: &Update,
    ) -> Result<NumberedSet, Memory>
        requires known { (n : ℕ) → IsTrue (has_number numbers.now n) → n < length self.old.values }
        requires within { (n : ℕ) (v : PartValue) → IsTrue (has_number numbers.now n) → IsNumberOf self.old.values v n → IsWithin self.old.domain (updated update.now v) }
        ensures domain { self.new.domain ≡ self.old.domain }
        ensures grown { IsExtended self.old.values self.new.values }
        ensures made { IfOk result (AreMade (updated update.now) self.new.values numbers.now (length self.old.values)) }
    {
        if self.is_shared() {
            if let Some(found) = self.seen.found_after(alloc, numbers, update)? {
                return Ok(found);
            }
            self.make_own()?;
        }
        let Some(own) = Rc::get_mut(&mut self.seen) else {
            return Err(Memory);
        };
        own.numbers_after(alloc, numbers, update)
    }

    /// Leaves out the numbers of a component's values that don't pass a test.
    pub fn keep_passing(
        &mut self,
        alloc: Global,
        test: &Test,
        component: usize,
        entry: &mut NumberedEntry,
    ) -> Result<(), Memory>
        requires { component < length entry.old.sets }
        ensures same { self.new ≡ self.old }
        ensures passing { OnOk result (IsSifted self.old.values test.now (numbers_at entry.old component) (numbers_at entry.new component)) }
        ensures others { OnOk result (entry.new.sets ≡ slice_set entry.old.sets component (numbers_at entry.new component)) }
        ensures err { OnErr result (entry.new ≡ entry.old) }
    {
        match test {
            Test::Is(value) => self.seen.keep_value(alloc, value, component, entry),
            Test::IsNot(value) => self.seen.leave_value(alloc, value, component, entry),
            _ => self
                .judged
                .keep_passing(alloc, &self.seen, test, component, entry),
        }
    }

    /// The numbers of a component's values that pass a test.
    pub fn passing(
        &mut self,
        alloc: Global,
        test: &Test,
        component: usize,
        entry: &NumberedEntry,
    ) -> Result<NumberedSet, Memory>
        requires { component < length entry.now.sets }
        ensures same { self.new ≡ self.old }
        ensures passing { IfOk result (IsSifted self.old.values test.now (numbers_at entry.now component)) }
    {
        if let Test::Is(value) = test {
            return self.seen.only(alloc, value, component, entry);
        }
        let mut sifted = entry.copy(alloc)?;
        self.keep_passing(alloc, test, component, &mut sifted)?;
        let passing = sifted.sets.set(alloc, component)?;
        Ok(passing)
    }

    // Whether another pool has them too. Then a value is looked up first, so that none that is there makes a copy.
    fn is_shared(&self) -> bool {
        Rc::strong_count(&self.seen) > 1
    }

    // makes a copy for this pool alone
    fn make_own(&mut self) -> Result<(), Memory>
        ensures { self.new ≡ self.old }
    {
        let _own = Rc::make_mut(&mut self.seen)?;
        Ok(())
    }

    /// The same values for another pool. None is copied.
    pub fn share(&self, alloc: Global) -> Result<SharedValues, Memory>
        ensures { IfOk result (λ values. values ≡ self.now) }
    {
        let seen = self.seen.clone()?;
        Ok(SharedValues {
            seen,
            judged: JudgedTests::new(alloc),
            kept: MadeSets::new(alloc),
        })
    }
}
