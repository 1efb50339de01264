//! What updates make of a component's values, by number.
ghost use Rattle.std.specs.Prelude.{◌≡◌, ◌<◌, length, IfSome};
ghost use Rattle.numbered_sets.specs.LoadUpdates.{IsFoundWith};

use crate::column::{Column, NONE};
use crate::numbered_set::NumberedSet;
use crate::seen_values::SeenValues;
use crate::slot_values::{Standing, changes_load, offset_after, slot_place, standing_after};
use crate::slots::Slots;
use abstract_state::Domain;
use flow_model::{Releases, Update};
use osek_values::{BlockNo, Memory};
use std::alloc::Global;

impl SeenValues {
    ghost use Rattle.std.specs.Prelude.{ℕ, ◌≡◌, ◌<◌, ◌≤◌, ◌+◌, length, IfOk, OnOk, IfSome, IsTrue};
    ghost use Rattle.abstract_state.specs.{declared.value.PartValue.{PartValue}, Domains.{IsWithin}};
    ghost use Rattle.flow_model.specs.{declared.change.Update.TheVariants.{Block, Release}, Tests.{updated}};
    ghost use Rattle.numbered_sets.specs.{Numbers.{Numbers, has_number}, Pools.{IsNumberOf, IsExtended}, Made.{AreMade}};

    /// The numbers of what an update makes of the values with the numbers of a set, if all of them were seen.
    pub fn found_after(
        &self,
        alloc: Global,
        numbers: &NumberedSet,
        update: &Update,
    ) -> Result<Option<NumberedSet>, Memory>
        ensures { IfOk result (λ found. IfSome found (AreMade (updated update.now) self.now.values numbers.now (length self.now.values))) }
    {
        let mut made = NumberedSet::beside(alloc, numbers)?;
        let count = self.len();
        let mut number = self.pass_seen(numbers, update, 0, &mut made)?;
        while number < count {
            let Some(after) = self.found_for(number, update) else {
                return Ok(None);
            };
            made.put(after)?;
            number = self.pass_seen(numbers, update, number + 1, &mut made)?;
        }
        made.trim();
        Ok(Some(made))
    }

    // the number of what an update makes of the value with a number, if it was seen
    fn found_for(&self, number: usize, update: &Update) -> Option<usize>
        requires { number < length self.now.values }
        ensures { IfSome result (λ n. (v : PartValue) → IsNumberOf self.now.values v number → IsNumberOf self.now.values (updated update.now v) n) }
    {
        let value = update.of(&self.value(number));
        self.number_of(&value)
    }

    /// The numbers of what an update makes of the values with the numbers of a set. Those that are new come in last, also
    /// where memory is wanted.
    pub fn numbers_after(
        &mut self,
        alloc: Global,
        numbers: &NumberedSet,
        update: &Update,
    ) -> Result<NumberedSet, Memory>
        requires known { (n : ℕ) → IsTrue (has_number numbers.now n) → n < length self.old.values }
        requires within { (n : ℕ) (v : PartValue) → IsTrue (has_number numbers.now n) → IsNumberOf self.old.values v n → IsWithin self.old.domain (updated update.now v) }
        ensures domain { self.new.domain ≡ self.old.domain }
        ensures grown { IsExtended self.old.values self.new.values }
        ensures made { IfOk result (AreMade (updated update.now) self.new.values numbers.now (length self.old.values)) }
    {
        let mut made = NumberedSet::beside(alloc, numbers)?;
        let count = self.len();
        let mut number = self.pass_seen(numbers, update, 0, &mut made)?;
        while number < count {
            self.put_after(update, number, &mut made)?;
            number = self.pass_seen(numbers, update, number + 1, &mut made)?;
        }
        made.trim();
        Ok(made)
    }

    // puts in the number of what an update makes of the value with a number
    fn put_after(
        &mut self,
        update: &Update,
        number: usize,
        made: &mut NumberedSet,
    ) -> Result<(), Memory>
        requires known { number < length self.old.values }
        requires within { (v : PartValue) → IsNumberOf self.old.values v number → IsWithin self.old.domain (updated update.now v) }
        ensures domain { self.new.domain ≡ self.old.domain }
        ensures grown { IsExtended self.old.values self.new.values }
        ensures made { OnOk result ((old : Numbers) → ((n : ℕ) → IsTrue (has_number old n) → n < length self.old.values) → IsTrue (has_number old number) →
            AreMade (updated update.now) self.old.values old number made.old → AreMade (updated update.now) self.new.values old (number + 1) made.new) }
    {
        let after = self.number_after(number, update)?;
        self.note_after(update, number, after)?;
        made.put(after)?;
        Ok(())
    }

    // Puts in the numbers of what an update makes of the values with a set's numbers from one on, as long as these are found by
    // block and load. It gives the number of the set that comes next, or how many values there are.
    fn pass_seen(
        &self,
        numbers: &NumberedSet,
        update: &Update,
        from: usize,
        made: &mut NumberedSet,
    ) -> Result<usize, Memory>
        requires { from ≤ length self.now.values }
        ensures up { IfOk result (λ n. from ≤ n) }
        ensures few { IfOk result (λ n. n ≤ length self.now.values) }
        ensures has { IfOk result (λ n. n < length self.now.values → IsTrue (has_number numbers.now n)) }
        ensures made { IfOk result (λ n. AreMade (updated update.now) self.now.values numbers.now from made.old → AreMade (updated update.now) self.now.values numbers.now n made.new) }
    {
        match update {
            Update::Block(block) => self.pass_at(numbers, *block, from, made),
            Update::Release(releases) => self.pass_released(numbers, releases, from, made),
            Update::Set(_)
            | Update::Take { .. }
            | Update::Give { .. }
            | Update::More
            | Update::Again(_)
            | Update::Leave(_)
            | Update::Inside => self.pass_loads(numbers, update, from, made),
        }
    }

    // the same for a block
    fn pass_at(
        &self,
        numbers: &NumberedSet,
        block: BlockNo,
        from: usize,
        made: &mut NumberedSet,
    ) -> Result<usize, Memory>
        requires { from ≤ length self.now.values }
        ensures up { IfOk result (λ n. from ≤ n) }
        ensures few { IfOk result (λ n. n ≤ length self.now.values) }
        ensures has { IfOk result (λ n. n < length self.now.values → IsTrue (has_number numbers.now n)) }
        ensures made { IfOk result (λ n. AreMade (updated (Block block)) self.now.values numbers.now from made.old → AreMade (updated (Block block)) self.now.values numbers.now n made.new) }
    {
        let count = self.len();
        let Some(column) = self.column(block) else {
            return Ok(numbers.next(from, count));
        };
        let mut cursor = numbers.cursor(from);
        let mut number = numbers.advance(&mut cursor, count);
        while number < count {
            let Some(after) = self.found_in(number, column) else {
                return Ok(number);
            };
            made.put(after)?;
            number = numbers.advance(&mut cursor, count);
        }
        Ok(number)
    }

    // the same for an update that makes other loads, as far as it is known which
    fn pass_loads(
        &self,
        numbers: &NumberedSet,
        update: &Update,
        from: usize,
        made: &mut NumberedSet,
    ) -> Result<usize, Memory>
        requires { from ≤ length self.now.values }
        ensures up { IfOk result (λ n. from ≤ n) }
        ensures few { IfOk result (λ n. n ≤ length self.now.values) }
        ensures has { IfOk result (λ n. n < length self.now.values → IsTrue (has_number numbers.now n)) }
        ensures made { IfOk result (λ n. AreMade (updated update.now) self.now.values numbers.now from made.old → AreMade (updated update.now) self.now.values numbers.now n made.new) }
    {
        let count = self.len();
        if !changes_load(self.domain, update) {
            return Ok(numbers.next(from, count));
        }
        let Some(standing) = standing_after(self.domain, update) else {
            return Ok(numbers.next(from, count));
        };
        let Some(loads) = self.loads.numbers_after(update) else {
            return Ok(numbers.next(from, count));
        };
        self.loads.are_distinct();
        let mut cursor = numbers.cursor(from);
        let mut number = numbers.advance(&mut cursor, count);
        while number < count {
            let Some(after) = found_with(self.domain, &self.slots, standing, loads, number) else {
                return Ok(number);
            };
            made.put(after)?;
            number = numbers.advance(&mut cursor, count);
        }
        Ok(number)
    }

    // the same for those who are released from waiting
    fn pass_released(
        &self,
        numbers: &NumberedSet,
        releases: &Releases,
        from: usize,
        made: &mut NumberedSet,
    ) -> Result<usize, Memory>
        requires { from ≤ length self.now.values }
        ensures up { IfOk result (λ n. from ≤ n) }
        ensures few { IfOk result (λ n. n ≤ length self.now.values) }
        ensures has { IfOk result (λ n. n < length self.now.values → IsTrue (has_number numbers.now n)) }
        ensures made { IfOk result (λ n. AreMade (updated (Release releases.now)) self.now.values numbers.now from made.old → AreMade (updated (Release releases.now)) self.now.values numbers.now n made.new) }
    {
        let count = self.len();
        let load = self.load_of_none();
        let mut cursor = numbers.cursor(from);
        let mut number = numbers.advance(&mut cursor, count);
        while number < count {
            let Some(after) = self.found_released(number, releases, load) else {
                return Ok(number);
            };
            made.put(after)?;
            number = numbers.advance(&mut cursor, count);
        }
        Ok(number)
    }
}

// the number of what stands where a Live value is left, with the load that it gets, if it was seen
fn found_with(
    domain: Domain,
    slots: &Slots,
    standing: Standing,
    loads: &Column,
    number: usize,
) -> Option<usize>
    requires { number < length slots.now.used }
    ensures { IfSome result (IsFoundWith domain slots.now loads.now standing number) }
{
    let place = slot_place(domain, slots.at(number))?;
    if place.row == 0 {
        return None;
    }
    let load = loads.at(place.row as usize - 1);
    if load == NONE {
        return None;
    }
    slots.find_behind(load as usize + 1, offset_after(standing, place))
}
