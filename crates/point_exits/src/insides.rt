//! The values of a task inside, by number.
ghost use Rattle.std.specs.Prelude.{◌≡◌};

use crate::group::{Ends, ExitGroup, NumberEnd};
use flow_model::Update;
use numbered_sets::{NumberedEntry, NumberedSet, Pool};
use osek_values::{Memory, Seq, TaskNo};
use std::alloc::Global;

/// For the values of a task that names an INTERNAL resource, by their numbers, the numbers of the same values inside.
#[derive(Drop)]
pub struct Insides {
    pub task: TaskNo,
    pub numbers: Seq<usize>,
}

impl Insides {
    ghost use Rattle.std.specs.Prelude.{ℕ, List, ◌≡◌, ◌≢◌, ◌<◌, ◌≤◌, ◌==◌, length, slice_set, IfOk, OnOk};
    ghost use Rattle.abstract_state.specs.declared.value.PartValue.{PartValue};
    ghost use Rattle.flow_model.specs.declared.change.Update.TheVariants as updates;
    ghost use Rattle.flow_model.specs.Tests.{updated};
    ghost use Rattle.numbered_sets.specs.{NumberedEntries.{numbers_at}, Pools.{Values, values_at, IsNumberOf, IsLonger}};
    ghost use Rattle.numbered_sets.specs.Made.{AreMade};
    ghost use Rattle.point_exits.specs.{Levels.{AreInside, MayComeIn}, Settling.{IsSettledEnd, AreSettledEach, AreSettledEnds, IsSettledBy}};

    /// Brings in the values inside of those that came in since the last time.
    pub fn renew(&mut self, pool: &mut Pool) -> Result<(), Memory>
        requires { MayComeIn pool.old self.old }
        ensures pool { IsLonger pool.old pool.new }
        ensures others { OnOk result ((c : ℕ) → c ≢ self.old.task.0 → values_at pool.new c ≡ values_at pool.old c) }
        ensures task { self.new.task ≡ self.old.task }
        ensures insides { AreInside (values_at pool.new self.old.task.0) self.new }
        ensures all { OnOk result (length self.new.numbers ≡ length (values_at pool.new self.old.task.0)) }
    {
        let component = self.task.index();
        self.bring_in(pool)?;
        self.go_on_to(pool.len(component))
    }

    // brings in those of the values that came in; what comes in by that is inside
    fn bring_in(&mut self, pool: &mut Pool) -> Result<(), Memory>
        requires { MayComeIn pool.old self.old }
        ensures pool { IsLonger pool.old pool.new }
        ensures others { OnOk result ((c : ℕ) → c ≢ self.old.task.0 → values_at pool.new c ≡ values_at pool.old c) }
        ensures task { self.new.task ≡ self.old.task }
        ensures insides { AreInside (values_at pool.new self.old.task.0) self.new }
        ensures first { OnOk result (length self.new.numbers ≡ length (values_at pool.old self.old.task.0)) }
        ensures rest { OnOk result ((n : ℕ) (v : PartValue) → length (values_at pool.old self.old.task.0) ≤ n → IsNumberOf (values_at pool.new self.old.task.0) v n → updated updates.Inside v ≡ v) }
    {
        pool.are_values();
        let component = self.task.index();
        let came = pool.len(component);
        for number in self.numbers.len()..came {
            let inside = Update::Inside.of(&pool.value(component, number));
            let found = pool.number(component, inside)?;
            self.numbers.push(found)?;
        }
        Ok(())
    }

    // the other values are inside themselves
    fn go_on_to(&mut self, count: usize) -> Result<(), Memory>
        requires { length self.old.numbers ≤ count }
        ensures task { self.new.task ≡ self.old.task }
        ensures insides { (vs : List PartValue) → count ≡ length vs → AreInside vs self.old →
            ((n : ℕ) (v : PartValue) → length self.old.numbers ≤ n → IsNumberOf vs v n → updated updates.Inside v ≡ v) → AreInside vs self.new }
        ensures all { OnOk result (length self.new.numbers ≡ count) }
    {
        for number in self.numbers.len()..count {
            self.numbers.push(number)?;
        }
        Ok(())
    }

    /// Brings the task in with all values of a group.
    pub fn settle(&self, alloc: Global, group: &mut ExitGroup) -> Result<(), Memory>
        requires { self.now.task.0 < length group.old.entry.sets }
        ensures { OnOk result ((pool : List Values) → AreInside (values_at pool self.now.task.0) self.now → length (values_at pool self.now.task.0) ≡ length self.now.numbers →
            IsSettledBy (λ c. c == self.now.task.0) pool group.old group.new) }
    {
        self.settle_entry(alloc, &mut group.entry)?;
        self.settle_ends(alloc, &mut group.ends)
    }

    // brings the task in with the numbers of an entry
    fn settle_entry(&self, alloc: Global, entry: &mut NumberedEntry) -> Result<(), Memory>
        requires { self.now.task.0 < length entry.old.sets }
        ensures rest { OnOk result (entry.new.sets ≡ slice_set entry.old.sets self.now.task.0 (numbers_at entry.new self.now.task.0)) }
        ensures made { OnOk result ((vs : List PartValue) → AreInside vs self.now → length vs ≡ length self.now.numbers →
            AreMade (updated updates.Inside) vs (numbers_at entry.old self.now.task.0) (length vs) (numbers_at entry.new self.now.task.0)) }
    {
        let component = self.task.index();
        let numbers = entry.sets.set(alloc, component)?;
        let inside = self.of(alloc, &numbers)?;
        entry.sets.put(component, &inside)?;
        Ok(())
    }

    // brings the task in with all numbers of its ends
    fn settle_ends(&self, alloc: Global, ends: &mut Ends) -> Result<(), Memory>
        ensures { OnOk result ((pool : List Values) → AreInside (values_at pool self.now.task.0) self.now → length (values_at pool self.now.task.0) ≡ length self.now.numbers →
            AreSettledEnds (λ c. c == self.now.task.0) pool ends.old ends.new) }
    {
        match ends {
            Ends::At(_) => Ok(()),
            Ends::With(ends) => self.settle_each(alloc, ends),
        }
    }

    // the ends of other components' values stay as they are
    fn settle_each(&self, alloc: Global, ends: &mut Seq<NumberEnd>) -> Result<(), Memory>
        ensures { OnOk result ((pool : List Values) → AreInside (values_at pool self.now.task.0) self.now → length (values_at pool self.now.task.0) ≡ length self.now.numbers →
            AreSettledEach (λ c. c == self.now.task.0) pool ends.old ends.new) }
    {
        for place in 0..ends.len() {
            let end = ends.at_mut(place);
            self.settle_end(alloc, end)?;
        }
        Ok(())
    }

    // brings the task in with all numbers of an end, if they are its
    fn settle_end(&self, alloc: Global, end: &mut NumberEnd) -> Result<(), Memory>
        ensures { OnOk result ((pool : List Values) → AreInside (values_at pool self.now.task.0) self.now → length (values_at pool self.now.task.0) ≡ length self.now.numbers →
            IsSettledEnd (λ c. c == self.now.task.0) pool end.old end.new) }
    {
        if end.component != self.task.index() {
            return Ok(());
        }
        let inside = self.of(alloc, &end.numbers)?;
        end.numbers = inside;
        Ok(())
    }

    // the numbers of the values inside of those with the numbers of a set
    fn of(&self, alloc: Global, numbers: &NumberedSet) -> Result<NumberedSet, Memory>
        ensures domain { IfOk result (λ made. made.domain ≡ numbers.now.domain) }
        ensures made { IfOk result (λ made. (vs : List PartValue) → AreInside vs self.now → length vs ≡ length self.now.numbers → AreMade (updated updates.Inside) vs numbers.now (length vs) made) }
    {
        let mut made = NumberedSet::beside(alloc, numbers)?;
        let count = self.numbers.len();
        let mut number = numbers.next(0, count);
        while number < count {
            made.put(*self.numbers.at(number))?;
            number = numbers.next(number + 1, count);
        }
        made.trim();
        Ok(made)
    }
}
