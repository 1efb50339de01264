//! Entries of sets of numbers.
ghost use Rattle.std.specs.Prelude.{◌≡◌};

use crate::flat_sets::NumberedSets;
use crate::numbered_set::NumberedSet;
use abstract_state::Domain;
use osek_values::Memory;
use std::alloc::Global;

/// What the parts of a state can be, by number: a set for each component, in the order of the components.
#[derive(Drop)]
pub struct NumberedEntry {
    pub sets: NumberedSets,
}

impl NumberedEntry {
    ghost use Rattle.std.specs.Prelude.{ℕ, false, IsTrue, ◌≡◌, ◌<◌, ◌≤◌, ◌+◌, ◌^◌, ◌==◌, not, length, map, slice_set, IfOk, OnOk, OnErr};
    ghost use Rattle.numbered_sets.specs.Numbers.{numbers, has_number, with_number, joined_numbers, kept_numbers, other_numbers, number_count, meets};
    ghost use Rattle.std.specs.Bool.{OnTrue, OnFalse};
    ghost use Rattle.numbered_sets.specs.NumberedEntries.{numbers_at, number_domains, entry_numbers, AreFilled, HasEmptySet, IsNumberJoin, IsPartOfNumberJoin};

    /// The entry without a number, for a component of each domain.
    pub fn new(alloc: Global, domains: &[Domain]) -> Result<NumberedEntry, Memory>
        ensures { IfOk result (λ entry. entry.sets ≡ map (λ d. numbers d 0) domains.now) }
    {
        let sets = NumberedSets::new(alloc, domains)?;
        Ok(NumberedEntry { sets })
    }

    /// Joins another entry into this one, set by set, and tells how many numbers are new. Where memory is wanted each set
    /// is what it was or the join.
    pub fn join_into(&mut self, other: &NumberedEntry) -> Result<u64, Memory>
        requires as_many { length self.old.sets ≡ length other.now.sets }
        requires few { entry_numbers other.now < 2 ^ 64 }
        ensures entry { OnOk result (IsNumberJoin self.old other.now self.new) }
        ensures count { IfOk result (λ n. entry_numbers self.new ≡ entry_numbers self.old + n) }
        ensures err { OnErr result (IsPartOfNumberJoin self.old other.now self.new) }
    {
        let added = self.sets.join_into(&other.sets)?;
        Ok(added)
    }

    /// Another entry with the same numbers.
    pub fn copy(&self, alloc: Global) -> Result<NumberedEntry, Memory>
        ensures { IfOk result (λ entry. entry ≡ self.now) }
    {
        let sets = self.sets.copy(alloc)?;
        Ok(NumberedEntry { sets })
    }

    /// Whether a component's set has some number of another one.
    pub fn meets(&self, component: usize, other: &NumberedSet) -> bool
        requires { component < length self.now.sets }
        ensures { result ≡ meets (numbers_at self.now component) other.now }
    {
        self.sets.meets(component, other)
    }

    /// Leaves out the numbers of a component that another set lacks.
    pub fn keep(&mut self, component: usize, other: &NumberedSet) -> Result<(), Memory>
        requires { component < length self.old.sets }
        ensures sets { OnOk result (self.new.sets ≡ slice_set self.old.sets component (kept_numbers (numbers_at self.old component) other.now)) }
        ensures err { OnErr result (self.new ≡ self.old) }
    {
        self.sets.keep(component, other)?;
        Ok(())
    }

    /// Leaves out the numbers of a component that another set has.
    pub fn leave_out(&mut self, component: usize, other: &NumberedSet) -> Result<(), Memory>
        requires { component < length self.old.sets }
        ensures sets { OnOk result (self.new.sets ≡ slice_set self.old.sets component (other_numbers (numbers_at self.old component) other.now)) }
        ensures err { OnErr result (self.new ≡ self.old) }
    {
        self.sets.leave_out(component, other)?;
        Ok(())
    }

    /// The first number of a component from one on, if it is below a bound; else the bound.
    pub fn next(&self, component: usize, from: usize, below: usize) -> usize
        requires known { component < length self.now.sets }
        requires bound { from ≤ below }
        ensures up { from ≤ result }
        ensures few { result ≤ below }
        ensures has { result < below → IsTrue (has_number (numbers_at self.now component) result) }
        ensures none { (k : ℕ) → from ≤ k → k < result → has_number (numbers_at self.now component) k ≡ false }
    {
        self.sets.next(component, from, below)
    }

    /// Whether each set has a number.
    pub fn is_filled(&self) -> bool
        ensures filled { OnTrue result (AreFilled self.now) }
        ensures none { OnFalse result (HasEmptySet self.now) }
    {
        self.sets.is_filled()
    }
}
