//! Tables in their plainest form: rows of sets.
ghost use Rattle.std.specs.Prelude.{◌≡◌};

use crate::value::{Domain, PartValue};
use osek_standard::Point;
use osek_values::{Memory, Seq};
use std::alloc::Global;
use std::cmp::Ordering;

/// A set of values: its members, which a sound set has in ascending order.
#[derive(Drop)]
pub struct ValueSet {
    pub domain: Domain,
    pub members: Seq<PartValue>,
}

/// What the parts of a state can be: a set for each component, in the order of the components.
#[derive(Drop)]
pub struct PlainEntry {
    pub sets: Seq<ValueSet>,
}

/// A point and its entry.
#[derive(Drop)]
pub struct TableRow {
    pub point: Point,
    pub entry: PlainEntry,
}

/// An entry for some of the points.
#[derive(Drop)]
pub struct PlainTable {
    pub rows: Seq<TableRow>,
}

impl ValueSet {
    ghost use Rattle.std.specs.{Prelude.{◌≡◌, ◌+◌, ◌||◌, ℕ, ◌≤◌, not, length, IfOk, IfErr, OnOk, OnErr, if◌then◌else◌}, List.{insert}};
    ghost use Rattle.abstract_state.specs.{ValueOrder.{same_part, IsAscending, AreBefore, IsPlace, IsGap}, Tables.{empty_of, is_member, IsJoin, IsPartOfJoin}};

    /// The set without a value. It takes no memory yet.
    pub fn new(alloc: Global, domain: Domain) -> ValueSet
        ensures empty { result ≡ empty_of domain }
        ensures ascending { IsAscending result.members }
    {
        ValueSet {
            domain,
            members: Seq::new(alloc),
        }
    }

    /// Whether a value is in the set.
    pub fn has(&self, value: &PartValue) -> bool
        ensures { result ≡ is_member self.now value.now }
    {
        self.members
            .as_slice()
            .iter()
            .any(|member| value.is(member))
    }

    /// The place of a value, or the one where it would come in, where those before a place are known to be before it.
    fn search(&self, from: usize, value: &PartValue) -> Result<usize, usize>
        requires { AreBefore self.now.members from value.now }
        ensures place { IfOk result (λ place. IsPlace self.now.members place value.now) }
        ensures gap { IfErr result (λ gap. IsGap self.now.members gap value.now) }
    {
        for place in from..self.members.len() {
            match self.members.at(place).order(value) {
                Ordering::Less => {}
                Ordering::Equal => return Ok(place),
                Ordering::Greater => return Err(place),
            }
        }
        Err(self.members.len())
    }

    /// How many members are known to be before a value by the last one: all of them, or none. So values that come in
    /// ascending order are not searched for.
    fn passed(&self, value: &PartValue) -> usize
        requires { IsAscending self.now.members }
        ensures { AreBefore self.now.members result value.now }
    {
        let count = self.members.len();
        if count == 0 {
            return 0;
        }
        match self.members.at(count - 1).order(value) {
            Ordering::Less => count,
            Ordering::Equal | Ordering::Greater => 0,
        }
    }

    /// Puts a value in at a place, before those that stand there and after it.
    fn put_in(&mut self, gap: usize, value: PartValue) -> Result<(), Memory>
        requires { gap ≤ length self.old.members }
        ensures domain { self.new.domain ≡ self.old.domain }
        ensures members { OnOk result (self.new.members ≡ insert self.old.members gap value) }
        ensures err { OnErr result (self.new ≡ self.old) }
    {
        self.members.push(value.copy())?;
        let mut free = self.members.len() - 1;
        while free > gap {
            let member = self.members.at(free - 1).copy();
            self.members.put(free, member);
            free -= 1;
        }
        self.members.put(gap, value);
        Ok(())
    }

    /// Puts a value in the set, and tells whether it is new there.
    pub fn insert(&mut self, value: PartValue) -> Result<bool, Memory>
        requires { IsAscending self.old.members }
        ensures is_new { IfOk result (λ is_new. is_new ≡ not (is_member self.old value)) }
        ensures count { IfOk result (λ is_new. length self.new.members ≡ length self.old.members + (if is_new then 1 else 0)) }
        ensures members { OnOk result ((v : PartValue) → is_member self.new v ≡ (is_member self.old v || same_part v value)) }
        ensures domain { self.new.domain ≡ self.old.domain }
        ensures ascending { IsAscending self.new.members }
        ensures err { OnErr result (self.new ≡ self.old) }
    {
        match self.search(self.passed(&value), &value) {
            Ok(_) => Ok(false),
            Err(gap) => {
                self.put_in(gap, value)?;
                Ok(true)
            }
        }
    }

    /// Puts all values of another set in this one, and tells how many are new here. Where memory is wanted it lies
    /// between what it was and the join.
    pub fn join_into(&mut self, other: &ValueSet) -> Result<u64, Memory>
        requires ascending { IsAscending self.old.members }
        requires ascending_too { IsAscending other.now.members }
        ensures set { OnOk result (IsJoin self.old other.now self.new) }
        ensures count { IfOk result (λ n. length self.new.members ≡ length self.old.members + n) }
        ensures few { IfOk result (λ n. n ≤ length other.now.members) }
        ensures err { OnErr result (IsPartOfJoin self.old other.now self.new) }
    {
        let mut added = 0;
        let mut place = 0;
        for member in other.members.as_slice() {
            match self.search(place, member) {
                Ok(found) => place = found,
                Err(gap) => {
                    self.put_in(gap, member.copy())?;
                    added += 1;
                    place = gap;
                }
            }
        }
        Ok(added)
    }
}

impl PlainEntry {
    ghost use Rattle.std.specs.Prelude.{◌≡◌, ◌<◌, ◌≤◌, ◌+◌, ◌^◌, length, IfOk, OnOk, OnErr};
    ghost use Rattle.abstract_state.specs.{ValueOrder.{IsAscending}, Tables.{set_at, entry_values, HasAscendingSets, IsJoin, IsPartOfJoin, IsSetBySet, IsWrite}};

    /// Joins the values of another set into one of the sets.
    fn join_set(&mut self, place: usize, other: &ValueSet) -> Result<u64, Memory>
        requires known { place < length self.old.sets }
        requires ascending { IsAscending (set_at self.old place).members }
        requires ascending_too { IsAscending other.now.members }
        ensures set { OnOk result (IsWrite IsJoin place other.now self.old self.new) }
        ensures count { IfOk result (λ n. entry_values self.new ≡ entry_values self.old + n) }
        ensures few { IfOk result (λ n. n ≤ length other.now.members) }
        ensures err { OnErr result (IsWrite IsPartOfJoin place other.now self.old self.new) }
    {
        let set = self.sets.at_mut(place);
        let added = set.join_into(other)?;
        Ok(added)
    }

    /// Joins another entry into this one, set by set, and tells how many values are new. Where memory is wanted it lies
    /// between what it was and the join.
    pub fn join_into(&mut self, other: &PlainEntry) -> Result<u64, Memory>
        requires as_many { length self.old.sets ≡ length other.now.sets }
        requires ascending { HasAscendingSets self.old }
        requires ascending_too { HasAscendingSets other.now }
        requires few { entry_values other.now < 2 ^ 64 }
        ensures entry { OnOk result (IsSetBySet IsJoin self.old other.now self.new) }
        ensures count { IfOk result (λ n. entry_values self.new ≡ entry_values self.old + n) }
        ensures err { OnErr result (IsSetBySet IsPartOfJoin self.old other.now self.new) }
    {
        let mut added = 0;
        for place in 0..other.sets.len() {
            added += self.join_set(place, other.sets.at(place))?;
        }
        Ok(added)
    }
}
