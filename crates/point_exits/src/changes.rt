//! What changes make of the values of a numbered entry that pass conditions.
ghost use Rattle.std.specs.Prelude.{◌≡◌, ◌<◌, ◌≤◌, true, List, length, slice_index_or, IfOk, OnOk, IfSome, IfNone, [], ◌∷◌, ◌++◌};
ghost use Rattle.std.specs.Bool.{OnTrue, OnFalse};
ghost use Rattle.flow_model.specs.{declared.{test.Condition.{Condition}, change.Change.{Change}}, Rules.{Applies, HasNone}};
ghost use Rattle.flow_model.specs.Tests.{value_after as value_after_of};
ghost use Rattle.numbered_sets.specs.NumberedEntries.{number_domains, AreFilled, HasEmptySet};
ghost use Rattle.numbered_sets.specs.{Pools.{Values, IsLonger, values_at, domain_at, IsNumberOf}, Views.{plain_entry, AreNumbersOf}};
ghost use Rattle.point_exits.specs.Applying.{KeepsDomains, MayApply, bare_rule, IsPassedSet, IsPassedSoFar};
ghost use Rattle.point_exits.specs.{Changing.{is_named as is_named_of, AreInOrder, IsAlone, StaysIn, StaysAt, making}, OneProof.{AreInOrder-prop, IsPlaced-prop}};
ghost use Rattle.point_exits.specs.Sifting.{AreSifted, LeavesNone};
ghost use Rattle.abstract_state.specs.{declared.value.{Domain.{Domain}, PartValue.{PartValue}}, Domains.{IsWithin}};

use abstract_state::PartValue;
use flow_model::{Change, Condition, Rule, Test, Update, value_after};
use numbered_sets::{NumberedEntry, NumberedSet, Pool};
use osek_values::{Memory, Seq};
use std::alloc::Global;

/// What a rule makes of the values of an entry that pass, set by set; none where some set has no such value. The pool
/// grows by the values that it lacks, also where memory is wanted.
pub fn apply(
    alloc: Global,
    rule: &Rule,
    pool: &mut Pool,
    entry: &NumberedEntry,
) -> Result<Option<NumberedEntry>, Memory>
    requires numbers { AreNumbersOf pool.old entry.now }
    requires domains { KeepsDomains rule.now (plain_entry pool.old entry.now) }
    ensures pool { IsLonger pool.old pool.new }
    ensures numbers { IfOk result (λ new. IfSome new (AreNumbersOf pool.new)) }
    ensures some { IfOk result (λ new. IfSome new (λ new. Applies rule.now (plain_entry pool.old entry.now) (plain_entry pool.new new))) }
    ensures none { IfOk result (λ new. IfNone new (HasNone rule.now (plain_entry pool.old entry.now))) }
{
    if !entry.is_filled() {
        return Ok(None);
    }
    applied(alloc, &rule.conditions, &rule.changes, pool, entry)
}

/// What changes make of the values of an entry that pass conditions, as a rule with these does. Each set has a value before.
pub fn applied(
    alloc: Global,
    conditions: &Seq<Condition>,
    changes: &Seq<Change>,
    pool: &mut Pool,
    entry: &NumberedEntry,
) -> Result<Option<NumberedEntry>, Memory>
    requires { MayApply (bare_rule conditions.now changes.now) pool.old entry.now }
    ensures pool { IsLonger pool.old pool.new }
    ensures numbers { IfOk result (λ new. IfSome new (AreNumbersOf pool.new)) }
    ensures some { IfOk result (λ new. IfSome new (λ new. Applies (bare_rule conditions.now changes.now) (plain_entry pool.old entry.now) (plain_entry pool.new new))) }
    ensures none { IfOk result (λ new. IfNone new (HasNone (bare_rule conditions.now changes.now) (plain_entry pool.old entry.now))) }
{
    // most rules that take nothing want a value that isn't there: no entry is made for these
    let values = NumberedValues {
        pool: &*pool,
        entry,
    };
    if !values.may_pass(conditions.as_slice()) {
        return Ok(None);
    }
    let mut made = entry.copy(alloc)?;
    if !sift(alloc, conditions.as_slice(), pool, &mut made)? {
        return Ok(None);
    }
    let in_order = are_in_order(changes.as_slice());
    for place in 0..changes.len() {
        let placed = PlacedChange {
            changes,
            place,
            change: changes.at(place),
            in_order,
        };
        placed.make(alloc, pool, &mut made)?;
    }
    Ok(Some(made))
}

// whether each change is of a later component than the one before
fn are_in_order(changes: &[Change]) -> bool
    ensures { OnTrue result (AreInOrder changes.now) }
{
    for place in 1..changes.len() {
        if changes[place].component.index() <= changes[place - 1].component.index() {
            return false;
        }
    }
    true
}

/// The values of a pool that an entry has.
#[derive(Clone, Copy)]
pub struct NumberedValues<'a> {
    pub pool: &'a Pool,
    pub entry: &'a NumberedEntry,
    ghost few: { length entry.now.sets ≤ length pool.now },
}

/// A change with its place in a list, of which it may be known that it is in the order of its components.
#[derive(Clone, Copy)]
struct PlacedChange<'a> {
    changes: &'a Seq<Change>,
    place: usize,
    change: &'a Change,
    in_order: bool,
    ghost known: { place < length changes.now },
    ghost there: { (d : Change) → slice_index_or changes.now place d ≡ change.now } by { IsPlaced-prop changes.now place change.now },
    ghost order: { in_order ≡ true → AreInOrder changes.now } by { AreInOrder-prop (in_order ≡ true) changes.now },
}

impl<'a> PlacedChange<'a> {
    ghost use Rattle.std.specs.Prelude.{◌≡◌, ◌<◌, ◌+◌, length, slice_index_or, false, List, OnOk, IfSome};
    ghost use Rattle.flow_model.specs.declared.{change.Change.{Change}, test.Condition.{Condition}};
    ghost use Rattle.numbered_sets.specs.{declared.numbered_entry.NumberedEntry.{NumberedEntry}, NumberedEntries.{number_domains}, Pools.{Values, IsLonger}, Views.{AreNumbersOf}};
    ghost use Rattle.point_exits.specs.{Applying.{bare_rule}, Changing.{is_named as is_named_of, up_to, IsAlone, StaysWithin, AreAllPassed}};

    // Does to an entry what all changes of one component say, where this is the first that names it. Of changes in order it is
    // the only one.
    fn make(&self, alloc: Global, pool: &mut Pool, entry: &mut NumberedEntry) -> Result<(), Memory>
        requires numbers { AreNumbersOf pool.old entry.old }
        requires domain { StaysWithin self.now.changes.now self.now.place pool.old entry.old }
        ensures pool { IsLonger pool.old pool.new }
        ensures alike { number_domains entry.new ≡ number_domains entry.old }
        ensures passed { OnOk result ((conditions : List Condition) (before : List Values) (was : NumberedEntry) → AreAllPassed (up_to (bare_rule conditions self.now.changes.now) self.now.place) before was (length was.sets) pool.old entry.old.sets →
            AreAllPassed (up_to (bare_rule conditions self.now.changes.now) (self.now.place + 1)) before was (length was.sets) pool.new entry.new.sets) }
    {
        let component = self.change.component.index();
        if component >= entry.sets.len() || self.was_named() {
            return Ok(());
        }
        let alone = self.alone();
        let numbers = entry.sets.set(alloc, component)?;
        let set = updated(alloc, self.changes, alone, pool, component, &numbers)?;
        entry.sets.put(component, &set)?;
        Ok(())
    }

    // whether an earlier change names its component too
    fn was_named(&self) -> bool
        ensures { result ≡ is_named_of self.now.changes.now self.now.place self.now.change.now.component.0 }
    {
        if self.in_order {
            return false;
        }
        let component = self.change.component.index();
        is_named(self.changes.as_slice(), self.place, component)
    }

    // its place, if no later change names its component too
    fn alone(&self) -> Option<usize>
        requires { is_named_of self.now.changes.now self.now.place self.now.change.now.component.0 ≡ false }
        ensures { IfSome result (IsAlone self.now.changes.now self.now.change.now.component.0) }
    {
        if self.in_order {
            return Some(self.place);
        }
        let component = self.change.component.index();
        let count = self.changes.len();
        let later = &self.changes.as_slice()[self.place + 1..count];
        if is_named(later, later.len(), component) {
            return None;
        }
        Some(self.place)
    }
}

// whether a change before a place names a component
fn is_named(changes: &[Change], place: usize, component: usize) -> bool
    requires { place ≤ length changes.now }
    ensures { result ≡ is_named_of changes.now place component }
{
    for earlier in 0..place {
        if changes[earlier].component.index() == component {
            return true;
        }
    }
    false
}

/// Leaves out the numbers of the values that don't pass each condition on their component, as long as each set that a
/// condition names has one left. Tells whether each set has, as it had before. The pool keeps which values pass.
pub fn sift(
    alloc: Global,
    conditions: &[Condition],
    pool: &mut Pool,
    entry: &mut NumberedEntry,
) -> Result<bool, Memory>
    requires known { length entry.old.sets ≤ length pool.old }
    requires filled { AreFilled entry.old }
    ensures same { pool.new ≡ pool.old }
    ensures alike { number_domains entry.new ≡ number_domains entry.old }
    ensures sifted { IfOk result (λ is_filled. OnTrue is_filled (AreSifted pool.old conditions.now entry.old entry.new)) }
    ensures filled { IfOk result (λ is_filled. OnTrue is_filled (AreFilled entry.new)) }
    ensures none { IfOk result (λ is_filled. OnFalse is_filled (LeavesNone pool.old conditions.now entry.old)) }
{
    for condition in conditions {
        if !keep_passing(alloc, condition, pool, entry)? {
            return Ok(false);
        }
    }
    Ok(true)
}

// leaves out the numbers of the values of a condition's component that don't pass it, and tells whether there is one left
fn keep_passing(
    alloc: Global,
    condition: &Condition,
    pool: &mut Pool,
    entry: &mut NumberedEntry,
) -> Result<bool, Memory>
    requires { length entry.old.sets ≤ length pool.old }
    ensures same { pool.new ≡ pool.old }
    ensures alike { number_domains entry.new ≡ number_domains entry.old }
    ensures sifted { OnOk result (AreSifted pool.old (condition.now ∷ []) entry.old entry.new) }
    ensures filled { IfOk result (λ is_left. OnTrue is_left (AreFilled entry.old → AreFilled entry.new)) }
    ensures none { IfOk result (λ is_left. OnFalse is_left (HasEmptySet entry.new)) }
{
    let component = condition.component.index();
    if component >= entry.sets.len() {
        return Ok(true);
    }
    pool.keep_passing(alloc, component, &condition.test, entry)?;
    let is_left = !entry.sets.is_empty(component);
    Ok(is_left)
}

impl<'a> NumberedValues<'a> {
    ghost use Rattle.std.specs.{Prelude.{◌≡◌, ◌<◌, length, ◌∷◌, []}, Bool.{OnFalse}};
    ghost use Rattle.flow_model.specs.declared.test.Condition.{Condition};
    ghost use Rattle.point_exits.specs.Sifting.{LeavesNone};

    /// Whether each value that a condition wants is there.
    pub fn may_pass(&self, conditions: &[Condition]) -> bool
        ensures { OnFalse result (LeavesNone self.now.pool.now conditions.now self.now.entry.now) }
    {
        for condition in conditions {
            if !self.has_wanted(condition) {
                return false;
            }
        }
        true
    }

    // whether the value is there that a condition wants, if it wants one alone, or another than one that it doesn't want
    fn has_wanted(&self, condition: &Condition) -> bool
        ensures { OnFalse result (LeavesNone self.now.pool.now (condition.now ∷ []) self.now.entry.now) }
    {
        let component = condition.component.index();
        if component >= self.entry.sets.len() {
            return true;
        }
        match &condition.test {
            Test::Is(value) => self.pool.has_value(component, value, self.entry),
            Test::IsNot(_) => self.may_pass_alone(&condition.test, component),
            _ => true,
        }
    }

    /// Whether the value of a set that has one alone passes.
    pub fn may_pass_alone(&self, test: &Test, component: usize) -> bool
        requires { component < length self.now.entry.now.sets }
        ensures { OnFalse result ((x : Condition) → x.component.0 ≡ component → x.test ≡ test.now → LeavesNone self.now.pool.now (x ∷ []) self.now.entry.now) }
    {
        let count = self.pool.len(component);
        let first = self.entry.next(component, 0, count);
        if first >= count {
            return false;
        }
        let second = self.entry.next(component, first + 1, count);
        if second < count {
            return true;
        }
        test.passes(&self.pool.value(component, first))
    }
}

/// The numbers of what changes make of the values of a component's set. `alone` is the place of the change that alone says
/// what becomes of the component, where one does.
pub fn updated(
    alloc: Global,
    changes: &Seq<Change>,
    alone: Option<usize>,
    pool: &mut Pool,
    component: usize,
    numbers: &NumberedSet,
) -> Result<NumberedSet, Memory>
    requires alone { IfSome alone (IsAlone changes.now component) }
    requires set { StaysIn pool.old component (value_after_of changes.now component) numbers.now }
    ensures pool { IsLonger pool.old pool.new }
    ensures passed { IfOk result (IsPassedSet (making changes.now) pool.old component numbers.now pool.new) }
{
    if let Some(place) = alone {
        return match &changes.at(place).update {
            Update::Set(to) => replaced(alloc, to, pool, component, numbers),
            update => pool.numbers_after(alloc, component, numbers, update),
        };
    }
    moved(alloc, changes, pool, component, numbers)
}

// the number of a value that changes set, where there is one to be set
fn replaced(
    alloc: Global,
    to: &PartValue,
    pool: &mut Pool,
    component: usize,
    numbers: &NumberedSet,
) -> Result<NumberedSet, Memory>
    requires { StaysIn pool.old component (λ v. to.now) numbers.now }
    ensures pool { IsLonger pool.old pool.new }
    ensures passed { IfOk result (λ set. (changes : List Change) → ((v : PartValue) → value_after_of changes component v ≡ to.now) → IsPassedSet (making changes) pool.old component numbers.now pool.new set) }
{
    let mut new = NumberedSet::new(alloc, numbers.domain());
    if numbers.is_empty() {
        return Ok(new);
    }
    let number = pool.number(component, to.copy())?;
    new.put(number)?;
    Ok(new)
}

// the numbers of what changes make of each value
fn moved(
    alloc: Global,
    changes: &Seq<Change>,
    pool: &mut Pool,
    component: usize,
    numbers: &NumberedSet,
) -> Result<NumberedSet, Memory>
    requires { StaysIn pool.old component (value_after_of changes.now component) numbers.now }
    ensures pool { IsLonger pool.old pool.new }
    ensures passed { IfOk result (IsPassedSet (making changes.now) pool.old component numbers.now pool.new) }
{
    let mut new = NumberedSet::new(alloc, numbers.domain());
    let count = pool.len(component);
    let mut number = numbers.next(0, count);
    while number < count {
        put_updated(changes, pool, component, number, &mut new)?;
        number = numbers.next(number + 1, count);
    }
    Ok(new)
}

// puts in the number of what changes make of the value with a number
fn put_updated(
    changes: &Seq<Change>,
    pool: &mut Pool,
    component: usize,
    number: usize,
    new: &mut NumberedSet,
) -> Result<(), Memory>
    requires { StaysAt pool.old component (value_after_of changes.now component) number }
    ensures pool { IsLonger pool.old pool.new }
    ensures passed { OnOk result ((before : List Values) (d : Domain) (done : List PartValue) (v : PartValue) → IsNumberOf (values_at pool.old component) v number →
        IsPassedSoFar (making changes.now) before component d done pool.old new.old → IsPassedSoFar (making changes.now) before component d (done ++ v ∷ []) pool.new new.new) }
{
    let before = pool.value(component, number);
    let after = value_after(changes.as_slice(), component, &before);
    let made = pool.number(component, after)?;
    new.put(made)?;
    Ok(())
}
