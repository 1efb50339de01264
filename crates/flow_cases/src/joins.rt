//! Joins of sets and entries.
ghost use Rattle.std.specs.Prelude.{◌≡◌, ◌≤◌, length, IfOk};
ghost use Rattle.abstract_state.specs.{ValueOrder.{IsAscending}, Tables.{entry_values, HasAscendingSets}};

use abstract_state::{Domain, LiveVal, PartValue, PlainEntry, Val, ValueSet};
use osek_values::{BlockNo, Held, Mask, Memory, ResNo, Seq};
use state_flow::Lattice;
use std::alloc::Global;
use std::test::*;

/// A task with three blocks and one activation, which can take two resources.
const TASK: Domain = Domain::Task {
    first: BlockNo(0),
    count: 3,
    takable: Mask(3),
    activation: 1,
    internal: false,
};

fn live(block: u16, resource: Option<ResNo>) -> PartValue {
    let mut held = Held::new();
    match resource {
        Some(taken) => held.push(taken),
        None => {}
    }
    PartValue::OfTask(Val::Live(LiveVal {
        block: BlockNo(block),
        further: 0,
        inside: false,
        held,
    }))
}

/// The set of these blocks at which a task is Live.
fn set_of(alloc: Global, blocks: &[u16]) -> Result<ValueSet, Memory>
    ensures { IfOk result (λ set. IsAscending set.members) }
{
    let mut set = ValueSet::new(alloc, TASK);
    for block in blocks {
        set.insert(live(*block, None))?;
    }
    Ok(set)
}

/// How many values are new where a set is joined into another, and how many there are then.
fn joined(alloc: Global, blocks: &[u16], more: &[u16]) -> Result<(u64, usize), Memory> {
    let mut set = set_of(alloc, blocks)?;
    let other = set_of(alloc, more)?;
    let added = set.join_into(&other)?;
    Ok((added, set.members.len()))
}

/// Two sets' blocks, how many of the second's values are new where it is joined into the first, and how many there are then.
const JOINS: [(&[u16], &[u16], u64, usize); 4] = [
    (&[], &[], 0, 0),
    (&[], &[0, 1], 2, 2),
    (&[0, 1], &[1, 0], 0, 2),
    (&[0, 1], &[2, 1], 1, 3),
];

/// The number of the first join that gives other counts.
fn first_wrong_join(alloc: Global) -> Option<usize> {
    for (number, (blocks, more, added, members)) in JOINS.iter().enumerate() {
        if joined(alloc, blocks, more) != Ok((*added, *members)) {
            return Some(number);
        }
    }
    None
}

#[test]
fn a_join_counts_what_is_new(rt: HostRuntime) {
    assert!(rt; first_wrong_join(rt.alloc()) == None);
}

/// Values that differ in a block, a resource, or what the task does there.
fn different() -> [PartValue; 5] {
    [
        live(1, None),
        live(1, Some(ResNo(0))),
        live(2, None),
        PartValue::OfTask(Val::Waiting(BlockNo(1))),
        PartValue::OfTask(Val::Suspended),
    ]
}

/// The set of these values.
fn set_with(alloc: Global, values: &[PartValue]) -> Result<ValueSet, Memory> {
    let mut set = ValueSet::new(alloc, TASK);
    for value in values {
        set.insert(value.copy())?;
    }
    Ok(set)
}

/// How many of these are new in the set of those before them.
fn new_ones(alloc: Global, values: &[PartValue]) -> Result<usize, Memory> {
    let set = set_with(alloc, values)?;
    Ok(set.members.len())
}

/// Whether the first of the different values that the set has is Suspended, and the last Waiting.
fn are_in_order(alloc: Global) -> Result<bool, Memory> {
    let set = set_with(alloc, &different())?;
    let members = set.members.as_slice();
    let suspended = PartValue::OfTask(Val::Suspended);
    let waiting = PartValue::OfTask(Val::Waiting(BlockNo(1)));
    match (members.first(), members.last()) {
        (Some(first), Some(last)) => Ok(first.is(&suspended) && last.is(&waiting)),
        _ => Ok(false),
    }
}

#[test]
fn a_set_is_in_order(rt: HostRuntime) {
    assert!(rt; are_in_order(rt.alloc()) == Ok(true));
}

/// Whether a value is new once where it is put into a set twice.
fn is_new_once(alloc: Global, value: &PartValue) -> bool {
    new_ones(alloc, &[value.copy(), value.copy()]) == Ok(1)
}

/// Whether different values are new each, and each of them is new once.
fn are_new_once(alloc: Global, values: &[PartValue]) -> bool {
    for value in values {
        if !is_new_once(alloc, value) {
            return false;
        }
    }
    new_ones(alloc, values) == Ok(5)
}

#[test]
fn a_set_has_each_value_once(rt: HostRuntime) {
    assert!(rt; are_new_once(rt.alloc(), &different()));
}

/// An entry of a task and an event, each with one value.
fn entry_of(alloc: Global, block: u16, is_set: bool) -> Result<PlainEntry, Memory>
    ensures { IfOk result (λ e. (length e.sets ≡ 2) × (entry_values e ≤ 2) × HasAscendingSets e) }
{
    let mut task = ValueSet::new(alloc, TASK);
    task.insert(live(block, None))?;
    let mut event = ValueSet::new(alloc, Domain::Event);
    event.insert(PartValue::OfEvent(is_set))?;
    let mut sets = Seq::new(alloc);
    sets.push(task)?;
    sets.push(event)?;
    Ok(PlainEntry { sets })
}

/// How many values are new where the entry of another block and event is joined into that of block 0 and the event
/// not set.
fn entries_joined(alloc: Global, block: u16, is_set: bool) -> Result<u64, Memory> {
    let mut entry = entry_of(alloc, 0, false)?;
    let other = entry_of(alloc, block, is_set)?;
    entry.join_into(&other)
}

#[test]
fn entries_join_set_by_set(rt: HostRuntime) {
    assert!(rt; entries_joined(rt.alloc(), 0, false) == Ok(0));
    assert!(rt; entries_joined(rt.alloc(), 1, false) == Ok(1));
    assert!(rt; entries_joined(rt.alloc(), 0, true) == Ok(1));
    assert!(rt; entries_joined(rt.alloc(), 1, true) == Ok(2));
}

/// A join through the bound.
fn join<L: Lattice>(value: &mut L, other: &L) -> Result<u64, Memory>
    requires element { L.is_element value.old }
    requires of_element { L.is_element other.now }
    requires alike { L.alike value.old other.now }
{
    value.join_into(other)
}

/// How many values are new where an entry of nothing is joined into another.
fn nothing_joined(alloc: Global) -> Result<u64, Memory> {
    let mut entry = PlainEntry {
        sets: Seq::new(alloc),
    };
    let other = PlainEntry {
        sets: Seq::new(alloc),
    };
    join(&mut entry, &other)
}

#[test]
fn entries_of_nothing_join(rt: HostRuntime) {
    assert!(rt; nothing_joined(rt.alloc()) == Ok(0));
}
