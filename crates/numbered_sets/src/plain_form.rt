//! The plain form of numbered entries.
ghost use Rattle.std.specs.Prelude.{◌≡◌, ◌<◌, ◌≤◌, length, IfOk};
ghost use Rattle.numbered_sets.specs.{Pools.{values_at}, Views.{plain_set as plain_set_of, plain_entry}};

use crate::numbered_entry::NumberedEntry;
use crate::numbered_set::NumberedSet;
use crate::pool::Pool;
use abstract_state::{PlainEntry, ValueSet};
use osek_values::{Memory, Seq};
use std::alloc::Global;

/// The entry of the values that have an entry's numbers in the pool.
pub fn plain(alloc: Global, pool: &Pool, entry: &NumberedEntry) -> Result<PlainEntry, Memory>
    requires { length entry.now.sets ≤ length pool.now }
    ensures { IfOk result (λ plain. plain ≡ plain_entry pool.now entry.now) }
{
    let mut sets = Seq::new(alloc);
    for component in 0..entry.sets.len() {
        let numbers = entry.sets.set(alloc, component)?;
        let set = plain_set(alloc, pool, component, &numbers)?;
        sets.push(set)?;
    }
    Ok(PlainEntry { sets })
}

/// The set of a component's values that have these numbers.
fn plain_set(
    alloc: Global,
    pool: &Pool,
    component: usize,
    numbers: &NumberedSet,
) -> Result<ValueSet, Memory>
    requires { component < length pool.now }
    ensures { IfOk result (λ set. set ≡ plain_set_of (values_at pool.now component) numbers.now) }
{
    let mut set = ValueSet::new(alloc, numbers.domain());
    let count = pool.len(component);
    let mut number = numbers.next(0, count);
    while number < count {
        set.insert(pool.value(component, number))?;
        number = numbers.next(number + 1, count);
    }
    Ok(set)
}
