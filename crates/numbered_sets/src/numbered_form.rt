//! The numbered form of entries.
ghost use Rattle.std.specs.Prelude.{◌≡◌, ◌<◌, length, IfOk, All};
ghost use Rattle.abstract_state.specs.Domains.{domains, IsSound};
ghost use Rattle.numbered_sets.specs.{Pools.{domain_at, pool_domains, IsLonger}, Views.{plain_entry, AreNumbersOf, IsNumberedSet}};

use crate::numbered_entry::NumberedEntry;
use crate::numbered_set::NumberedSet;
use crate::pool::Pool;
use abstract_state::{Domain, PlainEntry, ValueSet};
use osek_values::Memory;
use std::alloc::Global;

/// The entry of the numbers that an entry's values have in the pool, to which those that it lacks are added. Where memory
/// is wanted the pool may have more of them.
pub fn numbered(alloc: Global, pool: &mut Pool, entry: &PlainEntry) -> Result<NumberedEntry, Memory>
    requires domains { domains entry.now ≡ pool_domains pool.old }
    requires sound { All IsSound entry.now.sets }
    ensures pool { IsLonger pool.old pool.new }
    ensures numbers { IfOk result (AreNumbersOf pool.new) }
    ensures plain { IfOk result (λ numbered. plain_entry pool.new numbered ≡ entry.now) }
{
    let domains = domains_of(alloc, entry)?;
    let mut numbered = NumberedEntry::new(alloc, domains.as_slice())?;
    for component in 0..entry.sets.len() {
        let set = numbered_set(alloc, pool, component, entry.sets.at(component))?;
        numbered.sets.put(component, &set)?;
    }
    Ok(numbered)
}

// what the values of each component are values of
fn domains_of(alloc: Global, entry: &PlainEntry) -> Result<Vec<Domain>, Memory>
    ensures { IfOk result (λ all. all.items ≡ domains entry.now) }
{
    let mut all = Vec::new(alloc);
    for set in entry.sets.as_slice() {
        all.push(set.domain)?;
    }
    Ok(all)
}

// the numbers that a component's values have
fn numbered_set(
    alloc: Global,
    pool: &mut Pool,
    component: usize,
    set: &ValueSet,
) -> Result<NumberedSet, Memory>
    requires known { component < length pool.old }
    requires domain { set.now.domain ≡ domain_at pool.old component }
    requires sound { IsSound set.now }
    ensures pool { IsLonger pool.old pool.new }
    ensures set { IfOk result (IsNumberedSet pool.new component set.now) }
{
    let mut numbers = NumberedSet::new(alloc, set.domain);
    for value in set.members.as_slice() {
        let number = pool.number_of(component, value)?;
        numbers.insert(number)?;
    }
    Ok(numbers)
}
