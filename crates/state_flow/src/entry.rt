//! Entries as a lattice: their sets contained in one another, ranked by the number of their values.

ghost use Rattle.std.specs.Prelude.{◌≡◌, IfOk};

use crate::lattice::Lattice;
use abstract_state::{PlainEntry, ValueSet};
use osek_values::{Memory, Seq};
use std::alloc::Global;

impl Lattice for PlainEntry {
    ghost use Rattle.std.specs.Prelude.{◌≡◌};
    ghost use Rattle.abstract_state.specs.{Tables.{entry_values}, Domains.{domains, entry_height, IsSoundEntry, IsBelow}};
    ghost use Rattle.state_flow.specs.EntryOrder.{below_itself, below_onward, most_values, heights_agree, values_grow, growth_shows, equal_entries};

    ghost is_element = { IsSoundEntry };

    ghost alike = { λ a b. domains a ≡ domains b };

    ghost is_below = { IsBelow };

    ghost rank = { entry_values };

    ghost height = { entry_height };

    fn copy(&self, alloc: Global) -> Result<Self, Memory> {
        let mut sets = Seq::of(Vec::with_capacity(alloc, self.sets.len())?);
        for set in self.sets.as_slice() {
            sets.push(copy_of(alloc, set)?)?;
        }
        Ok(PlainEntry { sets })
    }

    fn join_into(&mut self, other: &Self) -> Result<u64, Memory> {
        PlainEntry::join_into(self, other)
    }

    ghost reflexive = { below_itself };

    ghost transitive = { below_onward };

    ghost bounded = { most_values };

    ghost same_height = { heights_agree };

    ghost rank_grows = { values_grow };

    ghost growth = { growth_shows };

    ghost antisymmetric = { equal_entries };
}

// another set of the same values
fn copy_of(alloc: Global, set: &ValueSet) -> Result<ValueSet, Memory>
    ensures { IfOk result (λ copy. copy ≡ set.now) }
{
    let mut members = Seq::of(Vec::with_capacity(alloc, set.members.len())?);
    for member in set.members.as_slice() {
        members.push(member.copy())?;
    }
    Ok(ValueSet {
        domain: set.domain,
        members,
    })
}
