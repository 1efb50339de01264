//! Numbered entries as a lattice: their sets contained in one another, ranked by the count of their numbers.

use crate::lattice::Lattice;
use numbered_sets::NumberedEntry;
use osek_values::Memory;
use std::alloc::Global;

impl Lattice for NumberedEntry {
    ghost use Rattle.std.specs.Prelude.{◌≡◌};
    ghost use Rattle.numbered_sets.specs.NumberedEntries.{number_domains, entry_numbers, numbers_height, AreSoundNumbers, IsBelowNumbers};
    ghost use Rattle.state_flow.specs.NumberOrder.{below_itself, below_onward, most_numbers, heights_agree, numbers_grow, growth_shows, equal_entries};

    ghost is_element = { AreSoundNumbers };

    ghost alike = { λ a b. number_domains a ≡ number_domains b };

    ghost is_below = { IsBelowNumbers };

    ghost rank = { entry_numbers };

    ghost height = { numbers_height };

    fn copy(&self, alloc: Global) -> Result<Self, Memory> {
        NumberedEntry::copy(self, alloc)
    }

    fn join_into(&mut self, other: &Self) -> Result<u64, Memory> {
        NumberedEntry::join_into(self, other)
    }

    ghost reflexive = { below_itself };

    ghost transitive = { below_onward };

    ghost bounded = { most_numbers };

    ghost same_height = { heights_agree };

    ghost rank_grows = { numbers_grow };

    ghost growth = { growth_shows };

    ghost antisymmetric = { equal_entries };
}
