//! The ranks of a component's numbers: the places of their values in ascending order.
ghost use Rattle.std.specs.Prelude.{◌≡◌, IfOk};
ghost use Rattle.table_codec.specs.Ranks.{AreNumberedOnce, AreRanks};

use crate::ascending::NumberedValue;
use numbered_sets::{NumberedSet, NumberedSets};
use osek_values::Memory;
use std::alloc::Global;
use std::marker::Model;

/// A component's values in ascending order, and for each number its rank among them. Contracts see the values.
#[derive(Drop)]
pub(crate) struct RankedValues {
    values: Vec<NumberedValue>,
    ranks: Vec<usize>,
}

impl Model for RankedValues {
    ghost use Rattle.std.specs.Prelude.{List};
    ghost use Rattle.table_codec.specs.{declared.ascending.NumberedValue.{NumberedValue}, Ranks.{AreNumberedOnce, AreRanks}};

    ghost Value = { List NumberedValue };

    ghost view = { λ v. v.values.items };

    ghost invariant = { λ v. AreNumberedOnce v.values.items × AreRanks v.values.items v.ranks.items };
}

/// Ranks of values, and how many there are.
#[derive(Drop)]
pub(crate) struct RankSet {
    pub ranks: NumberedSet,
    pub count: usize,
}

impl RankedValues {
    ghost use Rattle.std.specs.Prelude.{◌≡◌, ◌<◌, length, IfOk};
    ghost use Rattle.numbered_sets.specs.SetLists.{set_of};
    ghost use Rattle.table_codec.specs.Ranks.{AreNumberedOnce, AreRanksIn};

    /// The same values, with the rank of each number.
    pub(crate) fn of(alloc: Global, values: Vec<NumberedValue>) -> Result<RankedValues, Memory>
        requires { AreNumberedOnce values.items }
        ensures { IfOk result (λ ranked. ranked ≡ values.items) }
    {
        let ranks = ranks(alloc, values.as_slice())?;
        Ok(RankedValues { values, ranks })
    }

    /// The values in their order.
    pub(crate) fn as_slice(&self) -> &[NumberedValue]
        ensures { result.now ≡ self.now }
    {
        self.values.as_slice()
    }

    /// The ranks of the numbers in a component's set. It runs over these numbers alone.
    pub(crate) fn ranks_in(
        &self,
        alloc: Global,
        sets: &NumberedSets,
        component: usize,
    ) -> Result<RankSet, Memory>
        requires { component < length sets.now }
        ensures { IfOk result (AreRanksIn (set_of sets.now component) self.now) }
    {
        let mut ranks = NumberedSet::new(alloc, sets.domain(component));
        let mut count = 0;
        let end = self.ranks.len();
        let mut number = sets.next(component, 0, end);
        while number < end {
            ranks.insert(self.ranks[number])?;
            count += 1;
            number = sets.next(component, number + 1, end);
        }
        Ok(RankSet { ranks, count })
    }
}

// the rank of each number
fn ranks(alloc: Global, values: &[NumberedValue]) -> Result<Vec<usize>, Memory>
    requires { AreNumberedOnce values.now }
    ensures { IfOk result (λ ranks. AreRanks values.now ranks.items) }
{
    let mut ranks = Vec::from_elem(alloc, 0, values.len())?;
    for rank in 0..values.len() {
        ranks[values[rank].number] = rank;
    }
    Ok(ranks)
}
