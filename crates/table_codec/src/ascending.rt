//! The values of a component in their order.
ghost use Rattle.std.specs.Prelude.{◌≡◌, ◌<◌, length, IfOk};
ghost use Rattle.numbered_sets.specs.Pools.{values_at};
ghost use Rattle.table_codec.specs.Ascending.{AreInOrder, numbered_from};

use crate::ranks::RankedValues;
use abstract_state::PartValue;
use numbered_sets::Pool;
use osek_values::Memory;
use std::alloc::Global;

/// A value of a component, and its number.
#[derive(Drop)]
pub(crate) struct NumberedValue {
    pub value: PartValue,
    pub number: usize,
}

/// The values that a component was seen with, in ascending order: whichever numbers are asked for, their values come in it.
pub(crate) fn ascending(
    alloc: Global,
    pool: &Pool,
    component: usize,
) -> Result<RankedValues, Memory>
    requires { component < length pool.now }
    ensures { IfOk result (AreInOrder (values_at pool.now component)) }
{
    pool.are_values();
    let mut all = numbered_values(alloc, pool, component)?;
    all.sort_by(|one, other| one.value.order(&other.value))?;
    RankedValues::of(alloc, all)
}

// the same in the order of their numbers
fn numbered_values(
    alloc: Global,
    pool: &Pool,
    component: usize,
) -> Result<Vec<NumberedValue>, Memory>
    requires { component < length pool.now }
    ensures { IfOk result (λ all. all.items ≡ numbered_from 0 (values_at pool.now component)) }
{
    let mut all = Vec::new(alloc);
    for number in 0..pool.len(component) {
        let value = pool.value(component, number).copy();
        all.push(NumberedValue { value, number })?;
    }
    Ok(all)
}
