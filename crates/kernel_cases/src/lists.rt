//! Lists that the states of the tests are made of.
ghost use Rattle.std.specs.Prelude.{◌≡◌, [], ◌∷◌, IfOk};

use osek_values::{Memory, Seq};
use std::alloc::Global;

/// A list of one value.
pub fn one<T: Drop>(alloc: Global, value: T) -> Result<Seq<T>, Memory>
    ensures { IfOk result (λ x. x ≡ value ∷ []) }
{
    let mut list = Seq::new(alloc);
    list.push(value)?;
    Ok(list)
}

/// A list of the values of a slice.
pub fn listed<T: Copy>(alloc: Global, values: &[T]) -> Result<Seq<T>, Memory>
    ensures { IfOk result (λ x. x ≡ values.now) }
{
    Ok(Seq::of(Vec::from_slice(alloc, values)?))
}
