//! A value in memory of its own.
ghost use Rattle.std.specs.Prelude.{◌≡◌, IfOk};

use osek_values::Memory;
use std::alloc::Global;
use std::marker::Model;

/// A value in memory of its own, which contracts see as the value. Where it stands among others it is moved in no time.
#[derive(Drop)]
pub struct Kept<T> {
    value: Box<T>,
}

impl<T> Model for Kept<T> {
    ghost Value = { T };

    ghost view = { λ k. k.value.value };
}

impl<T: Drop> Kept<T> {
    /// The value, in memory of its own.
    pub fn new(alloc: Global, value: T) -> Result<Kept<T>, Memory>
        ensures { IfOk result (λ k. k ≡ value) }
    {
        let value = Box::new(alloc, value)?;
        Ok(Kept { value })
    }
}

impl<T> Kept<T> {
    ghost use Rattle.std.specs.{Prelude.{◌≡◌}, Borrow.{Lends, sem}};
    ghost use Rattle.state_flow.specs.contracts.kept.Kept.{the_row};

    /// The value.
    pub fn get(&self) -> &T
        ensures { result.now ≡ self.now }
    {
        &self.value
    }

    /// The value, to be changed there.
    pub fn get_mut(&mut self) -> &mut T
        ensures* writes_back { sem 𝓛 (Lends (the_row T.row) T.row self.entry result (λ x. x)) }
        ensures value { self.old ≡ result.now }
    {
        &mut self.value
    }

    /// The value, out of its memory.
    pub fn into_value(self) -> T
        ensures { result ≡ self }
    {
        let Kept { value } = self;
        Box::into_inner(value)
    }
}
