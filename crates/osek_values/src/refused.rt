//! Why a reader gives no value.
ghost use Rattle.std.specs.Prelude.{◌≡◌};
ghost use Rattle.osek_values.specs.declared.refused.Refused.TheVariants as refused;

use crate::memory;
use std::alloc::{AllocError, AllocFailed};
use std::fmt::{Debug, Display};
use thiserror::Error;

/// A fault of a text: a rule that is violated, and its line. Lines count from 1; line 0 is the text as a whole.
#[derive(Clone, Copy, Debug, PartialEq, Eq, Error)]
#[error_bound(R: Debug)]
#[error("line {line}: {rule:?}")]
pub struct LineFault<R> {
    pub line: u32,
    pub rule: R,
}

/// Why a reader gives no value: its input has this first fault, or memory ran out.
#[derive(Clone, Copy, Debug, PartialEq, Eq, Error)]
#[error_bound(F: Display)]
pub enum Refused<F> {
    /// The first fault of the input.
    #[error("{0}")]
    Fault(F),
    /// A growth was refused.
    #[error("memory")]
    Memory,
}

impl<F> From<AllocError> for Refused<F> {
    ghost from_gives = { λ _ e. e ≡ refused.Memory };

    fn from(_e: AllocError) -> Refused<F> {
        Refused::Memory
    }
}

impl<F, T: Drop> From<AllocFailed<T>> for Refused<F> {
    ghost from_gives = { λ _ e. e ≡ refused.Memory };

    fn from(_e: AllocFailed<T>) -> Refused<F> {
        Refused::Memory
    }
}

impl<F> From<memory::Memory> for Refused<F> {
    ghost from_gives = { λ _ e. e ≡ refused.Memory };

    fn from(_e: memory::Memory) -> Refused<F> {
        Refused::Memory
    }
}
