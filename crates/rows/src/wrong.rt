//! Why a row doesn't hold.
use osek_values::Memory;
use std::alloc::{AllocError, AllocFailed};

/// What ends a row before its end.
#[derive(Clone, Copy, PartialEq, Eq)]
pub enum Wrong {
    /// The line of this number, from 1, isn't understood, or isn't so.
    Line(u64),
    Memory,
}

impl From<AllocError> for Wrong {
    fn from(_e: AllocError) -> Wrong {
        Wrong::Memory
    }
}

impl<T: Drop> From<AllocFailed<T>> for Wrong {
    fn from(_e: AllocFailed<T>) -> Wrong {
        Wrong::Memory
    }
}

impl From<Memory> for Wrong {
    fn from(_e: Memory) -> Wrong {
        Wrong::Memory
    }
}

/// What an option holds; else the line of this number is wrong.
pub fn needed<T: Drop>(found: Option<T>, line: u64) -> Result<T, Wrong> {
    match found {
        Some(value) => Ok(value),
        None => Err(Wrong::Line(line)),
    }
}
