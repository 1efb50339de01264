//! Why bytes are no table, and why a table has none.
ghost use Rattle.std.specs.Prelude.{◌≡◌};
ghost use Rattle.osek_values.specs.declared.refused.Refused.TheVariants as refused;
ghost use Rattle.table_codec.specs.declared.fault.WriteFault.TheVariants as write;
ghost use Rattle.table_codec.specs.Rules.{table_rule_name};

use osek_values::{Memory, Refused};
use std::alloc::{AllocError, AllocFailed};
use thiserror::Error;

/// The rules of the table format.
#[derive(Clone, Copy, PartialEq, Eq, Debug)]
pub enum TableRule {
    /// The bytes end early.
    K1,
    /// No magic, or another version.
    K2,
    /// A field is out of its range, or no value that can stand there begins so.
    K3,
    /// A value isn't above the one before it.
    K4,
    /// Bytes stand after the end.
    K5,
    /// The file is over its limit. It is answered by whoever loads the file.
    K6,
}

impl TableRule {
    /// The rule as it is printed.
    pub fn name(self) -> &'static [u8]
        ensures { result.now ≡ table_rule_name self }
    {
        match self {
            TableRule::K1 => b"K1",
            TableRule::K2 => b"K2",
            TableRule::K3 => b"K3",
            TableRule::K4 => b"K4",
            TableRule::K5 => b"K5",
            TableRule::K6 => b"K6",
        }
    }
}

/// The first fault of the bytes: the rule, and the offset of the field's first byte; of K4 that of the value's.
#[derive(Clone, Copy, PartialEq, Eq, Debug, Error)]
#[error("{offset}: {rule:?}")]
pub struct TableFault {
    pub rule: TableRule,
    pub offset: usize,
}

/// Why no table was read.
pub type TableError = Refused<TableFault>;

/// A fault as a reader finds it: the rule, and how many bytes are left where the field begins.
#[derive(Clone, Copy)]
pub(crate) struct Fault {
    pub rule: TableRule,
    pub left: usize,
}

/// Why a part was not read.
pub(crate) type ReadError = Refused<Fault>;

impl From<Fault> for Refused<Fault> {
    ghost from_gives = { λ fault e. e ≡ refused.Fault fault };

    fn from(fault: Fault) -> Refused<Fault> {
        Refused::Fault(fault)
    }
}

/// Why no bytes were written.
#[derive(Clone, Copy, Debug, Error)]
pub enum WriteFault {
    /// The bytes would be over the limit.
    #[error("too long")]
    TooLong,
    /// A growth was refused.
    #[error("memory")]
    Memory,
}

impl From<Memory> for WriteFault {
    ghost from_gives = { λ _ e. e ≡ write.Memory };

    fn from(_e: Memory) -> WriteFault {
        WriteFault::Memory
    }
}

impl From<AllocError> for WriteFault {
    ghost from_gives = { λ _ e. e ≡ write.Memory };

    fn from(_e: AllocError) -> WriteFault {
        WriteFault::Memory
    }
}

impl<T: Drop> From<AllocFailed<T>> for WriteFault {
    ghost from_gives = { λ _ e. e ≡ write.Memory };

    fn from(_e: AllocFailed<T>) -> WriteFault {
        WriteFault::Memory
    }
}
