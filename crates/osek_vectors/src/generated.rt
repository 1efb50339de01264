//! The texts that a seed and a number of tasks give.
ghost use Rattle.std.specs.Prelude.{◌≡◌, ◌<◌, ◌↔◌, ◌⊎◌, IfOk, IsErrOf};
ghost use Rattle.osek_values.specs.declared.limits.TheConstants.{MAX_TASKS};
ghost use Rattle.osek_vectors.specs.declared.generated.GenerateError.TheVariants as generate_error;
ghost use Rattle.osek_vectors.specs.GeneratedTexts.{generated_texts};

use crate::code::put_code;
use crate::events::put_events;
use crate::oil::put_oil;
use crate::writer::Writer;
use osek_values::limits::MAX_TASKS;
use osek_values::{Memory, Seq};
use std::alloc::Global;
use std::error::Error;
use std::fmt;

/// A system as texts, with a run for it. Each line ends with LF.
#[derive(Drop)]
pub struct Generated {
    /// The OIL text.
    pub oil: Seq<u8>,
    /// The task code.
    pub code: Seq<u8>,
    /// The event text.
    pub events: Seq<u8>,
}

/// Why there are no texts.
#[derive(Clone, Copy, Debug)]
pub enum GenerateError {
    /// The number of tasks is not in 1 to `MAX_TASKS`.
    Tasks,
    /// A growth was refused.
    Memory,
}

impl fmt::Display for GenerateError {
    fn fmt<W: fmt::Write>(&self, f: &mut fmt::Formatter<W>) -> fmt::Result {
        match self {
            GenerateError::Tasks => write!(f, "tasks"),
            GenerateError::Memory => write!(f, "memory"),
        }
    }
}

impl Error for GenerateError {}

impl From<Memory> for GenerateError {
    ghost from_gives = { λ _ e. e ≡ generate_error.Memory };

    fn from(_e: Memory) -> GenerateError {
        GenerateError::Memory
    }
}

/// The OIL text, the task code and the event text of a seed for a number of tasks. The same numbers give the same texts.
pub fn generate(alloc: Global, seed: u64, tasks: u32) -> Result<Generated, GenerateError>
    ensures texts { IfOk result (λ g. g ≡ generated_texts seed tasks) }
    ensures refused { IsErrOf result GenerateError.Tasks ↔ ((tasks < 1) ⊎ (MAX_TASKS < tasks)) }
{
    if tasks < 1 || tasks as usize > MAX_TASKS {
        return Err(GenerateError::Tasks);
    }
    let mut writer = Writer::new(alloc, seed);
    put_oil(&mut writer, tasks)?;
    let oil = writer.take_text(alloc);
    put_code(&mut writer, tasks)?;
    let code = writer.take_text(alloc);
    put_events(&mut writer, tasks)?;
    let events = writer.take_text(alloc);
    Ok(Generated { oil, code, events })
}
