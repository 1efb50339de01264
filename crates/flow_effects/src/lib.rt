//! The cases of the effect of an instruction: which values of the components it takes, and what it makes of them.
#![tactic(auto)]

mod conditions;
mod effects;
mod instruction;
mod known_waits;
mod moves;
mod resources;
mod returns;
mod routine_resources;
mod task_ends;
mod waiting;

pub use effects::{Alternatives, Effects};
pub use instruction::effect_cases;
pub use known_waits::{KnownWait, KnownWaits};
pub use waiting::{Wait, WaitConditions};
