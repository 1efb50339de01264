//! Small values that every crate speaks of: numbers of objects, names, event masks, hooks, locks, statuses, notes.
#![tactic(auto)]

mod event;
mod held;
mod hooks;
pub mod limits;
mod line;
mod lock;
mod mask;
mod memory;
mod name;
mod notes;
mod numbers;
mod refusal;
mod refused;
mod seq;
mod status;
mod steps;

pub use event::Event;
pub use held::Held;
pub use hooks::HookSet;
pub use line::Line;
pub use lock::Lock;
pub use mask::Mask;
pub use memory::Memory;
pub use name::{Name, copied, is_name};
pub use notes::{Notes, Value};
pub use numbers::{AlarmNo, BlockNo, CounterNo, EventNo, IsrNo, ModeNo, ResNo, SourceNo, TaskNo};
pub use refusal::{CodeRule, LexRule, OilRule, Refusal, Rule, SyntaxRule, TextFile};
pub use refused::{LineFault, Refused};
pub use seq::Seq;
pub use status::{Ask, Letter, Status};
pub use steps::Steps;
