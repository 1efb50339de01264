//! The system that an OIL file declares (ISO 17356-6).
#![tactic(auto)]

mod objects;
mod system;

pub use objects::{Action, Alarm, Resource, Schedule};
pub use system::{CounterObject, EventObject, IsrObject, System, TaskObject};
