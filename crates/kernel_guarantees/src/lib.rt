//! What ISO 17356-3 guarantees, as laws over all runs of the kernel. Each stands on a function that does nothing.
#![tactic(auto)]

pub mod activations;
pub mod alarms;
pub mod definitions;
pub mod errors;
pub mod events;
pub mod guarantees;
pub mod hooks;
pub mod interrupts;
pub mod inversion;
pub mod reached;
pub mod resources;
pub mod scheduling;
pub mod shutdown;
pub mod start;
pub mod tasks;
pub mod values;
