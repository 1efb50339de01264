//! The machine that replays an image: the kernel, with the form of each site in place of its own rescheduling, and a trap
//! where another status is noted than the known one.
#![tactic(auto)]

mod before;
mod instruction;
mod machine;
mod quiet;
mod trap;
mod trapless;

pub use machine::Machine;
pub use trap::Trap;
