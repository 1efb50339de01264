//! The application of a system and its task code: the blocks of the code, numbered in the order of the text, each with
//! what follows it (this project's profile).
#![tactic(auto)]

mod calls;
mod fault;
mod kinds;
mod laws;
mod layout;
mod least_fault;
mod linker;
mod locks;
mod names;
mod owners;
mod pairs;
mod sizes;
mod tables;
mod ticks;
mod walk;

pub use fault::{LinkError, LinkFault};
pub use laws::{blocks_follow, locks_follow};
pub use linker::{link, one_answer};
