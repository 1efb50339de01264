//! A system, its code and its events, made from a number: input for trials that anyone can make again.
#![tactic(auto)]

mod code;
mod events;
mod generated;
pub mod laws;
mod oil;
mod writer;

pub use generated::{GenerateError, Generated, generate};
