//! What two accepted texts give to the guarantees of the kernel, as laws. Each stands on a function that does nothing.
#![tactic(auto)]

pub mod access;
pub mod conditions;
