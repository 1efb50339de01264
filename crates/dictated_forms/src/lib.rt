//! The forms and the known statuses that a table of possible states dictates, and what they make of an image.
#![tactic(auto)]

pub mod laws;
