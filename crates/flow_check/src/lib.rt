//! Whether a table of possible states is inductive and an image fits it, without solving; and what is found of the
//! instructions at the sites, over the rows of a table.
#![tactic(auto)]

mod checking;
mod fitting;
mod flow;
mod found;
pub mod laws;
mod outcomes;
mod rows;
mod starting;
mod staying;
mod verdict;

pub use checking::check;
pub use found::{Findings, Found};
pub use outcomes::findings;
pub use verdict::Verdict;
