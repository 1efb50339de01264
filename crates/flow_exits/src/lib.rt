//! What a step from a point may end in, by values: what the scheduler decides after an effect, and which routines may begin.
#![tactic(auto)]

mod beginning;
mod claim;
mod exit;
pub mod laws;
mod priority;

pub use beginning::{arrivals, arrivals_over};
pub use claim::{Claim, is_running, may_tie};
pub use exit::Exit;
pub use priority::{Candidate, as_candidate};
