//! What can't happen in any run of an application, by the least table of possible states, and the line that tells it.
#![tactic(auto)]

mod finding;
mod finding_lines;
mod finding_list;
mod flags;
pub mod laws;
mod noting;
mod reached;
mod reporting;
mod resources;

pub use finding::Finding;
pub use finding_lines::write_finding_line;
pub use reporting::{report, report_with};
