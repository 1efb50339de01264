//! The form, and what is known of the status, that the least table of possible states dictates at each site of an application.
#![tactic(auto)]

mod tailoring;

pub use tailoring::{tailor, tailor_with};
