//! A monitor: records of points against the table of the application that they are of.
#![tactic(auto)]

mod alarm;
mod hints;
pub mod laws;
mod places;
mod watch;

pub use alarm::Alarm;
pub use trace_text::{PointFault, read_point};
pub use watch::Watch;
