//! The services on events and alarms, and what the tick routine of a counter does (ISO 17356-3, events; counters and
//! alarms).
#![tactic(auto)]

mod alarms;
mod events;

pub use alarms::{cancel_alarm, count_up, expire, get_alarm, set_abs_alarm, set_rel_alarm};
pub use events::{clear_event, get_event, set_event, wait_event};
