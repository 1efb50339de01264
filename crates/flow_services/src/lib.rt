//! The cases of the effects of services: of each service of ISO 17356-3 after which the caller goes on, and of the alarms
//! that a tick routine looks at.
#![tactic(auto)]

mod alarms;
mod events;
mod occasion;
mod services;
mod tasks;

pub use occasion::one;
pub use services::{is_service, service_cases};
pub use tasks::{add_activating, add_activating_more};
