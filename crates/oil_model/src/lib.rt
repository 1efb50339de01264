//! The system that an OIL tree declares, or its least fault (ISO 17356-6, standard objects; the rules O1 to O18 are this
//! project's profile).
#![tactic(auto)]

mod alarms;
mod attribute_rules;
mod domain;
mod events;
mod fault;
mod hooks;
mod internals;
mod isr_resources;
mod isrs;
mod kind_rules;
mod laws;
mod least_fault;
mod limits;
mod lines;
mod lists;
mod look_up;
mod masks;
mod modes;
mod name_set;
mod names;
mod object_rules;
mod objects;
mod references;
mod resolver;
mod resources;
mod table;
mod tasks;
mod times;

pub use fault::{ModelError, ModelFault};
pub use laws::auto_chooses_lowest_free_bit;
pub use lines::{line_if, sooner};
pub use resolver::{one_answer, resolve};
