//! The exits of a point, by number: the numbers of the values that the components have where a step from there ends.
#![tactic(auto)]

mod after_effect;
mod alternatives;
mod arrivals;
mod bare_rule;
mod changes;
mod contest;
mod decided;
mod effects;
mod exits;
mod group;
mod insides;
mod levels;
mod numbering;
mod settled;
mod start;
mod task_levels;

pub use after_effect::AfterEffect;
pub use changes::apply;
pub use exits::exit_groups;
pub use group::{Ends, ExitGroup, NumberEnd};
pub use numbering::Numbering;
pub use settled::has_it_after;
pub use start::{row_of, start_row};
