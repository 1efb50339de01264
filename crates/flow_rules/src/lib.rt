//! The rules of a point: the steps from a point as conditions on values and changes of them. No command goes this way: the least
//! table is found by the exits of `point_exits`, which these rules show in other words. What one rule makes of an entry is said
//! there, since routines begin by rules alone.
#![tactic(auto)]

mod allowing;
mod assembly;
mod barring;
mod ruling;
mod settling;

pub use point_exits::apply;
pub use ruling::rules;
