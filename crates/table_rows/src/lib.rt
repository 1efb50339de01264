//! The rows of a table: a fold over them by the exits of each. What is in the order of the points is found by halving.
#![tactic(auto)]

mod bare;
mod fold;
mod order;
mod row_exits;

pub use bare::{BareExit, PointExits, bare_exits};
pub use fold::{RowFold, fold_rows};
pub use order::{Keyed, place_of};
pub use row_exits::row_groups;
