//! The numbers of a component's values by the blocks where they stand.
#![tactic(auto)]

mod sets;

pub use sets::{BlockSet, BlockSets};
