//! The least table of an application: lattices, the points that are reached, and the rounds until no entry grows.
#![tactic(auto)]

mod agenda;
mod cells;
mod counts;
mod entry;
mod evaluation;
mod joining;
mod kept;
mod lattice;
mod least_table;
mod numbered;
mod numbered_cells;
mod parts;
mod places;

pub use counts::values;
pub use lattice::Lattice;
pub use least_table::{Explored, explore, solve};
