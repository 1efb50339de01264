//! The edges of the global control-flow graph, as a table of possible states dictates them.
#![tactic(auto)]

mod graph;
mod targets;

pub use graph::{edges, edges_with};
