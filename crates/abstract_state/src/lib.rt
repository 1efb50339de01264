//! Tables of possible states: what the kernel can be like at each point, judged by single steps of single states, and
//! the edges that such a table dictates.
#![tactic(auto)]

pub mod bounds;
mod domains;
mod edge;
pub mod laws;
mod numbering;
mod table;
mod value;

pub use domains::{domain_of, routine_size};
pub use edge::FlowEdge;
pub use numbering::{component_number, components, masks_are_few, own_events};
pub use osek_standard::Point;
pub use table::{PlainEntry, PlainTable, TableRow, ValueSet};
pub use value::{Component, ComponentNo, Domain, LiveVal, PartValue, RoutineVal, SourceVal, Val};
