//! The bytes of tables.
#![tactic(auto)]

mod ascending;
mod entries;
mod fault;
mod laws;
mod listed_shape;
mod points;
mod ranks;
mod reader;
mod reading;
mod sets;
mod shape;
mod source_shape;
mod source_values;
mod values;
mod writing;

pub use fault::{TableError, TableFault, TableRule, WriteFault};
pub use laws::{one_answer, one_fault, one_spelling, short_is_spellable, some_answer};
pub use numbered_sets::Table;
pub use reading::read_table;
pub use writing::write_table;
