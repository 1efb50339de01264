//! The fields of an image's bytes, read in order up to the last block, with the first fault that is met.
#![tactic(auto)]

mod alarms;
mod block_reading;
mod fault;
mod header_reading;
mod named;
mod numbers;
mod operands;
mod parts;
mod placing;
mod ranges;
mod reader;
mod sites;
mod table_reading;
mod ways;

pub use block_reading::blocks;
pub use fault::{Fault, ImageRule, ReadError};
pub use header_reading::{header, magic};
pub use parts::{Header, Tables};
pub use reader::Reader;
pub use table_reading::tables;
