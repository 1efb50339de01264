//! Pieces of text, put into a buffer one behind the other: names and numbers.
#![tactic(auto)]

mod count;
mod label;
mod pieces;

pub use count::{Count, put_count};
pub use label::{LABEL_ROOM, Label, MAX_LABEL, put_label};
pub use pieces::{
    MAX_DECIMAL, MAX_HEXADECIMAL, put, put_byte, put_decimal, put_hexadecimal, put_name, put_prefix,
};
