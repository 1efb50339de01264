//! The words of the command line, as they are given and as clap reads them, and the numbers among them.
#![tactic(auto)]

mod command;
mod forms;
mod given;
mod numerals;

pub use command::parse_words;
pub use forms::has_form;
pub use given::words_given;
pub use numerals::{seed_of, tasks_of};
