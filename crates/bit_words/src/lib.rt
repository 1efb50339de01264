//! Words of 64 bits as sets of numbers: the bits of a list of words, of words of which two stand apart, and of words for
//! each of several components.
#![tactic(auto)]

pub mod bit_cursor;
pub mod further;
pub mod shared_words;
pub mod split_words;
pub mod words;

pub use bit_cursor::BitCursor;
pub use shared_words::SharedWords;
