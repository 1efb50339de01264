//! The outside: shelves of files and sinks of bytes, with whole files and whole texts over them.
//!
//! `Shelf` and `Sink` are what the project asks of it. `MemShelf` and `MemSink` meet them in memory,
//! with scripted failures, and tell all that they hold. `FileShelf` and `StdSink` meet them over std's
//! files and streams: the first tells nothing, the second what its stream tells.
#![tactic(auto)]

mod counts;
mod failed;
mod file_shelf;
mod loading;
mod mem_shelf;
mod mem_sink;
mod piece;
mod place;
mod places;
mod put_buffer;
mod shelf;
mod sink;
mod std_sink;
mod storing;
mod stream;

pub use failed::Failed;
pub use file_shelf::FileShelf;
pub use loading::{LoadError, load};
pub use mem_shelf::MemShelf;
pub use mem_sink::MemSink;
pub use piece::Piece;
pub use put_buffer::{PUT_ROOM, PutBuffer};
pub use shelf::Shelf;
pub use sink::Sink;
pub use std_sink::StdSink;
pub use storing::{PutError, put_all, store};
pub use stream::Stream;
