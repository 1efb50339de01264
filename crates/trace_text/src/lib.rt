//! Event lines in, trace lines out.
#![tactic(auto)]

mod event_words;
mod fault;
mod feed;
mod labels;
pub mod laws;
mod line_parts;
mod point_words;
mod points;
mod shown;
mod trace_line;
mod trace_notes;

pub use event_words::read_event;
pub use fault::{EventFault, FaultyLine, FaultyPoint, PointFault};
pub use feed::{FEED_ROOM, Feed, FeedStep};
pub use line_parts::LineParts;
pub use point_words::read_point;
pub use points::{MAX_BLOCK, MAX_POINT, put_block, put_point, put_task};
pub use shown::Unshown;
pub use trace_line::{put_line, write_line};
pub use trace_notes::status_name;
