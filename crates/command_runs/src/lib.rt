//! What a command does with the files that it is handed: inputs within their limits, images that run under an event text or
//! are upgraded, and texts that are told piece by piece.
#![tactic(auto)]

mod inputs;
mod playing;
mod record_line;
mod replaying;
mod running;
mod showing;
mod stop;
mod tell;
mod trace_line;
mod upgrading;

pub use inputs::{judge_length, load_input, read_on};
pub use replaying::{load_image, replay};
pub use running::{Run, line_room, prefix, run_image};
pub use showing::Showing;
pub use stop::{CheckRule, Denial, Input, Output, Stop};
pub use tell::{put_three, put_two, tell_fault};
pub use upgrading::upgrade;
