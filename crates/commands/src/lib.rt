//! The commands of osekfit: the words, the order in which inputs are read and judged, the statuses, and what is written.
#![tactic(auto)]

mod building;
mod certifying;
mod checking;
mod compiling;
mod fitting;
mod generating;
mod informing;
mod kept_text;
mod laws;
mod names;
mod printing;
mod ranges;
mod reporting;
mod showing;
mod telling;
mod top;
mod tracing;
mod watching;
mod words;

pub use building::build;
pub use certifying::certify;
pub use checking::check;
pub use generating::generate_and_run;
pub use informing::info;
pub use laws::{
    one_answer, one_image_is_built, one_line_is_generated, one_report_is_printed,
    one_table_is_written, one_text_is_shown, what_is_built_replays, what_is_certified_is_checked,
    what_is_checked_is_a_kernel_image, what_is_recorded_is_quiet, what_is_reported_never_comes,
    what_is_upgraded_replays,
};
pub use reporting::report;
pub use showing::{Dictated, show};
pub use top::osekfit;
pub use tracing::{Texts, trace};
pub use watching::watch;
pub use words::{Command, command_from};
