//! The lines that tell of an application's analysis and of an image: call sites with their forms, edges and counts.
#![tactic(auto)]

mod form_counts;
mod gen_line;
pub mod laws;
mod lines;
mod names;

pub use form_counts::{SiteCounts, site_counts};
pub use gen_line::{AnalysisCounts, TextSize, analysis_counts, write_gen_line};
pub use lines::{write_counts_line, write_edge_line, write_info_line, write_site_line};
