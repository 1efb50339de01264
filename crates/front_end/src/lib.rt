//! From texts to an application: what an OIL text declares, and what a task code text makes of it (ISO 17356-6; task code
//! and the rules are this project's profile), or the first fault of each.
#![tactic(auto)]

mod code_text;
mod error;
mod laws;
mod oil_text;

pub use code_text::read_app;
pub use error::TextError;
pub use laws::one_answer;
pub use oil_text::read_system;
