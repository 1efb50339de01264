//! Why tokens have no code.
use osek_values::{LineFault, Refused, Rule};

/// A fault of a task code text, and its line.
pub type CodeFault = LineFault<Rule>;

/// Why tokens have no code.
pub type CodeError = Refused<CodeFault>;
