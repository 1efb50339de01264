//! Why a system and its task code give no application.
use osek_values::{CodeRule, LineFault, Refused};

/// A rule that is violated, and a line of the task code on which it is.
pub type LinkFault = LineFault<CodeRule>;

/// Why a system and its task code give no application: their least fault, or memory ran out.
pub type LinkError = Refused<LinkFault>;
