//! Why a text has no tokens.
use osek_values::{LexRule, LineFault};

/// A fault of a text, and its line. The lines of a text count from 1; line 0 is the text as a whole.
pub type LexFault = LineFault<LexRule>;
