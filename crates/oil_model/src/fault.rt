//! Why a tree gives no system.
use osek_values::{LineFault, OilRule, Refused};

/// A rule that is violated, and a line on which it is.
pub type ModelFault = LineFault<OilRule>;

/// Why a tree gives no system: its least fault, or memory ran out.
pub type ModelError = Refused<ModelFault>;
