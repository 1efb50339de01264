//! Why a text gives nothing.
use osek_values::{Refusal, Refused};

/// Why a text gives nothing.
pub type TextError = Refused<Refusal>;
