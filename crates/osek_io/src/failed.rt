//! A failed call on the outside.

use std::error::Error;
use std::fmt;

/// A call on a shelf or a sink failed. The shelf or sink counts it, unless the file isn't there.
#[derive(Clone, Copy, PartialEq, Eq, Debug)]
pub struct Failed;

impl fmt::Display for Failed {
    fn fmt<W: fmt::Write>(&self, f: &mut fmt::Formatter<W>) -> fmt::Result {
        write!(f, "failed")
    }
}

impl Error for Failed {}
