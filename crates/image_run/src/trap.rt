//! The trap of an image.

use std::error::Error;
use std::fmt;

/// What runs doesn't fit a site: no state was to come there, or not the one that came, or another status is noted than the
/// known one.
#[derive(Clone, Copy, PartialEq, Eq, Debug)]
pub struct Trap;

impl fmt::Display for Trap {
    fn fmt<W: fmt::Write>(&self, f: &mut fmt::Formatter<W>) -> fmt::Result {
        write!(f, "trap")
    }
}

impl Error for Trap {}
