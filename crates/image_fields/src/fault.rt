//! Why a field is refused.
ghost use Rattle.std.specs.Prelude.{◌≡◌};
ghost use Rattle.image_fields.specs.Rules.{image_rule_name};

use osek_values::Refused;

/// The rules of the image format.
#[derive(Clone, Copy, PartialEq, Eq, Debug)]
pub enum ImageRule {
    /// The bytes end early.
    I1,
    /// No magic, or another version.
    I2,
    /// A field is out of its range.
    I3,
    /// A name is malformed, or stands a second time in its table.
    I4,
    /// A cross reference is wrong.
    I5,
    /// Bytes stand after the end.
    I6,
    /// The file is over its limit. It is answered by whoever loads the file.
    I7,
}

impl ImageRule {
    /// The rule as it is printed.
    pub fn name(self) -> &'static [u8]
        ensures { result.now ≡ image_rule_name self }
    {
        match self {
            ImageRule::I1 => b"I1",
            ImageRule::I2 => b"I2",
            ImageRule::I3 => b"I3",
            ImageRule::I4 => b"I4",
            ImageRule::I5 => b"I5",
            ImageRule::I6 => b"I6",
            ImageRule::I7 => b"I7",
        }
    }
}

/// A fault as a reader finds it: the rule, and how many bytes are left where the field begins.
#[derive(Clone, Copy)]
pub struct Fault {
    pub rule: ImageRule,
    pub left: usize,
}

/// Why a field was not read.
pub type ReadError = Refused<Fault>;
