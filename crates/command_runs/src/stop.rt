//! Why a command stops before it is done.
ghost use Rattle.std.specs.Prelude.{◌≡◌};
ghost use Rattle.command_runs.specs.CheckRules.{check_rule_name};

use image_codec::ImageFault;
use osek_values::{Refusal, Seq};
use table_codec::TableFault;
use trace_text::{FaultyLine, FaultyPoint};

/// A file that a command reads.
#[derive(Clone, Copy)]
pub enum Input {
    Oil,
    Code,
    Image,
    Table,
    Events,
    Record,
}

/// A file that a command writes.
#[derive(Clone, Copy)]
pub enum Output {
    /// The image that `build` and `certify` make.
    Image,
    /// The table that `certify` makes.
    Table,
    /// The image that `upgrade` makes.
    Upgraded,
}

/// The rules by which a table shows that an image is the kernel.
#[derive(Clone, Copy)]
pub enum CheckRule {
    /// The start in each mode is in the table.
    N1,
    /// No step leaves the table.
    N2,
    /// The form of each site fits.
    N3,
    /// What is known of the status at each site fits.
    N4,
}

impl CheckRule {
    /// The rule as it is printed.
    pub fn name(self) -> &'static [u8]
        ensures { result.now ≡ check_rule_name self }
    {
        match self {
            CheckRule::N1 => b"N1",
            CheckRule::N2 => b"N2",
            CheckRule::N3 => b"N3",
            CheckRule::N4 => b"N4",
        }
    }
}

/// The first rule that a table and an image break, and the text of the place: a mode, a point or a block.
#[derive(Drop)]
pub struct Denial {
    pub rule: CheckRule,
    pub place: Seq<u8>,
}

/// Why a command stops, each with a status and a text on err of its own.
#[derive(Drop)]
pub enum Stop {
    /// The OIL text or the task code has this first fault.
    Refused(Refusal),
    /// The words are of no stated form.
    Usage,
    /// The image's bytes have this first fault.
    Image(ImageFault),
    /// The event text has this fault.
    Events(FaultyLine),
    /// The input can't be read, or isn't there.
    Unread(Input),
    /// The output can't be written.
    Unstored(Output),
    /// What the command prints can't be written.
    Unprinted,
    Memory,
    /// The image traps at the event that the trace's last line names.
    Trapped,
    /// There is no mode of the name.
    NoMode,
    /// The image is of version 2 already.
    AlreadyNew,
    /// The table's bytes have this first fault.
    Table(TableFault),
    /// The table doesn't show that the image is the kernel.
    Denied(Denial),
    /// The table that is made is over its limit.
    TooLong,
    /// The record has this fault, and no alarm before it.
    Record(FaultyPoint),
    /// The record has the alarm that is printed.
    Alarmed,
}
