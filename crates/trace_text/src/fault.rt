//! Why a line of an event text or of a record, or the text, is refused.
ghost use Rattle.std.specs.Prelude.{◌≡◌};
ghost use Rattle.trace_text.specs.{EventFaults.{event_fault_name}, PointFaults.{point_fault_name}};

/// Rules on event texts (this project's profile).
#[derive(Clone, Copy, PartialEq, Eq)]
pub enum EventFault {
    /// No such form.
    E1,
    /// No category 2 ISR or counter of that name.
    E2,
    /// A line over `MAX_EVENT_LINE` bytes without its LF.
    E3,
    /// The text is over `MAX_EVENT_TEXT` bytes; no line has it.
    E4,
}

impl EventFault {
    /// The rule as it is printed.
    pub fn name(self) -> &'static [u8]
        ensures { result.now ≡ event_fault_name self }
    {
        match self {
            EventFault::E1 => b"E1",
            EventFault::E2 => b"E2",
            EventFault::E3 => b"E3",
            EventFault::E4 => b"E4",
        }
    }
}

/// The first fault of an event text. Lines count from 1; line 0 is the text as a whole.
#[derive(Clone, Copy, PartialEq, Eq)]
pub struct FaultyLine {
    pub line: u32,
    pub rule: EventFault,
}

/// Rules on records of points (this project's profile).
#[derive(Clone, Copy, PartialEq, Eq)]
pub enum PointFault {
    /// Not one word of the form of a point.
    G1,
    /// Of that form, and no point of the application.
    G2,
    /// A line over `MAX_EVENT_LINE` bytes without its LF.
    G3,
    /// The record is over `MAX_RECORD` bytes; no line has it.
    G4,
}

impl PointFault {
    /// The rule as it is printed.
    pub fn name(self) -> &'static [u8]
        ensures { result.now ≡ point_fault_name self }
    {
        match self {
            PointFault::G1 => b"G1",
            PointFault::G2 => b"G2",
            PointFault::G3 => b"G3",
            PointFault::G4 => b"G4",
        }
    }
}

/// The first fault of a record. Lines count from 1; line 0 is the record as a whole.
#[derive(Clone, Copy)]
pub struct FaultyPoint {
    pub line: u32,
    pub rule: PointFault,
}
