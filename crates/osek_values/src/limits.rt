//! How large an application and its texts may be (this project's profile).

/// Tasks of an application.
pub const MAX_TASKS: usize = 16;
/// Category 2 ISRs.
pub const MAX_ISRS: usize = 8;
/// Counters.
pub const MAX_COUNTERS: usize = 8;
/// Activations that a task takes at a time.
pub const MAX_ACTIVATIONS: usize = 255;
/// Places in the line of the tasks that are to run: one for each activation of each task.
pub const MAX_LINE: usize = MAX_TASKS * MAX_ACTIVATIONS;
/// Alarms.
pub const MAX_ALARMS: usize = 16;
/// Events.
pub const MAX_EVENTS: usize = 32;
/// Resources, RES_SCHEDULER included.
pub const MAX_RESOURCES: usize = 8;
/// Application modes, OSDEFAULTAPPMODE included.
pub const MAX_MODES: usize = 8;
/// Blocks that come from source text; those of tick routines come on top.
pub const MAX_SOURCE_BLOCKS: usize = 1024;
/// Blocks of an application: those of the source, and CountUp, IsrEnd and Expire of the tick routines.
pub const MAX_BLOCKS: usize = 1056;

/// Bytes of an OIL text, a code text or an image.
pub const MAX_FILE: usize = 1_048_576;
/// Bytes of an event text.
pub const MAX_EVENT_TEXT: usize = 16_777_216;
/// Bytes of a table beside an image.
pub const MAX_TABLE: usize = 16_777_216;
/// Bytes of a record of points.
pub const MAX_RECORD: usize = 16_777_216;
/// Bytes of a line of the event text, without its LF.
pub const MAX_EVENT_LINE: usize = 256;
/// Bytes of a name.
pub const MAX_NAME: usize = 64;
/// Bytes of a line of the trace, with its LF.
pub const LINE_MAX: usize = 20_480;

/// Open braces in OIL.
pub const MAX_OIL_DEPTH: u32 = 16;
/// Open braces in task code.
pub const MAX_CODE_DEPTH: u32 = 32;
/// Open interrupt locks.
pub const MAX_LOCKS: usize = 8;
