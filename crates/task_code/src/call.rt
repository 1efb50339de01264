//! Calls of services, with the names that they hold.
use osek_values::{Lock, Name, Seq, Status};

/// The name of an object, where it stands in the text.
#[derive(Drop)]
pub struct Reference {
    pub name: Name,
    /// The line of the name.
    pub line: u32,
}

/// A call of a service of ISO 17356-3. A list of references is a mask, the events that it names.
#[derive(Drop)]
pub enum Call {
    ActivateTask(Reference),
    TerminateTask,
    ChainTask(Reference),
    Schedule,
    GetResource(Reference),
    ReleaseResource(Reference),
    SetEvent(Reference, Seq<Reference>),
    ClearEvent(Seq<Reference>),
    GetEvent(Reference),
    WaitEvent(Seq<Reference>),
    /// The alarm, its increment and its cycle.
    SetRelAlarm(Reference, u64, u64),
    /// The alarm, its start and its cycle.
    SetAbsAlarm(Reference, u64, u64),
    CancelAlarm(Reference),
    GetAlarm(Reference),
    GetTaskId,
    GetTaskState(Reference),
    GetActiveApplicationMode,
    /// The status has no effect.
    ShutdownOs(Status),
    LockCall(Lock),
}
