//! The services of ISO 17356-3 that a block may call.
use osek_values::{AlarmNo, Lock, Mask, ResNo, TaskNo};

/// The services without operands.
#[derive(Clone, Copy, PartialEq, Eq)]
pub enum PlainService {
    TerminateTask,
    Schedule,
    GetTaskId,
    GetActiveApplicationMode,
}

/// The services of a task.
#[derive(Clone, Copy, PartialEq, Eq)]
pub enum TaskService {
    ActivateTask,
    ChainTask,
    GetEvent,
    GetTaskState,
}

/// The services of a resource.
#[derive(Clone, Copy, PartialEq, Eq)]
pub enum ResourceService {
    GetResource,
    ReleaseResource,
}

/// The services of the caller's events.
#[derive(Clone, Copy, PartialEq, Eq)]
pub enum MaskService {
    ClearEvent,
    WaitEvent,
}

/// The services of an alarm.
#[derive(Clone, Copy, PartialEq, Eq)]
pub enum AlarmService {
    CancelAlarm,
    GetAlarm,
}

/// The services that arm an alarm.
#[derive(Clone, Copy, PartialEq, Eq)]
pub enum ArmService {
    SetRelAlarm,
    SetAbsAlarm,
}

/// A call of a service, by the shape of its operands.
#[derive(Clone, Copy, PartialEq, Eq)]
pub enum Call {
    Plain(PlainService),
    Task(TaskService, TaskNo),
    Resource(ResourceService, ResNo),
    SetEvent(TaskNo, Mask),
    Mask(MaskService, Mask),
    Alarm(AlarmService, AlarmNo),
    /// The increment or the start, and the cycle, in ticks.
    Arm(ArmService, AlarmNo, u64, u64),
    Lock(Lock),
    ShutdownOs,
}
