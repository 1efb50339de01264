//! The objects that an application has as an OIL file declares them.
use osek_values::{CounterNo, Mask, Name, TaskNo};

/// How a task may be preempted (ISO 17356-3, scheduling policy).
#[derive(Clone, Copy)]
pub enum Schedule {
    Non,
    Full,
}

/// What an alarm does when it expires.
#[derive(Clone, Copy, PartialEq, Eq)]
pub enum Action {
    ActivateTask(TaskNo),
    SetEvent(TaskNo, Mask),
}

/// An alarm. Its time and cycle, in ticks, are those of its autostart, and 0 where it is autostarted in no mode.
#[derive(Drop)]
pub struct Alarm {
    pub name: Name,
    pub counter: CounterNo,
    pub action: Action,
    /// Bit k is set where it is autostarted in mode k.
    pub autostart: u8,
    pub time: u32,
    pub cycle: u32,
}

/// A resource, with its ceiling priority for tasks and for interrupts.
#[derive(Drop)]
pub struct Resource {
    pub name: Name,
    pub ceiling: u32,
    /// Whether its RESOURCEPROPERTY is INTERNAL.
    pub internal: bool,
    /// One more than the highest priority of the category 2 ISRs that name it, and 0 if none does.
    pub interrupt_ceiling: u16,
}
