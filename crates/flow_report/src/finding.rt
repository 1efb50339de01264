//! Findings.
use osek_values::{AlarmNo, BlockNo, HookSet, Mask, TaskNo};

/// What can't happen.
#[derive(Clone, Copy)]
pub enum Finding {
    /// The task is never started or activated.
    Suspended(TaskNo),
    /// The alarm is never armed.
    Unarmed(AlarmNo),
    /// The event of the task, a mask of one bit, is never set.
    Unset(TaskNo, Mask),
    /// The hook, which the OS object sets TRUE, never runs.
    Silent(HookSet),
    /// No task holds the resource where GetResource is called.
    Free(BlockNo),
    /// The block is never reached.
    Dead(BlockNo),
}
