//! Sites: which blocks they are, and what the replayer does there.
ghost use Rattle.std.specs.Prelude.{◌≡◌};
ghost use Rattle.osek_standard.specs.Validity.{is_within};
ghost use Rattle.osek_standard.specs.Apps.{may_dispatch as may_dispatch_by, call_may_dispatch as call_may_dispatch_by, is_routine_end as is_end_of_routine, is_task_block_in, is_site_in};
ghost use Rattle.image_model.specs.Statuses.{status_number as number_of_status, allows_status};

use osek_standard::{Call, Kind, MaskService, PlainService, ResourceService, Task, TaskService};
use osek_values::{BlockNo, Status, TaskNo};

/// What the replayer does with the processor after the effect of a site's call.
#[derive(Clone, Copy, PartialEq, Eq)]
pub enum Form {
    /// No state comes here: a trap.
    Never,
    /// Nothing is dispatched.
    Stay,
    /// This task is dispatched, or the processor is idle.
    Direct(Option<TaskNo>),
    /// The kernel's own rescheduling.
    General,
}

/// What is known of the status that a site's instruction notes.
#[derive(Clone, Copy, PartialEq, Eq)]
pub enum Known {
    /// Nothing.
    Any,
    /// That no other status is noted than this one, or none at all.
    Always(Option<Status>),
}

/// A site: a task's call after which the kernel may dispatch, the end of a task, or the end of a routine.
#[derive(Clone, Copy, PartialEq, Eq)]
pub struct Site {
    pub form: Form,
    pub known: Known,
}

/// The number of a status, 0 to 8.
pub fn status_number(status: Status) -> u8
    ensures { result ≡ number_of_status status }
{
    match status {
        Status::Ok => 0,
        Status::Access => 1,
        Status::CallLevel => 2,
        Status::Id => 3,
        Status::Limit => 4,
        Status::NoFunc => 5,
        Status::Resource => 6,
        Status::State => 7,
        Status::Value => 8,
    }
}

impl Known {
    /// Whether an instruction may note this status, or none. Where it is to note a status it may also note none.
    pub fn allows(self, noted: Option<Status>) -> bool
        ensures { result ≡ allows_status self noted }
    {
        match (self, noted) {
            (Known::Any, _) | (Known::Always(_), None) => true,
            (Known::Always(None), Some(_)) => false,
            (Known::Always(Some(known)), Some(noted)) => {
                status_number(known) == status_number(noted)
            }
        }
    }
}

fn call_may_dispatch(call: Call) -> bool
    ensures { result ≡ call_may_dispatch_by call }
{
    match call {
        Call::Plain(PlainService::TerminateTask | PlainService::Schedule)
        | Call::Task(TaskService::ActivateTask | TaskService::ChainTask, _)
        | Call::Resource(ResourceService::ReleaseResource, _)
        | Call::SetEvent(_, _)
        | Call::Mask(MaskService::WaitEvent, _) => true,
        Call::Plain(PlainService::GetTaskId | PlainService::GetActiveApplicationMode)
        | Call::Task(TaskService::GetEvent | TaskService::GetTaskState, _)
        | Call::Resource(ResourceService::GetResource, _)
        | Call::Mask(MaskService::ClearEvent, _)
        | Call::Alarm(_, _)
        | Call::Arm(_, _, _, _)
        | Call::Lock(_)
        | Call::ShutdownOs => false,
    }
}

fn may_dispatch(kind: Kind) -> bool
    ensures { result ≡ may_dispatch_by kind }
{
    match kind {
        Kind::Call(call) => call_may_dispatch(call),
        Kind::TaskEnd => true,
        Kind::Work(_)
        | Kind::Choice(_)
        | Kind::Loop
        | Kind::IsrEnd
        | Kind::CountUp
        | Kind::Expire(_) => false,
    }
}

fn is_routine_end(kind: Kind) -> bool
    ensures { result ≡ is_end_of_routine kind }
{
    matches!(kind, Kind::IsrEnd)
}

/// Whether a block is among the `count` blocks from `first` on.
pub fn is_within(block: u16, first: BlockNo, count: u16) -> bool
    ensures { result ≡ is_within block (first.0, count) }
{
    let after = block >= first.0;
    after && (block as u32) < first.0 as u32 + count as u32
}

/// Whether some task has the block.
pub fn is_task_block(tasks: &[Task], block: u16) -> bool
    ensures { result ≡ is_task_block_in tasks.now block }
{
    tasks
        .iter()
        .any(|task| is_within(block, task.first, task.count))
}

/// Whether a block of a kind is a site, where these are the tasks.
pub fn is_site(tasks: &[Task], block: u16, kind: Kind) -> bool
    ensures { result ≡ is_site_in tasks.now block kind }
{
    if is_routine_end(kind) {
        return true;
    }
    if !may_dispatch(kind) {
        return false;
    }
    is_task_block(tasks, block)
}
