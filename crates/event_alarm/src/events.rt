//! The services on events.
ghost use Rattle.std.specs.Prelude.{◌≡◌, ◌<◌, length, Some, None};
ghost use Rattle.osek_standard.specs.{Apps.{awaited as awaited_at}, States.{caller}};
ghost use Rattle.osek_standard.specs.Services.{answer, set_event as set_event_row, clear_event as clear_event_row, get_event as get_event_row, wait_event as wait_event_row};
ghost use Rattle.osek_standard.specs.Well.{Well, IsActive};
ghost use Rattle.event_alarm.specs.{Answers.{status_of, mask_of}, Waiting.{StandsAtWaitEvent}};

use osek_standard::{Activity, App, Call, Caller, Kind, MaskService, Processor, State};
use osek_values::{Ask, Mask, Status, TaskNo};

/// The events that a task waits for at a block of this kind.
fn awaited(kind: Kind) -> Mask
    ensures { result.0 ≡ awaited_at kind }
{
    if let Kind::Call(Call::Mask(MaskService::WaitEvent, mask)) = kind {
        mask
    } else {
        Mask(0)
    }
}

/// SetEvent: the task's own events among these are set, and it is released if it waits for one of them. A released task
/// goes last in the line.
#[tactic(auto, unfolding(osek_standard::specs::Services::set_event))]
pub fn set_event(app: &App, state: &mut State, task: TaskNo, mask: Mask) -> (Status, Ask)
    requires known { task.0 < length app.now.tasks }
    requires well { Well app.now state.old }
    ensures row { set_event_row app.now state.old task.0 mask.0 ≡ answer state.new (Some result.0) None result.1 }
    ensures well { Well app.now state.new }
{
    let own = app.task(task).own;
    if own.is_empty() {
        return (Status::Access, Ask::No);
    }
    let named = mask.and(own);
    let waiter = state.task_mut(task);
    match &waiter.activity {
        Activity::Suspended => (Status::State, Ask::No),
        Activity::Live(_) => {
            waiter.events = waiter.events.or(named);
            (Status::Ok, Ask::No)
        }
        Activity::Waiting(block) => {
            waiter.events = waiter.events.or(named);
            let place = app.block(*block);
            if awaited(place.kind).and(named).is_empty() {
                (Status::Ok, Ask::No)
            } else {
                waiter.activity = Activity::live_at(place.next, 0);
                state.line.push_last(task);
                (Status::Ok, Ask::Maybe)
            }
        }
    }
}

/// ClearEvent of the caller. At interrupt level it is refused, E_OS_CALLEVEL.
#[tactic(auto, unfolding(osek_standard::specs::Services::clear_event))]
pub fn clear_event(app: &App, state: &mut State, mask: Mask) -> Status
    requires well { Well app.now state.old }
    requires active { IsActive state.old.processor }
    ensures row { clear_event_row app.now state.old (caller state.old.processor) mask.0 ≡ answer state.new (Some result) None Ask.No }
    ensures well { Well app.now state.new }
{
    let task = match state.caller() {
        Caller::Nobody => unreachable!(),
        Caller::Routine(_) => return Status::CallLevel,
        Caller::Task(task) => task,
    };
    if app.task(task).own.is_empty() {
        return Status::Access;
    }
    let own = state.task_mut(task);
    own.events = own.events.without(mask);
    Status::Ok
}

/// GetEvent: the events of a task.
#[tactic(auto, unfolding(osek_standard::specs::Services::get_event))]
pub fn get_event(app: &App, state: &State, task: TaskNo) -> Result<Mask, Status>
    requires known { task.0 < length app.now.tasks }
    requires well { Well app.now state.now }
    ensures { get_event_row app.now state.now task.0 ≡ answer state.now (Some (status_of result)) (mask_of result) Ask.No }
{
    if app.task(task).own.is_empty() {
        Err(Status::Access)
    } else if state.task(task).is_suspended() {
        Err(Status::State)
    } else {
        Ok(state.task(task).events)
    }
}

/// WaitEvent of the caller: it waits at the block where it stands, and leaves the processor idle, if it has none of
/// the events.
#[tactic(auto, unfolding(osek_standard::specs::Services::wait_event))]
pub fn wait_event(app: &App, state: &mut State, mask: Mask) -> (Status, Ask)
    requires well { Well app.now state.old }
    requires active { IsActive state.old.processor }
    requires stands { StandsAtWaitEvent app.now state.old (caller state.old.processor) }
    ensures row { wait_event_row app.now state.old (caller state.old.processor) mask.0 ≡ answer state.new (Some result.0) None result.1 }
    ensures well { Well app.now state.new }
{
    let task = match state.caller() {
        Caller::Nobody => unreachable!(),
        Caller::Routine(_) => return (Status::CallLevel, Ask::No),
        Caller::Task(task) => task,
    };
    if app.task(task).own.is_empty() {
        return (Status::Access, Ask::No);
    }
    if state.task(task).holds_some() {
        return (Status::Resource, Ask::No);
    }
    if !state.task(task).events.and(mask).is_empty() {
        return (Status::Ok, Ask::No);
    }
    let waiter = state.task_mut(task);
    if let Activity::Live(standing) = &waiter.activity {
        waiter.activity = Activity::Waiting(standing.at.block);
    }
    state.processor = Processor::Idle;
    (Status::Ok, Ask::Left)
}
