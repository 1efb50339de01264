//! The services on tasks whose caller may leave the processor.
ghost use Rattle.std.specs.Prelude.{◌≡◌, ◌<◌, length, Some, None};
ghost use Rattle.osek_standard.specs.States.{caller, task_state};
ghost use Rattle.osek_standard.specs.Services.{answer, terminate_task as terminate_task_row, chain_task as chain_task_row, schedule as schedule_row, ended as ended_of, ended_by};
ghost use Rattle.osek_standard.specs.Services.{left};
ghost use Rattle.osek_standard.specs.{Effects.{end_task as end_task_row}, Well.{Well, IsActive}};

use crate::inside::set_inside;
use activation::{activate, is_full};
use osek_standard::{Activity, App, Caller, Processor, State};
use osek_values::{Ask, Status, TaskNo};

// suspended, or begun anew where a further activation is left
fn ended(app: &App, state: &State, task: TaskNo) -> Activity
    requires known { task.0 < length app.now.tasks }
    requires well { Well app.now state.now }
    ensures { result ≡ ended_by app.now task.0 (task_state state.now task.0).activity }
{
    match &state.task(task).activity {
        Activity::Suspended | Activity::Waiting(_) => Activity::Suspended,
        Activity::Live(standing) => {
            if standing.further == 0 {
                Activity::Suspended
            } else {
                Activity::live_at(app.task(task).first, standing.further - 1)
            }
        }
    }
}

// a task ends, and leaves the processor
fn leave(app: &App, state: &mut State, task: TaskNo)
    requires known { task.0 < length app.now.tasks }
    requires well { Well app.now state.old }
    ensures { left (ended_of app.now state.old task.0) ≡ state.new }
{
    let next = ended(app, state, task);
    state.task_mut(task).activity = next;
    state.processor = Processor::Idle;
}

/// TerminateTask of the caller.
#[tactic(auto, unfolding(osek_standard::specs::Services::terminate_task))]
pub fn terminate_task(app: &App, state: &mut State) -> (Option<Status>, Ask)
    requires well { Well app.now state.old }
    requires active { IsActive state.old.processor }
    ensures { terminate_task_row app.now state.old (caller state.old.processor) ≡ answer state.new result.0 None result.1 }
{
    let task = match state.caller() {
        Caller::Nobody => unreachable!(),
        Caller::Routine(_) => return (Some(Status::CallLevel), Ask::No),
        Caller::Task(task) => task,
    };
    if state.task(task).holds_some() {
        return (Some(Status::Resource), Ask::No);
    }
    leave(app, state, task);
    (None, Ask::Left)
}

/// ChainTask: the caller ends, and then a task is activated, which may be the caller itself.
#[tactic(auto, unfolding(osek_standard::specs::Services::chain_task))]
pub fn chain_task(app: &App, state: &mut State, to: TaskNo) -> (Option<Status>, Ask)
    requires known { to.0 < length app.now.tasks }
    requires well { Well app.now state.old }
    requires active { IsActive state.old.processor }
    ensures { chain_task_row app.now state.old (caller state.old.processor) to.0 ≡ answer state.new result.0 None result.1 }
{
    let task = match state.caller() {
        Caller::Nobody => unreachable!(),
        Caller::Routine(_) => return (Some(Status::CallLevel), Ask::No),
        Caller::Task(task) => task,
    };
    if state.task(task).holds_some() {
        return (Some(Status::Resource), Ask::No);
    }
    if to != task && is_full(app, state, to) {
        return (Some(Status::Limit), Ask::No);
    }
    leave(app, state, task);
    activate(app, state, to);
    (None, Ask::Left)
}

/// Schedule: the caller gives its INTERNAL resource back, and a better task runs now, if there is one, also where the
/// caller is non-preemptive.
#[tactic(auto, unfolding(osek_standard::specs::Services::schedule))]
pub fn schedule(app: &App, state: &mut State) -> (Status, Ask)
    requires well { Well app.now state.old }
    requires active { IsActive state.old.processor }
    ensures { schedule_row state.old (caller state.old.processor) ≡ answer state.new (Some result.0) None result.1 }
{
    let task = match state.caller() {
        Caller::Nobody => unreachable!(),
        Caller::Routine(_) => return (Status::CallLevel, Ask::No),
        Caller::Task(task) => task,
    };
    if state.task(task).holds_some() {
        return (Status::Resource, Ask::No);
    }
    set_inside(state, task, false);
    (Status::Ok, Ask::Maybe)
}

/// The closing brace of a task: it ends, and what it holds is given back.
pub fn end_task(app: &App, state: &mut State) -> Ask
    requires { Well app.now state.old }
    ensures { end_task_row app.now state.old (caller state.old.processor) ≡ answer state.new None None result }
{
    let Caller::Task(task) = state.caller() else {
        return Ask::No;
    };
    leave(app, state, task);
    Ask::Left
}
