//! The activation of a task (ISO 17356-3, ActivateTask).
#![tactic(auto)]

ghost use Rattle.std.specs.Prelude.{◌≡◌, ◌<◌, length, Some, None, false};
ghost use Rattle.osek_standard.specs.{Services.{activate_task, answer, maybe_if, activated_by, is_full as is_full_by}, Well.{Well}, States.{task_state, with_task}};

use osek_standard::{Activity, App, State};
use osek_values::{Status, TaskNo};

/// Whether a task takes no further activation: it waits, or has as many as its ACTIVATION.
pub fn is_full(app: &App, state: &State, task: TaskNo) -> bool
    requires known { task.0 < length app.now.tasks }
    requires well { Well app.now state.now }
    ensures { result ≡ is_full_by app.now state.now task.0 }
{
    match &state.task(task).activity {
        Activity::Suspended => false,
        Activity::Live(standing) => app.task(task).activation as u32 <= standing.further as u32 + 1,
        Activity::Waiting(_) => true,
    }
}

// a suspended task begins, and a Live one keeps the activation for later
fn begin_or_count(app: &App, state: &mut State, task: TaskNo)
    requires known { task.0 < length app.now.tasks }
    requires well { Well app.now state.old }
    requires room { is_full_by app.now state.old task.0 ≡ false }
    ensures { state.new ≡ with_task state.old task.0 (activated_by app.now task.0 (task_state state.old task.0) (task_state state.old task.0).activity) }
{
    if state.task(task).is_suspended() {
        state.put_task(task, app.activated(task));
        return;
    }
    if let Activity::Live(standing) = &mut state.task_mut(task).activity {
        standing.further += 1;
    }
}

/// ActivateTask, for a service or an alarm: a task that takes no further activation answers E_OS_LIMIT.
#[tactic(auto, unfolding(osek_standard::specs::Services::activate_task))]
pub fn activate(app: &App, state: &mut State, task: TaskNo) -> Status
    requires known { task.0 < length app.now.tasks }
    requires well { Well app.now state.old }
    ensures row { activate_task app.now state.old task.0 ≡ answer state.new (Some result) None (maybe_if result) }
    ensures well { Well app.now state.new }
{
    if is_full(app, state, task) {
        return Status::Limit;
    }
    begin_or_count(app, state, task);
    state.line.push_last(task);
    Status::Ok
}
