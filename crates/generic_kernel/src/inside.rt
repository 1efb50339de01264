//! INTERNAL resources: a task that gets or keeps the processor is inside.
ghost use Rattle.std.specs.Prelude.{◌≡◌, ◌<◌, length, is_some, IfSome};
ghost use Rattle.osek_standard.specs.{Internal.{internal_of, kept as kept_of, put_inside as put_inside_of, with_inside}, Well.{Well, HasProcessor}};
ghost use Rattle.generic_kernel.specs.{Levels.{IsReady}, Moves.{task_inside as task_inside_of, KeepsLevels}};

use crate::ready::Ready;
use osek_standard::{Activity, App, Processor, State};
use osek_values::TaskNo;

/// A Live task is inside from now on, or no longer.
pub fn set_inside(state: &mut State, task: TaskNo, inside: bool)
    requires { task.0 < length state.old.tasks }
    ensures { with_inside state.old task.0 inside ≡ state.new }
{
    if let Activity::Live(standing) = &mut state.task_mut(task).activity {
        standing.inside = inside;
    }
}

/// A task that gets the processor is inside where it names an INTERNAL resource.
pub fn put_inside(app: &App, state: &mut State, task: Option<TaskNo>)
    requires size { length state.old.tasks ≡ length app.now.tasks }
    requires known { IfSome task (λ t. t.0 < length app.now.tasks) }
    ensures { put_inside_of app.now state.old task ≡ state.new }
{
    if let Some(task) = task {
        set_inside(state, task, app.task(task).internal.is_some());
    }
}

/// A task that keeps the processor is so too: Schedule alone lets it out.
pub fn keep(app: &App, state: &mut State)
    requires { Well app.now state.old }
    ensures kept { kept_of app.now state.old ≡ state.new }
    ensures well { Well app.now state.new }
    ensures levels { KeepsLevels app.now state.old state.new }
{
    match state.processor {
        Processor::Halted | Processor::Idle | Processor::Interrupted { .. } => {}
        Processor::Running(task) => put_inside(app, state, Some(task)),
    }
}

// the running task, where it names an INTERNAL resource
fn task_inside(app: &App, state: &State) -> Option<TaskNo>
    requires { Well app.now state.now }
    ensures is { result ≡ task_inside_of app.now state.now.processor }
    ensures known { IfSome result (λ t. t.0 < length app.now.tasks) }
{
    match state.processor {
        Processor::Halted | Processor::Idle | Processor::Interrupted { .. } => None,
        Processor::Running(task) => {
            if app.task(task).internal.is_some() {
                Some(task)
            } else {
                None
            }
        }
    }
}

/// Takes in who runs, where that task names an INTERNAL resource: who gets or keeps the processor may be inside from then
/// on, and no other task gets another priority.
pub fn take_in_running(app: &App, state: &State, ready: &mut Ready)
    requires { Well app.now state.now }
    ensures { (s : State) → IsReady app.now s ready.old → KeepsLevels app.now s state.now → IsReady app.now state.now ready.new }
{
    let running = task_inside(app, state);
    ready.take_in(app, state, running, None);
}

/// A task keeps the processor, and the Live tasks are kept as those of the state.
pub fn keep_ready(app: &App, state: &mut State, ready: &mut Ready)
    requires well { Well app.now state.old }
    requires ready { IsReady app.now state.old ready.old }
    ensures kept { kept_of app.now state.old ≡ state.new }
    ensures well { Well app.now state.new }
    ensures ready { IsReady app.now state.new ready.new }
{
    keep(app, state);
    take_in_running(app, state, ready);
}
