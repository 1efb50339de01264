//! Steps after which a line of the trace shows of the tasks, or of all but few, what the line before showed.
ghost use Rattle.std.specs.Prelude.{◌≡◌, ◌<◌, length, true, IfSome};
ghost use Rattle.osek_standard.specs.{Apps.{tables, the_block}, States.{alarm_state, here as here_of}, Services.{due, is_due_at, value_of}, Validity.{NamesEntries}, Well.{Well, IsActive}};
ghost use Rattle.generic_kernel.specs.Changes.{named_here as named_here_of};
ghost use Rattle.image_run.specs.Quiet.{IsQuietAt, IsQuietHere, IsSettled, leaves_tasks as leaves_tasks_at};

use generic_kernel::{here, named_here};
use image_model::{Image, site_at};
use osek_standard::{AlarmState, App, Call, Kind, PlainService, Processor, State, TaskService};
use osek_values::{AlarmNo, TaskNo};

/// Whether an alarm is due.
fn is_due(app: &App, state: &State, alarm: AlarmNo) -> bool
    requires known { alarm.0 < length app.now.alarms }
    requires well { Well app.now state.now }
    ensures { result ≡ is_due_at (due (alarm_state state.now alarm.0)) (value_of app.now state.now alarm.0) }
{
    match state.alarm(alarm) {
        AlarmState::Idle => false,
        AlarmState::Armed { at, .. } => at == state.counter(app.alarm(alarm).counter),
    }
}

/// Whether an instruction of this kind leaves each task as it is but for its place, and asks for no rescheduling.
fn leaves_tasks(app: &App, state: &State, kind: Kind) -> bool
    requires well { Well app.now state.now }
    requires operands { NamesEntries (tables app.now) kind }
    ensures { result ≡ leaves_tasks_at app.now state.now kind }
{
    match kind {
        Kind::Work(_)
        | Kind::Choice(_)
        | Kind::Loop
        | Kind::CountUp
        | Kind::Call(
            Call::Lock(_)
            | Call::Plain(PlainService::GetTaskId | PlainService::GetActiveApplicationMode)
            | Call::Task(TaskService::GetEvent | TaskService::GetTaskState, _)
            | Call::Alarm(_, _)
            | Call::Arm(_, _, _, _),
        ) => true,
        Kind::Expire(alarm) => !is_due(app, state, alarm),
        Kind::Call(_) | Kind::TaskEnd | Kind::IsrEnd => false,
    }
}

/// Whether the task that runs, if one does, is inside where it names an INTERNAL resource and at no other time.
fn is_settled(app: &App, state: &State) -> bool
    requires { Well app.now state.now }
    ensures { result ≡ true → IsSettled app.now state.now state.now.processor }
{
    match state.processor {
        Processor::Halted | Processor::Idle | Processor::Interrupted { .. } => true,
        Processor::Running(task) => {
            state.task(task).is_inside() == app.task(task).internal.is_some()
        }
    }
}

/// Whether the instruction at the processor leaves the tasks, at a block that is no site.
fn is_quiet_here(image: &Image, state: &State) -> bool
    requires well { Well image.now.app state.now }
    requires active { IsActive state.now.processor }
    ensures { result ≡ true → IsQuietHere image.now state.now }
{
    let block = here(&image.app, state).block;
    leaves_tasks(&image.app, state, image.app.block(block).kind)
        && site_at(image, block).is_none()
        && is_settled(&image.app, state)
}

/// Whether a step that lets the processor run changes of no task more than its place, and dispatches none. It may say no
/// where that is so.
pub fn runs_quietly(image: &Image, state: &State) -> bool
    requires { Well image.now.app state.now }
    ensures { result ≡ true → IsQuietAt image.now state.now state.now.processor }
{
    match state.processor {
        Processor::Halted | Processor::Idle => true,
        Processor::Running(_) | Processor::Interrupted { .. } => is_quiet_here(image, state),
    }
}

/// The task that the instruction names which is due, if one is due and names one.
pub fn named_task(image: &Image, state: &State) -> Option<TaskNo>
    requires { Well image.now.app state.now }
    ensures named { IsActive state.now.processor → result ≡ named_here_of image.now.app state.now }
    ensures known { IfSome result (λ t. t.0 < length image.now.app.tasks) }
{
    match state.processor {
        Processor::Halted | Processor::Idle => None,
        Processor::Running(_) | Processor::Interrupted { .. } => named_here(&image.app, state),
    }
}
