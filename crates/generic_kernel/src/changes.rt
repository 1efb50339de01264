//! The tasks that an instruction may change.
ghost use Rattle.std.specs.Prelude.{◌≡◌, ◌<◌, length, IfSome};
ghost use Rattle.osek_standard.specs.{Validity.{NamesEntries}, Apps.{tables}, Well.{Well, IsActive}};
ghost use Rattle.generic_kernel.specs.Changes.{acted_on as acted_on_of, named_by as named_by_of, named_here as named_here_of};

use crate::places::here;
use osek_standard::{Action, App, Call, Kind, State};
use osek_values::TaskNo;

/// The task that an alarm's action is for.
fn acted_on(action: Action) -> TaskNo
    ensures { result ≡ acted_on_of action }
{
    match action {
        Action::ActivateTask(task) | Action::SetEvent(task, _) => task,
    }
}

/// The task that a block of this kind names.
fn named_by(app: &App, kind: Kind) -> Option<TaskNo>
    requires { NamesEntries (tables app.now) kind }
    ensures named { result ≡ named_by_of app.now kind }
    ensures known { IfSome result (λ t. t.0 < length app.now.tasks) }
{
    match kind {
        Kind::Call(Call::Task(_, task) | Call::SetEvent(task, _)) => Some(task),
        Kind::Expire(alarm) => Some(acted_on(app.alarm(alarm).action)),
        Kind::Work(_)
        | Kind::Choice(_)
        | Kind::Loop
        | Kind::Call(_)
        | Kind::TaskEnd
        | Kind::IsrEnd
        | Kind::CountUp => None,
    }
}

/// The task that the instruction names at which the processor stands.
pub fn named_here(app: &App, state: &State) -> Option<TaskNo>
    requires well { Well app.now state.now }
    requires active { IsActive state.now.processor }
    ensures named { result ≡ named_here_of app.now state.now }
    ensures known { IfSome result (λ t. t.0 < length app.now.tasks) }
{
    named_by(app, app.block(here(app, state).block).kind)
}
