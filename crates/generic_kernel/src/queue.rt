//! The line of the tasks that are to run: who goes first, and who comes out.
ghost use Rattle.std.specs.Prelude.{◌≡◌};
ghost use Rattle.osek_standard.specs.{States.{task_of}, Line.{first_in_line, out_of_line}, Well.{Well}};

use osek_standard::{App, State};
use osek_values::TaskNo;

/// The task that runs or is interrupted goes first in the line.
pub fn go_first(app: &App, state: &mut State)
    requires { Well app.now state.old }
    ensures { first_in_line state.old (task_of state.old.processor) ≡ state.new }
{
    if let Some(task) = state.current() {
        state.line.push_first(task);
    }
}

/// A task that gets the processor loses its first place.
pub fn come_out(state: &mut State, task: Option<TaskNo>)
    ensures { out_of_line state.old task ≡ state.new }
{
    if let Some(task) = task {
        state.line.remove_first(task);
    }
}
