//! What an instruction may change at a site, kept so that a trap leaves the state as it was.
ghost use Rattle.std.specs.Prelude.{◌≡◌, ◌<◌, length, IfSome};
ghost use Rattle.osek_standard.specs.{States.{task_of}, Well.{Well, IsActive}};
ghost use Rattle.generic_kernel.specs.Changes.{named_here as named_here_of};
ghost use Rattle.image_run.specs.Befores.{before, old_task, put_back, source_by, task_in, with_old_source, with_old_task, IsKnownTask, IsKnownSource};

use generic_kernel::named_here;
use osek_standard::{App, Processor, Source, State, TaskState};
use osek_values::TaskNo;

/// A task's state as it was.
#[derive(Drop)]
pub struct OldTask {
    pub task: TaskNo,
    pub state: TaskState,
}

/// The parts of a state that the instruction at the processor may change at a site, as they were.
#[derive(Drop)]
pub struct Before {
    pub processor: Processor,
    /// The routine that runs, if one does.
    pub source: Source,
    /// The task that runs or is interrupted.
    pub own: Option<OldTask>,
    /// The task that the instruction names.
    pub named: Option<OldTask>,
    /// The length of the line: an instruction at a site puts at most one more place at its end.
    pub places: usize,
}

/// A task's state, if there is a task.
fn task_before(state: &State, task: Option<TaskNo>) -> Option<OldTask>
    requires { IfSome task (λ t. t.0 < length state.now.tasks) }
    ensures { result ≡ old_task state.now task }
{
    match task {
        None => None,
        Some(task) => Some(OldTask {
            task,
            state: state.task(task).copy(),
        }),
    }
}

/// The task whose state it is, if there is one.
pub fn task_of(old: &Option<OldTask>) -> Option<TaskNo>
    ensures { result ≡ task_in old.now }
{
    match old {
        None => None,
        Some(old) => Some(old.task),
    }
}

/// Gives a task the state that it had, if there is a task.
fn put_task_back(state: &mut State, old: Option<OldTask>)
    requires { IsKnownTask (length state.old.tasks) old }
    ensures { with_old_task state.old old ≡ state.new }
{
    match old {
        None => {}
        Some(old) => state.put_task(old.task, old.state),
    }
}

/// The source at the processor, which is out where none runs.
fn source_before(state: &State) -> Source
    requires { IsKnownSource (length state.now.sources) state.now.processor }
    ensures { result ≡ source_by state.now state.now.processor }
{
    match state.processor {
        Processor::Halted | Processor::Idle | Processor::Running(_) => Source::Out,
        Processor::Interrupted { source, .. } => state.sources.at(source.index()).copy(),
    }
}

/// Gives the source that had the processor the state that it had.
fn put_source_back(state: &mut State, processor: Processor, source: Source)
    requires { IsKnownSource (length state.old.sources) processor }
    ensures { with_old_source state.old processor source ≡ state.new }
{
    match processor {
        Processor::Halted | Processor::Idle | Processor::Running(_) => {}
        Processor::Interrupted { source: number, .. } => state.sources.put(number.index(), source),
    }
}

impl Before {
    /// The parts as they are now.
    pub fn of(app: &App, state: &State) -> Before
        requires well { Well app.now state.now }
        requires active { IsActive state.now.processor }
        ensures { result ≡ before app.now state.now }
    {
        Before {
            processor: state.processor,
            source: source_before(state),
            own: task_before(state, state.current()),
            named: task_before(state, named_here(app, state)),
            places: state.line.as_slice().len(),
        }
    }

    /// Puts the parts back.
    pub fn put_back(self, state: &mut State)
        requires own { IsKnownTask (length state.old.tasks) self.own }
        requires named { IsKnownTask (length state.old.tasks) self.named }
        requires source { IsKnownSource (length state.old.sources) self.processor }
        ensures { put_back self state.old ≡ state.new }
    {
        put_task_back(state, self.own);
        put_task_back(state, self.named);
        put_source_back(state, self.processor, self.source);
        state.line.truncate(self.places);
        state.processor = self.processor;
    }
}
