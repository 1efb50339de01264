//! The state of the kernel.
ghost use Rattle.std.specs.Prelude.{◌≡◌, length};

use crate::task_state::{Activity, Place, TaskState};
use osek_values::{AlarmNo, CounterNo, Held, Letter, Line, ModeNo, ResNo, Seq, SourceNo, TaskNo};

/// An alarm's part of the state.
#[derive(Clone, Copy)]
pub enum AlarmState {
    Idle,
    /// The counter's value at which it expires, and the cycle after that; 0 for an alarm that expires once.
    Armed { at: u32, cycle: u32 },
}

/// Where a routine that began stands, at a block of its own, and the resources that it holds; a tick routine holds none.
#[derive(Drop)]
pub struct RoutineStanding {
    pub at: Place,
    pub held: Held,
}

/// A source's routine: a counter's tick routine or a category 2 ISR.
#[derive(Drop)]
pub enum Source {
    /// It isn't running.
    Out,
    /// It began and hasn't ended: it has the processor, or is interrupted by another.
    In(RoutineStanding),
}

/// Who has the processor.
#[derive(Clone, Copy, PartialEq, Eq)]
pub enum Processor {
    /// After ShutdownOS.
    Halted,
    Idle,
    Running(TaskNo),
    /// The routine of a source, over the task that the routines interrupted or over none.
    Interrupted {
        source: SourceNo,
        over: Option<TaskNo>,
    },
}

impl Processor {
    ghost use Rattle.std.specs.Prelude.{◌≡◌};
    ghost use Rattle.osek_standard.specs.States.{is_interrupted};

    /// Whether a routine has it.
    pub fn is_interrupted(self) -> bool
        ensures { result ≡ is_interrupted self }
    {
        match self {
            Processor::Halted | Processor::Idle | Processor::Running(_) => false,
            Processor::Interrupted { .. } => true,
        }
    }
}

/// Who calls a service.
#[derive(Clone, Copy)]
pub enum Caller {
    /// The processor is idle or halted.
    Nobody,
    /// Task level.
    Task(TaskNo),
    /// Interrupt level.
    Routine(SourceNo),
}

/// The state of the kernel. Its lists are as long as the application's, the sources being the counters and then the
/// ISRs. A state takes no memory once it is made.
#[derive(Drop)]
pub struct State {
    /// The active application mode.
    pub mode: ModeNo,
    pub processor: Processor,
    pub tasks: Seq<TaskState>,
    /// Values, in ticks.
    pub counters: Seq<u32>,
    pub alarms: Seq<AlarmState>,
    pub sources: Seq<Source>,
    /// The sources that came and whose routine hasn't begun.
    pub latched: Seq<bool>,
    /// The tasks that are to run, the oldest activation first. A Live task stands in it once for each of its further
    /// activations, and once more unless it runs or is interrupted.
    pub line: Line,
}

fn copy_tasks(to: &mut Seq<TaskState>, from: &Seq<TaskState>)
    requires { length to.old ≡ length from.now }
    ensures { to.new ≡ from.now }
{
    for task in 0..from.len() {
        to.put(task, from.at(task).copy());
    }
}

impl RoutineStanding {
    /// Another that is the same. It takes no memory.
    pub fn copy(&self) -> RoutineStanding
        ensures { result ≡ self.now }
    {
        RoutineStanding {
            at: self.at,
            held: self.held.copy(),
        }
    }
}

impl Source {
    ghost use Rattle.std.specs.Prelude.{◌≡◌};
    ghost use Rattle.osek_standard.specs.TaskStates.{holds};
    ghost use Rattle.osek_standard.specs.States.{held_by_source};

    /// Another that is the same. It takes no memory.
    pub fn copy(&self) -> Source
        ensures { result ≡ self.now }
    {
        match self {
            Source::Out => Source::Out,
            Source::In(standing) => Source::In(standing.copy()),
        }
    }

    /// Whether the resource is on its stack.
    pub fn holds(&self, resource: ResNo) -> bool
        ensures { result ≡ holds (held_by_source self.now) resource.0 }
    {
        match self {
            Source::Out => false,
            Source::In(standing) => standing.held.has(resource),
        }
    }
}

fn copy_sources(to: &mut Seq<Source>, from: &Seq<Source>)
    requires { length to.old ≡ length from.now }
    ensures { to.new ≡ from.now }
{
    for source in 0..from.len() {
        to.put(source, from.at(source).copy());
    }
}

impl State {
    ghost use Rattle.std.specs.{Prelude.{◌≡◌, ◌<◌, length}, Borrow.{Lends, sem}};
    ghost use Rattle.osek_standard.specs.contracts.{state.State.{the_row}, task_state.TaskState.{the_row as task_row}};
    ghost use Rattle.osek_standard.specs.States.{task_of, caller, letter_of, task_state, with_task, alarm_state, with_alarm, counter_value};

    /// A task's state.
    pub fn task(&self, task: TaskNo) -> &TaskState
        requires { task.0 < length self.now.tasks }
        ensures { task_state self.now task.0 ≡ result.now }
    {
        self.tasks.at(task.index())
    }

    /// A task's state, to be changed there.
    pub fn task_mut(&mut self, task: TaskNo) -> &mut TaskState
        requires { task.0 < length self.old.tasks }
        ensures* writes_back { sem 𝓛 (Lends the_row task_row self.entry result (with_task self.old task.0)) }
        ensures value { task_state self.old task.0 ≡ result.now }
    {
        self.tasks.at_mut(task.index())
    }

    /// Gives a task another state.
    pub fn put_task(&mut self, task: TaskNo, to: TaskState)
        requires { task.0 < length self.old.tasks }
        ensures { self.new ≡ with_task self.old task.0 to }
    {
        self.tasks.put(task.index(), to);
    }

    /// Becomes equal to another state of the same application. It takes no memory.
    pub fn assign(&mut self, other: &State)
        requires tasks { length self.old.tasks ≡ length other.now.tasks }
        requires counters { length self.old.counters ≡ length other.now.counters }
        requires alarms { length self.old.alarms ≡ length other.now.alarms }
        requires sources { length self.old.sources ≡ length other.now.sources }
        requires latched { length self.old.latched ≡ length other.now.latched }
        ensures { self.new ≡ other.now }
    {
        self.mode = other.mode;
        self.processor = other.processor;
        copy_tasks(&mut self.tasks, &other.tasks);
        self.counters.copy_from(&other.counters);
        self.alarms.copy_from(&other.alarms);
        copy_sources(&mut self.sources, &other.sources);
        self.latched.copy_from(&other.latched);
        self.line.copy_from(&other.line);
    }

    /// Who calls a service now.
    pub fn caller(&self) -> Caller
        ensures { result ≡ caller self.now.processor }
    {
        match self.processor {
            Processor::Halted | Processor::Idle => Caller::Nobody,
            Processor::Running(task) => Caller::Task(task),
            Processor::Interrupted { source, .. } => Caller::Routine(source),
        }
    }

    /// The running task, or the one that is interrupted.
    pub fn current(&self) -> Option<TaskNo>
        ensures { result ≡ task_of self.now.processor }
    {
        match self.processor {
            Processor::Halted | Processor::Idle => None,
            Processor::Running(task) => Some(task),
            Processor::Interrupted { over, .. } => over,
        }
    }

    /// The letter of a task's state.
    pub fn letter(&self, task: TaskNo) -> Letter
        requires { task.0 < length self.now.tasks }
        ensures { result ≡ letter_of self.now.processor task.0 (task_state self.now task.0) }
    {
        match &self.task(task).activity {
            Activity::Suspended => Letter::S,
            Activity::Live(_) => {
                if self.current() == Some(task) {
                    Letter::R
                } else {
                    Letter::Y
                }
            }
            Activity::Waiting(_) => Letter::W,
        }
    }

    /// An alarm's state.
    pub fn alarm(&self, alarm: AlarmNo) -> AlarmState
        requires { alarm.0 < length self.now.alarms }
        ensures { alarm_state self.now alarm.0 ≡ result }
    {
        *self.alarms.at(alarm.index())
    }

    /// Gives an alarm another state.
    pub fn put_alarm(&mut self, alarm: AlarmNo, to: AlarmState)
        requires { alarm.0 < length self.old.alarms }
        ensures { self.new ≡ with_alarm self.old alarm.0 to }
    {
        self.alarms.put(alarm.index(), to);
    }

    /// A counter's value, in ticks.
    pub fn counter(&self, counter: CounterNo) -> u32
        requires { counter.0 < length self.now.counters }
        ensures { counter_value self.now counter.0 ≡ result }
    {
        *self.counters.at(counter.index())
    }
}
