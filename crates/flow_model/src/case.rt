//! An instruction in two halves: the cases of its effect, and those of what the scheduler does after it.

use crate::change::Change;
use crate::runner::Runner;
use crate::test::Condition;
use abstract_state::Point;
use osek_values::{Seq, Status, TaskNo};

/// What an effect asks of the scheduler.
#[derive(Clone, Copy)]
pub enum Asked {
    /// Nothing.
    No,
    /// This task runs, and a Live task of a strictly higher current priority is dispatched.
    Maybe(TaskNo),
    /// The caller ended or waits: the best Live task is dispatched, or the processor is idle.
    Left,
    /// A routine that interrupted no task ended: the best Live task is dispatched, if there is one.
    Free,
}

/// Where the processor stands after an effect, if the scheduler leaves it where it is.
#[derive(Clone, Copy)]
pub enum Stay {
    /// At this point.
    At(Point),
    /// At the block of the task or the routine to which a routine gives it back.
    AtBlockOf(Runner),
}

/// What an effect leaves to the scheduler: what it asks, who was put last, and where the processor stands if it stays.
#[derive(Clone, Copy)]
pub struct Leaving {
    pub asked: Asked,
    /// The task that became Live and goes last in the line, so that it gives way to each other one of its priority.
    pub last: Option<TaskNo>,
    pub stay: Stay,
    /// The status that is noted, if one is.
    pub status: Option<Status>,
}

impl Leaving {
    ghost use Rattle.std.specs.Prelude.{◌≡◌};
    ghost use Rattle.flow_model.specs.Cases.{leaving_at};

    /// The processor stays at a point, and no task was put last.
    pub fn at(point: Point, asked: Asked, status: Option<Status>) -> Leaving
        ensures { result ≡ leaving_at point asked status }
    {
        Leaving {
            asked,
            last: None,
            stay: Stay::At(point),
            status,
        }
    }

    /// The same, with a task that was put last.
    pub fn with_last(self, last: Option<TaskNo>) -> Leaving
        ensures { result ≡ record self { last = last } }
    {
        Leaving { last, ..self }
    }
}

/// A case of the effect of an instruction: the values of components that it takes, and what it does then. A component
/// passes where it passes each condition on it; the changes that name it say, one after another, what becomes of it, and
/// where none does it stays as it is.
#[derive(Drop)]
pub struct EffectCase {
    pub conditions: Seq<Condition>,
    pub changes: Seq<Change>,
    pub leaving: Leaving,
}

/// What the scheduler does: who had the processor keeps it, or it goes to a task or to none.
#[derive(Clone, Copy, PartialEq, Eq)]
pub enum Decision {
    Keep,
    To(Option<TaskNo>),
}

/// A case of what the scheduler does after a case of an effect, by the values before that effect.
#[derive(Drop)]
pub struct OutcomeCase {
    pub conditions: Seq<Condition>,
    pub decision: Decision,
    /// The point at which the step ends.
    pub target: Point,
}
