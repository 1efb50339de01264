//! The line of the tasks that are to run.
ghost use Rattle.std.specs.{Prelude.{◌≡◌, ◌<◌, ◌==◌, [], ◌∷◌, ◌++◌, length, take}, List.{position}};
ghost use Rattle.osek_values.specs.Line.{without_first};

use crate::limits::MAX_LINE;
use crate::numbers::TaskNo;
use arrayvec::ArrayVec;
use std::marker::Model;

/// The tasks that are to run, the oldest activation first: at most `MAX_LINE` places. It never takes memory.
#[derive(Drop)]
pub struct Line {
    places: ArrayVec<TaskNo, MAX_LINE>,
}

impl Model for Line {
    ghost use Rattle.std.specs.Prelude.{List};
    ghost use Rattle.osek_values.specs.declared.numbers.TaskNo.{TaskNo};

    ghost Value = { List TaskNo };

    ghost view = { λ l. l.places.items };
}

// the index of a task's first place
fn first_place(places: &[TaskNo], task: TaskNo) -> Option<usize>
    ensures { result ≡ position (λ n. n.0 == task.0) places.now }
{
    places.iter().position(|place| *place == task)
}

impl Line {
    /// No task.
    pub fn new() -> Line
        ensures { result ≡ [] }
    {
        Line {
            places: ArrayVec::new(),
        }
    }

    /// The tasks, the oldest activation first.
    pub fn as_slice(&self) -> &[TaskNo]
        ensures { result.now ≡ self.now }
    {
        self.places.as_slice()
    }

    /// A task goes last.
    pub fn push_last(&mut self, task: TaskNo)
        requires { length self.old < MAX_LINE }
        ensures { self.new ≡ self.old ++ task ∷ [] }
    {
        self.places.push(task);
    }

    /// A task goes first.
    pub fn push_first(&mut self, task: TaskNo)
        requires { length self.old < MAX_LINE }
        ensures { self.new ≡ task ∷ self.old }
    {
        self.places.insert(0, task);
    }

    /// A task loses its first place, if it has one.
    pub fn remove_first(&mut self, task: TaskNo)
        ensures { self.new ≡ without_first self.old task.0 }
    {
        if let Some(place) = first_place(self.places.as_slice(), task) {
            self.places.remove(place);
        }
    }

    /// Becomes another line. It takes no memory.
    pub fn copy_from(&mut self, other: &Line)
        ensures { self.new ≡ other.now }
    {
        self.places.clear();
        for task in other.places.as_slice() {
            self.places.push(*task);
        }
    }

    /// The first places alone.
    pub fn truncate(&mut self, count: usize)
        ensures { self.new ≡ take count self.old }
    {
        self.places.truncate(count);
    }
}
