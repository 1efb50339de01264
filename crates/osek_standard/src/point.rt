//! Points: where the processor stands.
ghost use Rattle.std.specs.Prelude.{◌≡◌, nat_lt};
ghost use Rattle.osek_standard.specs.Points.{over_number, point_number};

use osek_values::{BlockNo, TaskNo};

/// Where the processor stands.
#[derive(Clone, Copy, PartialEq, Eq)]
pub enum Point {
    /// After ShutdownOS.
    Halted,
    Idle,
    /// A block of a task.
    Task(BlockNo),
    /// A block of a routine, over the task that it interrupted or over none.
    Routine {
        block: BlockNo,
        over: Option<TaskNo>,
    },
}

fn over_number(over: Option<TaskNo>) -> u32
    ensures { result ≡ over_number over }
{
    match over {
        None => 0,
        Some(task) => 1 + task.0 as u32,
    }
}

impl Point {
    ghost use Rattle.std.specs.Prelude.{◌≡◌, nat_lt};
    ghost use Rattle.osek_standard.specs.Points.{point_number};

    /// The number that orders the points: halted, idle, and then by block, a block's points in the order of the tasks
    /// under it, none first.
    pub fn number(self) -> u32
        ensures { result ≡ point_number self }
    {
        match self {
            Point::Halted => 0,
            Point::Idle => 1,
            Point::Task(block) => 2 + 257 * block.0 as u32,
            Point::Routine { block, over } => 2 + 257 * block.0 as u32 + over_number(over),
        }
    }

    /// Whether the point stands before another.
    pub fn is_before(self, other: Point) -> bool
        ensures { result ≡ nat_lt (point_number self) (point_number other) }
    {
        self.number() < other.number()
    }
}
