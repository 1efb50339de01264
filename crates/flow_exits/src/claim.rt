//! Who is to have the processor, and what the other tasks may be then.
ghost use Rattle.std.specs.Prelude.{◌≡◌};
ghost use Rattle.osek_standard.specs.States.{is_that_task};
ghost use Rattle.flow_model.specs.Scheduling.{may_tie as may_tie_of};
ghost use Rattle.flow_exits.specs.Claims.{limit_beside as limit_beside_of};

use osek_values::TaskNo;

/// Who is to have the processor.
#[derive(Clone, Copy)]
pub enum Claim {
    /// No task, since none is Live.
    Nobody,
    /// The running task, at this current priority: no Live task is above it.
    Keeps {
        task: TaskNo,
        priority: u32,
    },
    /// A task, at this current priority: it goes before each other Live task, and is above the running one, if a task
    /// runs. It goes before those of the same priority too where it may tie.
    Gets {
        task: TaskNo,
        priority: u32,
        over: Option<TaskNo>,
        may_tie: bool,
    },
}

impl Claim {
    ghost use Rattle.std.specs.Prelude.{◌≡◌};
    ghost use Rattle.flow_exits.specs.Claims.{limit_of};

    /// What a task's current priority has to be below if it is Live. The task that is to have the processor has no
    /// limit.
    pub fn limit(self, task: TaskNo) -> Option<u64>
        ensures { result ≡ limit_of self task.0 }
    {
        match self {
            Claim::Nobody => Some(0),
            Claim::Keeps {
                task: running,
                priority,
            } => {
                if task.0 == running.0 {
                    None
                } else {
                    Some(priority as u64 + 1)
                }
            }
            Claim::Gets {
                task: best,
                priority,
                over,
                may_tie,
            } => {
                if task.0 == best.0 {
                    None
                } else {
                    Some(limit_beside(priority, over, may_tie, task))
                }
            }
        }
    }
}

fn limit_beside(priority: u32, over: Option<TaskNo>, may_tie: bool, task: TaskNo) -> u64
    ensures { result ≡ limit_beside_of priority over may_tie task.0 }
{
    if is_running(over, task) || !may_tie {
        return priority as u64;
    }
    priority as u64 + 1
}

/// Whether the running task is this one.
pub fn is_running(over: Option<TaskNo>, task: TaskNo) -> bool
    ensures { result ≡ is_that_task over task.0 }
{
    match over {
        None => false,
        Some(running) => running.0 == task.0,
    }
}

/// Whether the task may go before others of the same current priority, where this task was put last.
pub fn may_tie(last: Option<TaskNo>, task: TaskNo) -> bool
    ensures { result ≡ may_tie_of last task.0 }
{
    !is_running(last, task)
}
