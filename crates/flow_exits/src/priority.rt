//! Current priorities of tasks by their values.
ghost use Rattle.std.specs.{Prelude.{◌≡◌, ◌<◌, [], length, None, if◌then◌else◌}, List.{cons_option}};
ghost use Rattle.osek_standard.specs.Internal.{internal_of};
ghost use Rattle.osek_standard.specs.Priority.{base_priority as base_priority_of, ceiling as ceiling_of, highest as highest_of};
ghost use Rattle.abstract_state.specs.declared.value.Val.TheVariants as val;
ghost use Rattle.abstract_state.specs.Concrete.{val_of};
ghost use Rattle.flow_model.specs.Values.{value_priority};
ghost use Rattle.flow_exits.specs.Candidates.{candidate_of};

use abstract_state::{LiveVal, PartValue, Val};
use osek_standard::App;
use osek_values::{BlockNo, ResNo, TaskNo};

/// What the scheduler reads of a Live task: its current priority, and the block at which it stands.
#[derive(Clone, Copy)]
pub struct Candidate {
    pub priority: u32,
    pub block: BlockNo,
}

/// The ceiling priority of a resource, 0 past the end of the table.
fn ceiling(app: &App, resource: ResNo) -> u32
    ensures { result ≡ ceiling_of app.now resource.0 }
{
    if resource.index() < app.resources.len() {
        app.resource(resource).ceiling
    } else {
        0
    }
}

/// The base of a task's priorities, on the scale of the ceilings.
fn base_priority(app: &App, task: TaskNo) -> u32
    requires { task.0 < length app.now.tasks }
    ensures { result ≡ base_priority_of app.now task.0 }
{
    2 * app.task(task).priority as u32
}

/// The greatest of a base and the ceilings of resources.
#[tactic(auto, unfolding(osek_standard::specs::Priority::highest))]
fn highest(app: &App, base: u32, held: &[ResNo]) -> u32
    ensures { result ≡ highest_of app.now base held.now }
{
    let mut priority = base;
    for resource in held {
        priority = priority.max(ceiling(app, *resource));
    }
    priority
}

// with the ceiling of its INTERNAL resource, where a task is inside
#[tactic(auto, unfolding(osek_standard::specs::Priority::highest))]
fn inside_priority(app: &App, task: TaskNo, inside: bool) -> u32
    requires { task.0 < length app.now.tasks }
    ensures { result ≡ highest_of app.now (base_priority_of app.now task.0) (cons_option (if inside then internal_of app.now task.0 else None) []) }
{
    let base = base_priority(app, task);
    if !inside {
        return base;
    }
    match app.task(task).internal {
        Some(resource) => base.max(ceiling(app, resource)),
        None => base,
    }
}

fn priority_of(app: &App, task: TaskNo, live: &LiveVal) -> u32
    requires { task.0 < length app.now.tasks }
    ensures { result ≡ value_priority app.now task.0 (val.Live live.now) }
{
    highest(
        app,
        inside_priority(app, task, live.inside),
        live.held.as_slice(),
    )
}

/// What the scheduler reads of a task with this value, if it is Live.
pub fn as_candidate(app: &App, task: TaskNo, value: &PartValue) -> Option<Candidate>
    requires { task.0 < length app.now.tasks }
    ensures { result ≡ candidate_of app.now task.0 (val_of value.now) }
{
    match value {
        PartValue::OfTask(Val::Live(live)) => Some(Candidate {
            priority: priority_of(app, task, live),
            block: live.block,
        }),
        PartValue::OfTask(Val::Suspended | Val::Waiting(_)) => None,
        PartValue::OfEvent(_) | PartValue::OfAlarm(_) | PartValue::OfSource(_) => None,
    }
}
