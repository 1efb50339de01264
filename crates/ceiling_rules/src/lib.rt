//! The priority ceiling protocol (ISO 17356-3, OSEK priority ceiling protocol): ceilings, current priorities, interrupt
//! levels, and the two resource services, of tasks and of category 2 ISRs.
#![tactic(auto)]

ghost use Rattle.std.specs.{Prelude.{◌≡◌, ◌*◌, ◌<◌, length, Some, None, IsTrue, [], not, All, if◌then◌else◌}, List.{cons_option, list_any}};
ghost use Rattle.osek_standard.specs.{TaskStates.{is_live, held, holds}, States.{task_state, is_taken as is_taken_by, held_by_source}};
ghost use Rattle.osek_standard.specs.Priority.{base_priority as base_priority_of, ceiling as ceiling_of, current_priority as current_priority_of, highest as highest_of};
ghost use Rattle.osek_standard.specs.Services.{answer, maybe_if, is_on_top as is_on_top_of, get_resource as get_resource_row, release_resource as release_resource_row};
ghost use Rattle.osek_standard.specs.{Well.{Well}, Validity.{is_internal}, Internal.{internal_of}};

mod interrupts;

pub use interrupts::{get_resource_isr, interrupt_ceiling, level, release_resource_isr};
use osek_standard::{Activity, App, Source, State, TaskState};
use osek_values::{Ask, ResNo, Status, TaskNo};

/// The ceiling priority of a resource.
pub fn ceiling(app: &App, resource: ResNo) -> u32
    requires { resource.0 < length app.now.resources }
    ensures { result ≡ ceiling_of app.now resource.0 }
{
    app.resource(resource).ceiling
}

/// The base of a task's priorities, on the scale of the ceilings.
fn base_priority(app: &App, task: TaskNo) -> u32
    requires { task.0 < length app.now.tasks }
    ensures { result ≡ base_priority_of app.now task.0 }
{
    2 * app.task(task).priority as u32
}

/// The greatest of a priority and the ceilings of these resources.
#[tactic(auto, unfolding(osek_standard::specs::Priority::highest))]
fn highest(app: &App, base: u32, resources: &[ResNo]) -> u32
    requires { All (λ r. r.0 < length app.now.resources) resources.now }
    ensures { result ≡ highest_of app.now base resources.now }
{
    let mut priority = base;
    for resource in resources {
        priority = priority.max(ceiling(app, *resource));
    }
    priority
}

// with the ceiling of its INTERNAL resource, where a task is inside
#[tactic(auto, unfolding(osek_standard::specs::Priority::highest))]
fn inside_priority(app: &App, task: TaskNo, inside: bool) -> u32
    requires { task.0 < length app.now.tasks }
    ensures { result ≡ highest_of app.now (base_priority_of app.now task.0) (cons_option (if inside then internal_of app.now task.0 else None) []) }
{
    let base = base_priority(app, task);
    if !inside {
        return base;
    }
    match app.task(task).internal {
        Some(resource) => base.max(ceiling(app, resource)),
        None => base,
    }
}

/// The current priority of a Live task: the greatest of its base, the ceilings of the resources that it holds and, where
/// it is inside, that of its INTERNAL resource.
pub fn current_priority(app: &App, state: &State, task: TaskNo) -> u32
    requires known { task.0 < length app.now.tasks }
    requires well { Well app.now state.now }
    requires live { IsTrue (is_live (task_state state.now task.0)) }
    ensures { result ≡ current_priority_of app.now state.now task.0 }
{
    match &state.task(task).activity {
        Activity::Live(standing) => highest(
            app,
            inside_priority(app, task, standing.inside),
            standing.held.as_slice(),
        ),
        Activity::Suspended | Activity::Waiting(_) => base_priority(app, task),
    }
}

fn a_task_holds(tasks: &[TaskState], resource: ResNo) -> bool
    ensures { result ≡ list_any (λ x. holds (held x) resource.0) tasks.now }
{
    tasks.iter().any(|task| task.holds(resource))
}

fn a_routine_holds(sources: &[Source], resource: ResNo) -> bool
    ensures { result ≡ list_any (λ x. holds (held_by_source x) resource.0) sources.now }
{
    sources.iter().any(|source| source.holds(resource))
}

/// Whether the stack of some task or routine has the resource.
fn is_taken(state: &State, resource: ResNo) -> bool
    ensures { result ≡ is_taken_by state.now resource.0 }
{
    a_task_holds(state.tasks.as_slice(), resource)
        || a_routine_holds(state.sources.as_slice(), resource)
}

/// GetResource of a task.
#[tactic(auto, unfolding(osek_standard::specs::Services::get_resource))]
pub fn get_resource(app: &App, state: &mut State, task: TaskNo, resource: ResNo) -> Status
    requires known { task.0 < length app.now.tasks }
    requires resource { resource.0 < length app.now.resources }
    requires takable { IsTrue (not (is_internal app.now.resources resource.0)) }
    requires well { Well app.now state.old }
    requires live { IsTrue (is_live (task_state state.old task.0)) }
    ensures row { get_resource_row app.now state.old task.0 resource ≡ answer state.new (Some result) None Ask.No }
    ensures well { Well app.now state.new }
{
    if is_taken(state, resource) || ceiling(app, resource) < base_priority(app, task) {
        return Status::Access;
    }
    if let Activity::Live(standing) = &mut state.task_mut(task).activity {
        standing.held.push(resource);
    }
    Status::Ok
}

/// Whether the resource is the one that the task took last.
fn is_on_top(state: &State, task: TaskNo, resource: ResNo) -> bool
    requires { task.0 < length state.now.tasks }
    ensures { result ≡ is_on_top_of resource.0 (held (task_state state.now task.0)) }
{
    match &state.task(task).activity {
        Activity::Live(standing) => standing.held.last() == Some(resource),
        Activity::Suspended | Activity::Waiting(_) => false,
    }
}

/// ReleaseResource of a task: the resource that was taken last is released first.
#[tactic(auto, unfolding(osek_standard::specs::Services::release_resource))]
pub fn release_resource(app: &App, state: &mut State, task: TaskNo, resource: ResNo) -> Status
    requires known { task.0 < length app.now.tasks }
    requires resource { resource.0 < length app.now.resources }
    requires well { Well app.now state.old }
    requires live { IsTrue (is_live (task_state state.old task.0)) }
    ensures row { release_resource_row app.now state.old task.0 resource ≡ answer state.new (Some result) None (maybe_if result) }
    ensures well { Well app.now state.new }
{
    if ceiling(app, resource) < base_priority(app, task) {
        return Status::Access;
    }
    if !is_on_top(state, task, resource) {
        return Status::NoFunc;
    }
    if let Activity::Live(standing) = &mut state.task_mut(task).activity {
        standing.held.pop();
    }
    Status::Ok
}
