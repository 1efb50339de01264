//! Interrupt ceilings and levels, and the resource services of category 2 ISRs (ISO 17356-3, resource management in
//! interrupt service routines).
ghost use Rattle.std.specs.{Prelude.{◌≡◌, ◌+◌, ◌<◌, [], length, not, Some, None, IsTrue, All, if◌then◌else◌}, List.{cons_option}};
ghost use Rattle.osek_standard.specs.{Apps.{source_count}, TaskStates.{held}, States.{is_in, held_by_source, source_state, task_of}, Validity.{is_internal}};
ghost use Rattle.osek_standard.specs.Internal.{internal_of};
ghost use Rattle.osek_standard.specs.Levels.{highest_level as highest_level_of, interrupt_ceiling as interrupt_ceiling_of, level as level_of, own_level as own_level_of};
ghost use Rattle.osek_standard.specs.Levels.{routine_level as routine_level_of, task_level as task_level_of};
ghost use Rattle.osek_standard.specs.Services.{answer, is_on_top as is_on_top_of, get_resource_isr as get_resource_row, release_resource_isr as release_resource_row};
ghost use Rattle.osek_standard.specs.Well.{Well};

use crate::is_taken;
use osek_standard::{Activity, App, Source, State};
use osek_values::{Ask, IsrNo, ResNo, SourceNo, Status, TaskNo};

/// The interrupt ceiling of a resource: a routine of a lower priority doesn't begin while it is held.
pub fn interrupt_ceiling(app: &App, resource: ResNo) -> u32
    requires { resource.0 < length app.now.resources }
    ensures { result ≡ interrupt_ceiling_of app.now resource.0 }
{
    app.resource(resource).interrupt_ceiling as u32
}

/// The level of a source's routine, where it holds nothing.
fn own_level(app: &App, source: SourceNo) -> u32
    requires { source.0 < source_count app.now }
    ensures { result ≡ own_level_of app.now source.0 }
{
    app.source_priority(source) as u32 + 1
}

/// The greatest of a level and the interrupt ceilings of these resources.
#[tactic(auto, unfolding(osek_standard::specs::Levels::highest_level))]
fn highest_level(app: &App, own: u32, resources: &[ResNo]) -> u32
    requires { All (λ r. r.0 < length app.now.resources) resources.now }
    ensures { result ≡ highest_level_of app.now own resources.now }
{
    let mut level = own;
    for resource in resources {
        level = level.max(interrupt_ceiling(app, *resource));
    }
    level
}

/// The level of a source's routine; 0 where it isn't running.
fn routine_level(app: &App, state: &State, source: SourceNo) -> u32
    requires known { source.0 < source_count app.now }
    requires well { Well app.now state.now }
    ensures { result ≡ routine_level_of app.now source.0 (source_state state.now source.0) }
{
    match state.sources.at(source.index()) {
        Source::Out => 0,
        Source::In(standing) => {
            highest_level(app, own_level(app, source), standing.held.as_slice())
        }
    }
}

// with the interrupt ceiling of its INTERNAL resource, where a task is inside
#[tactic(auto, unfolding(osek_standard::specs::Levels::highest_level))]
fn inside_level(app: &App, task: TaskNo, inside: bool) -> u32
    requires { task.0 < length app.now.tasks }
    ensures { result ≡ highest_level_of app.now 0 (cons_option (if inside then internal_of app.now task.0 else None) []) }
{
    if !inside {
        return 0;
    }
    match app.task(task).internal {
        Some(resource) => interrupt_ceiling(app, resource),
        None => 0,
    }
}

/// The level of the task that runs or is interrupted; 0 where there is none.
fn task_level(app: &App, state: &State) -> u32
    requires { Well app.now state.now }
    ensures { result ≡ task_level_of app.now state.now (task_of state.now.processor) }
{
    let Some(task) = state.current() else {
        return 0;
    };
    match &state.task(task).activity {
        Activity::Live(standing) => highest_level(
            app,
            inside_level(app, task, standing.inside),
            standing.held.as_slice(),
        ),
        Activity::Suspended | Activity::Waiting(_) => 0,
    }
}

/// The interrupt level: the greatest of those of the routines that began and haven't ended, and of the task that runs or is
/// interrupted. At task level no routine is in.
#[tactic(auto, unfolding(osek_standard::specs::Levels::level))]
pub fn level(app: &App, state: &State) -> u32
    requires { Well app.now state.now }
    ensures { result ≡ level_of app.now state.now }
{
    let mut level = task_level(app, state);
    if !state.processor.is_interrupted() {
        return level;
    }
    for source in 0..state.sources.len() {
        level = level.max(routine_level(app, state, SourceNo(source as u8)));
    }
    level
}

// the source of an ISR: the counters come first
fn source_of(app: &App, isr: IsrNo) -> SourceNo
    requires { isr.0 < length app.now.isrs }
    ensures { result.0 ≡ length app.now.counters + isr.0 }
{
    SourceNo((app.counters.len() + isr.index()) as u8)
}

/// GetResource of an ISR whose routine began and hasn't ended.
#[tactic(auto, unfolding(osek_standard::specs::Services::get_resource_isr))]
pub fn get_resource_isr(app: &App, state: &mut State, isr: IsrNo, resource: ResNo) -> Status
    requires known { isr.0 < length app.now.isrs }
    requires resource { resource.0 < length app.now.resources }
    requires takable { IsTrue (not (is_internal app.now.resources resource.0)) }
    requires well { Well app.now state.old }
    requires began { IsTrue (is_in (source_state state.old (length app.now.counters + isr.0))) }
    ensures row { get_resource_row app.now state.old (length app.now.counters + isr.0) resource ≡ answer state.new (Some result) None Ask.No }
    ensures well { Well app.now state.new }
{
    let source = source_of(app, isr);
    if is_taken(state, resource) || interrupt_ceiling(app, resource) < own_level(app, source) {
        return Status::Access;
    }
    if let Source::In(standing) = state.sources.at_mut(source.index()) {
        standing.held.push(resource);
    }
    Status::Ok
}

/// Whether the resource is the one that the routine took last.
fn is_on_top(state: &State, source: SourceNo, resource: ResNo) -> bool
    requires { source.0 < length state.now.sources }
    ensures { result ≡ is_on_top_of resource.0 (held_by_source (source_state state.now source.0)) }
{
    match state.sources.at(source.index()) {
        Source::Out => false,
        Source::In(standing) => standing.held.last() == Some(resource),
    }
}

/// ReleaseResource of such an ISR: the resource that was taken last is released first.
#[tactic(auto, unfolding(osek_standard::specs::Services::release_resource_isr))]
pub fn release_resource_isr(app: &App, state: &mut State, isr: IsrNo, resource: ResNo) -> Status
    requires known { isr.0 < length app.now.isrs }
    requires resource { resource.0 < length app.now.resources }
    requires well { Well app.now state.old }
    requires began { IsTrue (is_in (source_state state.old (length app.now.counters + isr.0))) }
    ensures row { release_resource_row app.now state.old (length app.now.counters + isr.0) resource ≡ answer state.new (Some result) None Ask.No }
    ensures well { Well app.now state.new }
{
    let source = source_of(app, isr);
    if interrupt_ceiling(app, resource) < own_level(app, source) {
        return Status::Access;
    }
    if !is_on_top(state, source, resource) {
        return Status::NoFunc;
    }
    if let Source::In(standing) = state.sources.at_mut(source.index()) {
        standing.held.pop();
    }
    Status::Ok
}
