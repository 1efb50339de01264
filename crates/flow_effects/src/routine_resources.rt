//! GetResource and ReleaseResource of routines.
ghost use Rattle.std.specs.{Prelude.{◌≡◌, ◌<◌, ◌++◌, map, length, OnOk, IfOk}, List.{range_with_len}};
ghost use Rattle.osek_standard.specs.Apps.{source_count};
ghost use Rattle.flow_model.specs.declared.test.Test.TheVariants.{Holds};
ghost use Rattle.flow_effects.specs.{Conditions.{of_source}, RoutineResources.{is_below, of_all, is_held_by, gets, gives, gives_none, routine_gets, routine_gives}};

use crate::conditions::{if_part, of_source, of_task};
use crate::moves::{accepts, refuses};
use crate::resources::only;
use flow_model::{Asked, Condition, EffectCase, Runner, Test, Update};
use flow_services::one;
use osek_standard::App;
use osek_values::{BlockNo, Memory, ResNo, Seq, SourceNo, Status, TaskNo};
use std::alloc::Global;

/// Whether the interrupt ceiling of a resource is below a routine's own level.
fn is_below(app: &App, source: SourceNo, resource: ResNo) -> bool
    requires source { source.0 < source_count app.now }
    requires resource { resource.0 < length app.now.resources }
    ensures { result ≡ is_below app.now source resource }
{
    (app.resource(resource).interrupt_ceiling as u32) < app.source_priority(source) as u32 + 1
}

/// A test of each task, and of each source.
fn of_all(alloc: Global, app: &App, test: &Test) -> Result<Seq<Condition>, Memory>
    ensures { IfOk result (λ conditions. conditions ≡ of_all app.now test.now) }
{
    let mut conditions = Seq::new(alloc);
    for task in 0..app.tasks.len() {
        let test = test.copy(alloc)?;
        conditions.push(of_task(TaskNo(task as u8), test))?;
    }
    add_of_sources(alloc, app, test, &mut conditions)?;
    Ok(conditions)
}

fn add_of_sources(
    alloc: Global,
    app: &App,
    test: &Test,
    conditions: &mut Seq<Condition>,
) -> Result<(), Memory>
    ensures { OnOk result (conditions.new ≡ conditions.old ++ map (λ l. of_source app.now l test.now) (range_with_len 0 (source_count app.now))) }
{
    for source in 0..app.counters.len() + app.isrs.len() {
        let test = test.copy(alloc)?;
        conditions.push(of_source(app, SourceNo(source as u8), test))?;
    }
    Ok(())
}

/// Who passes a condition has the resource: the call is refused.
fn is_held_by(
    alloc: Global,
    runner: Runner,
    next: BlockNo,
    holder: &Condition,
) -> Result<EffectCase, Memory>
    ensures { IfOk result (λ case. case ≡ is_held_by runner next holder.now) }
{
    let mut conditions = Seq::new(alloc);
    conditions.push(holder.copy(alloc)?)?;
    runner.goes_on(alloc, next, conditions, Asked::No, Some(Status::Access))
}

/// Some task or routine has the resource: the call is refused.
fn held_cases(
    alloc: Global,
    app: &App,
    runner: Runner,
    next: BlockNo,
    resource: ResNo,
) -> Result<Seq<EffectCase>, Memory>
    ensures { IfOk result (λ cases. cases ≡ map (is_held_by runner next) (of_all app.now (Holds resource))) }
{
    let holders = of_all(alloc, app, &Test::Holds(resource))?;
    let mut cases = Seq::new(alloc);
    for holder in holders.as_slice() {
        cases.push(is_held_by(alloc, runner, next, holder)?)?;
    }
    Ok(cases)
}

/// The case in which nobody has the resource, and the routine takes it.
fn gets(
    alloc: Global,
    app: &App,
    runner: Runner,
    next: BlockNo,
    resource: ResNo,
) -> Result<EffectCase, Memory>
    requires { resource.0 < 64 }
    ensures { IfOk result (λ case. case ≡ gets app.now runner next resource) }
{
    let conditions = of_all(alloc, app, &Test::HoldsNoneOf(only(resource)))?;
    let update = Update::Take {
        resource,
        block: next,
    };
    accepts(alloc, runner, next, conditions, update, Asked::No)
}

/// GetResource of a routine.
pub fn routine_gets(
    alloc: Global,
    app: &App,
    runner: Runner,
    source: SourceNo,
    next: BlockNo,
    resource: ResNo,
) -> Result<Seq<EffectCase>, Memory>
    requires source { source.0 < source_count app.now }
    requires resource { resource.0 < length app.now.resources }
    ensures { IfOk result (λ cases. cases ≡ routine_gets app.now runner next resource source) }
{
    if is_below(app, source, resource) {
        return refuses(alloc, runner, next, Status::Access);
    }
    let mut cases = held_cases(alloc, app, runner, next, resource)?;
    cases.push(gets(alloc, app, runner, next, resource)?)?;
    Ok(cases)
}

/// The case in which the resource is on top of the routine's stack, and is given back.
fn gives(
    alloc: Global,
    runner: Runner,
    next: BlockNo,
    resource: ResNo,
) -> Result<EffectCase, Memory>
    ensures { IfOk result (λ case. case ≡ gives runner next resource) }
{
    let conditions = if_part(alloc, runner.component(), Test::OnTop(resource))?;
    accepts(
        alloc,
        runner,
        next,
        conditions,
        Update::Give { block: next },
        Asked::No,
    )
}

/// The case in which it isn't on top, and the call is refused.
fn gives_none(
    alloc: Global,
    runner: Runner,
    next: BlockNo,
    resource: ResNo,
) -> Result<EffectCase, Memory>
    ensures { IfOk result (λ case. case ≡ gives_none runner next resource) }
{
    let conditions = if_part(alloc, runner.component(), Test::NotOnTop(resource))?;
    runner.goes_on(alloc, next, conditions, Asked::No, Some(Status::NoFunc))
}

/// ReleaseResource of a routine.
pub fn routine_gives(
    alloc: Global,
    app: &App,
    runner: Runner,
    source: SourceNo,
    next: BlockNo,
    resource: ResNo,
) -> Result<Seq<EffectCase>, Memory>
    requires source { source.0 < source_count app.now }
    requires resource { resource.0 < length app.now.resources }
    ensures { IfOk result (λ cases. cases ≡ routine_gives app.now runner next resource source) }
{
    if is_below(app, source, resource) {
        return refuses(alloc, runner, next, Status::Access);
    }
    let mut cases = one(alloc, gives(alloc, runner, next, resource)?)?;
    cases.push(gives_none(alloc, runner, next, resource)?)?;
    Ok(cases)
}
