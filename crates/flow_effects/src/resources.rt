//! GetResource and ReleaseResource.
ghost use Rattle.std.specs.Prelude.{◌≡◌, ◌<◌, ◌≤◌, [], ◌∷◌, ◌++◌, length, OnOk, IfOk};
ghost use Rattle.flow_model.specs.Runners.{IsRunnerOf};
ghost use Rattle.flow_effects.specs.Resources.{only, nobody_holds, taken_cases, takes, gives_back, isnt_on_top, is_barred, get_cases, release_cases};

use crate::conditions::{if_task, of_task};
use crate::moves::{goes_on_as, refuses};
use crate::routine_resources::{routine_gets, routine_gives};
use flow_model::{Asked, Condition, EffectCase, Runner, Test, Update};
use flow_services::one;
use osek_standard::App;
use osek_values::limits::MAX_TASKS;
use osek_values::{BlockNo, Mask, Memory, ResNo, Seq, Status, TaskNo};
use std::alloc::Global;

/// The mask of one resource.
pub fn only(resource: ResNo) -> Mask
    requires { resource.0 < 64 }
    ensures { result.0 ≡ only resource }
{
    Mask(1 << resource.0)
}

/// Adds that no task holds the resource.
fn add_nobody_holds(
    conditions: &mut Seq<Condition>,
    resource: ResNo,
    tasks: usize,
) -> Result<(), Memory>
    requires known { resource.0 < 64 }
    requires few { tasks ≤ MAX_TASKS }
    ensures { OnOk result (conditions.new ≡ conditions.old ++ nobody_holds resource tasks) }
{
    for task in 0..tasks {
        let test = Test::HoldsNoneOf(only(resource));
        conditions.push(of_task(TaskNo(task as u8), test))?;
    }
    Ok(())
}

/// Some task has the resource: the call is refused.
fn taken_cases(
    alloc: Global,
    task: TaskNo,
    next: BlockNo,
    resource: ResNo,
    tasks: usize,
) -> Result<Seq<EffectCase>, Memory>
    requires { tasks ≤ MAX_TASKS }
    ensures { IfOk result (λ cases. cases ≡ taken_cases task next resource tasks) }
{
    let mut cases = Seq::new(alloc);
    for other in 0..tasks {
        let conditions = if_task(alloc, TaskNo(other as u8), Test::Holds(resource))?;
        let status = Some(Status::Access);
        cases.push(Runner::Task(task).goes_on(alloc, next, conditions, Asked::No, status)?)?;
    }
    Ok(cases)
}

/// The case in which no task has the resource, and the caller takes it.
fn takes(
    alloc: Global,
    task: TaskNo,
    next: BlockNo,
    resource: ResNo,
    tasks: usize,
) -> Result<EffectCase, Memory>
    requires known { resource.0 < 64 }
    requires few { tasks ≤ MAX_TASKS }
    ensures { IfOk result (λ case. case ≡ takes task next resource tasks) }
{
    let mut conditions = Seq::new(alloc);
    add_nobody_holds(&mut conditions, resource, tasks)?;
    let update = Update::Take {
        resource,
        block: next,
    };
    goes_on_as(alloc, task, next, conditions, update, Asked::No)
}

/// Whether the ceiling of a resource is below the task's own priority.
fn is_barred(app: &App, task: TaskNo, resource: ResNo) -> bool
    requires task { task.0 < length app.now.tasks }
    requires resource { resource.0 < length app.now.resources }
    ensures { result ≡ is_barred app.now task resource }
{
    app.resource(resource).ceiling < 2 * app.task(task).priority as u32
}

/// GetResource of a task that isn't barred from the resource.
fn free_cases(
    alloc: Global,
    app: &App,
    task: TaskNo,
    next: BlockNo,
    resource: ResNo,
) -> Result<Seq<EffectCase>, Memory>
    requires task { task.0 < length app.now.tasks }
    requires resource { resource.0 < length app.now.resources }
    ensures { IfOk result (λ cases. cases ≡ taken_cases task next resource (length app.now.tasks) ++ takes task next resource (length app.now.tasks) ∷ []) }
{
    let tasks = app.tasks.len();
    let mut cases = taken_cases(alloc, task, next, resource, tasks)?;
    cases.push(takes(alloc, task, next, resource, tasks)?)?;
    Ok(cases)
}

/// GetResource.
pub fn get_cases(
    alloc: Global,
    app: &App,
    runner: Runner,
    next: BlockNo,
    resource: ResNo,
) -> Result<Seq<EffectCase>, Memory>
    requires known { IsRunnerOf app.now runner }
    requires resource { resource.0 < length app.now.resources }
    ensures { IfOk result (λ cases. cases ≡ get_cases app.now runner next resource) }
{
    match runner {
        Runner::Task(task) => {
            if is_barred(app, task, resource) {
                return refuses(alloc, runner, next, Status::Access);
            }
            free_cases(alloc, app, task, next, resource)
        }
        Runner::Routine { source, .. } => {
            routine_gets(alloc, app, runner, source, next, resource)
        }
    }
}

/// The case in which the resource is on top of the caller's stack, and is given back.
fn gives_back(
    alloc: Global,
    app: &App,
    task: TaskNo,
    next: BlockNo,
    resource: ResNo,
) -> Result<EffectCase, Memory>
    requires { task.0 < length app.now.tasks }
    ensures { IfOk result (λ case. case ≡ gives_back app.now task next resource) }
{
    let conditions = if_task(alloc, task, Test::OnTop(resource))?;
    let update = Update::Give { block: next };
    let asked = Runner::Task(task).asked(app);
    goes_on_as(alloc, task, next, conditions, update, asked)
}

/// The case in which it isn't on top, and the call is refused.
fn isnt_on_top(
    alloc: Global,
    task: TaskNo,
    next: BlockNo,
    resource: ResNo,
) -> Result<EffectCase, Memory>
    ensures { IfOk result (λ case. case ≡ isnt_on_top task next resource) }
{
    let conditions = if_task(alloc, task, Test::NotOnTop(resource))?;
    Runner::Task(task).goes_on(alloc, next, conditions, Asked::No, Some(Status::NoFunc))
}

/// ReleaseResource.
pub fn release_cases(
    alloc: Global,
    app: &App,
    runner: Runner,
    next: BlockNo,
    resource: ResNo,
) -> Result<Seq<EffectCase>, Memory>
    requires known { IsRunnerOf app.now runner }
    requires resource { resource.0 < length app.now.resources }
    ensures { IfOk result (λ cases. cases ≡ release_cases app.now runner next resource) }
{
    match runner {
        Runner::Task(task) => {
            if is_barred(app, task, resource) {
                return refuses(alloc, runner, next, Status::Access);
            }
            let mut cases = one(alloc, gives_back(alloc, app, task, next, resource)?)?;
            cases.push(isnt_on_top(alloc, task, next, resource)?)?;
            Ok(cases)
        }
        Runner::Routine { source, .. } => {
            routine_gives(alloc, app, runner, source, next, resource)
        }
    }
}
