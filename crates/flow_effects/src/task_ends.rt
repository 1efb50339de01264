//! The end of a task, and TerminateTask, ChainTask and Schedule.
ghost use Rattle.std.specs.Prelude.{◌≡◌, ◌<◌, ◌++◌, length, IfOk, OnOk};
ghost use Rattle.flow_model.specs.Runners.{IsKnown};
ghost use Rattle.flow_effects.specs.TaskEnds.{further_test, end_change, ends, task_end_cases, refused_holding, terminate_cases, chains_start, chains_more};
ghost use Rattle.flow_effects.specs.TaskEnds.{holding_nothing_and, chain_to_itself, limited, starting_chains, further_chains, chain_to_another, chain_cases, reschedules, schedule_cases};

use crate::conditions::{if_task, of_task};
use crate::moves::{goes_on_as, refuses, stays};
use abstract_state::{ComponentNo, PartValue, Point, Val};
use flow_model::{Asked, Change, Condition, EffectCase, Leaving, Runner, Test, Update};
use flow_services::{add_activating, add_activating_more, one};
use osek_standard::App;
use osek_values::{BlockNo, Memory, Seq, Status, TaskNo};
use std::alloc::Global;

/// Whether a further activation of a task is left, as a test.
fn further_test(further: bool) -> Test
    ensures { result ≡ further_test further }
{
    if further {
        Test::SomeFurther
    } else {
        Test::NoFurther
    }
}

/// What becomes of a task that ends: it begins anew for a further activation, and else is suspended.
fn end_change(app: &App, task: TaskNo, further: bool) -> Change
    requires { task.0 < length app.now.tasks }
    ensures { result ≡ end_change app.now task further }
{
    let update = if further {
        Update::Again(app.task(task).first)
    } else {
        Update::Set(PartValue::OfTask(Val::Suspended))
    };
    Change {
        component: ComponentNo(task.0 as u16),
        update,
    }
}

/// The case in which a task ends and leaves the processor, and some further activation of it is left, or none.
fn ends(
    alloc: Global,
    app: &App,
    task: TaskNo,
    mut conditions: Seq<Condition>,
    further: bool,
) -> Result<EffectCase, Memory>
    requires { task.0 < length app.now.tasks }
    ensures { IfOk result (λ case. case ≡ ends app.now task conditions further) }
{
    conditions.push(of_task(task, further_test(further)))?;
    let mut changes = Seq::new(alloc);
    changes.push(end_change(app, task, further))?;
    Ok(EffectCase {
        conditions,
        changes,
        leaving: Leaving::at(Point::Idle, Asked::Left, None),
    })
}

/// The closing brace of a task.
pub fn task_end_cases(
    alloc: Global,
    app: &App,
    runner: Runner,
    block: BlockNo,
) -> Result<Seq<EffectCase>, Memory>
    requires { IsKnown app.now runner }
    ensures { IfOk result (λ cases. cases ≡ task_end_cases app.now runner block) }
{
    match runner {
        Runner::Task(task) => {
            let mut cases = one(alloc, ends(alloc, app, task, Seq::new(alloc), false)?)?;
            cases.push(ends(alloc, app, task, Seq::new(alloc), true)?)?;
            Ok(cases)
        }
        Runner::Routine { .. } => one(alloc, stays(alloc, runner, block)),
    }
}

/// The case in which a call is refused, since its task holds a resource.
pub fn refused_holding(alloc: Global, task: TaskNo, next: BlockNo) -> Result<EffectCase, Memory>
    ensures { IfOk result (λ case. case ≡ refused_holding task next) }
{
    let conditions = if_task(alloc, task, Test::HoldsSome)?;
    Runner::Task(task).goes_on(alloc, next, conditions, Asked::No, Some(Status::Resource))
}

/// TerminateTask.
pub fn terminate_cases(
    alloc: Global,
    app: &App,
    runner: Runner,
    next: BlockNo,
) -> Result<Seq<EffectCase>, Memory>
    requires { IsKnown app.now runner }
    ensures { IfOk result (λ cases. cases ≡ terminate_cases app.now runner next) }
{
    match runner {
        Runner::Task(task) => {
            let mut cases = one(alloc, refused_holding(alloc, task, next)?)?;
            let last = if_task(alloc, task, Test::HoldsNothing)?;
            cases.push(ends(alloc, app, task, last, false)?)?;
            let more = if_task(alloc, task, Test::HoldsNothing)?;
            cases.push(ends(alloc, app, task, more, true)?)?;
            Ok(cases)
        }
        Runner::Routine { .. } => refuses(alloc, runner, next, Status::CallLevel),
    }
}

/// The case in which a task ends, and then another or itself begins, the last of its priority.
fn chains_start(
    alloc: Global,
    app: &App,
    task: TaskNo,
    chained: TaskNo,
    mut conditions: Seq<Condition>,
    further: bool,
) -> Result<EffectCase, Memory>
    requires task { task.0 < length app.now.tasks }
    requires chained { chained.0 < length app.now.tasks }
    ensures { IfOk result (λ case. case ≡ chains_start app.now task chained conditions further) }
{
    conditions.push(of_task(task, further_test(further)))?;
    let mut changes = Seq::new(alloc);
    changes.push(end_change(app, task, further))?;
    add_activating(app, chained, &mut changes)?;
    Ok(EffectCase {
        conditions,
        changes,
        leaving: Leaving::at(Point::Idle, Asked::Left, None).with_last(Some(chained)),
    })
}

/// The case in which a task ends, and then another or itself has a further activation more.
fn chains_more(
    alloc: Global,
    app: &App,
    task: TaskNo,
    chained: TaskNo,
    mut conditions: Seq<Condition>,
    further: bool,
) -> Result<EffectCase, Memory>
    requires { task.0 < length app.now.tasks }
    ensures { IfOk result (λ case. case ≡ chains_more app.now task chained conditions further) }
{
    conditions.push(of_task(task, further_test(further)))?;
    let mut changes = Seq::new(alloc);
    changes.push(end_change(app, task, further))?;
    add_activating_more(chained, &mut changes)?;
    Ok(EffectCase {
        conditions,
        changes,
        leaving: Leaving::at(Point::Idle, Asked::Left, None),
    })
}

/// That a task holds nothing, and a test of another.
fn holding_nothing_and(
    alloc: Global,
    task: TaskNo,
    other: TaskNo,
    test: Test,
) -> Result<Seq<Condition>, Memory>
    ensures { IfOk result (λ conditions. conditions ≡ holding_nothing_and task other test) }
{
    let mut conditions = if_task(alloc, task, Test::HoldsNothing)?;
    conditions.push(of_task(other, test))?;
    Ok(conditions)
}

/// ChainTask of a task to itself.
fn chain_to_itself(
    alloc: Global,
    app: &App,
    task: TaskNo,
    next: BlockNo,
    chained: TaskNo,
) -> Result<Seq<EffectCase>, Memory>
    requires task { task.0 < length app.now.tasks }
    requires chained { chained.0 < length app.now.tasks }
    ensures { IfOk result (λ cases. cases ≡ chain_to_itself app.now task next chained) }
{
    let mut cases = one(alloc, refused_holding(alloc, task, next)?)?;
    let last = if_task(alloc, task, Test::HoldsNothing)?;
    cases.push(chains_start(alloc, app, task, chained, last, false)?)?;
    let more = if_task(alloc, task, Test::HoldsNothing)?;
    cases.push(chains_more(alloc, app, task, chained, more, true)?)?;
    Ok(cases)
}

/// The case in which the other task takes no further activation, and the call is refused.
fn limited(
    alloc: Global,
    app: &App,
    task: TaskNo,
    next: BlockNo,
    chained: TaskNo,
) -> Result<EffectCase, Memory>
    requires { chained.0 < length app.now.tasks }
    ensures { IfOk result (λ case. case ≡ limited app.now task next chained) }
{
    let full = Test::Full(app.task(chained).activation);
    let conditions = holding_nothing_and(alloc, task, chained, full)?;
    Runner::Task(task).goes_on(alloc, next, conditions, Asked::No, Some(Status::Limit))
}

/// Adds the cases in which the other task is suspended, and begins.
fn add_starting_chains(
    alloc: Global,
    app: &App,
    task: TaskNo,
    chained: TaskNo,
    cases: &mut Seq<EffectCase>,
) -> Result<(), Memory>
    requires task { task.0 < length app.now.tasks }
    requires chained { chained.0 < length app.now.tasks }
    ensures { OnOk result (cases.new ≡ cases.old ++ starting_chains app.now task chained) }
{
    let last = holding_nothing_and(alloc, task, chained, Test::Suspended)?;
    cases.push(chains_start(alloc, app, task, chained, last, false)?)?;
    let more = holding_nothing_and(alloc, task, chained, Test::Suspended)?;
    cases.push(chains_start(alloc, app, task, chained, more, true)?)?;
    Ok(())
}

/// Adds the cases in which the other task is Live, and takes a further activation.
fn add_further_chains(
    alloc: Global,
    app: &App,
    task: TaskNo,
    chained: TaskNo,
    cases: &mut Seq<EffectCase>,
) -> Result<(), Memory>
    requires task { task.0 < length app.now.tasks }
    requires chained { chained.0 < length app.now.tasks }
    ensures { OnOk result (cases.new ≡ cases.old ++ further_chains app.now task chained) }
{
    let most = app.task(chained).activation;
    let last = holding_nothing_and(alloc, task, chained, Test::Room(most))?;
    cases.push(chains_more(alloc, app, task, chained, last, false)?)?;
    let more = holding_nothing_and(alloc, task, chained, Test::Room(most))?;
    cases.push(chains_more(alloc, app, task, chained, more, true)?)?;
    Ok(())
}

/// ChainTask of a task to another.
fn chain_to_another(
    alloc: Global,
    app: &App,
    task: TaskNo,
    next: BlockNo,
    chained: TaskNo,
) -> Result<Seq<EffectCase>, Memory>
    requires task { task.0 < length app.now.tasks }
    requires chained { chained.0 < length app.now.tasks }
    ensures { IfOk result (λ cases. cases ≡ chain_to_another app.now task next chained) }
{
    let mut cases = one(alloc, refused_holding(alloc, task, next)?)?;
    cases.push(limited(alloc, app, task, next, chained)?)?;
    add_starting_chains(alloc, app, task, chained, &mut cases)?;
    add_further_chains(alloc, app, task, chained, &mut cases)?;
    Ok(cases)
}

/// ChainTask.
pub fn chain_cases(
    alloc: Global,
    app: &App,
    runner: Runner,
    next: BlockNo,
    chained: TaskNo,
) -> Result<Seq<EffectCase>, Memory>
    requires known { IsKnown app.now runner }
    requires chained { chained.0 < length app.now.tasks }
    ensures { IfOk result (λ cases. cases ≡ chain_cases app.now runner next chained) }
{
    match runner {
        Runner::Task(task) => {
            if chained == task {
                return chain_to_itself(alloc, app, task, next, chained);
            }
            chain_to_another(alloc, app, task, next, chained)
        }
        Runner::Routine { .. } => refuses(alloc, runner, next, Status::CallLevel),
    }
}

/// The case in which Schedule is accepted: the task gives its INTERNAL resource back, and is rescheduled also where it is
/// non-preemptive.
fn reschedules(alloc: Global, task: TaskNo, next: BlockNo) -> Result<EffectCase, Memory>
    ensures { IfOk result (λ case. case ≡ reschedules task next) }
{
    let conditions = if_task(alloc, task, Test::HoldsNothing)?;
    let asked = Asked::Maybe(task);
    goes_on_as(alloc, task, next, conditions, Update::Leave(next), asked)
}

/// Schedule.
pub fn schedule_cases(
    alloc: Global,
    runner: Runner,
    next: BlockNo,
) -> Result<Seq<EffectCase>, Memory>
    ensures { IfOk result (λ cases. cases ≡ schedule_cases runner next) }
{
    match runner {
        Runner::Task(task) => {
            let mut cases = one(alloc, refused_holding(alloc, task, next)?)?;
            cases.push(reschedules(alloc, task, next)?)?;
            Ok(cases)
        }
        Runner::Routine { .. } => refuses(alloc, runner, next, Status::CallLevel),
    }
}
