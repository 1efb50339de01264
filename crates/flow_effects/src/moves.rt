//! Instructions that do nothing but go on.
ghost use Rattle.std.specs.Prelude.{◌≡◌, ◌++◌, IfOk, OnOk};
ghost use Rattle.flow_effects.specs.Moves.{stays, passes_by, onward, refuses, accepts, goes_on_as, work_cases, choice_cases, all_ended, halts};

use abstract_state::{Component, PartValue, Point, SourceVal, component_number};
use flow_model::{Asked, Change, Condition, EffectCase, Leaving, Runner, Update};
use flow_services::one;
use osek_standard::App;
use osek_values::{BlockNo, Memory, Seq, SourceNo, Status, TaskNo};
use std::alloc::Global;

/// The case in which the runner stays at its block, and nothing changes.
pub fn stays(alloc: Global, runner: Runner, block: BlockNo) -> EffectCase
    ensures { result ≡ stays runner block }
{
    EffectCase {
        conditions: Seq::new(alloc),
        changes: Seq::new(alloc),
        leaving: Leaving::at(runner.at(block), Asked::No, None),
    }
}

fn passes_by(alloc: Global, runner: Runner, next: BlockNo) -> Result<EffectCase, Memory>
    ensures { IfOk result (λ case. case ≡ passes_by runner next) }
{
    runner.goes_on(alloc, next, Seq::new(alloc), Asked::No, None)
}

/// The runner goes on, and nothing else changes.
pub fn onward(alloc: Global, runner: Runner, next: BlockNo) -> Result<Seq<EffectCase>, Memory>
    ensures { IfOk result (λ cases. cases ≡ onward runner next) }
{
    one(alloc, passes_by(alloc, runner, next)?)
}

/// The runner goes on, and its call is refused whatever the values are.
pub fn refuses(
    alloc: Global,
    runner: Runner,
    next: BlockNo,
    status: Status,
) -> Result<Seq<EffectCase>, Memory>
    ensures { IfOk result (λ cases. cases ≡ refuses runner next status) }
{
    one(
        alloc,
        runner.goes_on(alloc, next, Seq::new(alloc), Asked::No, Some(status))?,
    )
}

/// A runner goes on to a block, and its value is another there: its call is accepted.
pub fn accepts(
    alloc: Global,
    runner: Runner,
    next: BlockNo,
    conditions: Seq<Condition>,
    update: Update,
    asked: Asked,
) -> Result<EffectCase, Memory>
    ensures { IfOk result (λ case. case ≡ accepts runner next conditions update asked) }
{
    let mut changes = Seq::new(alloc);
    changes.push(Change {
        component: runner.component(),
        update,
    })?;
    Ok(EffectCase {
        conditions,
        changes,
        leaving: Leaving::at(runner.at(next), asked, Some(Status::Ok)),
    })
}

/// And so does a task.
pub fn goes_on_as(
    alloc: Global,
    task: TaskNo,
    next: BlockNo,
    conditions: Seq<Condition>,
    update: Update,
    asked: Asked,
) -> Result<EffectCase, Memory>
    ensures { IfOk result (λ case. case ≡ goes_on_as task next conditions update asked) }
{
    accepts(alloc, Runner::Task(task), next, conditions, update, asked)
}

/// So many instructions of work: one of them is done, or the last.
pub fn work_cases(
    alloc: Global,
    runner: Runner,
    block: BlockNo,
    next: BlockNo,
    count: u16,
) -> Result<Seq<EffectCase>, Memory>
    ensures { IfOk result (λ cases. cases ≡ work_cases runner block next count) }
{
    let mut cases = Seq::new(alloc);
    if count > 1 {
        cases.push(stays(alloc, runner, block))?;
    }
    cases.push(passes_by(alloc, runner, next)?)?;
    Ok(cases)
}

/// A choice: either way.
pub fn choice_cases(
    alloc: Global,
    runner: Runner,
    next: BlockNo,
    other: BlockNo,
) -> Result<Seq<EffectCase>, Memory>
    ensures { IfOk result (λ cases. cases ≡ choice_cases runner next other) }
{
    let mut cases = Seq::new(alloc);
    cases.push(passes_by(alloc, runner, next)?)?;
    cases.push(passes_by(alloc, runner, other)?)?;
    Ok(cases)
}

/// Adds that no routine is left.
fn add_all_ended(app: &App, changes: &mut Seq<Change>) -> Result<(), Memory>
    ensures { OnOk result (changes.new ≡ changes.old ++ all_ended app.now) }
{
    for source in 0..app.counters.len() + app.isrs.len() {
        changes.push(Change {
            component: component_number(app, Component::Source(SourceNo(source as u8))),
            update: Update::Set(PartValue::OfSource(SourceVal::Out)),
        })?;
    }
    Ok(())
}

/// ShutdownOS: the caller stands at its next block, all routines are over, and the kernel halts.
pub fn halts(
    alloc: Global,
    app: &App,
    runner: Runner,
    next: BlockNo,
) -> Result<Seq<EffectCase>, Memory>
    ensures { IfOk result (λ cases. cases ≡ halts app.now runner next) }
{
    let mut changes = runner.moving(alloc, next)?;
    add_all_ended(app, &mut changes)?;
    one(
        alloc,
        EffectCase {
            conditions: Seq::new(alloc),
            changes,
            leaving: Leaving::at(Point::Halted, Asked::No, None),
        },
    )
}
