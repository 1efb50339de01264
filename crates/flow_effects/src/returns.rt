//! The end of a routine.
ghost use Rattle.std.specs.Prelude.{◌≡◌, ◌<◌, ◌++◌, ◌∷◌, [], length, map, IfOk, OnOk, IfSome};
ghost use Rattle.osek_standard.specs.{Apps.{source_count}, Levels.{comes_before}};
ghost use Rattle.abstract_state.specs.Components.{component_number as component_number_of};
ghost use Rattle.abstract_state.specs.declared.value.Component.TheVariants.{Source};
ghost use Rattle.flow_model.specs.Runners.{IsRunnerOf};
ghost use Rattle.flow_effects.specs.Returns.{ended, given_back, others, is_before, before, are_out, goes_first, last_source, last_return, nested_return, may_be_in, nested, routine_returns, return_cases};
ghost use Rattle.flow_effects.specs.Outs.{is_known_out};

use crate::moves::stays;
use abstract_state::{Component, ComponentNo, PartValue, Point, SourceVal, component_number};
use flow_model::{Asked, Change, Condition, EffectCase, Leaving, Runner, Stay, Test, Update};
use flow_services::one;
use osek_standard::App;
use osek_values::{BlockNo, Memory, Seq, SourceNo, TaskNo};
use std::alloc::Global;

/// A routine that ends, with its component, over what it interrupted; and the component of the last source, by which those
/// of the others are counted.
#[derive(Drop)]
struct Ending {
    source: SourceNo,
    component: ComponentNo,
    over: Option<TaskNo>,
    last: ComponentNo,
}

/// What an end leaves to the scheduler after which no routine is in: the processor goes back to the task that was
/// interrupted, where that stands, or to none.
fn given_back(app: &App, over: Option<TaskNo>) -> Leaving
    requires { IfSome over (λ t. t.0 < length app.now.tasks) }
    ensures { result ≡ given_back app.now over }
{
    match over {
        None => Leaving::at(Point::Idle, Asked::Free, None),
        Some(task) => Leaving {
            asked: Runner::Task(task).asked(app),
            last: None,
            stay: Stay::AtBlockOf(Runner::Task(task)),
            status: None,
        },
    }
}

/// The routine with this component is over.
fn ended(alloc: Global, component: ComponentNo) -> Result<Seq<Change>, Memory>
    ensures { IfOk result (λ changes. changes ≡ ended component) }
{
    let mut changes = Seq::new(alloc);
    changes.push(Change {
        component,
        update: Update::Set(PartValue::OfSource(SourceVal::Out)),
    })?;
    Ok(changes)
}

/// The component of the last source.
fn last_source(app: &App) -> ComponentNo
    requires { 0 < source_count app.now }
    ensures { result.0 ≡ last_source app.now }
{
    let last = app.counters.len() + app.isrs.len() - 1;
    component_number(app, Component::Source(SourceNo(last as u8)))
}

/// The component of a source, by that of the last one.
fn counted(app: &App, last: ComponentNo, source: SourceNo) -> ComponentNo
    requires last { last.0 ≡ last_source app.now }
    requires source { source.0 < source_count app.now }
    ensures { result.0 ≡ component_number_of app.now (Source source) }
{
    let behind = app.counters.len() + app.isrs.len() - 1 - source.index();
    ComponentNo(last.0 - behind as u16)
}

/// Whether the routine of a source goes on before another one's.
fn comes_before(app: &App, first: SourceNo, second: SourceNo) -> bool
    requires first { first.0 < source_count app.now }
    requires second { second.0 < source_count app.now }
    ensures { result ≡ comes_before app.now first.0 second.0 }
{
    let lower = app.source_priority(second);
    let higher = app.source_priority(first);
    lower < higher || (higher == lower && first.0 <= second.0)
}

/// Whether another routine than the one that ends goes on before one that may.
fn is_before(app: &App, ending: SourceNo, next: SourceNo, source: SourceNo) -> bool
    requires next { next.0 < source_count app.now }
    requires source { source.0 < source_count app.now }
    ensures { result ≡ is_before app.now ending next.0 source.0 }
{
    source.0 != ending.0 && comes_before(app, source, next) && source.0 != next.0
}

/// Adds that a source is out.
fn add_out(
    app: &App,
    last: ComponentNo,
    source: SourceNo,
    conditions: &mut Seq<Condition>,
) -> Result<(), Memory>
    requires last { last.0 ≡ last_source app.now }
    requires source { source.0 < source_count app.now }
    ensures { OnOk result (conditions.new ≡ conditions.old ++ are_out app.now (source.0 ∷ [])) }
{
    conditions.push(Condition {
        component: counted(app, last, source),
        test: Test::Is(PartValue::OfSource(SourceVal::Out)),
    })?;
    Ok(())
}

/// The sources beside one are out.
fn others_out(
    alloc: Global,
    app: &App,
    last: ComponentNo,
    ending: SourceNo,
) -> Result<Seq<Condition>, Memory>
    requires { last.0 ≡ last_source app.now }
    ensures { IfOk result (λ conditions. conditions ≡ are_out app.now (others app.now ending)) }
{
    let count = app.counters.len() + app.isrs.len();
    let mut conditions = Seq::of(Vec::with_capacity(alloc, count)?);
    for source in 0..count {
        let source = SourceNo(source as u8);
        if source.0 != ending.0 {
            add_out(app, last, source, &mut conditions)?;
        }
    }
    Ok(conditions)
}

/// Adds that the sources beside one that come before another are out.
fn add_before_out(
    app: &App,
    last: ComponentNo,
    ending: SourceNo,
    next: SourceNo,
    conditions: &mut Seq<Condition>,
) -> Result<(), Memory>
    requires last { last.0 ≡ last_source app.now }
    requires next { next.0 < source_count app.now }
    ensures { OnOk result (conditions.new ≡ conditions.old ++ are_out app.now (before app.now ending next.0)) }
{
    for source in 0..app.counters.len() + app.isrs.len() {
        let source = SourceNo(source as u8);
        if is_before(app, ending, next, source) {
            add_out(app, last, source, conditions)?;
        }
    }
    Ok(())
}

/// The case in which no other routine is in: the processor goes back to what they interrupted.
fn last_return(alloc: Global, app: &App, ending: &Ending) -> Result<EffectCase, Memory>
    requires over { IfSome ending.now.over (λ t. t.0 < length app.now.tasks) }
    requires last { ending.now.last.0 ≡ last_source app.now }
    ensures { IfOk result (λ case. case ≡ last_return app.now ending.now.source ending.now.component ending.now.over) }
{
    Ok(EffectCase {
        conditions: others_out(alloc, app, ending.last, ending.source)?,
        changes: ended(alloc, ending.component)?,
        leaving: given_back(app, ending.over),
    })
}

/// The conditions of the case in which another routine goes on: it is in, and none that comes before it.
fn goes_first(
    alloc: Global,
    app: &App,
    ending: &Ending,
    next: SourceNo,
) -> Result<Seq<Condition>, Memory>
    requires last { ending.now.last.0 ≡ last_source app.now }
    requires next { next.0 < source_count app.now }
    ensures { IfOk result (λ conditions. conditions ≡ goes_first app.now ending.now.source next.0) }
{
    let count = app.counters.len() + app.isrs.len();
    let mut conditions = Seq::of(Vec::with_capacity(alloc, count)?);
    conditions.push(Condition {
        component: counted(app, ending.last, next),
        test: Test::IsNot(PartValue::OfSource(SourceVal::Out)),
    })?;
    add_before_out(app, ending.last, ending.source, next, &mut conditions)?;
    Ok(conditions)
}

/// The case in which another routine goes on.
fn nested_return(
    alloc: Global,
    app: &App,
    ending: &Ending,
    next: SourceNo,
) -> Result<EffectCase, Memory>
    requires last { ending.now.last.0 ≡ last_source app.now }
    requires next { next.0 < source_count app.now }
    ensures { IfOk result (λ case. case ≡ nested_return app.now ending.now.source ending.now.component ending.now.over next.0) }
{
    let runner = Runner::Routine {
        source: next,
        component: counted(app, ending.last, next),
        over: ending.over,
    };
    Ok(EffectCase {
        conditions: goes_first(alloc, app, ending, next)?,
        changes: ended(alloc, ending.component)?,
        leaving: Leaving {
            asked: Asked::No,
            last: None,
            stay: Stay::AtBlockOf(runner),
            status: None,
        },
    })
}

/// Whether a source is known to be out.
fn is_known_out(outs: &[bool], source: SourceNo) -> bool
    ensures { result ≡ is_known_out outs.now source.0 }
{
    source.index() < outs.len() && outs[source.index()]
}

/// Whether a source may be in beside the one whose routine ends.
fn may_be_in(ending: SourceNo, outs: &[bool], source: SourceNo) -> bool
    ensures { result ≡ may_be_in outs.now ending source.0 }
{
    source.0 != ending.0 && !is_known_out(outs, source)
}

/// Adds the cases in which another routine goes on.
fn add_nested_returns(
    alloc: Global,
    app: &App,
    ending: &Ending,
    outs: &[bool],
    cases: &mut Seq<EffectCase>,
) -> Result<(), Memory>
    requires { ending.now.last.0 ≡ last_source app.now }
    ensures { OnOk result (cases.new ≡ cases.old ++ map (nested_return app.now ending.now.source ending.now.component ending.now.over) (nested app.now ending.now.source outs.now)) }
{
    for next in 0..app.counters.len() + app.isrs.len() {
        let next = SourceNo(next as u8);
        if may_be_in(ending.source, outs, next) {
            cases.push(nested_return(alloc, app, ending, next)?)?;
        }
    }
    Ok(())
}

/// The cases of the end of a routine.
fn routine_returns(
    alloc: Global,
    app: &App,
    ending: &Ending,
    outs: &[bool],
) -> Result<Seq<EffectCase>, Memory>
    requires over { IfSome ending.now.over (λ t. t.0 < length app.now.tasks) }
    requires last { ending.now.last.0 ≡ last_source app.now }
    ensures { IfOk result (λ cases. cases ≡ routine_returns app.now ending.now.source outs.now ending.now.component ending.now.over) }
{
    let mut cases = one(alloc, last_return(alloc, app, ending)?)?;
    add_nested_returns(alloc, app, ending, outs, &mut cases)?;
    Ok(cases)
}

/// The end of a routine, where these sources are known to be out.
pub fn return_cases(
    alloc: Global,
    app: &App,
    runner: Runner,
    block: BlockNo,
    outs: &[bool],
) -> Result<Seq<EffectCase>, Memory>
    requires known { IsRunnerOf app.now runner }
    ensures { IfOk result (λ cases. cases ≡ return_cases app.now outs.now runner block) }
{
    match runner {
        Runner::Task(_) => one(alloc, stays(alloc, runner, block)),
        Runner::Routine {
            source,
            component,
            over,
        } => {
            let last = last_source(app);
            let ending = Ending {
                source,
                component,
                over,
                last,
            };
            routine_returns(alloc, app, &ending, outs)
        }
    }
}
