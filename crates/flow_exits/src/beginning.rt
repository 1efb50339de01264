//! Routines that may begin.
ghost use Rattle.std.specs.{Prelude.{◌≡◌, ◌<◌, ◌++◌, ℕ, nat_lt, map, IfOk, OnOk, IfSome}, List.{flat_map, range_with_len}};
ghost use Rattle.osek_standard.specs.{declared.app.App.{App}, Apps.{source_count, source_priority}, Levels.{interrupt_ceiling}, Points.{IsPoint}};
ghost use Rattle.flow_exits.specs.Arrivals.{ceilings_above, holds_none, over_conditions, source_number, nest_condition, nest_conditions, arrival_rule, may_begin_over, AreArrivals};
ghost use Rattle.flow_exits.specs.Arrivals.{is_lower as is_lower_than, fits_internal as fits_internal_of};

use abstract_state::{
    Component, ComponentNo, PartValue, Point, RoutineVal, SourceVal, component_number,
};
use flow_model::{Change, Condition, Rule, Runner, Test, Update};
use osek_standard::App;
use osek_values::{Held, Mask, Memory, ResNo, Seq, SourceNo, TaskNo};
use std::alloc::Global;

/// A rule for each routine that may begin at a point.
pub fn arrivals(alloc: Global, app: &App, point: Point) -> Result<Seq<Rule>, Memory>
    requires { IsPoint app.now point }
    ensures { IfOk result (AreArrivals app.now point) }
{
    match point {
        Point::Halted => Ok(Seq::new(alloc)),
        Point::Idle => {
            let rules = arrivals_over(alloc, app, None, None)?;
            Ok(rules)
        }
        Point::Task(block) => {
            if app.block(block).locked {
                return Ok(Seq::new(alloc));
            }
            match Runner::executing(app, point) {
                Some(Runner::Task(task)) => {
                    let rules = arrivals_over(alloc, app, Some(task), None)?;
                    Ok(rules)
                }
                Some(Runner::Routine { .. }) | None => Ok(Seq::new(alloc)),
            }
        }
        Point::Routine { block, over } => {
            if app.block(block).locked {
                return Ok(Seq::new(alloc));
            }
            match Runner::executing(app, point) {
                Some(Runner::Routine { source, .. }) => {
                    let rules = arrivals_over(alloc, app, over, Some(source))?;
                    Ok(rules)
                }
                Some(Runner::Task(_)) | None => Ok(Seq::new(alloc)),
            }
        }
    }
}

/// A rule for each routine that may begin over a task or over none, where this routine runs or none.
pub fn arrivals_over(
    alloc: Global,
    app: &App,
    over: Option<TaskNo>,
    running: Option<SourceNo>,
) -> Result<Seq<Rule>, Memory>
    requires { IfSome running (λ j. j.0 < source_count app.now) }
    ensures { IfOk result (λ rules. rules ≡ map (arrival_rule app.now over running) (may_begin_over app.now over running)) }
{
    let mut rules = Seq::new(alloc);
    let first = first_number(app);
    for source in 0..app.counters.len() + app.isrs.len() {
        let source = SourceNo(source as u8);
        if is_lower(app, running, source) && fits_internal(app, over, source) {
            let rule = arrival_rule(alloc, app, first, over, running, source)?;
            rules.push(rule)?;
        }
    }
    Ok(rules)
}

// the number of the first source's component, if there is one
fn first_number(app: &App) -> ComponentNo
    ensures { 0 < source_count app.now → result.0 ≡ source_number app.now 0 }
{
    if app.counters.len() + app.isrs.len() == 0 {
        return ComponentNo(0);
    }
    component_number(app, Component::Source(SourceNo(0)))
}

// that of a source's, which stand in a row
fn number_of(app: &App, first: ComponentNo, source: SourceNo) -> ComponentNo
    requires known { source.0 < source_count app.now }
    requires first { first.0 ≡ source_number app.now 0 }
    ensures { result.0 ≡ source_number app.now source.0 }
{
    ComponentNo(first.0 + source.0 as u16)
}

// whether the running routine, if there is one, has a lower priority
fn is_lower(app: &App, running: Option<SourceNo>, source: SourceNo) -> bool
    requires known { source.0 < source_count app.now }
    requires running { IfSome running (λ j. j.0 < source_count app.now) }
    ensures { result ≡ is_lower_than app.now running source.0 }
{
    match running {
        None => true,
        Some(running) => app.source_priority(running) < app.source_priority(source),
    }
}

// whether the INTERNAL resource that the interrupted task has lets a source in
fn fits_internal(app: &App, over: Option<TaskNo>, source: SourceNo) -> bool
    requires { source.0 < source_count app.now }
    ensures { result ≡ fits_internal_of app.now over source.0 }
{
    let Some(task) = over else {
        return true;
    };
    if task.index() >= app.tasks.len() {
        return true;
    }
    match app.task(task).internal {
        None => true,
        Some(resource) => !is_above(app, resource, app.source_priority(source)),
    }
}

// whether the interrupt ceiling of a resource is above a priority
fn is_above(app: &App, resource: ResNo, priority: u8) -> bool
    ensures { result ≡ nat_lt priority (interrupt_ceiling app.now resource.0) }
{
    resource.index() < app.resources.len()
        && (priority as u16) < app.resource(resource).interrupt_ceiling
}

// the resources whose interrupt ceiling is above a priority
fn ceilings_above(app: &App, priority: u8) -> Mask
    ensures { result ≡ ceilings_above app.now priority }
{
    let mut bits = 0;
    let mut resource = app.resources.len();
    while resource > 0 {
        resource -= 1;
        bits = 2 * bits
            + u64::from((priority as u16) < app.resources.at(resource).interrupt_ceiling);
    }
    Mask(bits)
}

// adds that a component holds none of these resources, if there are any
fn push_holds_none(
    component: ComponentNo,
    barred: Mask,
    conditions: &mut Seq<Condition>,
) -> Result<(), Memory>
    ensures { OnOk result (conditions.new ≡ conditions.old ++ holds_none component.0 barred) }
{
    if barred.0 == 0 {
        return Ok(());
    }
    conditions.push(Condition {
        component,
        test: Test::HoldsNoneOf(barred),
    })
}

// adds that the interrupted task holds none of these resources
fn add_over_condition(
    over: Option<TaskNo>,
    barred: Mask,
    conditions: &mut Seq<Condition>,
) -> Result<(), Memory>
    ensures { OnOk result ((app : App) (k : ℕ) → barred ≡ ceilings_above app (source_priority app k) → conditions.new ≡ conditions.old ++ over_conditions app over k) }
{
    match over {
        None => Ok(()),
        Some(task) => push_holds_none(ComponentNo(task.0 as u16), barred, conditions),
    }
}

// adds that another source is out, or of a lower priority and holds none of these resources
fn add_nest_condition(
    app: &App,
    first: ComponentNo,
    source: SourceNo,
    barred: Mask,
    other: SourceNo,
    conditions: &mut Seq<Condition>,
) -> Result<(), Memory>
    requires known { source.0 < source_count app.now }
    requires other { other.0 < source_count app.now }
    requires first { first.0 ≡ source_number app.now 0 }
    requires barred { barred ≡ ceilings_above app.now (source_priority app.now source.0) }
    ensures { OnOk result (conditions.new ≡ conditions.old ++ nest_condition app.now source.0 other.0) }
{
    let component = number_of(app, first, other);
    if app.source_priority(source) <= app.source_priority(other) {
        return conditions.push(Condition {
            component,
            test: Test::Is(PartValue::OfSource(SourceVal::Out)),
        });
    }
    push_holds_none(component, barred, conditions)
}

// adds that of all sources
fn add_nest_of_all(
    app: &App,
    first: ComponentNo,
    source: SourceNo,
    barred: Mask,
    conditions: &mut Seq<Condition>,
) -> Result<(), Memory>
    requires known { source.0 < source_count app.now }
    requires first { first.0 ≡ source_number app.now 0 }
    requires barred { barred ≡ ceilings_above app.now (source_priority app.now source.0) }
    ensures { OnOk result (conditions.new ≡ conditions.old ++ flat_map (nest_condition app.now source.0) (range_with_len 0 (source_count app.now))) }
{
    for other in 0..app.counters.len() + app.isrs.len() {
        let other = SourceNo(other as u8);
        add_nest_condition(app, first, source, barred, other, conditions)?;
    }
    Ok(())
}

// adds that of all where a routine runs
fn add_nest_conditions(
    app: &App,
    first: ComponentNo,
    running: Option<SourceNo>,
    source: SourceNo,
    barred: Mask,
    conditions: &mut Seq<Condition>,
) -> Result<(), Memory>
    requires known { source.0 < source_count app.now }
    requires first { first.0 ≡ source_number app.now 0 }
    requires barred { barred ≡ ceilings_above app.now (source_priority app.now source.0) }
    ensures { OnOk result (conditions.new ≡ conditions.old ++ nest_conditions app.now running source.0) }
{
    match running {
        None => Ok(()),
        Some(_) => add_nest_of_all(app, first, source, barred, conditions),
    }
}

fn arrival_rule(
    alloc: Global,
    app: &App,
    first: ComponentNo,
    over: Option<TaskNo>,
    running: Option<SourceNo>,
    source: SourceNo,
) -> Result<Rule, Memory>
    requires known { source.0 < source_count app.now }
    requires first { first.0 ≡ source_number app.now 0 }
    ensures { IfOk result (λ rule. rule ≡ arrival_rule app.now over running source.0) }
{
    let barred = ceilings_above(app, app.source_priority(source));
    let block = app.routine_start(source);
    let mut conditions = Seq::new(alloc);
    add_over_condition(over, barred, &mut conditions)?;
    add_nest_conditions(app, first, running, source, barred, &mut conditions)?;
    let mut changes = Seq::new(alloc);
    changes.push(Change {
        component: number_of(app, first, source),
        update: Update::Set(PartValue::OfSource(SourceVal::In(RoutineVal {
            block,
            held: Held::new(),
        }))),
    })?;
    Ok(Rule {
        conditions,
        changes,
        target: Point::Routine { block, over },
        decision: None,
        status: None,
    })
}
