//! The values of an entry that well-formed states have at a point.
ghost use Rattle.std.specs.Prelude.{◌≡◌, ◌<◌, length, IfOk};
ghost use Rattle.osek_standard.specs.Apps.{the_block, source_count};
ghost use Rattle.flow_rules.specs.Allowed.{is_wait as is_wait_kind, may_wait as may_wait_so, owns as owns_block, has_flag as has_flag_so, stands_at as stands_at_block, names_internal as names_internal_so, fits as fits_at};
ghost use Rattle.flow_rules.specs.Allowed.{is_out as is_out_value, is_in_at as is_in_at_block, is_of_routine as is_of_routine_block, source_fits as source_fits_at, may_be_by, IsPartOf, IsAllowedPart};
ghost use Rattle.abstract_state.specs.{Components.{IsComponent}, Domains.{domains, domains_of}};

use abstract_state::{
    Component, PartValue, PlainEntry, Point, SourceVal, Val, ValueSet, components, routine_size,
};
use osek_standard::{App, Call, Kind, MaskService};
use osek_values::{BlockNo, Memory, Seq, SourceNo};
use std::alloc::Global;

/// The entry with those values alone that well-formed states have at the point.
pub fn allowed_part(
    alloc: Global,
    app: &App,
    point: Point,
    entry: &PlainEntry,
) -> Result<PlainEntry, Memory>
    requires { domains entry.now ≡ domains_of app.now }
    ensures { IfOk result (IsAllowedPart app.now point entry.now) }
{
    let components = components(alloc, app)?;
    let mut sets = Seq::new(alloc);
    for place in 0..components.len() {
        let set = allowed_set(
            alloc,
            app,
            point,
            *components.at(place),
            entry.sets.at(place),
        )?;
        sets.push(set)?;
    }
    Ok(PlainEntry { sets })
}

fn allowed_set(
    alloc: Global,
    app: &App,
    point: Point,
    component: Component,
    set: &ValueSet,
) -> Result<ValueSet, Memory>
    requires { IsComponent app.now component }
    ensures { IfOk result (IsPartOf (may_be_by app.now point component) set.now) }
{
    let mut part = ValueSet::new(alloc, set.domain);
    for value in set.members.as_slice() {
        if may_be(app, point, component, value) {
            part.insert(value.copy())?;
        }
    }
    Ok(part)
}

fn may_be(app: &App, point: Point, component: Component, value: &PartValue) -> bool
    requires { IsComponent app.now component }
    ensures { result ≡ may_be_by app.now point component value.now }
{
    match (component, value) {
        (Component::Task(task), PartValue::OfTask(val)) => {
            may_wait(app, task.index(), val) && fits(app, point, task.index(), val)
        }
        (Component::Source(source), PartValue::OfSource(val)) => {
            source_fits(app, point, source, val)
        }
        _ => true,
    }
}

// where no routine has the processor a source is out, and the one that has it is in at the point's block
fn source_fits(app: &App, point: Point, source: SourceNo, val: &SourceVal) -> bool
    requires { source.0 < source_count app.now }
    ensures { result ≡ source_fits_at app.now point source.0 val.now }
{
    match point {
        Point::Halted | Point::Idle | Point::Task(_) => is_out(val),
        Point::Routine { block, over: _ } => {
            !is_of_routine(app, source, block) || is_in_at(block, val)
        }
    }
}

fn is_out(val: &SourceVal) -> bool
    ensures { result ≡ is_out_value val.now }
{
    match val {
        SourceVal::Out => true,
        SourceVal::In(_) => false,
    }
}

fn is_in_at(block: BlockNo, val: &SourceVal) -> bool
    ensures { result ≡ is_in_at_block block val.now }
{
    match val {
        SourceVal::Out => false,
        SourceVal::In(routine) => routine.block.0 == block.0,
    }
}

fn is_of_routine(app: &App, source: SourceNo, block: BlockNo) -> bool
    requires { source.0 < source_count app.now }
    ensures { result ≡ is_of_routine_block app.now source.0 block.0 }
{
    let first = app.routine_start(source).0 as u32;
    let count = routine_size(app, source) as u32;
    first <= block.0 as u32 && (block.0 as u32) < first + count
}

// a task waits at a WaitEvent block, and is extended
fn may_wait(app: &App, task: usize, val: &Val) -> bool
    requires { task < length app.now.tasks }
    ensures { result ≡ may_wait_so app.now task val.now }
{
    match val {
        Val::Suspended | Val::Live(_) => true,
        Val::Waiting(block) => app.tasks.at(task).own.0 != 0 && is_wait_at(app, *block),
    }
}

fn is_wait_at(app: &App, block: BlockNo) -> bool
    ensures { result ≡ is_wait_kind (the_block app.now block.0).kind }
{
    block.index() < app.blocks.len() && is_wait(app.block(block).kind)
}

fn is_wait(kind: Kind) -> bool
    ensures { result ≡ is_wait_kind kind }
{
    match kind {
        Kind::Call(Call::Mask(MaskService::WaitEvent, _)) => true,
        _ => false,
    }
}

// a task that runs stands at the point, an interrupted one is Live, and each is inside where it names an INTERNAL resource
fn fits(app: &App, point: Point, task: usize, val: &Val) -> bool
    requires { task < length app.now.tasks }
    ensures { result ≡ fits_at app.now point task val.now }
{
    match point {
        Point::Halted | Point::Idle => true,
        Point::Task(block) => {
            !owns(app, task, block) || stands_at(block, names_internal(app, task), val)
        }
        Point::Routine {
            block: _,
            over: None,
        } => true,
        Point::Routine {
            block: _,
            over: Some(over),
        } => over.index() != task || has_flag(names_internal(app, task), val),
    }
}

fn owns(app: &App, task: usize, block: BlockNo) -> bool
    requires { task < length app.now.tasks }
    ensures { result ≡ owns_block app.now task block.0 }
{
    let first = app.tasks.at(task).first.0 as u32;
    let count = app.tasks.at(task).count as u32;
    first <= block.0 as u32 && (block.0 as u32) < first + count
}

fn names_internal(app: &App, task: usize) -> bool
    requires { task < length app.now.tasks }
    ensures { result ≡ names_internal_so app.now task }
{
    app.tasks.at(task).internal.is_some()
}

fn stands_at(block: BlockNo, named: bool, val: &Val) -> bool
    ensures { result ≡ stands_at_block block named val.now }
{
    match val {
        Val::Live(live) => live.block.0 == block.0 && live.inside == named,
        Val::Suspended | Val::Waiting(_) => false,
    }
}

fn has_flag(named: bool, val: &Val) -> bool
    ensures { result ≡ has_flag_so named val.now }
{
    match val {
        Val::Live(live) => live.inside == named,
        Val::Suspended | Val::Waiting(_) => false,
    }
}
