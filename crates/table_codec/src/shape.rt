//! What a task can be at a point.
ghost use Rattle.std.specs.Prelude.{◌≡◌, ◌≢◌, ◌↔◌, ◌<◌, IsTrue, IfSome, IfNone, length};
ghost use Rattle.osek_values.specs.declared.numbers.BlockNo.{BlockNo as ABlockNo};
ghost use Rattle.osek_standard.specs.{Apps.{the_block}, Well.{IsOwn, IsWaitEvent, IsWaitingAt}};
ghost use Rattle.std.specs.Bool.{OnTrue};
ghost use Rattle.abstract_state.specs.Components.{IsComponent};
ghost use Rattle.abstract_state.specs.declared.value.Component.TheVariants as component;
ghost use Rattle.table_codec.specs.{Kept.{BarsNoValue}, Shapes.{IsShape, is_over, HasProcessorAt, HasProcessorNowhere}};

use crate::source_shape::is_free_source;
use abstract_state::Component;
use image_model::is_within;
use osek_standard::{App, Call, Kind, MaskService, Point};
use osek_values::{BlockNo, TaskNo};

/// What a task can be at a point: at which blocks it may be Live, and what else it may be.
#[derive(Clone, Copy)]
pub(crate) struct Shape {
    pub point: Point,
    pub task: TaskNo,
    /// It need not be Live: it neither has the processor nor is interrupted.
    pub is_free: bool,
    /// It may wait.
    pub waits: bool,
    pub first: BlockNo,
    pub count: u16,
    /// So many activations may it have.
    pub activation: u8,
    /// It names an INTERNAL resource.
    pub named: bool,
}

impl Shape {
    ghost use Rattle.std.specs.Prelude.{◌≡◌, ◌<◌, length};
    ghost use Rattle.table_codec.specs.Shapes.{IsShape};

    /// What a task can be at a point.
    pub fn of(app: &App, point: Point, task: TaskNo) -> Shape
        requires { task.0 < length app.now.tasks }
        ensures shape { IsShape app.now result }
        ensures point { result.point ≡ point }
        ensures task { result.task ≡ task }
    {
        let owner = app.task(task);
        let activation = owner.activation;
        let named = owner.internal.is_some();
        match running_at(app, point, task) {
            Some(block) => Shape {
                point,
                task,
                is_free: false,
                waits: false,
                first: block,
                count: 1,
                activation,
                named,
            },
            None => {
                let is_free = !is_interrupted(point, task);
                Shape {
                    point,
                    task,
                    is_free,
                    waits: is_free && may_wait(app, task),
                    first: owner.first,
                    count: owner.count,
                    activation,
                    named,
                }
            }
        }
    }
}

/// Whether a component can be at a point what it can be at any other one.
pub(crate) fn is_free(app: &App, point: Point, component: Component) -> bool
    requires { IsComponent app.now component }
    ensures { OnTrue result (BarsNoValue app.now point component) }
{
    match component {
        Component::Task(task) => is_free_task(app, point, task),
        Component::Event { task: _, bit: _ } | Component::Alarm(_) => true,
        Component::Source(source) => is_free_source(app, point, source),
    }
}

fn is_free_task(app: &App, point: Point, task: TaskNo) -> bool
    requires { task.0 < length app.now.tasks }
    ensures { OnTrue result (BarsNoValue app.now point (component.Task task)) }
{
    running_at(app, point, task).is_none() && !is_interrupted(point, task)
}

// the block at which a task has the processor
fn running_at(app: &App, point: Point, task: TaskNo) -> Option<BlockNo>
    requires { task.0 < length app.now.tasks }
    ensures runs { IfSome result (HasProcessorAt app.now point task.0) }
    ensures none { IfNone result (HasProcessorNowhere app.now point task.0) }
{
    match point {
        Point::Task(block) => {
            if owns(app, task, block) {
                Some(block)
            } else {
                None
            }
        }
        Point::Halted | Point::Idle => None,
        Point::Routine { block: _, over: _ } => None,
    }
}

fn is_interrupted(point: Point, task: TaskNo) -> bool
    ensures { result ≡ is_over point task.0 }
{
    match point {
        Point::Routine {
            block: _,
            over: Some(over),
        } => over.0 == task.0,
        Point::Routine {
            block: _,
            over: None,
        } => false,
        Point::Halted | Point::Idle | Point::Task(_) => false,
    }
}

fn owns(app: &App, task: TaskNo, block: BlockNo) -> bool
    requires { task.0 < length app.now.tasks }
    ensures { IsTrue result ↔ IsOwn app.now task.0 block.0 }
{
    let owner = app.task(task);
    is_within(block.0, owner.first, owner.count)
}

/// Whether a task may wait at a block.
pub(crate) fn waits_at(app: &App, task: TaskNo, block: BlockNo) -> bool
    requires { task.0 < length app.now.tasks }
    ensures { IsTrue result ↔ IsWaitingAt app.now task.0 block.0 }
{
    if app.task(task).own.0 == 0 {
        return false;
    }
    if !owns(app, task, block) {
        return false;
    }
    is_wait_at(app, block)
}

fn is_wait_at(app: &App, block: BlockNo) -> bool
    ensures { IsTrue result ↔ IsWaitEvent (the_block app.now block.0).kind }
{
    if block.index() >= app.blocks.len() {
        return false;
    }
    is_wait(app.block(block).kind)
}

fn is_wait(kind: Kind) -> bool
    ensures { IsTrue result ↔ IsWaitEvent kind }
{
    match kind {
        Kind::Call(Call::Mask(MaskService::WaitEvent, _)) => true,
        _ => false,
    }
}

// whether a task may wait at some block
fn may_wait(app: &App, task: TaskNo) -> bool
    requires { task.0 < length app.now.tasks }
    ensures { IsTrue result ↔ ((b : ABlockNo) × IsWaitingAt app.now task.0 b.0) }
{
    let owner = app.task(task);
    if owner.own.0 == 0 {
        return false;
    }
    let first = owner.first.0;
    let count = owner.count;
    for block in first..first + count {
        if waits_at(app, task, BlockNo(block)) {
            return true;
        }
    }
    false
}
