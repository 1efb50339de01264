//! Who executes at a point.
ghost use Rattle.std.specs.{Prelude.{◌≡◌, ◌<◌, length}, Bool.{OnTrue, OnFalse}};
ghost use Rattle.osek_standard.specs.{Apps.{source_count}, Points.{IsTaskBlock, IsRoutineBlock}, Well.{IsOwn, IsOfRoutine}};
ghost use Rattle.flow_model.specs.Runners.{IsRoutineOf};

use abstract_state::{Component, ComponentNo, Point, component_number, routine_size};
use osek_standard::App;
use osek_values::{BlockNo, SourceNo, TaskNo};

/// Who executes at a point: a task, or a source's routine, with the number of its component, over the task that is
/// interrupted or over none.
#[derive(Clone, Copy)]
pub enum Runner {
    Task(TaskNo),
    Routine {
        source: SourceNo,
        component: ComponentNo,
        over: Option<TaskNo>,
    },
}

/// The task that has a block.
pub fn task_of(app: &App, block: BlockNo) -> TaskNo
    requires { IsTaskBlock app.now block }
    ensures known { result.0 < length app.now.tasks }
    ensures own { IsOwn app.now result.0 block.0 }
{
    for task in 0..app.tasks.len() {
        let first = app.tasks.at(task).first.0 as u32;
        let count = app.tasks.at(task).count as u32;
        if first <= block.0 as u32 && (block.0 as u32) < first + count {
            return TaskNo(task as u8);
        }
    }
    TaskNo(0)
}

/// Whether a block is one of a source's routine.
fn is_of_routine(app: &App, source: SourceNo, block: BlockNo) -> bool
    requires { source.0 < source_count app.now }
    ensures of { OnTrue result (IsOfRoutine app.now source.0 block.0) }
    ensures not { OnFalse result (IsOfRoutine app.now source.0 block.0 → ⊥) }
{
    let first = app.routine_start(source).0 as u32;
    let count = routine_size(app, source) as u32;
    first <= block.0 as u32 && (block.0 as u32) < first + count
}

/// The routine that has a block, over what it interrupted.
pub fn routine_of(app: &App, block: BlockNo, over: Option<TaskNo>) -> Runner
    requires { IsRoutineBlock app.now block over }
    ensures { IsRoutineOf app.now block over result }
{
    for source in 0..app.counters.len() + app.isrs.len() {
        let source = SourceNo(source as u8);
        if is_of_routine(app, source, block) {
            return Runner::Routine {
                source,
                component: component_number(app, Component::Source(source)),
                over,
            };
        }
    }
    Runner::Routine {
        source: SourceNo(0),
        component: ComponentNo(0),
        over,
    }
}

impl Runner {
    ghost use Rattle.std.specs.Prelude.{◌≡◌, IfSome, IfNone};
    ghost use Rattle.osek_standard.specs.Points.{IsPoint};
    ghost use Rattle.abstract_state.specs.Components.{component_no};
    ghost use Rattle.flow_model.specs.Runners.{runner_point, component_of, Executes, IsNobodys};

    /// Who executes at a point.
    pub fn executing(app: &App, point: Point) -> Option<Runner>
        requires { IsPoint app.now point }
        ensures some { IfSome result (Executes app.now point) }
        ensures none { IfNone result (IsNobodys point) }
    {
        match point {
            Point::Halted | Point::Idle => None,
            Point::Task(block) => Some(Runner::Task(task_of(app, block))),
            Point::Routine { block, over } => Some(routine_of(app, block, over)),
        }
    }

    /// Its point at a block.
    pub fn at(self, block: BlockNo) -> Point
        ensures { result ≡ runner_point self block }
    {
        match self {
            Runner::Task(_) => Point::Task(block),
            Runner::Routine { over, .. } => Point::Routine { block, over },
        }
    }

    /// The number of its component.
    pub fn component(self) -> ComponentNo
        ensures { result ≡ component_no (component_of self) }
    {
        match self {
            Runner::Task(task) => ComponentNo(task.0 as u16),
            Runner::Routine { component, .. } => component,
        }
    }
}
