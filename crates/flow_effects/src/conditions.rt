//! Conditions.
ghost use Rattle.std.specs.Prelude.{◌≡◌, ◌<◌, [], ◌∷◌, IfOk};
ghost use Rattle.osek_standard.specs.Apps.{source_count};
ghost use Rattle.flow_model.specs.Cases.{condition};
ghost use Rattle.flow_effects.specs.Conditions.{of_source, of_task};

use abstract_state::{Component, ComponentNo, component_number};
use flow_model::{Condition, Test};
use osek_standard::App;
use osek_values::{Memory, Seq, SourceNo, TaskNo};
use std::alloc::Global;

/// A test of a task's value.
pub fn of_task(task: TaskNo, test: Test) -> Condition
    ensures { result ≡ of_task task test }
{
    Condition {
        component: ComponentNo(task.0 as u16),
        test,
    }
}

/// A test of a source's value.
pub fn of_source(app: &App, source: SourceNo, test: Test) -> Condition
    requires { source.0 < source_count app.now }
    ensures { result ≡ of_source app.now source.0 test }
{
    Condition {
        component: component_number(app, Component::Source(source)),
        test,
    }
}

/// One test of a component's value, alone.
pub fn if_part(alloc: Global, component: ComponentNo, test: Test) -> Result<Seq<Condition>, Memory>
    ensures { IfOk result (λ conditions. conditions ≡ condition component.0 test ∷ []) }
{
    let mut conditions = Seq::new(alloc);
    conditions.push(Condition { component, test })?;
    Ok(conditions)
}

/// One test of a task's value, alone.
pub fn if_task(alloc: Global, task: TaskNo, test: Test) -> Result<Seq<Condition>, Memory>
    ensures { IfOk result (λ conditions. conditions ≡ of_task task test ∷ []) }
{
    let mut conditions = Seq::new(alloc);
    conditions.push(of_task(task, test))?;
    Ok(conditions)
}
