//! The changes by which who has the processor after a decision comes in.
ghost use Rattle.std.specs.Prelude.{◌≡◌, ◌<◌, length, IfOk};
ghost use Rattle.flow_model.specs.Scheduling.{goes_inside as goes_inside_of, settling as settling_of};

use abstract_state::ComponentNo;
use flow_model::{Change, Decision, Stay, Update};
use osek_standard::App;
use osek_values::{Memory, Seq, TaskNo};
use point_exits::has_it_after;
use std::alloc::Global;

// whether a task has the processor after a decision, and names an INTERNAL resource
fn goes_inside(app: &App, stay: Stay, decision: Decision, task: TaskNo) -> bool
    requires { task.0 < length app.now.tasks }
    ensures { result ≡ goes_inside_of app.now stay decision task.0 }
{
    has_it_after(app, stay, decision, task) && app.task(task).internal.is_some()
}

/// The changes by which who has the processor after a decision comes in.
pub fn settling_changes(
    alloc: Global,
    app: &App,
    stay: Stay,
    decision: Decision,
) -> Result<Seq<Change>, Memory>
    ensures { IfOk result (λ changes. changes ≡ settling_of app.now stay decision) }
{
    let mut changes = Seq::new(alloc);
    for task in 0..app.tasks.len() {
        if goes_inside(app, stay, decision, TaskNo(task as u8)) {
            changes.push(Change {
                component: ComponentNo(task as u16),
                update: Update::Inside,
            })?;
        }
    }
    Ok(changes)
}
