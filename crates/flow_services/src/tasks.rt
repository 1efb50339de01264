//! The cases of ActivateTask, and what becomes of a task and its events.
ghost use Rattle.std.specs.Prelude.{◌≡◌, ◌<◌, ℕ, true, false, [], ◌∷◌, ◌++◌, length, map, OnOk};
ghost use Rattle.osek_values.specs.Bits.{has_bit as has_bit_of};
ghost use Rattle.osek_standard.specs.Apps.{the_task};
ghost use Rattle.abstract_state.specs.{declared.value.Val.TheVariants.{Live}, Components.{live_val}};
ghost use Rattle.flow_model.specs.Changes.{event_changes, task_change, activating, activating_more};
ghost use Rattle.flow_services.specs.{Occasions.{case_at}, Services.{activations, further_activations}};

use crate::occasion::{Occasion, Queued, only, task_component};
use abstract_state::{Component, LiveVal, PartValue, Val, component_number};
use flow_model::{Change, EffectCase, Test, Update};
use osek_standard::App;
use osek_values::{BlockNo, EventNo, Held, Mask, Memory, Seq, Status, TaskNo};
use std::alloc::Global;

/// Adds the changes by which these events of a task become set or unset.
pub fn add_event_changes(
    app: &App,
    task: TaskNo,
    events: Mask,
    set: bool,
    changes: &mut Seq<Change>,
) -> Result<(), Memory>
    requires known { task.0 < length app.now.tasks }
    requires own { (k : ℕ) → has_bit_of events.0 k ≡ true → has_bit_of (the_task app.now task.0).own.0 k ≡ true }
    ensures { OnOk result (changes.new ≡ changes.old ++ event_changes app.now task.0 events.0 set) }
{
    for bit in 0..64 {
        if events.has(bit) {
            let event = Component::Event {
                task,
                bit: EventNo(bit),
            };
            changes.push(Change {
                component: component_number(app, event),
                update: Update::Set(PartValue::OfEvent(set)),
            })?;
        }
    }
    Ok(())
}

// adds the change by which a task becomes Live at a block, outside and with nothing held
fn add_live(task: TaskNo, block: BlockNo, changes: &mut Seq<Change>) -> Result<(), Memory>
    ensures { OnOk result (changes.new ≡ changes.old ++ task_change task.0 (Live (live_val block 0 false [])) ∷ []) }
{
    changes.push(Change {
        component: task_component(task),
        update: Update::Set(PartValue::OfTask(Val::Live(LiveVal {
            block,
            further: 0,
            inside: false,
            held: Held::new(),
        }))),
    })
}

/// Adds what becomes of the components by an activation.
pub fn add_activating(app: &App, task: TaskNo, changes: &mut Seq<Change>) -> Result<(), Memory>
    requires { task.0 < length app.now.tasks }
    ensures { OnOk result (changes.new ≡ changes.old ++ activating app.now task.0) }
{
    let own = app.task(task).own;
    add_live(task, app.task(task).first, changes)?;
    add_event_changes(app, task, own, false, changes)
}

/// Adds what becomes of the components by a further activation of a Live task.
pub fn add_activating_more(task: TaskNo, changes: &mut Seq<Change>) -> Result<(), Memory>
    ensures { OnOk result (changes.new ≡ changes.old ++ activating_more task.0) }
{
    changes.push(Change {
        component: task_component(task),
        update: Update::More,
    })
}

/// Adds the cases of ActivateTask.
pub fn add_activations(
    alloc: Global,
    app: &App,
    occasion: Occasion,
    task: TaskNo,
    cases: &mut Seq<EffectCase>,
) -> Result<(), Memory>
    requires { task.0 < length app.now.tasks }
    ensures { OnOk result (cases.new ≡ cases.old ++ map (case_at occasion) (activations app.now task.0)) }
{
    let component = task_component(task);
    let most = app.task(task).activation;
    let full = only(alloc, component, Test::Full(most))?;
    cases.push(occasion.refused(alloc, full, Status::Limit)?)?;
    let free = only(alloc, component, Test::Suspended)?;
    let mut begun = occasion.begun(alloc)?;
    add_activating(app, task, &mut begun)?;
    cases.push(occasion.accepted(free, begun, Queued::Last(task))?)?;
    add_further_activations(alloc, app, occasion, task, cases)?;
    Ok(())
}

// adds the case of a Live task that has room for a further activation, where it takes several
fn add_further_activations(
    alloc: Global,
    app: &App,
    occasion: Occasion,
    task: TaskNo,
    cases: &mut Seq<EffectCase>,
) -> Result<(), Memory>
    requires { task.0 < length app.now.tasks }
    ensures { OnOk result (cases.new ≡ cases.old ++ map (case_at occasion) (further_activations app.now task.0)) }
{
    let most = app.task(task).activation;
    if most <= 1 {
        return Ok(());
    }
    let room = only(alloc, task_component(task), Test::Room(most))?;
    let mut more = occasion.begun(alloc)?;
    add_activating_more(task, &mut more)?;
    cases.push(occasion.accepted(room, more, Queued::Further)?)
}
