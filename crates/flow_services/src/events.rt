//! The cases of SetEvent, ClearEvent and GetEvent.
ghost use Rattle.std.specs.Prelude.{◌≡◌, ◌<◌, ℕ, true, ◌++◌, length, map, IfOk, OnOk};
ghost use Rattle.osek_values.specs.Bits.{has_bit as has_bit_of};
ghost use Rattle.osek_standard.specs.Apps.{the_task, awaited as awaited_at};
ghost use Rattle.flow_model.specs.Runners.{IsKnown};
ghost use Rattle.flow_services.specs.Occasions.{case_at};
ghost use Rattle.flow_services.specs.Services.{awaits as awaits_at, release_at as release_at_of, releases as releases_of, not_awaiting as not_awaiting_case, waking as waking_case};
ghost use Rattle.flow_services.specs.Services.{event_settings, event_clearings as event_clearings_of, event_readings as event_readings_of};

use crate::occasion::{Occasion, Queued, one, only, task_component};
use crate::tasks::add_event_changes;
use flow_model::{Change, Condition, EffectCase, Releases, Runner, Test, Update};
use osek_standard::{App, Call, Kind, MaskService};
use osek_values::{BlockNo, Mask, Memory, Seq, Status, TaskNo};
use std::alloc::Global;

/// The events that a task waits for at a block of this kind.
fn awaited(kind: Kind) -> Mask
    ensures { result.0 ≡ awaited_at kind }
{
    if let Kind::Call(Call::Mask(MaskService::WaitEvent, mask)) = kind {
        mask
    } else {
        Mask(0)
    }
}

/// Whether a task that waits at a block waits for one of these events.
fn awaits(app: &App, block: BlockNo, events: Mask) -> bool
    requires { block.0 < length app.now.blocks }
    ensures { result ≡ awaits_at app.now events.0 block }
{
    !awaited(app.block(block).kind).and(events).is_empty()
}

/// Where a task goes on that waits at a block, if one of these events releases it.
fn release_at(app: &App, block: BlockNo, events: Mask) -> Option<BlockNo>
    requires { block.0 < length app.now.blocks }
    ensures { result ≡ release_at_of app.now events.0 block }
{
    if !awaits(app, block, events) {
        return None;
    }
    Some(app.block(block).next)
}

/// The blocks of a task from which these events release it.
fn releases(alloc: Global, app: &App, task: TaskNo, events: Mask) -> Result<Releases, Memory>
    requires { task.0 < length app.now.tasks }
    ensures { IfOk result (λ x. x ≡ releases_of app.now events.0 task.0) }
{
    let own = app.task(task);
    let mut next = Seq::of(Vec::with_capacity(alloc, own.count as usize)?);
    for number in 0..own.count {
        let block = BlockNo(own.first.0 + number);
        next.push(release_at(app, block, events))?;
    }
    Ok(Releases {
        first: own.first,
        next,
    })
}

/// The case in which the task isn't suspended, and isn't released: the events are set.
fn not_awaiting(
    alloc: Global,
    app: &App,
    occasion: Occasion,
    task: TaskNo,
    events: Mask,
    releases: &Releases,
) -> Result<EffectCase, Memory>
    requires known { task.0 < length app.now.tasks }
    requires own { (k : ℕ) → has_bit_of events.0 k ≡ true → has_bit_of (the_task app.now task.0).own.0 k ≡ true }
    ensures { IfOk result (λ case. case ≡ case_at occasion (not_awaiting_case app.now task.0 events.0 releases.now)) }
{
    let component = task_component(task);
    let mut conditions = only(alloc, component, Test::NotSuspended)?;
    let elsewhere = Test::WaitsNotAt(releases.copy(alloc)?);
    conditions.push(Condition {
        component,
        test: elsewhere,
    })?;
    let mut changes = occasion.begun(alloc)?;
    add_event_changes(app, task, events, true, &mut changes)?;
    occasion.accepted(conditions, changes, Queued::Nothing)
}

/// The case in which the task waits for one of the events: it is released from waiting.
fn waking(
    alloc: Global,
    app: &App,
    occasion: Occasion,
    task: TaskNo,
    events: Mask,
    releases: &Releases,
) -> Result<EffectCase, Memory>
    requires known { task.0 < length app.now.tasks }
    requires own { (k : ℕ) → has_bit_of events.0 k ≡ true → has_bit_of (the_task app.now task.0).own.0 k ≡ true }
    ensures { IfOk result (λ case. case ≡ case_at occasion (waking_case app.now task.0 events.0 releases.now)) }
{
    let component = task_component(task);
    let waits = Test::WaitsAt(releases.copy(alloc)?);
    let conditions = only(alloc, component, waits)?;
    let update = Update::Release(releases.copy(alloc)?);
    let mut changes = occasion.begun(alloc)?;
    changes.push(Change { component, update })?;
    add_event_changes(app, task, events, true, &mut changes)?;
    occasion.accepted(conditions, changes, Queued::Last(task))
}

/// Adds the cases of SetEvent.
pub fn add_event_settings(
    alloc: Global,
    app: &App,
    occasion: Occasion,
    task: TaskNo,
    mask: Mask,
    cases: &mut Seq<EffectCase>,
) -> Result<(), Memory>
    requires { task.0 < length app.now.tasks }
    ensures { OnOk result (cases.new ≡ cases.old ++ map (case_at occasion) (event_settings app.now task.0 mask.0)) }
{
    let own = app.task(task).own;
    if own.is_empty() {
        return cases.push(occasion.refused(alloc, Seq::new(alloc), Status::Access)?);
    }
    let events = mask.and(own);
    let releases = releases(alloc, app, task, events)?;
    let suspended = only(alloc, task_component(task), Test::Suspended)?;
    cases.push(occasion.refused(alloc, suspended, Status::State)?)?;
    cases.push(not_awaiting(alloc, app, occasion, task, events, &releases)?)?;
    let released = waking(alloc, app, occasion, task, events, &releases)?;
    cases.push(released)
}

/// The cases of ClearEvent.
pub fn event_clearings(
    alloc: Global,
    app: &App,
    occasion: Occasion,
    mask: Mask,
) -> Result<Seq<EffectCase>, Memory>
    requires { IsKnown app.now occasion.runner }
    ensures { IfOk result (λ cases. cases ≡ map (case_at occasion) (event_clearings_of app.now occasion.runner mask.0)) }
{
    let none = Seq::new(alloc);
    let Runner::Task(task) = occasion.runner else {
        return one(alloc, occasion.refused(alloc, none, Status::CallLevel)?);
    };
    let own = app.task(task).own;
    if own.is_empty() {
        return one(alloc, occasion.refused(alloc, none, Status::Access)?);
    }
    let mut changes = occasion.begun(alloc)?;
    add_event_changes(app, task, mask.and(own), false, &mut changes)?;
    one(alloc, occasion.accepted(none, changes, Queued::Nothing)?)
}

/// The cases of GetEvent.
pub fn event_readings(
    alloc: Global,
    app: &App,
    occasion: Occasion,
    task: TaskNo,
) -> Result<Seq<EffectCase>, Memory>
    requires { task.0 < length app.now.tasks }
    ensures { IfOk result (λ cases. cases ≡ map (case_at occasion) (event_readings_of app.now task.0)) }
{
    if app.task(task).own.is_empty() {
        return one(
            alloc,
            occasion.refused(alloc, Seq::new(alloc), Status::Access)?,
        );
    }
    let component = task_component(task);
    let suspended = only(alloc, component, Test::Suspended)?;
    let mut cases = one(alloc, occasion.refused(alloc, suspended, Status::State)?)?;
    let conditions = only(alloc, component, Test::NotSuspended)?;
    cases.push(occasion.answered(alloc, conditions)?)?;
    Ok(cases)
}
