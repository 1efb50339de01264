//! WaitEvent.
ghost use Rattle.std.specs.Prelude.{◌≡◌, ◌<◌, ◌++◌, ◌∷◌, [], IsTrue, IfOk, OnOk, IfSome, false, length, map, bit_and, if◌then◌else◌};
ghost use Rattle.osek_values.specs.Bits.{has_bit};
ghost use Rattle.osek_standard.specs.Apps.{the_task, is_extended};
ghost use Rattle.flow_model.specs.Runners.{IsKnown};
ghost use Rattle.flow_effects.specs.Waiting.{of_event, awaited_events, goes_on_by, extended_cases, wait_cases, event_component, IsBeforeEvent, waiting_conditions, waits_by};

use crate::conditions::{if_task, of_task};
use crate::effects::{Alternatives, Effects};
use crate::moves::refuses;
use crate::task_ends::refused_holding;
use abstract_state::{Component, ComponentNo, PartValue, Point, Val, component_number};
use flow_model::{Asked, Change, Condition, EffectCase, Leaving, Runner, Test, Update, task_of};
use osek_standard::{App, Call, Kind, MaskService};
use osek_values::{BlockNo, EventNo, Mask, Memory, Seq, Status, TaskNo};
use std::alloc::Global;

/// Whether an event of a task is set, or isn't.
fn of_event(app: &App, task: TaskNo, set: bool, bit: u8) -> Condition
    requires task { task.0 < length app.now.tasks }
    requires bit { bit < 64 }
    requires own { IsTrue (has_bit (the_task app.now task.0).own.0 bit) }
    ensures { result ≡ of_event app.now task set bit }
{
    let event = Component::Event {
        task,
        bit: EventNo(bit),
    };
    Condition {
        component: component_number(app, event),
        test: Test::Is(PartValue::OfEvent(set)),
    }
}

/// The task's own events that it waits for.
fn awaited(app: &App, task: TaskNo, mask: Mask) -> Mask
    requires { task.0 < length app.now.tasks }
    ensures { result.0 ≡ bit_and mask.0 (the_task app.now task.0).own.0 }
{
    mask.and(app.task(task).own)
}

/// The case in which one event is set, and the task goes on.
fn goes_on_by(
    alloc: Global,
    app: &App,
    task: TaskNo,
    next: BlockNo,
    bit: u8,
) -> Result<EffectCase, Memory>
    requires task { task.0 < length app.now.tasks }
    requires bit { bit < 64 }
    requires own { IsTrue (has_bit (the_task app.now task.0).own.0 bit) }
    ensures { IfOk result (λ case. case ≡ goes_on_by app.now task next bit) }
{
    let mut conditions = if_task(alloc, task, Test::HoldsNothing)?;
    conditions.push(of_event(app, task, true, bit))?;
    Runner::Task(task).goes_on(alloc, next, conditions, Asked::No, Some(Status::Ok))
}

/// Adds the cases in which an event is set, and the task goes on.
fn add_goes_on(
    alloc: Global,
    app: &App,
    cases: &mut Seq<EffectCase>,
    task: TaskNo,
    next: BlockNo,
    mask: Mask,
) -> Result<(), Memory>
    requires { task.0 < length app.now.tasks }
    ensures { OnOk result (cases.new ≡ cases.old ++ map (goes_on_by app.now task next) (awaited_events app.now task mask)) }
{
    let events = awaited(app, task, mask);
    for bit in 0..64 {
        if events.has(bit) {
            cases.push(goes_on_by(alloc, app, task, next, bit)?)?;
        }
    }
    Ok(())
}

// no condition, with room for one of the task and one of each of the events
fn room_for(alloc: Global, app: &App, task: TaskNo, mask: Mask) -> Result<Seq<Condition>, Memory>
    requires { task.0 < length app.now.tasks }
    ensures { IfOk result (λ conditions. conditions ≡ []) }
{
    let events = awaited(app, task, mask).0.count_ones() as usize;
    Ok(Seq::of(Vec::with_capacity(alloc, events + 1)?))
}

/// Adds of each of the events that it is set, or that it isn't.
fn add_events(
    app: &App,
    conditions: &mut Seq<Condition>,
    task: TaskNo,
    mask: Mask,
    set: bool,
) -> Result<(), Memory>
    requires { task.0 < length app.now.tasks }
    ensures { OnOk result (conditions.new ≡ conditions.old ++ map (of_event app.now task set) (awaited_events app.now task mask)) }
{
    let events = awaited(app, task, mask);
    let own = app.task(task).own;
    let mut last = None;
    for bit in 0..64 {
        if own.has(bit) {
            let component = event_behind(app, task, bit, last);
            let test = Test::Is(PartValue::OfEvent(set));
            add_asked(conditions, events.has(bit), Condition { component, test })?;
            last = Some(component);
        }
    }
    Ok(())
}

// the component of an event of the task, where the one before is that of the event before
fn event_behind(app: &App, task: TaskNo, bit: u8, before: Option<ComponentNo>) -> ComponentNo
    requires task { task.0 < length app.now.tasks }
    requires bit { bit < 64 }
    requires own { IsTrue (has_bit (the_task app.now task.0).own.0 bit) }
    requires before { IfSome before (IsBeforeEvent app.now task bit) }
    ensures { result.0 ≡ event_component app.now task bit }
{
    if let Some(before) = before {
        if before.0 < u16::MAX {
            return ComponentNo(before.0 + 1);
        }
    }
    let event = Component::Event {
        task,
        bit: EventNo(bit),
    };
    component_number(app, event)
}

// adds a condition if it is asked
fn add_asked(
    conditions: &mut Seq<Condition>,
    asked: bool,
    condition: Condition,
) -> Result<(), Memory>
    ensures { OnOk result (conditions.new ≡ (if asked then conditions.old ++ condition ∷ [] else conditions.old)) }
{
    if asked {
        conditions.push(condition)?;
    }
    Ok(())
}

// what is asked where the task waits
fn waiting_conditions(
    alloc: Global,
    app: &App,
    task: TaskNo,
    mask: Mask,
) -> Result<Seq<Condition>, Memory>
    requires { task.0 < length app.now.tasks }
    ensures { IfOk result (λ conditions. conditions ≡ waiting_conditions app.now task mask) }
{
    let mut conditions = room_for(alloc, app, task, mask)?;
    conditions.push(of_task(task, Test::HoldsNothing))?;
    add_events(app, &mut conditions, task, mask, false)?;
    Ok(conditions)
}

/// The case in which none of the events is set, and the task waits.
fn waits(
    alloc: Global,
    task: TaskNo,
    block: BlockNo,
    conditions: Seq<Condition>,
) -> Result<EffectCase, Memory>
    ensures { IfOk result (λ case. case ≡ waits_by task block conditions) }
{
    let mut changes = Seq::new(alloc);
    changes.push(Change {
        component: ComponentNo(task.0 as u16),
        update: Update::Set(PartValue::OfTask(Val::Waiting(block))),
    })?;
    Ok(EffectCase {
        conditions,
        changes,
        leaving: Leaving::at(Point::Idle, Asked::Left, Some(Status::Ok)),
    })
}

/// WaitEvent of an extended task.
fn extended_cases(
    alloc: Global,
    app: &App,
    task: TaskNo,
    block: BlockNo,
    next: BlockNo,
    mask: Mask,
) -> Result<Seq<EffectCase>, Memory>
    requires { task.0 < length app.now.tasks }
    ensures { IfOk result (λ cases. cases ≡ extended_cases app.now task block next mask) }
{
    let mut cases = Seq::new(alloc);
    cases.push(refused_holding(alloc, task, next)?)?;
    let conditions = waiting_conditions(alloc, app, task, mask)?;
    cases.push(waits(alloc, task, block, conditions)?)?;
    add_goes_on(alloc, app, &mut cases, task, next, mask)?;
    Ok(cases)
}

/// WaitEvent.
pub fn wait_cases(
    alloc: Global,
    app: &App,
    runner: Runner,
    block: BlockNo,
    next: BlockNo,
    mask: Mask,
) -> Result<Seq<EffectCase>, Memory>
    requires { IsKnown app.now runner }
    ensures { IfOk result (λ cases. cases ≡ wait_cases app.now runner block next mask) }
{
    match runner {
        Runner::Task(task) => {
            if app.task(task).own.is_empty() {
                return refuses(alloc, runner, next, Status::Access);
            }
            extended_cases(alloc, app, task, block, next, mask)
        }
        Runner::Routine { .. } => refuses(alloc, runner, next, Status::CallLevel),
    }
}

/// A WaitEvent of an extended task.
#[derive(Clone, Copy)]
pub struct Wait {
    pub task: TaskNo,
    pub block: BlockNo,
    pub next: BlockNo,
    pub mask: Mask,
}

/// What the WaitEvents of a task with a mask ask, wherever they stand: where the task waits, and by which it goes on.
#[derive(Drop)]
pub struct WaitConditions {
    pub waits: Seq<Condition>,
    pub goes_on: Seq<Condition>,
}

impl Wait {
    ghost use Rattle.std.specs.Prelude.{◌≡◌, ◌<◌, length, IfOk, IfSome};
    ghost use Rattle.osek_standard.specs.Points.{IsPoint};
    ghost use Rattle.flow_effects.specs.Alternatives.{IsWaitAt, effects_by};

    /// The one at a point, if it stands there.
    pub fn at(app: &App, point: Point) -> Option<Wait>
        requires { IsPoint app.now point }
        ensures { IfSome result (IsWaitAt app.now point) }
    {
        let Point::Task(block) = point else {
            return None;
        };
        let task = task_of(app, block);
        if app.task(task).own.is_empty() {
            return None;
        }
        match app.block(block).kind {
            Kind::Call(Call::Mask(MaskService::WaitEvent, mask)) => Some(Wait {
                task,
                block,
                next: app.block(block).next,
                mask,
            }),
            _ => None,
        }
    }

    /// Its effects by its conditions: the task goes on since some event is set, or waits, or is refused.
    pub fn effects(self, alloc: Global, conditions: WaitConditions) -> Result<Effects, Memory>
        ensures { IfOk result (λ effects. effects ≡ effects_by self conditions) }
    {
        let mut cases = Seq::new(alloc);
        cases.push(refused_holding(alloc, self.task, self.next)?)?;
        cases.push(waits(alloc, self.task, self.block, conditions.waits)?)?;
        let free = if_task(alloc, self.task, Test::HoldsNothing)?;
        let runner = Runner::Task(self.task);
        let effect = runner.goes_on(alloc, self.next, free, Asked::No, Some(Status::Ok))?;
        let going_on = Alternatives {
            effect,
            conditions: conditions.goes_on,
        };
        Ok(Effects {
            cases,
            alternatives: Some(going_on),
            wait: Some(self),
        })
    }
}

impl WaitConditions {
    ghost use Rattle.std.specs.Prelude.{◌≡◌, ◌<◌, length, IfOk};
    ghost use Rattle.flow_effects.specs.Alternatives.{wait_conditions};

    /// Those of the WaitEvents of a task with a mask.
    pub fn new(alloc: Global, app: &App, task: TaskNo, mask: Mask) -> Result<WaitConditions, Memory>
        requires { task.0 < length app.now.tasks }
        ensures { IfOk result (λ conditions. conditions ≡ wait_conditions app.now task mask) }
    {
        let waits = waiting_conditions(alloc, app, task, mask)?;
        let mut goes_on = room_for(alloc, app, task, mask)?;
        add_events(app, &mut goes_on, task, mask, true)?;
        Ok(WaitConditions { waits, goes_on })
    }
}
