//! The cases of the services on alarms, and of an alarm that a tick routine looks at.
ghost use Rattle.std.specs.Prelude.{◌≡◌, ◌<◌, [], ◌∷◌, ◌++◌, length, map, IfOk, OnOk};
ghost use Rattle.osek_standard.specs.{Apps.{tables, is_cycle as is_cycle_of}, Validity.{IsAction}};
ghost use Rattle.abstract_state.specs.Components.{component_number as component_number_of};
ghost use Rattle.abstract_state.specs.declared.value.Component.TheVariants as component;
ghost use Rattle.abstract_state.specs.declared.value.PartValue.TheVariants.{OfAlarm};
ghost use Rattle.flow_model.specs.declared.change.Update.TheVariants as update;
ghost use Rattle.flow_model.specs.Runners.{change};
ghost use Rattle.flow_services.specs.declared.occasion.Queued.TheVariants as queues;
ghost use Rattle.flow_services.specs.Occasions.{accepted_case, case_at};
ghost use Rattle.flow_services.specs.Services.{armings as armings_of, cancellings as cancellings_of, alarm_readings as alarm_readings_of, actions as actions_of, expiries as expiries_of, is_rel_refused as is_rel_refused_by, is_abs_refused as is_abs_refused_by};

use crate::events::add_event_settings;
use crate::occasion::{Occasion, Queued, one, only};
use crate::tasks::add_activations;
use abstract_state::{Component, ComponentNo, PartValue, component_number};
use flow_model::{Asked, Change, Condition, EffectCase, Runner, Test, Update};
use osek_standard::{Action, App};
use osek_values::{AlarmNo, BlockNo, Memory, Seq, Status};
use std::alloc::Global;

/// Whether the alarm's counter allows a cycle: 0, or from MINCYCLE to MAXALLOWEDVALUE.
fn is_cycle(app: &App, alarm: AlarmNo, cycle: u64) -> bool
    requires { alarm.0 < length app.now.alarms }
    ensures { result ≡ is_cycle_of app.now alarm.0 cycle }
{
    let counter = app.counter_of(alarm);
    cycle == 0 || (counter.min_cycle as u64 <= cycle && cycle <= counter.max as u64)
}

/// Whether SetRelAlarm refuses these numbers.
pub fn is_rel_refused(app: &App, alarm: AlarmNo, increment: u64, cycle: u64) -> bool
    requires { alarm.0 < length app.now.alarms }
    ensures { result ≡ is_rel_refused_by app.now alarm.0 increment cycle }
{
    let max = app.counter_of(alarm).max as u64;
    increment == 0 || max < increment || !is_cycle(app, alarm, cycle)
}

/// Whether SetAbsAlarm refuses these numbers.
pub fn is_abs_refused(app: &App, alarm: AlarmNo, start: u64, cycle: u64) -> bool
    requires { alarm.0 < length app.now.alarms }
    ensures { result ≡ is_abs_refused_by app.now alarm.0 start cycle }
{
    (app.counter_of(alarm).max as u64) < start || !is_cycle(app, alarm, cycle)
}

/// The component of an alarm.
pub fn alarm_component(app: &App, alarm: AlarmNo) -> ComponentNo
    requires { alarm.0 < length app.now.alarms }
    ensures { result.0 ≡ component_number_of app.now (component.Alarm alarm) }
{
    component_number(app, Component::Alarm(alarm))
}

/// The case in which an alarm becomes armed or idle.
fn becoming(
    alloc: Global,
    occasion: Occasion,
    component: ComponentNo,
    conditions: Seq<Condition>,
    armed: bool,
) -> Result<EffectCase, Memory>
    ensures { IfOk result (λ case. case ≡ case_at occasion (accepted_case conditions (change component.0 (update.Set (OfAlarm armed)) ∷ []) queues.Nothing)) }
{
    let mut changes = occasion.begun(alloc)?;
    changes.push(Change {
        component,
        update: Update::Set(PartValue::OfAlarm(armed)),
    })?;
    occasion.accepted(conditions, changes, Queued::Nothing)
}

/// The cases of a service that arms an alarm, whose numbers may be refused.
pub fn armings(
    alloc: Global,
    app: &App,
    occasion: Occasion,
    alarm: AlarmNo,
    refused: bool,
) -> Result<Seq<EffectCase>, Memory>
    requires { alarm.0 < length app.now.alarms }
    ensures { IfOk result (λ cases. cases ≡ map (case_at occasion) (armings_of app.now alarm.0 refused)) }
{
    let component = alarm_component(app, alarm);
    let armed = only(alloc, component, Test::Is(PartValue::OfAlarm(true)))?;
    let idle = only(alloc, component, Test::Is(PartValue::OfAlarm(false)))?;
    let mut cases = one(alloc, occasion.refused(alloc, armed, Status::State)?)?;
    if refused {
        cases.push(occasion.refused(alloc, idle, Status::Value)?)?;
        return Ok(cases);
    }
    cases.push(becoming(alloc, occasion, component, idle, true)?)?;
    Ok(cases)
}

/// The cases of CancelAlarm.
pub fn cancellings(
    alloc: Global,
    app: &App,
    occasion: Occasion,
    alarm: AlarmNo,
) -> Result<Seq<EffectCase>, Memory>
    requires { alarm.0 < length app.now.alarms }
    ensures { IfOk result (λ cases. cases ≡ map (case_at occasion) (cancellings_of app.now alarm.0)) }
{
    let component = alarm_component(app, alarm);
    let idle = only(alloc, component, Test::Is(PartValue::OfAlarm(false)))?;
    let armed = only(alloc, component, Test::Is(PartValue::OfAlarm(true)))?;
    let mut cases = one(alloc, occasion.refused(alloc, idle, Status::NoFunc)?)?;
    cases.push(becoming(alloc, occasion, component, armed, false)?)?;
    Ok(cases)
}

/// The cases of GetAlarm.
pub fn alarm_readings(
    alloc: Global,
    app: &App,
    occasion: Occasion,
    alarm: AlarmNo,
) -> Result<Seq<EffectCase>, Memory>
    requires { alarm.0 < length app.now.alarms }
    ensures { IfOk result (λ cases. cases ≡ map (case_at occasion) (alarm_readings_of app.now alarm.0)) }
{
    let component = alarm_component(app, alarm);
    let idle = only(alloc, component, Test::Is(PartValue::OfAlarm(false)))?;
    let armed = only(alloc, component, Test::Is(PartValue::OfAlarm(true)))?;
    let mut cases = one(alloc, occasion.refused(alloc, idle, Status::NoFunc)?)?;
    cases.push(occasion.answered(alloc, armed)?)?;
    Ok(cases)
}

/// Adds the cases of an alarm's action.
fn add_actions(
    alloc: Global,
    app: &App,
    occasion: Occasion,
    action: Action,
    cases: &mut Seq<EffectCase>,
) -> Result<(), Memory>
    requires { IsAction (tables app.now) action }
    ensures { OnOk result (cases.new ≡ cases.old ++ map (case_at occasion) (actions_of app.now action)) }
{
    match action {
        Action::ActivateTask(task) => add_activations(alloc, app, occasion, task, cases),
        Action::SetEvent(task, mask) => {
            add_event_settings(alloc, app, occasion, task, mask, cases)
        }
    }
}

/// The cases of an alarm that a tick routine looks at.
pub fn expiries(
    alloc: Global,
    app: &App,
    runner: Runner,
    next: BlockNo,
    alarm: AlarmNo,
) -> Result<Seq<EffectCase>, Memory>
    requires { alarm.0 < length app.now.alarms }
    ensures { IfOk result (λ cases. cases ≡ expiries_of app.now runner next alarm.0) }
{
    let component = alarm_component(app, alarm);
    let action = app.alarm(alarm).action;
    let looking = Occasion {
        runner,
        next,
        asked: Asked::No,
        expired: None,
    };
    let idle = only(alloc, component, Test::Is(PartValue::OfAlarm(false)))?;
    let armed = only(alloc, component, Test::Is(PartValue::OfAlarm(true)))?;
    let mut cases = one(alloc, looking.unnoted(alloc, idle)?)?;
    cases.push(looking.unnoted(alloc, armed)?)?;
    add_actions(
        alloc,
        app,
        looking.expiring(component, false),
        action,
        &mut cases,
    )?;
    add_actions(
        alloc,
        app,
        looking.expiring(component, true),
        action,
        &mut cases,
    )?;
    Ok(cases)
}
