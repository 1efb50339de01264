//! The services on alarms, and the two instructions of a tick routine.
ghost use Rattle.std.specs.Prelude.{◌≡◌, ◌<◌, length, Some, None};
ghost use Rattle.osek_standard.specs.Apps.{is_cycle as is_cycle_of};
ghost use Rattle.osek_standard.specs.Services.{answer, set_rel_alarm as set_rel_alarm_row, set_abs_alarm as set_abs_alarm_row, cancel_alarm as cancel_alarm_row, get_alarm as get_alarm_row, rearmed as rearmed_by, count_up as count_up_row, expire as expire_row};
ghost use Rattle.osek_standard.specs.Well.{Well};
ghost use Rattle.event_alarm.specs.Answers.{status_of, number_of};

use crate::events::set_event;
use activation::activate;
use osek_standard::{Action, AlarmState, App, State};
use osek_values::{AlarmNo, Ask, CounterNo, Status};

/// Whether the alarm's counter allows a cycle: 0, or from MINCYCLE to MAXALLOWEDVALUE.
fn is_cycle(app: &App, alarm: AlarmNo, cycle: u64) -> bool
    requires { alarm.0 < length app.now.alarms }
    ensures { result ≡ is_cycle_of app.now alarm.0 cycle }
{
    let counter = app.counter_of(alarm);
    cycle == 0 || (counter.min_cycle as u64 <= cycle && cycle <= counter.max as u64)
}

/// SetRelAlarm: the alarm expires after so many ticks, and then each cycle.
#[tactic(auto, unfolding(osek_standard::specs::Services::set_rel_alarm))]
pub fn set_rel_alarm(
    app: &App,
    state: &mut State,
    alarm: AlarmNo,
    increment: u64,
    cycle: u64,
) -> Status
    requires known { alarm.0 < length app.now.alarms }
    requires well { Well app.now state.old }
    ensures row { set_rel_alarm_row app.now state.old alarm.0 increment cycle ≡ answer state.new (Some result) None Ask.No }
    ensures well { Well app.now state.new }
{
    if let AlarmState::Armed { .. } = state.alarm(alarm) {
        return Status::State;
    }
    let max = app.counter_of(alarm).max as u64;
    if increment == 0 || max < increment || !is_cycle(app, alarm, cycle) {
        return Status::Value;
    }
    let value = state.counter(app.alarm(alarm).counter) as u64;
    let at = (value + increment) % (max + 1);
    state.put_alarm(
        alarm,
        AlarmState::Armed {
            at: at as u32,
            cycle: cycle as u32,
        },
    );
    Status::Ok
}

/// SetAbsAlarm: the alarm expires when its counter comes to the start, and then each cycle.
#[tactic(auto, unfolding(osek_standard::specs::Services::set_abs_alarm))]
pub fn set_abs_alarm(app: &App, state: &mut State, alarm: AlarmNo, start: u64, cycle: u64) -> Status
    requires known { alarm.0 < length app.now.alarms }
    requires well { Well app.now state.old }
    ensures row { set_abs_alarm_row app.now state.old alarm.0 start cycle ≡ answer state.new (Some result) None Ask.No }
    ensures well { Well app.now state.new }
{
    if let AlarmState::Armed { .. } = state.alarm(alarm) {
        return Status::State;
    }
    if (app.counter_of(alarm).max as u64) < start || !is_cycle(app, alarm, cycle) {
        return Status::Value;
    }
    state.put_alarm(
        alarm,
        AlarmState::Armed {
            at: start as u32,
            cycle: cycle as u32,
        },
    );
    Status::Ok
}

/// CancelAlarm.
#[tactic(auto, unfolding(osek_standard::specs::Services::cancel_alarm))]
pub fn cancel_alarm(app: &App, state: &mut State, alarm: AlarmNo) -> Status
    requires known { alarm.0 < length app.now.alarms }
    requires well { Well app.now state.old }
    ensures row { cancel_alarm_row app.now state.old alarm.0 ≡ answer state.new (Some result) None Ask.No }
    ensures well { Well app.now state.new }
{
    if let AlarmState::Idle = state.alarm(alarm) {
        return Status::NoFunc;
    }
    state.put_alarm(alarm, AlarmState::Idle);
    Status::Ok
}

/// GetAlarm: the ticks until the alarm expires, a whole round where its counter stands at that value.
#[tactic(auto, unfolding(osek_standard::specs::Services::get_alarm))]
pub fn get_alarm(app: &App, state: &State, alarm: AlarmNo) -> Result<u64, Status>
    requires known { alarm.0 < length app.now.alarms }
    requires well { Well app.now state.now }
    ensures { get_alarm_row app.now state.now alarm.0 ≡ answer state.now (Some (status_of result)) (number_of result) Ask.No }
{
    let AlarmState::Armed { at, .. } = state.alarm(alarm) else {
        return Err(Status::NoFunc);
    };
    let round = app.counter_of(alarm).max as u64 + 1;
    let value = state.counter(app.alarm(alarm).counter);
    if at == value {
        Ok(round)
    } else {
        Ok((at as u64 + round - value as u64) % round)
    }
}

/// A tick: the counter goes on by one, and from its greatest value to 0.
#[tactic(auto, unfolding(osek_standard::specs::Services::count_up))]
pub fn count_up(app: &App, state: &mut State, counter: CounterNo)
    requires known { counter.0 < length app.now.counters }
    requires well { Well app.now state.old }
    ensures row { count_up_row app.now state.old counter.0 ≡ state.new }
    ensures well { Well app.now state.new }
{
    let value = state.counter(counter);
    let next = if value == app.counter(counter).max {
        0
    } else {
        value + 1
    };
    state.counters.put(counter.index(), next);
}

/// The alarm after it expired: idle, or armed anew where it is cyclic.
fn rearmed(app: &App, alarm: AlarmNo, at: u32, cycle: u32) -> AlarmState
    requires { alarm.0 < length app.now.alarms }
    ensures { result ≡ rearmed_by app.now alarm.0 (AlarmState.Armed at cycle) }
{
    if cycle == 0 {
        return AlarmState::Idle;
    }
    let round = app.counter_of(alarm).max as u64 + 1;
    let next = (at as u64 + cycle as u64) % round;
    AlarmState::Armed {
        at: next as u32,
        cycle,
    }
}

/// An alarm that is due at its counter's value is armed anew or idle, and then does its action, whose status is
/// answered. No other alarm does anything.
#[tactic(auto, unfolding(osek_standard::specs::Services::expire))]
pub fn expire(app: &App, state: &mut State, alarm: AlarmNo) -> Option<Status>
    requires known { alarm.0 < length app.now.alarms }
    requires well { Well app.now state.old }
    ensures row { expire_row app.now state.old alarm.0 ≡ answer state.new result None Ask.No }
    ensures well { Well app.now state.new }
{
    let AlarmState::Armed { at, cycle } = state.alarm(alarm) else {
        return None;
    };
    if at != state.counter(app.alarm(alarm).counter) {
        return None;
    }
    state.put_alarm(alarm, rearmed(app, alarm, at, cycle));
    match app.alarm(alarm).action {
        Action::ActivateTask(task) => Some(activate(app, state, task)),
        Action::SetEvent(task, mask) => Some(set_event(app, state, task, mask).0),
    }
}
