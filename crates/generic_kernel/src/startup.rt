//! The start of the kernel in an application mode.
ghost use Rattle.std.specs.Prelude.{◌≡◌, ◌+◌, ◌<◌, ◌≤◌, length, map, replicate, IfOk, false, [], ◌∷◌, ◌++◌, if◌then◌else◌};
ghost use Rattle.osek_values.specs.{Bits.{has_bit}, Numbers.{task_no}};
ghost use Rattle.osek_standard.specs.{Dispatch.{stepped}, Kernel.{started_task as started_task_of, started_alarm as started_alarm_of, initial, start as start_of, autostarted}};
ghost use Rattle.osek_standard.specs.{Well.{Well}, Apps.{the_task}};
ghost use Rattle.osek_standard.specs.declared.state.Source.TheVariants as source;

use crate::dispatch::{best_task, switch_to};
use crate::ready::Ready;
use osek_standard::{Activity, Alarm, AlarmState, App, Processor, Source, State, Task, TaskState};
use osek_values::limits::{MAX_COUNTERS, MAX_ISRS, MAX_LINE, MAX_MODES};
use osek_values::{Ask, HookSet, Line, Mask, Memory, ModeNo, Notes, Seq, Steps, TaskNo};
use std::alloc::Global;
use std::marker::Brand;
use std::sync::ledger::{Blank, Ledger};

/// Whether the bit of a mode is set.
fn is_started(autostart: u8, mode: ModeNo) -> bool
    requires { mode.0 < MAX_MODES }
    ensures { result ≡ has_bit autostart mode.0 }
{
    (autostart >> mode.0) % 2 == 1
}

fn started_task(task: &Task, mode: ModeNo) -> TaskState
    requires { mode.0 < MAX_MODES }
    ensures { result ≡ started_task_of mode.0 task.now }
{
    let activity = if is_started(task.autostart, mode) {
        Activity::live_at(task.first, 0)
    } else {
        Activity::Suspended
    };
    TaskState {
        activity,
        events: Mask(0),
    }
}

fn started_alarm(alarm: &Alarm, mode: ModeNo) -> AlarmState
    requires { mode.0 < MAX_MODES }
    ensures { result ≡ started_alarm_of mode.0 alarm.now }
{
    if is_started(alarm.autostart, mode) {
        AlarmState::Armed {
            at: alarm.time,
            cycle: alarm.cycle,
        }
    } else {
        AlarmState::Idle
    }
}

fn started_tasks(alloc: Global, app: &App, mode: ModeNo) -> Result<Seq<TaskState>, Memory>
    requires { mode.0 < MAX_MODES }
    ensures { IfOk result (λ tasks. tasks ≡ map (started_task_of mode.0) app.now.tasks) }
{
    let mut tasks = Vec::new(alloc);
    for task in app.tasks.as_slice() {
        tasks.push(started_task(task, mode))?;
    }
    Ok(Seq::of(tasks))
}

fn started_alarms(alloc: Global, app: &App, mode: ModeNo) -> Result<Seq<AlarmState>, Memory>
    requires { mode.0 < MAX_MODES }
    ensures { IfOk result (λ alarms. alarms ≡ map (started_alarm_of mode.0) app.now.alarms) }
{
    let mut alarms = Vec::new(alloc);
    for alarm in app.alarms.as_slice() {
        alarms.push(started_alarm(alarm, mode))?;
    }
    Ok(Seq::of(alarms))
}

fn zeros(alloc: Global, app: &App) -> Result<Seq<u32>, Memory>
    ensures { IfOk result (λ counters. counters ≡ map (λ _. 0) app.now.counters) }
{
    let mut counters = Vec::new(alloc);
    for _counter in app.counters.as_slice() {
        counters.push(0)?;
    }
    Ok(Seq::of(counters))
}

fn all_out(alloc: Global, count: usize) -> Result<Seq<Source>, Memory>
    requires { count ≤ MAX_COUNTERS + MAX_ISRS }
    ensures { IfOk result (λ sources. sources ≡ replicate count source.Out) }
{
    let mut sources = Vec::new(alloc);
    for _source in 0..count {
        sources.push(Source::Out)?;
    }
    Ok(Seq::of(sources))
}

fn unlatched(alloc: Global, count: usize) -> Result<Seq<bool>, Memory>
    requires { count ≤ MAX_COUNTERS + MAX_ISRS }
    ensures { IfOk result (λ latched. latched ≡ replicate count false) }
{
    Ok(Seq::of(vec![in alloc; false; count]?))
}

// a task goes last in the line where it is autostarted
fn line_up(app: &App, mode: ModeNo, task: TaskNo, line: &mut Line)
    requires mode { mode.0 < MAX_MODES }
    requires known { task.0 < length app.now.tasks }
    requires room { length line.old < MAX_LINE }
    ensures { line.new ≡ line.old ++ map task_no (if has_bit (the_task app.now task.0).autostart mode.0 then task.0 ∷ [] else []) }
{
    if is_started(app.task(task).autostart, mode) {
        line.push_last(task);
    }
}

/// The autostarted tasks in order.
fn started_line(app: &App, mode: ModeNo) -> Line
    requires { mode.0 < MAX_MODES }
    ensures { result ≡ map task_no (autostarted app.now mode.0) }
{
    let mut line = Line::new();
    for task in 0..app.tasks.len() {
        line_up(app, mode, TaskNo(task as u8), &mut line);
    }
    line
}

/// The state before the first dispatch.
fn begin(alloc: Global, app: &App, mode: ModeNo) -> Result<State, Memory>
    requires { mode.0 < length app.now.modes }
    ensures { IfOk result (λ state. state ≡ initial app.now mode) }
{
    let sources = app.counters.len() + app.isrs.len();
    Ok(State {
        mode,
        processor: Processor::Idle,
        tasks: started_tasks(alloc, app, mode)?,
        counters: zeros(alloc, app)?,
        alarms: started_alarms(alloc, app, mode)?,
        sources: all_out(alloc, sources)?,
        latched: unlatched(alloc, sources)?,
        line: started_line(app, mode),
    })
}

#[tactic(auto, unfolding(osek_standard::specs::Kernel::start))]
fn start_from<L: Ledger>(
    alloc: Global,
    app: &App,
    mode: ModeNo,
    blank: Blank,
) -> Result<(State, Notes), Memory>
    requires mode { mode.0 < length app.now.modes }
    requires name { blank.name ≡ L.name }
    requires parts { blank.parts ≡ L.parts }
    requires some { 0 < L.parts }
    ensures { IfOk result (λ r. start_of app.now mode ≡ stepped r.0 r.1) }
{
    let mut scans = Steps::<L>::of(blank);
    let mut state = begin(alloc, app, mode)?;
    let started = app.hooks.among(HookSet::STARTUP);
    let ready = Ready::of(app, &state);
    let hooks = match best_task(app, &state, &ready, &mut scans) {
        None => app.hooks.among(HookSet::none()),
        Some(task) => switch_to(app, &mut state, Some(task), Ask::No),
    };
    Ok((
        state,
        Notes {
            status: None,
            value: None,
            hooks: started.with(hooks),
        },
    ))
}

/// The start in a mode: StartupHook, and the best task is dispatched. All memory that the state ever needs is taken
/// here.
pub fn start(alloc: Global, app: &App, mode: ModeNo) -> Result<(State, Notes), Memory>
    requires { mode.0 < length app.now.modes }
    ensures start { IfOk result (λ r. start_of app.now mode ≡ stepped r.0 r.1) }
    ensures well { IfOk result (λ r. Well app.now r.0) }
{
    start_from::<Brand>(alloc, app, mode, Blank::new(1))
}
