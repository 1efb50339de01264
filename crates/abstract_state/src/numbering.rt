//! The components of an application, and their numbers.
ghost use Rattle.std.specs.{Prelude.{◌≡◌, ◌+◌, ◌<◌, ◌≤◌, ◌^◌, ◌++◌, count_ones, length, map, flat_map, IfOk, OnOk}, List.{range_with_len}};
ghost use Rattle.osek_values.specs.{Numbers.{task_no, event_no, alarm_no, source_no}, Bits.{has_bit, passing_below}};
ghost use Rattle.osek_standard.specs.Apps.{the_task, source_count};
ghost use Rattle.abstract_state.specs.declared.value.Component.TheVariants as component;
ghost use Rattle.abstract_state.specs.Components.{own_bits, events_of, event_start as event_start_of, components as components_of, component_number as component_number_of, IsComponent};
ghost use Rattle.abstract_state.specs.Domains.{HasMasks};

use crate::value::{Component, ComponentNo};
use osek_standard::App;
use osek_values::{AlarmNo, EventNo, Mask, Memory, Seq, SourceNo, TaskNo};
use std::alloc::Global;

/// The components of an application's states, in the order of their numbers.
pub fn components(alloc: Global, app: &App) -> Result<Seq<Component>, Memory>
    ensures { IfOk result (λ all. all ≡ components_of app.now) }
{
    let mut all = Seq::new(alloc);
    push_tasks(app, &mut all)?;
    push_events(alloc, app, &mut all)?;
    push_alarms(app, &mut all)?;
    push_sources(app, &mut all)?;
    Ok(all)
}

fn push_tasks(app: &App, all: &mut Seq<Component>) -> Result<(), Memory>
    ensures { OnOk result (all.new ≡ all.old ++ map (λ t. component.Task (task_no t)) (range_with_len 0 (length app.now.tasks))) }
{
    for task in 0..app.tasks.len() {
        all.push(Component::Task(TaskNo(task as u8)))?;
    }
    Ok(())
}

fn push_events(alloc: Global, app: &App, all: &mut Seq<Component>) -> Result<(), Memory>
    ensures { OnOk result (all.new ≡ all.old ++ flat_map (events_of app.now) (range_with_len 0 (length app.now.tasks))) }
{
    for task in 0..app.tasks.len() {
        push_events_of(alloc, app, TaskNo(task as u8), all)?;
    }
    Ok(())
}

fn push_events_of(
    alloc: Global,
    app: &App,
    task: TaskNo,
    all: &mut Seq<Component>,
) -> Result<(), Memory>
    requires { task.0 < length app.now.tasks }
    ensures { OnOk result (all.new ≡ all.old ++ events_of app.now task.0) }
{
    let events = own_events(alloc, app, task)?;
    for bit in events.as_slice() {
        all.push(Component::Event { task, bit: *bit })?;
    }
    Ok(())
}

fn push_alarms(app: &App, all: &mut Seq<Component>) -> Result<(), Memory>
    ensures { OnOk result (all.new ≡ all.old ++ map (λ a. component.Alarm (alarm_no a)) (range_with_len 0 (length app.now.alarms))) }
{
    for alarm in 0..app.alarms.len() {
        all.push(Component::Alarm(AlarmNo(alarm as u8)))?;
    }
    Ok(())
}

fn push_sources(app: &App, all: &mut Seq<Component>) -> Result<(), Memory>
    ensures { OnOk result (all.new ≡ all.old ++ map (λ k. component.Source (source_no k)) (range_with_len 0 (source_count app.now))) }
{
    for source in 0..app.counters.len() + app.isrs.len() {
        all.push(Component::Source(SourceNo(source as u8)))?;
    }
    Ok(())
}

/// The numbers of a task's own events.
pub fn own_events(alloc: Global, app: &App, task: TaskNo) -> Result<Seq<EventNo>, Memory>
    requires { task.0 < length app.now.tasks }
    ensures { IfOk result (λ events. events ≡ map event_no (own_bits app.now task.0)) }
{
    let own = app.task(task).own;
    let mut events = Seq::new(alloc);
    for bit in 0..64 {
        if own.has(bit) {
            events.push(EventNo(bit))?;
        }
    }
    Ok(events)
}

/// The number of a component.
pub fn component_number(app: &App, component: Component) -> ComponentNo
    requires { IsComponent app.now component }
    ensures { result.0 ≡ component_number_of app.now component }
{
    let tasks = app.tasks.len();
    match component {
        Component::Task(task) => ComponentNo(task.0 as u16),
        Component::Event { task, bit } => {
            let own = own_below(app.task(task).own, bit.0);
            ComponentNo(tasks as u16 + event_start(app, task.index()) + own)
        }
        Component::Alarm(alarm) => {
            ComponentNo(tasks as u16 + event_start(app, tasks) + alarm.0 as u16)
        }
        Component::Source(source) => {
            let alarms = app.alarms.len() as u16;
            ComponentNo(tasks as u16 + event_start(app, tasks) + alarms + source.0 as u16)
        }
    }
}

/// How many events the tasks below this one have of their own.
fn event_start(app: &App, task: usize) -> u16
    requires { task ≤ length app.now.tasks }
    ensures value { result ≡ event_start_of app.now task }
    ensures few { result ≤ 1024 }
{
    let mut start = 0;
    for below in 0..task {
        start += size(app.tasks.at(below).own.0);
    }
    start
}

/// How many bits a task's mask has.
fn size(own: u64) -> u16
    ensures value { result ≡ count_ones own }
    ensures few { result ≤ 64 }
    ensures mask { own < 2 ^ 64 }
{
    own.count_ones() as u16
}

/// How many of a task's own event bits are below this one.
fn own_below(own: Mask, bit: u8) -> u16
    requires { bit < 64 }
    ensures value { result ≡ passing_below (has_bit own.0) bit }
    ensures few { result ≤ bit }
{
    let mut found = 0;
    for below in 0..bit {
        if own.has(below) {
            found += 1;
        }
    }
    found
}

/// Each task's mask of events is one of 64 bits.
pub fn masks_are_few(app: &App)
    ensures { HasMasks app.now }
{
    for task in 0..app.tasks.len() {
        fits(app.tasks.at(task).own.0);
    }
}

fn fits(bits: u64)
    ensures { bits < 2 ^ 64 }
{}
