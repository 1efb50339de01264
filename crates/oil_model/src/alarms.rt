//! Counters and alarms.
ghost use Rattle.std.specs.Prelude.{◌≡◌, ◌≤◌, [], length, IfOk, map, codes};
ghost use Rattle.oil_tree.specs.AttrLists.{attr_list};
ghost use Rattle.oil_model.specs.{Lists.{found_in}, Objects.{objects_of, maximum, minimum, alarm_time, cycle_time, start}, Rules.{wrong_in, late_times, beyond_limits}};
ghost use Rattle.oil_model.specs.Systems.{number_in, names_of, counter, action, alarm};

use crate::events::mask_named;
use crate::look_up::{inner, number, says, word};
use crate::modes::autostart;
use crate::objects::{is_called, is_kind, maximum, minimum, start};
use crate::times::{alarm_time, cycle_time};
use oil_system::{Action, Alarm, CounterObject, EventObject};
use oil_tree::{Attr, Object};
use osek_values::{CounterNo, Mask, Memory, Name, Seq, TaskNo, copied};
use std::alloc::Global;

// A number of ticks as a number of 32 bits.
fn narrow(ticks: u64) -> u32
    requires { ticks ≤ 4294967295 }
    ensures { result ≡ ticks }
{
    ticks as u32
}

fn counter(alloc: Global, object: &Object) -> Result<CounterObject, Memory>
    requires max { maximum (attr_list object.now.attrs) ≤ 4294967295 }
    requires min { minimum (attr_list object.now.attrs) ≤ 4294967295 }
    ensures { IfOk result (λ c. c ≡ counter object.now) }
{
    let attrs = object.attrs.as_slice();
    let name = copied(alloc, &object.name)?;
    Ok(CounterObject {
        name,
        max: narrow(maximum(attrs)),
        ticks_per_base: number(b"TICKSPERBASE", attrs, 1),
        min_cycle: narrow(minimum(attrs)),
    })
}

/// The counters.
pub fn counters(alloc: Global, objects: &[Object]) -> Result<Seq<CounterObject>, Memory>
    requires allowed { found_in wrong_in objects.now ≡ [] }
    requires inside { late_times objects.now ≡ [] }
    ensures { IfOk result (λ found. found ≡ map counter (objects_of (codes "COUNTER") objects.now)) }
{
    let mut found = Vec::new(alloc);
    for object in objects {
        if is_kind(b"COUNTER", object) {
            found.push(counter(alloc, object)?)?;
        }
    }
    Ok(Seq::of(found))
}

// The number of an object among those of its kind, or 0.
fn number_of(kind: &[u8], name: &[u8], objects: &[Object]) -> usize
    ensures { result ≡ number_in (names_of kind.now objects.now) name.now }
{
    let mut number = 0;
    for object in objects {
        if is_kind(kind, object) {
            if is_called(name, object) {
                return number;
            }
            number += 1;
        }
    }
    0
}

// A number of an object as a number of 8 bits.
fn narrow_number(number: usize) -> u8
    requires { number ≤ 255 }
    ensures { result ≡ number }
{
    number as u8
}

fn task_named(name: &[u8], objects: &[Object]) -> TaskNo
    requires { beyond_limits objects.now ≡ [] }
    ensures { result.0 ≡ number_in (names_of (codes "TASK") objects.now) name.now }
{
    TaskNo(narrow_number(number_of(b"TASK", name, objects)))
}

fn counter_named(name: &[u8], objects: &[Object]) -> CounterNo
    requires { beyond_limits objects.now ≡ [] }
    ensures { result.0 ≡ number_in (names_of (codes "COUNTER") objects.now) name.now }
{
    CounterNo(narrow_number(number_of(b"COUNTER", name, objects)))
}

fn action(objects: &[Object], events: &[EventObject], attrs: &[Attr]) -> Action
    requires { beyond_limits objects.now ≡ [] }
    ensures { result ≡ action (names_of (codes "TASK") objects.now) events.now attrs.now }
{
    let inside = inner(b"ACTION", attrs);
    let task = task_named(word(b"TASK", inside), objects);
    if says(b"ACTION", b"SETEVENT", attrs) {
        Action::SetEvent(task, Mask(mask_named(word(b"EVENT", inside), events)))
    } else {
        Action::ActivateTask(task)
    }
}

fn alarm(
    alloc: Global,
    objects: &[Object],
    object: &Object,
    modes: &[Name],
    events: &[EventObject],
) -> Result<Alarm, Memory>
    requires room { beyond_limits objects.now ≡ [] }
    requires few { length modes.now ≤ 8 }
    requires time { alarm_time (start (attr_list object.now.attrs)) ≤ 4294967295 }
    requires cycle { cycle_time (start (attr_list object.now.attrs)) ≤ 4294967295 }
    ensures { IfOk result (λ a. a ≡ alarm (names_of (codes "COUNTER") objects.now) (names_of (codes "TASK") objects.now) modes.now events.now object.now) }
{
    let attrs = object.attrs.as_slice();
    let name = copied(alloc, &object.name)?;
    Ok(Alarm {
        name,
        counter: counter_named(word(b"COUNTER", attrs), objects),
        action: action(objects, events, attrs),
        autostart: autostart(modes, attrs),
        time: narrow(alarm_time(start(attrs))),
        cycle: narrow(cycle_time(start(attrs))),
    })
}

/// The alarms.
pub fn alarms(
    alloc: Global,
    objects: &[Object],
    modes: &[Name],
    events: &[EventObject],
) -> Result<Seq<Alarm>, Memory>
    requires allowed { found_in wrong_in objects.now ≡ [] }
    requires inside { late_times objects.now ≡ [] }
    requires room { beyond_limits objects.now ≡ [] }
    requires few { length modes.now ≤ 8 }
    ensures { IfOk result (λ found. found ≡ map (alarm (names_of (codes "COUNTER") objects.now) (names_of (codes "TASK") objects.now) modes.now events.now) (objects_of (codes "ALARM") objects.now)) }
{
    let mut found = Vec::new(alloc);
    for object in objects {
        if is_kind(b"ALARM", object) {
            found.push(alarm(alloc, objects, object, modes, events)?)?;
        }
    }
    Ok(Seq::of(found))
}
