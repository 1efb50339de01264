//! How many objects of a kind there may be.
ghost use Rattle.std.specs.Prelude.{◌≡◌, filter};
ghost use Rattle.oil_model.specs.{Lines.{least}, Counted.{is_counted}, Rules.{first_beyond, beyond_limits, resource_limit}};

use crate::lines::sooner;
use crate::objects::{Category, has_scheduler, is_isr, is_kind, is_ordinary, is_other_mode};
use oil_tree::Object;
use osek_values::limits::{
    MAX_ALARMS, MAX_COUNTERS, MAX_EVENTS, MAX_ISRS, MAX_MODES, MAX_RESOURCES, MAX_TASKS,
};

/// Objects that are counted against a limit.
#[derive(Clone, Copy)]
enum Counted {
    Tasks,
    /// Those of category 2.
    Isrs,
    Counters,
    Alarms,
    Events,
    /// But for the RES_SCHEDULER that exists, if it does.
    Resources(bool),
    /// But for OSDEFAULTAPPMODE.
    Modes,
}

fn is_counted(counted: Counted, object: &Object) -> bool
    ensures { result ≡ is_counted counted object.now }
{
    match counted {
        Counted::Tasks => is_kind(b"TASK", object),
        Counted::Isrs => is_isr(Category::Two, object),
        Counted::Counters => is_kind(b"COUNTER", object),
        Counted::Alarms => is_kind(b"ALARM", object),
        Counted::Events => is_kind(b"EVENT", object),
        Counted::Resources(scheduler) => is_ordinary(scheduler, object),
        Counted::Modes => is_other_mode(object),
    }
}

/// The line of the first object beyond the limit.
fn beyond(counted: Counted, limit: usize, objects: &[Object]) -> Option<u32>
    ensures { result ≡ least (first_beyond limit (filter (is_counted counted) objects.now)) }
{
    let mut left = limit;
    for object in objects {
        if is_counted(counted, object) {
            if left == 0 {
                return Some(object.line);
            }
            left -= 1;
        }
    }
    None
}

// RES_SCHEDULER, where it exists, has a place of its own.
fn resource_limit(scheduler: bool) -> usize
    ensures { result ≡ resource_limit scheduler }
{
    if scheduler {
        MAX_RESOURCES - 1
    } else {
        MAX_RESOURCES
    }
}

/// The least line of an object that is the first beyond the limit of its kind.
#[tactic(auto, using(crate::proofs::Leasts::least_append))]
pub fn beyond_limit(objects: &[Object]) -> Option<u32>
    ensures { result ≡ least (beyond_limits objects.now) }
{
    let scheduler = has_scheduler(objects);
    let task = beyond(Counted::Tasks, MAX_TASKS, objects);
    let isr = beyond(Counted::Isrs, MAX_ISRS, objects);
    let counter = beyond(Counted::Counters, MAX_COUNTERS, objects);
    let alarm = beyond(Counted::Alarms, MAX_ALARMS, objects);
    let event = beyond(Counted::Events, MAX_EVENTS, objects);
    let resource = beyond(
        Counted::Resources(scheduler),
        resource_limit(scheduler),
        objects,
    );
    let mode = beyond(Counted::Modes, MAX_MODES - 1, objects);
    let behind_alarm = sooner(event, sooner(resource, mode));
    sooner(
        task,
        sooner(isr, sooner(counter, sooner(alarm, behind_alarm))),
    )
}
