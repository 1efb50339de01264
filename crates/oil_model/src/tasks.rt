//! Tasks.
ghost use Rattle.std.specs.Prelude.{◌≡◌, ◌≤◌, [], length, IfOk, map, codes};
ghost use Rattle.oil_model.specs.{Lists.{found_in}, Objects.{objects_of, priority, activation}, Rules.{wrong_in, wrong_activations}, Systems.{schedule, task}};

use crate::events::own_bits;
use crate::internals::internal;
use crate::look_up::says;
use crate::modes::autostart;
use crate::objects::{activation, is_kind, priority};
use oil_system::{EventObject, Resource, Schedule, TaskObject};
use oil_tree::{Attr, Object};
use osek_values::{Mask, Memory, Name, Seq, copied};
use std::alloc::Global;

fn schedule(attrs: &[Attr]) -> Schedule
    ensures { result ≡ schedule attrs.now }
{
    if says(b"SCHEDULE", b"NON", attrs) {
        Schedule::Non
    } else {
        Schedule::Full
    }
}

/// A priority as a number of 16 bits.
pub fn narrow(priority: u64) -> u16
    requires { priority ≤ 65535 }
    ensures { result ≡ priority }
{
    priority as u16
}

// A number of activations as a number of 8 bits.
fn narrow_activation(activation: u64) -> u8
    requires { activation ≤ 255 }
    ensures { result ≡ activation }
{
    activation as u8
}

fn task(
    alloc: Global,
    object: &Object,
    modes: &[Name],
    events: &[EventObject],
    resources: &[Resource],
) -> Result<TaskObject, Memory>
    requires few { length modes.now ≤ 8 }
    requires few_resources { length resources.now ≤ 8 }
    requires in_range { priority object.now ≤ 65535 }
    requires activated { activation object.now ≤ 255 }
    ensures { IfOk result (λ t. t ≡ task modes.now events.now resources.now object.now) }
{
    let attrs = object.attrs.as_slice();
    let name = copied(alloc, &object.name)?;
    Ok(TaskObject {
        name,
        priority: narrow(priority(object)),
        schedule: schedule(attrs),
        own: Mask(own_bits(events, attrs)),
        autostart: autostart(modes, attrs),
        activation: narrow_activation(activation(object)),
        internal: internal(resources, attrs),
    })
}

/// The tasks.
pub fn tasks(
    alloc: Global,
    objects: &[Object],
    modes: &[Name],
    events: &[EventObject],
    resources: &[Resource],
) -> Result<Seq<TaskObject>, Memory>
    requires allowed { found_in wrong_in objects.now ≡ [] }
    requires activated { wrong_activations objects.now ≡ [] }
    requires few { length modes.now ≤ 8 }
    requires few_resources { length resources.now ≤ 8 }
    ensures { IfOk result (λ found. found ≡ map (task modes.now events.now resources.now) (objects_of (codes "TASK") objects.now)) }
{
    let mut found = Vec::new(alloc);
    for object in objects {
        if is_kind(b"TASK", object) {
            found.push(task(alloc, object, modes, events, resources)?)?;
        }
    }
    Ok(Seq::of(found))
}
