//! Resources and their ceilings (ISO 17356-3, priority ceiling protocol).
ghost use Rattle.std.specs.Prelude.{◌≡◌, ◌+◌, ◌*◌, [], IfOk, map, filter, codes};
ghost use Rattle.oil_model.specs.{declared.objects.Category.TheVariants.{Two}, Lists.{found_in}, Objects.{objects_of, is_isr, is_ordinary}, Rules.{wrong_in}};
ghost use Rattle.oil_model.specs.Systems.{is_naming, names_resource, ceiling, top_ceiling, interrupt_ceiling, ceiling_beside, resource, scheduler, resources};

use crate::look_up::{is_named, word_of};
use crate::objects::{
    Category, has_scheduler, is_internal, is_isr, is_kind, is_ordinary, priority,
};
use crate::tasks::narrow;
use crate::{isrs, names};
use oil_system::Resource;
use oil_tree::{Attr, Object};
use osek_values::{Memory, Seq, copied};
use std::alloc::Global;

fn is_naming(name: &[u8], attr: &Attr) -> bool
    ensures { result ≡ is_naming name.now attr.now }
{
    is_named(b"RESOURCE", attr) && word_of(&attr.value) == name
}

fn names_resource(name: &[u8], object: &Object) -> bool
    ensures { result ≡ names_resource name.now object.now }
{
    for attr in object.attrs.as_slice() {
        if is_naming(name, attr) {
            return true;
        }
    }
    false
}

/// Twice a priority and one more.
fn above(priority: u16) -> u32
    ensures { result ≡ 2 * priority + 1 }
{
    2 * u32::from(priority) + 1
}

/// The ceiling of a resource.
fn ceiling(name: &[u8], objects: &[Object]) -> u32
    requires { found_in wrong_in objects.now ≡ [] }
    ensures { result ≡ ceiling name.now (objects_of (codes "TASK") objects.now) }
{
    let mut highest = 0;
    for object in objects {
        if is_kind(b"TASK", object) {
            let above = above(narrow(priority(object)));
            if names_resource(name, object) {
                highest = highest.max(above);
            }
        }
    }
    highest
}

/// The ceiling of RES_SCHEDULER.
fn top_ceiling(objects: &[Object]) -> u32
    requires { found_in wrong_in objects.now ≡ [] }
    ensures { result ≡ top_ceiling (objects_of (codes "TASK") objects.now) }
{
    let mut highest = 1;
    for object in objects {
        if is_kind(b"TASK", object) {
            highest = highest.max(above(narrow(priority(object))));
        }
    }
    highest
}

/// One more than the priority of an ISR.
fn above_isr(priority: u8) -> u16
    ensures { result ≡ priority + 1 }
{
    u16::from(priority) + 1
}

/// The ceiling of a resource for interrupts.
fn interrupt_ceiling(name: &[u8], objects: &[Object]) -> u16
    requires { found_in wrong_in objects.now ≡ [] }
    ensures { result ≡ interrupt_ceiling name.now (filter (is_isr Two) objects.now) }
{
    let mut highest = 0;
    for object in objects {
        if is_isr(Category::Two, object) {
            let level = above_isr(isrs::narrow(priority(object)));
            if names_resource(name, object) {
                highest = highest.max(level);
            }
        }
    }
    highest
}

/// The ceiling of a resource for tasks, by its ceiling for interrupts.
fn ceiling_beside(interrupts: u16, name: &[u8], objects: &[Object]) -> u32
    requires { found_in wrong_in objects.now ≡ [] }
    ensures { result ≡ ceiling_beside interrupts name.now (objects_of (codes "TASK") objects.now) }
{
    if interrupts == 0 {
        ceiling(name, objects)
    } else {
        top_ceiling(objects)
    }
}

fn resource(alloc: Global, object: &Object, objects: &[Object]) -> Result<Resource, Memory>
    requires { found_in wrong_in objects.now ≡ [] }
    ensures { IfOk result (λ r. r ≡ resource (objects_of (codes "TASK") objects.now) (filter (is_isr Two) objects.now) object.now) }
{
    let bytes = object.name.as_bytes();
    let name = copied(alloc, &object.name)?;
    let interrupts = interrupt_ceiling(bytes, objects);
    let ceiling = ceiling_beside(interrupts, bytes, objects);
    Ok(Resource {
        name,
        ceiling,
        internal: is_internal(object),
        interrupt_ceiling: interrupts,
    })
}

// The resources but for the RES_SCHEDULER that exists.
fn ordinary(alloc: Global, scheduler: bool, objects: &[Object]) -> Result<Vec<Resource>, Memory>
    requires { found_in wrong_in objects.now ≡ [] }
    ensures { IfOk result (λ found. found.items ≡ map (resource (objects_of (codes "TASK") objects.now) (filter (is_isr Two) objects.now)) (filter (is_ordinary scheduler) objects.now)) }
{
    let mut found = Vec::new(alloc);
    for object in objects {
        if is_ordinary(scheduler, object) {
            found.push(resource(alloc, object, objects)?)?;
        }
    }
    Ok(found)
}

fn scheduler(alloc: Global, objects: &[Object]) -> Result<Resource, Memory>
    requires { found_in wrong_in objects.now ≡ [] }
    ensures { IfOk result (λ r. r ≡ scheduler (objects_of (codes "TASK") objects.now)) }
{
    let name = names::scheduler(alloc)?;
    Ok(Resource {
        name,
        ceiling: top_ceiling(objects),
        internal: false,
        interrupt_ceiling: 0,
    })
}

/// The resources, RES_SCHEDULER last.
pub fn resources(alloc: Global, objects: &[Object]) -> Result<Seq<Resource>, Memory>
    requires { found_in wrong_in objects.now ≡ [] }
    ensures { IfOk result (λ found. found ≡ resources objects.now) }
{
    let exists = has_scheduler(objects);
    let mut found = ordinary(alloc, exists, objects)?;
    if exists {
        found.push(scheduler(alloc, objects)?)?;
        return Ok(Seq::of(found));
    }
    Ok(Seq::of(found))
}
