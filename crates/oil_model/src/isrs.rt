//! ISRs, and the resources that they name.
ghost use Rattle.std.specs.Prelude.{◌≡◌, ◌≤◌, ◌++◌, [], IfOk, OnOk, map, filter};
ghost use Rattle.oil_model.specs.{declared.objects.Category.TheVariants.{One, Two}, Lists.{found_in}, Objects.{is_isr, name_of, priority}};
ghost use Rattle.oil_model.specs.{Rules.{wrong_in}, Systems.{resource_names_in, resource_names, isr}};

use crate::look_up::is_named;
use crate::objects::{Category, is_isr, priority};
use oil_system::IsrObject;
use oil_tree::{Attr, Object, Value};
use osek_values::{Memory, Name, Seq, copied};
use std::alloc::Global;

/// The priority of an ISR as a number of 8 bits.
pub fn narrow(priority: u64) -> u8
    requires { priority ≤ 255 }
    ensures { result ≡ priority }
{
    priority as u8
}

/// Adds the name of the resource that an attribute names, if it names one.
fn add_resource(alloc: Global, attr: &Attr, names: &mut Vec<Name>) -> Result<(), Memory>
    ensures { OnOk result (names.new.items ≡ names.old.items ++ resource_names_in attr.now) }
{
    if !is_named(b"RESOURCE", attr) {
        return Ok(());
    }
    match &attr.value {
        Value::Word(name) => Ok(names.push(copied(alloc, name)?)?),
        _ => Ok(()),
    }
}

/// The names of the resources that an ISR names.
fn resource_names(alloc: Global, attrs: &[Attr]) -> Result<Seq<Name>, Memory>
    ensures { IfOk result (λ names. names ≡ resource_names attrs.now) }
{
    let mut names = Vec::new(alloc);
    for attr in attrs {
        add_resource(alloc, attr, &mut names)?;
    }
    Ok(Seq::of(names))
}

fn isr(alloc: Global, object: &Object) -> Result<IsrObject, Memory>
    requires { priority object.now ≤ 255 }
    ensures { IfOk result (λ x. x ≡ isr object.now) }
{
    let attrs = object.attrs.as_slice();
    let name = copied(alloc, &object.name)?;
    let resources = resource_names(alloc, attrs)?;
    Ok(IsrObject {
        name,
        priority: narrow(priority(object)),
        resources,
    })
}

/// The category 2 ISRs.
pub fn isrs(alloc: Global, objects: &[Object]) -> Result<Seq<IsrObject>, Memory>
    requires { found_in wrong_in objects.now ≡ [] }
    ensures { IfOk result (λ found. found ≡ map isr (filter (is_isr Two) objects.now)) }
{
    let mut found = Vec::new(alloc);
    for object in objects {
        if is_isr(Category::Two, object) {
            found.push(isr(alloc, object)?)?;
        }
    }
    Ok(Seq::of(found))
}

/// The names of the category 1 ISRs.
pub fn category_1_isrs(alloc: Global, objects: &[Object]) -> Result<Seq<Name>, Memory>
    ensures { IfOk result (λ names. names ≡ map name_of (filter (is_isr One) objects.now)) }
{
    let mut names = Vec::new(alloc);
    for object in objects {
        if is_isr(Category::One, object) {
            names.push(copied(alloc, &object.name)?)?;
        }
    }
    Ok(Seq::of(names))
}
