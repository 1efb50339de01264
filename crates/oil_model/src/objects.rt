//! What an object declares, of what the rules and the system both read.
ghost use Rattle.std.specs.Prelude.{◌≡◌, if◌then◌else◌};
ghost use Rattle.oil_model.specs.Objects.{is_kind, is_called, objects_of, attrs_named, os_attrs, line_at, has_scheduler, is_other_mode, is_ordinary, category_number, is_isr, priority, activation, is_internal, maximum, minimum, is_started, start};

use crate::look_up::{inner, line, number, says};
use oil_tree::{Attr, Object};

/// A category of ISRs.
#[derive(Clone, Copy)]
pub enum Category {
    One,
    Two,
}

/// Whether the object is of the kind.
pub fn is_kind(kind: &[u8], object: &Object) -> bool
    ensures { result ≡ is_kind kind.now object.now }
{
    object.kind.as_bytes() == kind
}

/// Whether the object has the name.
pub fn is_called(name: &[u8], object: &Object) -> bool
    ensures { result ≡ is_called name.now object.now }
{
    object.name.as_bytes() == name
}

/// The attributes of the OS object; none where there is no such object.
pub fn os_attrs(objects: &[Object]) -> &[Attr]
    ensures { result.now ≡ os_attrs objects.now }
{
    for object in objects {
        if is_kind(b"OS", object) {
            return object.attrs.as_slice();
        }
    }
    &[]
}

/// The attributes of the object of a kind and a name; none where there is no such object.
pub fn attrs_named<'a>(kind: &[u8], name: &[u8], objects: &'a [Object]) -> &'a [Attr]
    ensures { result.now ≡ attrs_named name.now (objects_of kind.now objects.now) }
{
    for object in objects {
        if is_kind(kind, object) && is_called(name, object) {
            return object.attrs.as_slice();
        }
    }
    &[]
}

/// The line of an object's attribute of a name, or of its kind where it has none.
pub fn line_at(name: &[u8], object: &Object) -> u32
    ensures { result ≡ line_at name.now object.now }
{
    line(name, object.attrs.as_slice(), object.line)
}

/// Whether the resource RES_SCHEDULER exists.
pub fn has_scheduler(objects: &[Object]) -> bool
    ensures { result ≡ has_scheduler objects.now }
{
    !says(b"USERESSCHEDULER", b"FALSE", os_attrs(objects))
}

/// Whether it is a mode other than OSDEFAULTAPPMODE.
pub fn is_other_mode(object: &Object) -> bool
    ensures { result ≡ is_other_mode object.now }
{
    is_kind(b"APPMODE", object) && !is_called(b"OSDEFAULTAPPMODE", object)
}

/// Whether it is a resource other than the RES_SCHEDULER that exists.
pub fn is_ordinary(scheduler: bool, object: &Object) -> bool
    ensures { result ≡ is_ordinary scheduler object.now }
{
    is_kind(b"RESOURCE", object) && !(scheduler && is_called(b"RES_SCHEDULER", object))
}

fn category_number(category: Category) -> u64
    ensures { result ≡ category_number category }
{
    match category {
        Category::One => 1,
        Category::Two => 2,
    }
}

/// Whether it is an ISR of the category.
pub fn is_isr(category: Category, object: &Object) -> bool
    ensures { result ≡ is_isr category object.now }
{
    is_kind(b"ISR", object)
        && number(b"CATEGORY", object.attrs.as_slice(), 0) == category_number(category)
}

/// PRIORITY of a task or an ISR.
pub fn priority(object: &Object) -> u64
    ensures { result ≡ priority object.now }
{
    number(b"PRIORITY", object.attrs.as_slice(), 0)
}

/// ACTIVATION of a task.
pub fn activation(object: &Object) -> u64
    ensures { result ≡ activation object.now }
{
    number(b"ACTIVATION", object.attrs.as_slice(), 1)
}

/// Whether it is an INTERNAL resource.
pub fn is_internal(object: &Object) -> bool
    ensures { result ≡ is_internal object.now }
{
    is_kind(b"RESOURCE", object) && says(b"RESOURCEPROPERTY", b"INTERNAL", object.attrs.as_slice())
}

/// MAXALLOWEDVALUE of a counter, from its attributes.
pub fn maximum(attrs: &[Attr]) -> u64
    ensures { result ≡ maximum attrs.now }
{
    number(b"MAXALLOWEDVALUE", attrs, 1)
}

/// MINCYCLE of a counter, from its attributes.
pub fn minimum(attrs: &[Attr]) -> u64
    ensures { result ≡ minimum attrs.now }
{
    number(b"MINCYCLE", attrs, 1)
}

/// Whether AUTOSTART is TRUE.
pub fn is_started(attrs: &[Attr]) -> bool
    ensures { result ≡ is_started attrs.now }
{
    says(b"AUTOSTART", b"TRUE", attrs)
}

/// The attributes in AUTOSTART = TRUE; none where it isn't TRUE.
pub fn start(attrs: &[Attr]) -> &[Attr]
    ensures { result.now ≡ start attrs.now }
{
    if is_started(attrs) {
        inner(b"AUTOSTART", attrs)
    } else {
        &[]
    }
}
