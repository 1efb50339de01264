//! Events, and the event bits of tasks.
ghost use Rattle.std.specs.Prelude.{◌≡◌, IfOk};
ghost use Rattle.oil_model.specs.Systems.{events, mask_named, own_bits};

use crate::look_up::{is_named, word_of};
use crate::masks::{explicit_bits, mask_of};
use crate::objects::is_kind;
use oil_system::EventObject;
use oil_tree::{Attr, Object};
use osek_values::{Mask, Memory, Seq, copied};
use std::alloc::Global;

/// The events, each with its mask.
pub fn events(alloc: Global, objects: &[Object]) -> Result<Seq<EventObject>, Memory>
    ensures { IfOk result (λ found. found ≡ events objects.now) }
{
    let mut used = explicit_bits(objects);
    let mut found = Vec::new(alloc);
    for object in objects {
        if is_kind(b"EVENT", object) {
            let mask = mask_of(used, object);
            let name = copied(alloc, &object.name)?;
            found.push(EventObject {
                name,
                mask: Mask(mask),
            })?;
            used |= mask;
        }
    }
    Ok(Seq::of(found))
}

/// The mask of the event of a name, or 0.
pub fn mask_named(name: &[u8], events: &[EventObject]) -> u64
    ensures { result ≡ mask_named name.now events.now }
{
    for event in events {
        if event.name.as_bytes() == name {
            return event.mask.0;
        }
    }
    0
}

/// The bits of the events that a task names.
pub fn own_bits(events: &[EventObject], attrs: &[Attr]) -> u64
    ensures { result ≡ own_bits 0 events.now attrs.now }
{
    let mut bits = 0;
    for attr in attrs {
        if is_named(b"EVENT", attr) {
            bits |= mask_named(word_of(&attr.value), events);
        }
    }
    bits
}
