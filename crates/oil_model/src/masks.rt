//! The masks of events.
ghost use Rattle.std.specs.Prelude.{◌≡◌, codes, unwrap_or};
ghost use Rattle.oil_model.specs.{Lines.{least}, Objects.{objects_of, explicit, explicit_value, explicit_bits, free_bit, mask_by, mask_of}, Rules.{empty_masks}};

use crate::lines::{line_if, sooner};
use crate::look_up::is_named;
use crate::objects::{is_kind, line_at};
use oil_tree::{Object, Value};

fn explicit_value(value: &Value) -> Option<u64>
    ensures { result ≡ explicit_value value.now }
{
    match value {
        Value::Numeric(_, number) => Some(*number),
        _ => None,
    }
}

// The mask that an event states.
fn explicit(event: &Object) -> Option<u64>
    ensures { result ≡ explicit event.now }
{
    for attr in event.attrs.as_slice() {
        if is_named(b"MASK", attr) {
            return explicit_value(&attr.value);
        }
    }
    None
}

fn explicit_or_none(event: &Object) -> u64
    ensures { result ≡ unwrap_or (explicit event.now) 0 }
{
    explicit(event).unwrap_or(0)
}

/// The bits of all explicit masks.
pub fn explicit_bits(objects: &[Object]) -> u64
    ensures { result ≡ explicit_bits 0 (objects_of (codes "EVENT") objects.now) }
{
    let mut used = 0;
    for object in objects {
        if is_kind(b"EVENT", object) {
            used |= explicit_or_none(object);
        }
    }
    used
}

// The lowest bit that isn't used, or 0 where none is left.
fn free_bit(used: u64) -> u64
    ensures { result ≡ free_bit used }
{
    for k in 0..64u32 {
        if used & (1 << k) == 0 {
            return 1 << k;
        }
    }
    0
}

fn mask_by(explicit: Option<u64>, used: u64) -> u64
    ensures { result ≡ mask_by explicit used }
{
    match explicit {
        Some(mask) => mask,
        None => free_bit(used),
    }
}

/// The mask of an event, where these bits are used before it; 0 where it has none.
pub fn mask_of(used: u64, event: &Object) -> u64
    ensures { result ≡ mask_of used event.now }
{
    mask_by(explicit(event), used)
}

/// The least line of an event whose mask is empty.
#[tactic(auto, using(crate::proofs::Leasts::least_steps))]
pub fn empty_mask(objects: &[Object]) -> Option<u32>
    ensures { result ≡ least (empty_masks objects.now) }
{
    let mut used = explicit_bits(objects);
    let mut best = None;
    for object in objects {
        if is_kind(b"EVENT", object) {
            let mask = mask_of(used, object);
            best = sooner(best, line_if(mask == 0, line_at(b"MASK", object)));
            used |= mask;
        }
    }
    best
}
