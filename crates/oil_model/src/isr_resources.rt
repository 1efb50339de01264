//! The resources that a category 2 ISR may not name: INTERNAL ones, and RES_SCHEDULER where it exists.
ghost use Rattle.std.specs.{Prelude.{◌≡◌, IfOk, map, filter}, List.{flat_map}};
ghost use Rattle.oil_model.specs.{declared.objects.Category.TheVariants.{Two}, Lines.{least}, LookUp.{attr_line}, NameSets.{KnowsInternals}, Objects.{is_isr}};
ghost use Rattle.oil_model.specs.Rules as rules_of;

use crate::internals::internal_names;
use crate::lines::sooner;
use crate::look_up::{is_named, word_of};
use crate::name_set::NameSet;
use crate::names::same;
use crate::objects::{Category, has_scheduler, is_isr};
use oil_tree::{Attr, Object};
use osek_values::Memory;
use std::alloc::Global;

fn is_barred_name(internals: &NameSet, scheduler: bool, objects: &[Object], name: &[u8]) -> bool
    requires { KnowsInternals internals.now objects.now }
    ensures { result ≡ rules_of.is_barred_name scheduler objects.now name.now }
{
    internals.has(name) || (scheduler && same(name, b"RES_SCHEDULER"))
}

fn names_barred(internals: &NameSet, scheduler: bool, objects: &[Object], attr: &Attr) -> bool
    requires { KnowsInternals internals.now objects.now }
    ensures { result ≡ rules_of.names_barred scheduler objects.now attr.now }
{
    is_named(b"RESOURCE", attr)
        && is_barred_name(internals, scheduler, objects, word_of(&attr.value))
}

#[tactic(auto, using(crate::proofs::Leasts::least_steps))]
fn least_among(
    internals: &NameSet,
    scheduler: bool,
    objects: &[Object],
    attrs: &[Attr],
) -> Option<u32>
    requires { KnowsInternals internals.now objects.now }
    ensures { result ≡ least (map attr_line (filter (rules_of.names_barred scheduler objects.now) attrs.now)) }
{
    let mut best = None;
    for attr in attrs {
        if names_barred(internals, scheduler, objects, attr) {
            best = sooner(best, Some(attr.line));
        }
    }
    best
}

fn barred_resource_of(
    internals: &NameSet,
    scheduler: bool,
    objects: &[Object],
    isr: &Object,
) -> Option<u32>
    requires { KnowsInternals internals.now objects.now }
    ensures { result ≡ least (rules_of.barred_resources_of scheduler objects.now isr.now) }
{
    least_among(internals, scheduler, objects, isr.attrs.as_slice())
}

#[tactic(auto, using(crate::proofs::Leasts::least_steps))]
fn least_barred(internals: &NameSet, scheduler: bool, objects: &[Object]) -> Option<u32>
    requires { KnowsInternals internals.now objects.now }
    ensures { result ≡ least (flat_map (rules_of.barred_resources_of scheduler objects.now) (filter (is_isr Two) objects.now)) }
{
    let mut best = None;
    for object in objects {
        if is_isr(Category::Two, object) {
            best = sooner(
                best,
                barred_resource_of(internals, scheduler, objects, object),
            );
        }
    }
    best
}

/// The least line of a RESOURCE of a category 2 ISR that names an INTERNAL resource, or RES_SCHEDULER where it exists.
pub fn barred_resource(alloc: Global, objects: &[Object]) -> Result<Option<u32>, Memory>
    ensures { IfOk result (λ line. line ≡ least (rules_of.barred_resources objects.now)) }
{
    let internals = internal_names(alloc, objects)?;
    let line = least_barred(&internals, has_scheduler(objects), objects);
    Ok(line)
}
