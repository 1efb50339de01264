//! The rules on objects beside one another: their kinds, names and numbers.
ghost use Rattle.std.specs.Prelude.{◌≡◌, IfOk, codes};
ghost use Rattle.oil_model.specs.{Lines.{least}, Objects.{objects_of}};
ghost use Rattle.oil_model.specs.Rules as rules_of;

use crate::kind_rules::{KindRule, least_violation};
use crate::lines::{line_if, sooner};
use crate::name_set::NameSet;
use crate::objects::{has_scheduler, is_kind};
use crate::table::scope_of;
use oil_tree::Object;
use osek_values::Memory;
use std::alloc::Global;

fn is_unknown(object: &Object) -> bool
    ensures { result ≡ rules_of.is_unknown object.now }
{
    scope_of(object.kind.as_bytes()).is_none()
}

/// The least line of a kind that the profile doesn't have.
#[tactic(auto, using(crate::proofs::Leasts::least_steps))]
pub fn unknown_kind(objects: &[Object]) -> Option<u32>
    ensures { result ≡ least (rules_of.unknown_kinds objects.now) }
{
    let mut best = None;
    for object in objects {
        if is_unknown(object) {
            best = sooner(best, Some(object.line));
        }
    }
    best
}

#[tactic(auto, using(crate::proofs::Leasts::least_steps))]
fn repeated_name_of(alloc: Global, kind: &[u8], objects: &[Object]) -> Result<Option<u32>, Memory>
    ensures { IfOk result (λ line. line ≡ least (rules_of.repeated_names kind.now objects.now)) }
{
    let mut seen = NameSet::new(alloc);
    let mut best = None;
    for object in objects {
        if is_kind(kind, object) {
            let new = seen.add(object.name.as_bytes())?;
            best = sooner(best, line_if(!new, object.line));
        }
    }
    Ok(best)
}

/// The least line of an object whose kind and name an earlier one has.
#[tactic(auto, using(crate::proofs::Leasts::least_steps))]
pub fn repeated_name(alloc: Global, objects: &[Object]) -> Result<Option<u32>, Memory>
    ensures { IfOk result (λ line. line ≡ least (rules_of.all_repeated_names objects.now)) }
{
    let os = repeated_name_of(alloc, b"OS", objects)?;
    let mode = repeated_name_of(alloc, b"APPMODE", objects)?;
    let task = repeated_name_of(alloc, b"TASK", objects)?;
    let isr = repeated_name_of(alloc, b"ISR", objects)?;
    let counter = repeated_name_of(alloc, b"COUNTER", objects)?;
    let alarm = repeated_name_of(alloc, b"ALARM", objects)?;
    let event = repeated_name_of(alloc, b"EVENT", objects)?;
    let resource = repeated_name_of(alloc, b"RESOURCE", objects)?;
    let behind_isr = sooner(counter, sooner(alarm, sooner(event, resource)));
    Ok(sooner(os, sooner(mode, sooner(task, sooner(isr, behind_isr)))))
}

/// The line of CPU where no OS object is there, else the least line of an OS behind the first.
#[tactic(auto, using(crate::proofs::Leasts::least_steps))]
pub fn os_fault(cpu: u32, objects: &[Object]) -> Option<u32>
    ensures { result ≡ least (rules_of.os_lines cpu (objects_of (codes "OS") objects.now)) }
{
    let mut seen = false;
    let mut best = None;
    for object in objects {
        if is_kind(b"OS", object) {
            best = sooner(best, line_if(seen, object.line));
            seen = true;
        }
    }
    if seen { best } else { Some(cpu) }
}

/// The line of a RESOURCEPROPERTY that makes the RES_SCHEDULER that exists INTERNAL.
pub fn internal_scheduler(objects: &[Object]) -> Option<u32>
    ensures { result ≡ least (rules_of.internal_schedulers objects.now) }
{
    if has_scheduler(objects) {
        least_violation(KindRule::InternalScheduler, objects)
    } else {
        None
    }
}
