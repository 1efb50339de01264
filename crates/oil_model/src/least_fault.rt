//! The least pair of a rule that is violated and a line.
ghost use Rattle.std.specs.Prelude.{◌≡◌, IfOk};
ghost use Rattle.oil_model.specs.{Lines.{least}, Rules.{lines}, Faults.{IsLeastOrNone}};

use crate::attribute_rules::{
    dangling_reference, doubled_attribute, missing_attribute, wrong_value,
};
use crate::fault::ModelFault;
use crate::internals::second_internal;
use crate::isr_resources::barred_resource;
use crate::kind_rules::{KindRule, least_violation};
use crate::limits::beyond_limit;
use crate::masks::empty_mask;
use crate::object_rules::{internal_scheduler, os_fault, repeated_name, unknown_kind};
use crate::times::late_time;
use oil_tree::Tree;
use osek_values::{Memory, OilRule};
use std::alloc::Global;

/// The rules, in their order.
const RULES: [OilRule; 17] = [
    OilRule::O1,
    OilRule::O2,
    OilRule::O3,
    OilRule::O4,
    OilRule::O5,
    OilRule::O6,
    OilRule::O7,
    OilRule::O9,
    OilRule::O10,
    OilRule::O11,
    OilRule::O12,
    OilRule::O13,
    OilRule::O14,
    OilRule::O15,
    OilRule::O16,
    OilRule::O17,
    OilRule::O18,
];

/// The least line on which a rule is violated.
fn least_line(alloc: Global, rule: OilRule, tree: &Tree) -> Result<Option<u32>, Memory>
    ensures { IfOk result (λ line. line ≡ least (lines rule tree.now)) }
{
    let objects = tree.objects.as_slice();
    match rule {
        OilRule::O1 => Ok(unknown_kind(objects)),
        OilRule::O2 => repeated_name(alloc, objects),
        OilRule::O3 => Ok(os_fault(tree.line, objects)),
        OilRule::O4 => Ok(missing_attribute(objects)),
        OilRule::O5 => Ok(doubled_attribute(objects)),
        OilRule::O6 => Ok(wrong_value(objects)),
        OilRule::O7 => dangling_reference(alloc, objects),
        OilRule::O9 => Ok(least_violation(KindRule::WrongActivation, objects)),
        OilRule::O10 => Ok(least_violation(KindRule::LinkedResource, objects)),
        OilRule::O11 => Ok(least_violation(KindRule::Callback, objects)),
        OilRule::O12 => Ok(empty_mask(objects)),
        OilRule::O13 => Ok(beyond_limit(objects)),
        OilRule::O14 => Ok(late_time(objects)),
        OilRule::O15 => Ok(least_violation(KindRule::OtherCategory, objects)),
        OilRule::O16 => second_internal(alloc, objects),
        OilRule::O17 => Ok(internal_scheduler(objects)),
        OilRule::O18 => barred_resource(alloc, objects),
    }
}

/// The least fault of a tree, if it has one. A rule is judged only where no lesser rule is violated.
pub fn least_fault(alloc: Global, tree: &Tree) -> Result<Option<ModelFault>, Memory>
    ensures { IfOk result (λ fault. IsLeastOrNone fault tree.now) }
{
    for rule in &RULES {
        let least = least_line(alloc, *rule, tree)?;
        if let Some(line) = least {
            return Ok(Some(ModelFault { rule: *rule, line }));
        }
    }
    Ok(None)
}
