//! The least pair of a rule that is violated and a line.
ghost use Rattle.std.specs.Prelude.{◌≡◌};
ghost use Rattle.oil_model.specs.Lines.{least};
ghost use Rattle.block_graph.specs.{Rules.{lines}, Faults.{IsLeastOrNone}};

use crate::calls::{internal_resource, isr_resource, undeclared_name};
use crate::fault::LinkFault;
use crate::names::Declared;
use crate::owners::{missing_code, repeated_code, stray_code};
use crate::pairs::unpaired_lock;
use crate::sizes::beyond_limit;
use osek_values::CodeRule;
use task_code::Code;

/// The rules that are judged here, in their order.
const RULES: [CodeRule; 8] = [
    CodeRule::C1,
    CodeRule::C2,
    CodeRule::C3,
    CodeRule::C4,
    CodeRule::C6,
    CodeRule::C7,
    CodeRule::C8,
    CodeRule::C10,
];

/// The least line on which a rule is violated.
fn least_line(rule: CodeRule, system: &Declared, code: &Code) -> Option<u32>
    ensures { result ≡ least (lines rule system.now code.now) }
{
    let bodies = code.bodies.as_slice();
    match rule {
        CodeRule::C1 => missing_code(system, bodies),
        CodeRule::C2 => stray_code(system, bodies),
        CodeRule::C3 => repeated_code(bodies),
        CodeRule::C4 => undeclared_name(system, bodies),
        CodeRule::C6 => isr_resource(system, bodies),
        CodeRule::C7 => unpaired_lock(bodies),
        CodeRule::C8 => beyond_limit(bodies),
        CodeRule::C9 => None,
        CodeRule::C10 => internal_resource(system, bodies),
    }
}

/// The least fault of a system and its task code, if they have one. A rule is judged only where no lesser rule is
/// violated.
pub fn least_fault(system: &Declared, code: &Code) -> Option<LinkFault>
    ensures { IsLeastOrNone result system.now code.now }
{
    for rule in &RULES {
        if let Some(line) = least_line(*rule, system, code) {
            return Some(LinkFault { line, rule: *rule });
        }
    }
    None
}
