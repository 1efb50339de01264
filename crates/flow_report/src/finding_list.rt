//! The list of findings.
ghost use Rattle.std.specs.Prelude.{◌≡◌, ◌++◌, ◌∷◌, [], if◌then◌else◌, OnOk};

use crate::finding::Finding;
use osek_values::Memory;

/// Puts a finding last, if it holds.
pub fn push_if(holds: bool, finding: Finding, findings: &mut Vec<Finding>) -> Result<(), Memory>
    ensures { OnOk result (findings.new.items ≡ (if holds then findings.old.items ++ finding ∷ [] else findings.old.items)) }
{
    if holds {
        findings.push(finding)?;
    }
    Ok(())
}
