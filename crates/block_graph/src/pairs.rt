//! The rule that interrupt locks pair.
ghost use Rattle.std.specs.Prelude.{◌≡◌};
ghost use Rattle.oil_model.specs.Lines.{least};
ghost use Rattle.block_graph.specs.Locks.{unpaired as the_unpaired};
ghost use Rattle.block_graph.specs.Rules as rules_of;

use crate::locks::Locks;
use crate::walk::walk;
use oil_model::{line_if, sooner};
use task_code::Body;

/// The line on which a body's locks don't pair.
fn unpaired(body: &Body) -> Option<u32>
    ensures { result ≡ least (the_unpaired body.now) }
{
    match walk(&body.statements, &Locks::new()) {
        Ok(behind) => line_if(behind.is_locked(), body.statements.closing_line()),
        Err(line) => Some(line),
    }
}

/// The least line on which a body's locks don't pair.
pub fn unpaired_lock(bodies: &[Body]) -> Option<u32>
    ensures { result ≡ least (rules_of.unpaired_locks bodies.now) }
{
    let mut best = None;
    for body in bodies {
        best = sooner(best, unpaired(body));
    }
    best
}
