//! The exits of a row.
ghost use Rattle.std.specs.Prelude.{IfOk};
ghost use Rattle.numbered_sets.specs.{Views.{AreNumbersOf}, PlainTables.{plain_row}};
ghost use Rattle.point_exits.specs.{Groups.{all_exits, AreKnownGroups}, Growing.{IsGrown}, Rows.{IsProperRow}};
ghost use Rattle.table_rows.specs.Rows.{AreExitsOf};

use flow_exits::laws::steps_end_at_exits;
use numbered_sets::NumberedRow;
use osek_values::Memory;
use point_exits::{ExitGroup, Numbering, exit_groups};
use std::alloc::Global;

/// The exits of the states of a row. The numbering may grow.
pub fn row_groups(
    alloc: Global,
    numbering: &mut Numbering,
    row: &NumberedRow,
) -> Result<Vec<ExitGroup>, Memory>
    requires numbers { AreNumbersOf numbering.old.pool row.now.entry }
    requires proper { IsProperRow numbering.old.app.now (plain_row numbering.old.pool row.now) }
    ensures grown { IsGrown numbering.old numbering.new }
    ensures known { IfOk result (λ groups. AreKnownGroups numbering.new.pool groups.items) }
    ensures exits { IfOk result (λ groups. AreExitsOf numbering.old.app.now (plain_row numbering.old.pool row.now) (all_exits numbering.new.pool groups.items)) }
{
    steps_end_at_exits();
    let groups = exit_groups(alloc, numbering, row.point, &row.entry)?;
    Ok(groups)
}
