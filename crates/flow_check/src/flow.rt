//! The steps from the rows of a table: whether they stay in it, and what they show at the sites.
ghost use Rattle.std.specs.Prelude.{◌≡◌, ◌<◌, length, IfOk, OnOk};
ghost use Rattle.numbered_sets.specs.PlainTables.{plain_table};
ghost use Rattle.table_rows.specs.Rows.{AreRowsFrom};
ghost use Rattle.flow_check.specs.Flows.{IsFlow};

use crate::found::Findings;
use crate::outcomes::{add_exits, no_findings};
use crate::staying::all_stay;
use abstract_state::Point;
use numbered_sets::{NumberedRow, Pool};
use osek_standard::App;
use osek_values::{Memory, Seq};
use point_exits::Numbering;
use std::alloc::Global;
use table_rows::{bare_exits, row_groups};

/// Where the steps from the states of a table lead.
#[derive(Drop)]
pub enum Flow {
    /// One from this point, and none from a lower one, leaves the table.
    Leaves(Point),
    /// None leaves it. This is found at each block.
    Stays(Seq<Option<Findings>>),
}

/// Where the steps from the states of the table of these rows lead: one evaluation a row.
pub(crate) fn flow_of(
    alloc: Global,
    app: &App,
    rows: &[NumberedRow],
    pool: Pool,
) -> Result<Flow, Memory>
    requires rows { AreRowsFrom app.now pool rows.now }
    requires some { 0 < length rows.now }
    ensures { IfOk result (IsFlow app.now (plain_table pool rows.now)) }
{
    let mut sites = no_findings(alloc, app)?;
    let mut numbering = Numbering::new(alloc, app, pool)?;
    for row in rows {
        let groups = row_groups(alloc, &mut numbering, row)?;
        numbering.pool.are_values();
        let stay = all_stay(alloc, groups.as_slice(), rows)?;
        if !stay {
            return Ok(Flow::Leaves(row.point));
        }
        let exits = bare_exits(alloc, groups.as_slice())?;
        add_exits(row.point, exits.as_slice(), &mut sites);
    }
    Ok(Flow::Stays(sites))
}
