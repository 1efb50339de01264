//! Whether the starts are in a table.
ghost use Rattle.std.specs.{Prelude.{◌≡◌, ◌<◌, length, IfOk, IfSome, IfNone, OnOk}, Bool.{OnTrue, OnFalse}};
ghost use Rattle.osek_standard.specs.Kernel.{start};
ghost use Rattle.abstract_state.specs.{Tables.{In, sets_of}};
ghost use Rattle.numbered_sets.specs.{Pools.{IsLonger}, PlainTables.{plain_table}};
ghost use Rattle.table_rows.specs.Rows.{AreRowsFrom};
ghost use Rattle.flow_check.specs.Verdicts.{StartsIn, IsFirstStartOut};

use crate::staying::is_in;
use numbered_sets::{NumberedRow, Pool, numbered};
use osek_standard::App;
use osek_values::{Memory, ModeNo};
use point_exits::start_row;
use std::alloc::Global;

/// The first mode whose start isn't in the table of these rows. The pool may grow.
pub(crate) fn first_start_out(
    alloc: Global,
    app: &App,
    rows: &[NumberedRow],
    pool: &mut Pool,
) -> Result<Option<ModeNo>, Memory>
    requires rows { AreRowsFrom app.now pool.old rows.now }
    requires some { 0 < length rows.now }
    ensures pool { IsLonger pool.old pool.new }
    ensures out { IfOk result (λ mode. IfSome mode (IsFirstStartOut app.now (sets_of (plain_table pool.old rows.now)))) }
    ensures starts { IfOk result (λ mode. IfNone mode (StartsIn app.now (sets_of (plain_table pool.old rows.now)) (length app.now.modes))) }
{
    for mode in 0..app.modes.len() {
        let mode = ModeNo(mode as u8);
        let is_in = is_start_in(alloc, app, mode, rows, pool)?;
        if !is_in {
            return Ok(Some(mode));
        }
    }
    Ok(None)
}

fn is_start_in(
    alloc: Global,
    app: &App,
    mode: ModeNo,
    rows: &[NumberedRow],
    pool: &mut Pool,
) -> Result<bool, Memory>
    requires mode { mode.0 < length app.now.modes }
    requires rows { AreRowsFrom app.now pool.old rows.now }
    requires some { 0 < length rows.now }
    ensures pool { IsLonger pool.old pool.new }
    ensures within { IfOk result (λ is_in. OnTrue is_in (In app.now (sets_of (plain_table pool.old rows.now)) (start app.now mode).state)) }
    ensures out { IfOk result (λ is_in. OnFalse is_in (In app.now (sets_of (plain_table pool.old rows.now)) (start app.now mode).state → ⊥)) }
{
    let row = start_row(alloc, app, mode)?;
    let entry = numbered(alloc, pool, &row.entry)?;
    pool.are_values();
    Ok(is_in(row.point, &entry, rows))
}
