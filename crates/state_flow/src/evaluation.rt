//! The evaluation of a point that waits.
ghost use Rattle.std.specs.Prelude.{◌≡◌, ◌∷◌, [], ◌+◌, ℕ, Contains, OnOk};
ghost use Rattle.abstract_state.specs.Domains.{HasMasks};
ghost use Rattle.numbered_sets.specs.declared.table.NumberedRow.{NumberedRow};
ghost use Rattle.point_exits.specs.Growing.{IsGrown};
ghost use Rattle.state_flow.specs.{Cells.{IsWaitingCell}, Numbering.{AreNumberedCells, AreRowsEvaluated, HasProgress, IsKnownRow}};

use crate::cells::Cells;
use crate::joining::join_groups;
use crate::parts::{grow_by_few, rows_to_evaluate};
use numbered_sets::{NumberedEntry, NumberedRow};
use osek_values::Memory;
use point_exits::{Numbering, exit_groups};
use std::alloc::Global;
use table_rows::bare_exits;

/// Evaluates a point that waits, and joins in what it leads to. The numbering grows by the values that it lacks.
pub fn turn(
    alloc: Global,
    numbering: &mut Numbering,
    cells: &mut Cells<NumberedEntry>,
    place: usize,
) -> Result<(), Memory>
    requires masks { HasMasks numbering.old.app.now }
    requires cells { AreNumberedCells numbering.old.app.now numbering.old.pool cells.old.list.items }
    requires waits { IsWaitingCell cells.old.list.items place }
    ensures grown { IsGrown numbering.old numbering.new }
    ensures progress { OnOk result ((n : ℕ) → HasProgress numbering.old.app.now numbering.old.pool cells.old.list.items n → HasProgress numbering.old.app.now numbering.new.pool cells.new.list.items (n + 1)) }
{
    // what updates make of large sets is kept for each point
    numbering.pool.turn_to(cells.list[place].get().number);
    evaluate_point(alloc, numbering, cells, place)
}

// evaluates a point that waits
fn evaluate_point(
    alloc: Global,
    numbering: &mut Numbering,
    cells: &mut Cells<NumberedEntry>,
    place: usize,
) -> Result<(), Memory>
    requires masks { HasMasks numbering.old.app.now }
    requires cells { AreNumberedCells numbering.old.app.now numbering.old.pool cells.old.list.items }
    requires waits { IsWaitingCell cells.old.list.items place }
    ensures grown { IsGrown numbering.old numbering.new }
    ensures progress { OnOk result ((n : ℕ) → HasProgress numbering.old.app.now numbering.old.pool cells.old.list.items n → HasProgress numbering.old.app.now numbering.new.pool cells.new.list.items (n + 1)) }
{
    if grow_by_few(numbering.app) {
        evaluate_news(alloc, numbering, cells, place)
    } else {
        evaluate_whole(alloc, numbering, cells, place)
    }
}

// by the numbers that are new since it was evaluated last
fn evaluate_news(
    alloc: Global,
    numbering: &mut Numbering,
    cells: &mut Cells<NumberedEntry>,
    place: usize,
) -> Result<(), Memory>
    requires masks { HasMasks numbering.old.app.now }
    requires cells { AreNumberedCells numbering.old.app.now numbering.old.pool cells.old.list.items }
    requires waits { IsWaitingCell cells.old.list.items place }
    ensures grown { IsGrown numbering.old numbering.new }
    ensures progress { OnOk result ((n : ℕ) → HasProgress numbering.old.app.now numbering.old.pool cells.old.list.items n → HasProgress numbering.old.app.now numbering.new.pool cells.new.list.items (n + 1)) }
{
    let cell = cells.list[place].get_mut();
    let rows = rows_to_evaluate(alloc, cell)?;
    evaluate_each(alloc, numbering, rows.as_slice(), cells)
}

// by all its numbers
fn evaluate_whole(
    alloc: Global,
    numbering: &mut Numbering,
    cells: &mut Cells<NumberedEntry>,
    place: usize,
) -> Result<(), Memory>
    requires masks { HasMasks numbering.old.app.now }
    requires cells { AreNumberedCells numbering.old.app.now numbering.old.pool cells.old.list.items }
    requires waits { IsWaitingCell cells.old.list.items place }
    ensures grown { IsGrown numbering.old numbering.new }
    ensures progress { OnOk result ((n : ℕ) → HasProgress numbering.old.app.now numbering.old.pool cells.old.list.items n → HasProgress numbering.old.app.now numbering.new.pool cells.new.list.items (n + 1)) }
{
    let cell = cells.list[place].get_mut();
    cell.waiting = false;
    cell.before = None;
    cell.growth.evaluate();
    let app = numbering.app;
    let groups = exit_groups(alloc, numbering, cell.point, &cell.entry)?;
    cell.exits = Some(bare_exits(alloc, groups.as_slice())?);
    join_groups(alloc, app, groups, &numbering.pool, cells)
}

// evaluates rows, one after the other
fn evaluate_each(
    alloc: Global,
    numbering: &mut Numbering,
    rows: &[NumberedRow],
    cells: &mut Cells<NumberedEntry>,
) -> Result<(), Memory>
    requires masks { HasMasks numbering.old.app.now }
    requires cells { AreNumberedCells numbering.old.app.now numbering.old.pool cells.old.list.items }
    requires rows { (row : NumberedRow) → Contains rows.now row → IsKnownRow numbering.old.app.now numbering.old.pool row }
    ensures grown { IsGrown numbering.old numbering.new }
    ensures evaluated { OnOk result (AreRowsEvaluated numbering.old.app.now numbering.old.pool rows.now cells.old.list.items numbering.new.pool cells.new.list.items) }
{
    for row in rows {
        evaluate(alloc, numbering, row, cells)?;
    }
    Ok(())
}

// joins in what a row leads to
fn evaluate(
    alloc: Global,
    numbering: &mut Numbering,
    row: &NumberedRow,
    cells: &mut Cells<NumberedEntry>,
) -> Result<(), Memory>
    requires masks { HasMasks numbering.old.app.now }
    requires cells { AreNumberedCells numbering.old.app.now numbering.old.pool cells.old.list.items }
    requires row { IsKnownRow numbering.old.app.now numbering.old.pool row.now }
    ensures grown { IsGrown numbering.old numbering.new }
    ensures evaluated { OnOk result (AreRowsEvaluated numbering.old.app.now numbering.old.pool (row.now ∷ []) cells.old.list.items numbering.new.pool cells.new.list.items) }
{
    let app = numbering.app;
    let groups = exit_groups(alloc, numbering, row.point, &row.entry)?;
    join_groups(alloc, app, groups, &numbering.pool, cells)
}
