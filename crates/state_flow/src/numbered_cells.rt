//! Cells of numbered entries.
ghost use Rattle.std.specs.Prelude.{◌≡◌, ◌⊎◌, [], ◌∷◌, Some, map, Contains, IfOk, OnOk};
ghost use Rattle.numbered_sets.specs.{Views.{plain_entry, AreNumbersOf}, PlainTables.{row_at}};
ghost use Rattle.point_exits.specs.Rows.{IsProperRow};
ghost use Rattle.table_rows.specs.declared.bare.PointExits.{PointExits};
ghost use Rattle.state_flow.specs.{Progress.{AreJoined}, PlainCells.{plain_cells, numbered_row, AreCellsOf}, Numbering.{AreNumberedCells}, KnownCells.{AreOfCells}};

use crate::cells::{Cell, Cells};
use abstract_state::Point;
use numbered_sets::{NumberedEntry, NumberedRow, Pool};
use osek_standard::App;
use osek_values::{Memory, Seq};
use std::alloc::Global;
use table_rows::{BareExit, PointExits};

/// Joins an entry to the cell of its point.
pub fn put_in(
    alloc: Global,
    app: &App,
    pool: &Pool,
    cells: &mut Cells<NumberedEntry>,
    point: Point,
    entry: &NumberedEntry,
) -> Result<(), Memory>
    requires cells { AreNumberedCells app.now pool.now cells.old.list.items }
    requires known { AreNumbersOf pool.now entry.now }
    requires proper { IsProperRow app.now (row_at point (plain_entry pool.now entry.now)) }
    ensures cells { OnOk result (AreCellsOf pool.now cells.new.list.items) }
    ensures joined { OnOk result (AreJoined app.now (plain_cells pool.now cells.old.list.items) (row_at point (plain_entry pool.now entry.now) ∷ []) (plain_cells pool.now cells.new.list.items)) }
{
    pool.are_values();
    cells.join(alloc, point, entry)
}

/// The rows of a table, and the exits that are known of them.
#[derive(Drop)]
pub struct KnownRows {
    pub rows: Seq<NumberedRow>,
    pub exits: Seq<PointExits>,
}

/// The rows of cells, and the exits that they know.
pub fn rows(alloc: Global, cells: Cells<NumberedEntry>) -> Result<KnownRows, Memory>
    ensures rows { IfOk result (λ known. known.rows ≡ map numbered_row cells.list.items) }
    ensures exits { IfOk result (λ known. AreOfCells cells.list.items known.exits) }
{
    let count = cells.list.len();
    let mut rows = Seq::of(Vec::with_capacity(alloc, count)?);
    let mut exits = Seq::of(Vec::with_capacity(alloc, count)?);
    for cell in cells.list {
        let Cell {
            point,
            entry,
            exits: known,
            ..
        } = cell.into_value();
        add_exits(&mut exits, point, known)?;
        rows.push(NumberedRow { point, entry })?;
    }
    Ok(KnownRows { rows, exits })
}

// adds the exits of a point, where they are known
fn add_exits(
    exits: &mut Seq<PointExits>,
    point: Point,
    known: Option<Seq<BareExit>>,
) -> Result<(), Memory>
    ensures { OnOk result ((x : PointExits) → Contains exits.new x → Contains exits.old x ⊎ ((x.point ≡ point) × (known ≡ Some x.exits))) }
{
    if let Some(known) = known {
        exits.push(PointExits {
            point,
            exits: known,
        })?;
    }
    Ok(())
}
