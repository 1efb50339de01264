//! A fold over the rows of a table, by the exits of each.
ghost use Rattle.std.specs.{Prelude.{◌≡◌, ◌<◌, [], List, length, slice_index_or, IfOk, OnOk}, Bool.{OnTrue, OnFalse}};
ghost use Rattle.table_rows.specs.declared.bare.PointExits.{PointExits};
ghost use Rattle.osek_standard.specs.{declared.app.App.{App}, Points.{IsPoint}};
ghost use Rattle.abstract_state.specs.{declared.table.TableRow.{TableRow}, Written.{IsWritten}};
ghost use Rattle.table_rows.specs.{BareExits.{AreKnownExits, AreBareExitsOf}, Folds.{IsOfSome, TakesIn, StaysFor}};
ghost use Rattle.numbered_sets.specs.{Views.{AreNumbersOf}, PlainTables.{plain_row}};
ghost use Rattle.point_exits.specs.{Growing.{IsGrown}, Rows.{IsProperRow}};

use crate::bare::{BareExit, PointExits, bare_exits};
use crate::row_exits::row_groups;
use abstract_state::Point;
use numbered_sets::{NumberedRow, Table};
use osek_standard::App;
use osek_values::{Memory, Seq};
use point_exits::Numbering;
use std::alloc::Global;

/// What is made of the rows of a table of an application, one after another.
pub trait RowFold {
    /// It is made of these rows.
    ghost is_of: { App → List TableRow → Self → Type 0 };

    /// Whether the exits of the row of a point are asked for. A row that isn't asked for leaves it as it is.
    fn asks_for(&self, app: &App, point: Point) -> bool
        requires point { IsPoint app.now point }
        requires so_far { IsOfSome (is_of app.now) self.now }
        ensures { OnFalse result (StaysFor (is_of app.now) point self.now) }
    {
        true
    }

    /// Takes in the next row, that of a point, by its exits.
    fn add(
        &mut self,
        alloc: Global,
        app: &App,
        point: Point,
        exits: &[BareExit],
    ) -> Result<(), Memory>
        requires point { IsPoint app.now point }
        requires so_far { IsOfSome (is_of app.now) self.old }
        ensures { OnOk result (TakesIn app.now (is_of app.now) point exits.now self.old self.new) };
}

/// Makes of the rows of a table what is to be made of them. The exits that are known, in the order of their points, are taken
/// as they are; the other rows are evaluated.
pub fn fold_rows<F: RowFold>(
    alloc: Global,
    app: &App,
    table: &Table,
    known: &[PointExits],
    made: &mut F,
) -> Result<(), Memory>
    requires written { IsWritten app.now table.now }
    requires known { AreKnownExits app.now table.now.rows known.now }
    requires begun { F.is_of app.now [] made.old }
    ensures { OnOk result (F.is_of app.now table.now.rows made.new) }
{
    let numbered = table.numbered_rows(alloc)?;
    let rows = numbered.rows;
    if rows.len() == 0 {
        return Ok(());
    }
    let mut numbering = Numbering::new(alloc, app, numbered.pool)?;
    let mut place = 0;
    for row in rows.as_slice() {
        if !made.asks_for(app, row.point) {
            continue;
        }
        place = place_from(known, place, row.point);
        if is_known(known, place, row.point) {
            made.add(alloc, app, row.point, known[place].exits.as_slice())?;
        } else {
            let exits = exits_of_row(alloc, &mut numbering, row)?;
            made.add(alloc, app, row.point, exits.as_slice())?;
        }
    }
    Ok(())
}

// the place from this one on that doesn't stand before a point
fn place_from(known: &[PointExits], from: usize, point: Point) -> usize {
    let mut place = from;
    while place < known.len() && known[place].point.number() < point.number() {
        place += 1;
    }
    place
}

// whether the exits at a place are those of a point
fn is_known(known: &[PointExits], place: usize, point: Point) -> bool
    ensures { OnTrue result ((place < length known.now) × ((d : PointExits) → (slice_index_or known.now place d).point ≡ point)) }
{
    place < known.len() && known[place].point == point
}

// the exits of the states of a row, without their values; the numbering may grow
fn exits_of_row(
    alloc: Global,
    numbering: &mut Numbering,
    row: &NumberedRow,
) -> Result<Seq<BareExit>, Memory>
    requires numbers { AreNumbersOf numbering.old.pool row.now.entry }
    requires proper { IsProperRow numbering.old.app.now (plain_row numbering.old.pool row.now) }
    ensures grown { IsGrown numbering.old numbering.new }
    ensures exits { IfOk result (AreBareExitsOf numbering.old.app.now (plain_row numbering.old.pool row.now)) }
{
    let groups = row_groups(alloc, numbering, row)?;
    bare_exits(alloc, groups.as_slice())
}
