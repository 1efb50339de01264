//! The exits of a point, joined to cells.
ghost use Rattle.std.specs.{Prelude.{◌≡◌, [], ◌∷◌, Contains, OnOk, IfSome}, Bool.{OnTrue}};
ghost use Rattle.numbered_sets.specs.Views.{AreNumbersOf};
ghost use Rattle.point_exits.specs.{declared.group.NumberEnd.{NumberEnd}, Groups.{IsKnownEnd, IsKnownGroup, AreKnownGroups}, Rows.{IsProperRow}};
ghost use Rattle.state_flow.specs.{Numbering.{AreNumberedCells}, ExitRows.{rows_at, end_row, rows_with, rows_by, all_rows, AreProperRows, AreRowsJoined, IsPart, AreTogether, AreOfOne}};

use crate::cells::Cells;
use crate::numbered_cells::put_in;
use abstract_state::{Point, masks_are_few};
use numbered_sets::{NumberedEntry, Pool};
use osek_standard::App;
use osek_values::Memory;
use point_exits::{Ends, ExitGroup, NumberEnd};
use std::alloc::Global;

/// Joins each exit of groups to the cell of its point.
pub fn join_groups(
    alloc: Global,
    app: &App,
    groups: Vec<ExitGroup>,
    pool: &Pool,
    cells: &mut Cells<NumberedEntry>,
) -> Result<(), Memory>
    requires known { AreKnownGroups pool.now groups.items }
    requires proper { AreProperRows app.now (all_rows pool.now groups.items) }
    requires cells { AreNumberedCells app.now pool.now cells.old.list.items }
    ensures { OnOk result (AreRowsJoined app.now pool.now cells.old.list.items (all_rows pool.now groups.items) cells.new.list.items) }
{
    for group in groups {
        join_group(alloc, app, group, pool, cells)?;
    }
    Ok(())
}

// joins each exit of a group to the cell of its point
fn join_group(
    alloc: Global,
    app: &App,
    group: ExitGroup,
    pool: &Pool,
    cells: &mut Cells<NumberedEntry>,
) -> Result<(), Memory>
    requires known { IsKnownGroup pool.now group }
    requires proper { AreProperRows app.now (rows_by pool.now group.entry group.ends) }
    requires cells { AreNumberedCells app.now pool.now cells.old.list.items }
    ensures { OnOk result (AreRowsJoined app.now pool.now cells.old.list.items (rows_by pool.now group.entry group.ends) cells.new.list.items) }
{
    let ends = group.ends;
    let entry = group.entry;
    match &ends {
        Ends::At(points) => join_at(alloc, app, points.as_slice(), &entry, pool, cells),
        Ends::With(ends) => join_with(alloc, app, ends.as_slice(), entry, pool, cells),
    }
}

// at each of these points, with all numbers
fn join_at(
    alloc: Global,
    app: &App,
    points: &[Point],
    entry: &NumberedEntry,
    pool: &Pool,
    cells: &mut Cells<NumberedEntry>,
) -> Result<(), Memory>
    requires known { AreNumbersOf pool.now entry.now }
    requires proper { AreProperRows app.now (rows_at pool.now entry.now points.now) }
    requires cells { AreNumberedCells app.now pool.now cells.old.list.items }
    ensures { OnOk result (AreRowsJoined app.now pool.now cells.old.list.items (rows_at pool.now entry.now points.now) cells.new.list.items) }
{
    for point in points {
        put_in(alloc, app, pool, cells, *point, entry)?;
    }
    Ok(())
}

// with the numbers of each end, at its point
fn join_with(
    alloc: Global,
    app: &App,
    ends: &[NumberEnd],
    entry: NumberedEntry,
    pool: &Pool,
    cells: &mut Cells<NumberedEntry>,
) -> Result<(), Memory>
    requires known { AreNumbersOf pool.now entry }
    requires ends { (x : NumberEnd) → Contains ends.now x → IsKnownEnd pool.now entry x }
    requires proper { AreProperRows app.now (rows_with pool.now entry ends.now) }
    requires cells { AreNumberedCells app.now pool.now cells.old.list.items }
    ensures { OnOk result (AreRowsJoined app.now pool.now cells.old.list.items (rows_with pool.now entry ends.now) cells.new.list.items) }
{
    if let Some(target) = joined_target(ends, &entry) {
        masks_are_few(app);
        return put_in(alloc, app, pool, cells, target, &entry);
    }
    if are_of_one(ends) {
        return join_in_turn(alloc, app, ends, entry, pool, cells);
    }
    let mut held = entry;
    for end in ends {
        join_end(alloc, app, end, &mut held, pool, cells)?;
    }
    Ok(())
}

// whether all ends have numbers of one component
fn are_of_one(ends: &[NumberEnd]) -> bool
    ensures { OnTrue result (AreOfOne ends.now) }
{
    for end in ends {
        if end.component != ends[0].component {
            return false;
        }
    }
    true
}

// The same where all ends have numbers of one component: each end's take the place of the last one's.
fn join_in_turn(
    alloc: Global,
    app: &App,
    ends: &[NumberEnd],
    entry: NumberedEntry,
    pool: &Pool,
    cells: &mut Cells<NumberedEntry>,
) -> Result<(), Memory>
    requires one { AreOfOne ends.now }
    requires known { AreNumbersOf pool.now entry }
    requires ends { (x : NumberEnd) → Contains ends.now x → IsKnownEnd pool.now entry x }
    requires proper { AreProperRows app.now (rows_with pool.now entry ends.now) }
    requires cells { AreNumberedCells app.now pool.now cells.old.list.items }
    ensures { OnOk result (AreRowsJoined app.now pool.now cells.old.list.items (rows_with pool.now entry ends.now) cells.new.list.items) }
{
    let mut held = entry;
    for end in ends {
        held.sets.put(end.component, &end.numbers)?;
        put_in(alloc, app, pool, cells, end.target, &held)?;
    }
    Ok(())
}

// with the numbers of an end, at its point; the entry is what it was then
fn join_end(
    alloc: Global,
    app: &App,
    end: &NumberEnd,
    entry: &mut NumberedEntry,
    pool: &Pool,
    cells: &mut Cells<NumberedEntry>,
) -> Result<(), Memory>
    requires known { AreNumbersOf pool.now entry.old }
    requires end { IsKnownEnd pool.now entry.old end.now }
    requires proper { IsProperRow app.now (end_row pool.now entry.old end.now) }
    requires cells { AreNumberedCells app.now pool.now cells.old.list.items }
    ensures entry { OnOk result (entry.new ≡ entry.old) }
    ensures joined { OnOk result (AreRowsJoined app.now pool.now cells.old.list.items (end_row pool.now entry.old end.now ∷ []) cells.new.list.items) }
{
    let own = entry.sets.set(alloc, end.component)?;
    entry.sets.put(end.component, &end.numbers)?;
    put_in(alloc, app, pool, cells, end.target, entry)?;
    entry.sets.put(end.component, &own)?;
    Ok(())
}

// The point where all ends lead, if they have numbers of different components: each has all numbers of the others, so that their
// join is the entry.
fn joined_target(ends: &[NumberEnd], entry: &NumberedEntry) -> Option<Point>
    ensures { IfSome result (AreTogether entry.now ends.now) }
{
    if ends.len() < 2 || ends[0].component == ends[1].component {
        return None;
    }
    let target = ends[0].target;
    for end in ends {
        let leads_there = end.target == target;
        if !leads_there || !is_part(end, entry) {
            return None;
        }
    }
    Some(target)
}

// whether each number of an end is one of the entry's
fn is_part(end: &NumberEnd, entry: &NumberedEntry) -> bool
    ensures { OnTrue result (IsPart entry.now end.now) }
{
    entry.sets.has_each(end.component, &end.numbers)
}
