//! Whether the exits of a point lead into the rows of a table.
ghost use Rattle.std.specs.{Prelude.{◌≡◌, Contains, IfOk, OnOk}, Bool.{OnTrue, OnFalse}};
ghost use Rattle.point_exits.specs.declared.group.ExitGroup.{ExitGroup};
ghost use Rattle.point_exits.specs.declared.group.Ends.TheVariants as ends_of;
ghost use Rattle.point_exits.specs.Groups.{with_end};
ghost use Rattle.table_rows.specs.{Order.{AscendBy}, Rows.{number_of}};
ghost use Rattle.flow_check.specs.Staying.{IsIn, IsOut, AreEndsIn, IsSomeOut, AreAllIn, IsSomeGroupOut, HasSetOf, HasSetFor, end_at, ends_by};

use crate::rows::row_at;
use abstract_state::Point;
use numbered_sets::{NumberedEntry, NumberedRow};
use osek_values::Memory;
use point_exits::{Ends, ExitGroup, NumberEnd};
use std::alloc::Global;

/// Whether each exit of the groups leads into the rows.
pub(crate) fn all_stay(
    alloc: Global,
    groups: &[ExitGroup],
    rows: &[NumberedRow],
) -> Result<bool, Memory>
    requires sets { (g : ExitGroup) → Contains groups.now g → HasSetFor g.entry g.ends }
    requires order { AscendBy number_of rows.now }
    ensures stay { IfOk result (λ stay. OnTrue stay (AreAllIn rows.now groups.now)) }
    ensures out { IfOk result (λ stay. OnFalse stay (IsSomeGroupOut rows.now groups.now)) }
{
    for group in groups {
        let stay = stays(alloc, group, rows)?;
        if !stay {
            return Ok(false);
        }
    }
    Ok(true)
}

fn stays(alloc: Global, group: &ExitGroup, rows: &[NumberedRow]) -> Result<bool, Memory>
    requires set { HasSetFor group.now.entry group.now.ends }
    requires order { AscendBy number_of rows.now }
    ensures stay { IfOk result (λ stay. OnTrue stay (AreEndsIn rows.now (ends_by group.now.entry group.now.ends))) }
    ensures out { IfOk result (λ stay. OnFalse stay (IsSomeOut rows.now (ends_by group.now.entry group.now.ends))) }
{
    match &group.ends {
        Ends::At(points) => Ok(all_at(points.as_slice(), &group.entry, rows)),
        Ends::With(ends) => {
            let entry = group.entry.copy(alloc)?;
            all_with(alloc, ends.as_slice(), entry, rows)
        }
    }
}

// at each of these points, with all numbers
fn all_at(points: &[Point], entry: &NumberedEntry, rows: &[NumberedRow]) -> bool
    requires { AscendBy number_of rows.now }
    ensures stay { OnTrue result (AreEndsIn rows.now (ends_by entry.now (ends_of.At points.now))) }
    ensures out { OnFalse result (IsSomeOut rows.now (ends_by entry.now (ends_of.At points.now))) }
{
    for point in points {
        if !is_in(*point, entry, rows) {
            return false;
        }
    }
    true
}

// with the numbers of each end, at its point
fn all_with(
    alloc: Global,
    ends: &[NumberEnd],
    entry: NumberedEntry,
    rows: &[NumberedRow],
) -> Result<bool, Memory>
    requires set { HasSetFor entry (ends_of.With ends.now) }
    requires order { AscendBy number_of rows.now }
    ensures stay { IfOk result (λ stay. OnTrue stay (AreEndsIn rows.now (ends_by entry (ends_of.With ends.now)))) }
    ensures out { IfOk result (λ stay. OnFalse stay (IsSomeOut rows.now (ends_by entry (ends_of.With ends.now)))) }
{
    let mut held = entry;
    for end in ends {
        if !is_end_in(alloc, end, &mut held, rows)? {
            return Ok(false);
        }
    }
    Ok(true)
}

// with the numbers of an end, at its point; the entry is what it was then
fn is_end_in(
    alloc: Global,
    end: &NumberEnd,
    entry: &mut NumberedEntry,
    rows: &[NumberedRow],
) -> Result<bool, Memory>
    requires set { HasSetOf entry.old end.now }
    requires order { AscendBy number_of rows.now }
    ensures entry { OnOk result (entry.new ≡ entry.old) }
    ensures within { IfOk result (λ is_in. OnTrue is_in (IsIn rows.now (end_at end.now.target (with_end entry.old end.now)))) }
    ensures out { IfOk result (λ is_in. OnFalse is_in (IsOut rows.now (end_at end.now.target (with_end entry.old end.now)))) }
{
    let own = entry.sets.set(alloc, end.component)?;
    entry.sets.put(end.component, &end.numbers)?;
    let is_in = is_in(end.target, entry, rows);
    entry.sets.put(end.component, &own)?;
    Ok(is_in)
}

/// Whether a point has a row, with all numbers of an entry.
pub(crate) fn is_in(point: Point, entry: &NumberedEntry, rows: &[NumberedRow]) -> bool
    requires { AscendBy number_of rows.now }
    ensures within { OnTrue result (IsIn rows.now (end_at point entry.now)) }
    ensures out { OnFalse result (IsOut rows.now (end_at point entry.now)) }
{
    match row_at(rows, point) {
        None => false,
        Some(row) => entry.sets.is_within(&row.entry.sets),
    }
}
