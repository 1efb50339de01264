//! What is evaluated of a point that grew: where few components did, their new numbers by themselves.
ghost use Rattle.std.specs.{Prelude.{◌≡◌, ◌<◌, false, Option, Some, length, slice_set, IfOk, OnOk}, Option.{ForSome}};
ghost use Rattle.numbered_sets.specs.{declared.numbered_entry.NumberedEntry.{NumberedEntry}, Numbers.{other_numbers}, NumberedEntries.{numbers_at, AreFilled}};
ghost use Rattle.state_flow.specs.Parts.{AreRowsBeside};

use crate::cells::Cell;
use crate::kept::Kept;
use abstract_state::Point;
use numbered_sets::{NumberedEntry, NumberedRow};
use osek_standard::App;
use osek_values::Memory;
use std::alloc::Global;

// of so many components that grew the new numbers are evaluated by themselves; where more did, all numbers are
const FEW: usize = 2;

/// Whether points are to be evaluated by their new numbers: where a few tasks may have several activations, a point grows
/// by one of them at a time, and is evaluated for each. Where many may, it grows in too many components at once.
pub fn grow_by_few(app: &App) -> bool {
    let mut count: usize = 0;
    for task in app.tasks.as_slice() {
        if task.activation > 1 {
            count = count.saturating_add(1);
        }
    }
    0 < count && count <= FEW
}

/// Rows of a cell's point that together have each choice of its numbers that the point wasn't evaluated with. The cell keeps
/// its entry for the next time, and doesn't wait.
pub fn rows_to_evaluate(
    alloc: Global,
    cell: &mut Cell<NumberedEntry>,
) -> Result<Vec<NumberedRow>, Memory>
    requires filled { AreFilled cell.old.entry }
    requires alike { ForSome cell.old.before (λ before. length before.sets ≡ length cell.old.entry.sets) }
    ensures stays { cell.new ≡ record cell.old { waiting = false; before = cell.new.before } }
    ensures kept { OnOk result (ForSome cell.new.before (λ before. before ≡ cell.old.entry)) }
    ensures rows { IfOk result (λ rows. AreRowsBeside cell.old.point cell.old.entry cell.old.before rows.items) }
{
    cell.waiting = false;
    cell.growth.evaluate();
    let before = cell.before.take();
    let entry = cell.entry.copy(alloc)?;
    cell.before = Some(Kept::new(alloc, entry)?);
    let Some(before) = before else {
        return whole(alloc, cell.point, &cell.entry);
    };
    if grown_count(&cell.entry, before.get()) > FEW {
        return whole(alloc, cell.point, &cell.entry);
    }
    grown_rows(alloc, cell.point, &cell.entry, before.get())
}

// one row with all numbers
fn whole(alloc: Global, point: Point, entry: &NumberedEntry) -> Result<Vec<NumberedRow>, Memory>
    requires { AreFilled entry.now }
    ensures { IfOk result (λ rows. (before : Option NumberedEntry) → AreRowsBeside point entry.now before rows.items) }
{
    let mut rows = Vec::new(alloc);
    rows.push(NumberedRow {
        point,
        entry: entry.copy(alloc)?,
    })?;
    Ok(rows)
}

// how many components have numbers that another entry lacks
fn grown_count(entry: &NumberedEntry, before: &NumberedEntry) -> usize {
    let mut count: usize = 0;
    for component in 0..entry.sets.len() {
        if !entry.sets.is_set_within(component, &before.sets) {
            count = count.saturating_add(1);
        }
    }
    count
}

// a row for each component that has numbers that another entry lacks: those, with all numbers of the other components
fn grown_rows(
    alloc: Global,
    point: Point,
    entry: &NumberedEntry,
    before: &NumberedEntry,
) -> Result<Vec<NumberedRow>, Memory>
    requires filled { AreFilled entry.now }
    requires alike { length before.now.sets ≡ length entry.now.sets }
    ensures { IfOk result (λ rows. AreRowsBeside point entry.now (Some before.now) rows.items) }
{
    let mut rows = Vec::new(alloc);
    for component in 0..entry.sets.len() {
        if !entry.sets.is_set_within(component, &before.sets) {
            let part = with_new_alone(alloc, entry, before, component)?;
            rows.push(NumberedRow { point, entry: part })?;
        }
    }
    Ok(rows)
}

// the entry without the numbers of a component that another one has
fn with_new_alone(
    alloc: Global,
    entry: &NumberedEntry,
    before: &NumberedEntry,
    component: usize,
) -> Result<NumberedEntry, Memory>
    requires known { component < length entry.now.sets }
    requires alike { length before.now.sets ≡ length entry.now.sets }
    ensures { IfOk result (λ part. part.sets ≡ slice_set entry.now.sets component (other_numbers (numbers_at entry.now component) (numbers_at before.now component))) }
{
    let known = before.sets.set(alloc, component)?;
    let mut part = entry.copy(alloc)?;
    part.leave_out(component, &known)?;
    Ok(part)
}
