//! What the rows of a table show of the states in it.
ghost use Rattle.std.specs.{Prelude.{◌≡◌, ◌<◌, length}, Bool.{Decides}};
ghost use Rattle.numbered_sets.specs.Views.{AreNumbersOf, plain_entry};
ghost use Rattle.osek_standard.specs.Points.{StandsAt};
ghost use Rattle.flow_report.specs.Reached.{HasPassing, comes_before};

use abstract_state::{Component, Point, component_number};
use flow_model::Test;
use numbered_sets::{NumberedEntry, NumberedRow, Pool};
use osek_standard::App;
use osek_values::{BlockNo, ResNo, SourceNo};

/// An application, and the rows of a table of it beside the pool of their values.
#[derive(Drop)]
pub struct Reached<'a> {
    pub app: &'a App,
    pub pool: &'a Pool,
    pub rows: &'a [NumberedRow],
}

impl<'a> Reached<'a> {
    ghost use Rattle.std.specs.{Prelude.{◌<◌, length, Contains}, Bool.{Decides}};
    ghost use Rattle.abstract_state.specs.Components.{component_count};
    ghost use Rattle.numbered_sets.specs.PlainTables.{plain_row};
    ghost use Rattle.flow_report.specs.{Reached.{ShowsState, IsTakenAt, IsHeldByTask, IsHeldByRoutine, IsHeldIn, ArePartedAt, table_of}, Findings.{IsReachedBlock}};
    ghost use Rattle.table_rows.specs.Rows.{AreRowsFrom};

    /// Whether a component's value passes a test in some state.
    pub fn is_shown(&self, component: usize, test: &Test) -> bool
        requires rows { AreRowsFrom self.now.app.now self.now.pool.now self.now.rows.now }
        requires known { component < component_count self.now.app.now }
        ensures { Decides result (ShowsState component test.now self.now.app.now (table_of self.now.pool.now self.now.rows.now)) }
    {
        for row in self.rows {
            if has_passing(self.pool, &row.entry, component, test) {
                return true;
            }
        }
        false
    }

    // The place of the first row that isn't before a block's points, found by halving.
    fn place_of(&self, block: BlockNo) -> usize
        requires { AreRowsFrom self.now.app.now self.now.pool.now self.now.rows.now }
        ensures { ArePartedAt self.now.rows.now block.0 result }
    {
        self.rows
            .partition_point(|row| comes_before(row.point, block))
    }

    /// Whether some state stands at a block.
    pub fn is_reached(&self, block: BlockNo) -> bool
        requires { AreRowsFrom self.now.app.now self.now.pool.now self.now.rows.now }
        ensures { Decides result (IsReachedBlock self.now.app.now (table_of self.now.pool.now self.now.rows.now) block) }
    {
        match self.rows.get(self.place_of(block)) {
            None => false,
            Some(row) => stands_at(row.point, block),
        }
    }

    /// Whether some task or routine holds a resource in some state at a block.
    pub fn is_taken_at(&self, block: BlockNo, resource: ResNo) -> bool
        requires { AreRowsFrom self.now.app.now self.now.pool.now self.now.rows.now }
        ensures { Decides result (IsTakenAt self.now.app.now (table_of self.now.pool.now self.now.rows.now) block resource) }
    {
        let first = self.place_of(block);
        for place in first..self.rows.len() {
            let row = &self.rows[place];
            if !stands_at(row.point, block) {
                return false;
            }
            if self.is_held_in(row, resource) {
                return true;
            }
        }
        false
    }

    // whether some task or routine holds a resource by a value of a row
    fn is_held_in(&self, row: &NumberedRow, resource: ResNo) -> bool
        requires rows { AreRowsFrom self.now.app.now self.now.pool.now self.now.rows.now }
        requires among { Contains self.now.rows.now row.now }
        ensures { Decides result (IsHeldIn self.now.app.now resource (plain_row self.now.pool.now row.now)) }
    {
        if self.is_held_by_task(row, resource) {
            return true;
        }
        self.is_held_by_routine(row, resource)
    }

    fn is_held_by_task(&self, row: &NumberedRow, resource: ResNo) -> bool
        requires rows { AreRowsFrom self.now.app.now self.now.pool.now self.now.rows.now }
        requires among { Contains self.now.rows.now row.now }
        ensures { Decides result (IsHeldByTask self.now.app.now resource (plain_row self.now.pool.now row.now)) }
    {
        for task in 0..self.app.tasks.len() {
            let held = Test::Holds(resource);
            if has_passing(self.pool, &row.entry, task, &held) {
                return true;
            }
        }
        false
    }

    fn is_held_by_routine(&self, row: &NumberedRow, resource: ResNo) -> bool
        requires rows { AreRowsFrom self.now.app.now self.now.pool.now self.now.rows.now }
        requires among { Contains self.now.rows.now row.now }
        ensures { Decides result (IsHeldByRoutine self.now.app.now resource (plain_row self.now.pool.now row.now)) }
    {
        for source in 0..self.app.counters.len() + self.app.isrs.len() {
            let held = Test::Holds(resource);
            let component = component_number(self.app, Component::Source(SourceNo(source as u8)));
            if has_passing(self.pool, &row.entry, component.index(), &held) {
                return true;
            }
        }
        false
    }
}

// whether some value of a component passes a test
fn has_passing(pool: &Pool, entry: &NumberedEntry, component: usize, test: &Test) -> bool
    requires numbers { AreNumbersOf pool.now entry.now }
    requires values { component < length pool.now }
    requires set { component < length entry.now.sets }
    ensures { Decides result (HasPassing component test.now (plain_entry pool.now entry.now)) }
{
    let end = pool.len(component);
    let mut number = entry.next(component, 0, end);
    while number < end {
        if test.passes(&pool.value(component, number)) {
            return true;
        }
        number = entry.next(component, number + 1, end);
    }
    false
}

// whether a point is one of a block
fn stands_at(point: Point, block: BlockNo) -> bool
    ensures { Decides result (StandsAt point block) }
{
    match point {
        Point::Halted | Point::Idle => false,
        Point::Task(own) | Point::Routine { block: own, .. } => own == block,
    }
}

// whether a point comes before those of a block
fn comes_before(point: Point, block: BlockNo) -> bool
    ensures { result ≡ comes_before point block.0 }
{
    match point {
        Point::Halted | Point::Idle => true,
        Point::Task(own) | Point::Routine { block: own, .. } => own.0 < block.0,
    }
}
