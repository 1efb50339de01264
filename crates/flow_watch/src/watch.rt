//! The monitor.
ghost use Rattle.std.specs.Prelude.{◌≡◌, map, IfOk};
ghost use Rattle.abstract_state.specs.declared.table.TableRow.{TableRow};

use crate::alarm::Alarm;
use crate::hints::Hints;
use crate::places::{edge_place, has_point, is_same, leads_at};
use abstract_state::FlowEdge;
use global_cfg::edges_with;
use numbered_sets::Table;
use osek_standard::{App, Point};
use osek_values::{Memory, Seq};
use std::alloc::Global;
use std::marker::Model;
use table_rows::PointExits;

/// What watches a record of points for its first alarm. It takes all its memory when it is made.
#[derive(Drop)]
pub struct Watch {
    app: App,
    entries: Seq<Point>,
    edges: Seq<FlowEdge>,
    hints: Hints,
    seen: u64,
    last: Option<Point>,
    alarm: Option<Alarm>,
}

impl Model for Watch {
    ghost use Rattle.flow_watch.specs.Watches.{WatchState, AreSorted, watch_code};

    ghost Value = { WatchState };

    ghost coded = { watch_code };

    ghost view = { λ w. record { app = w.app; entries = w.entries; edges = w.edges; seen = w.seen; last = w.last; alarm = w.alarm } };

    ghost invariant = { λ w. AreSorted w.entries w.edges };
}

// The points at which a table has an entry.
fn entries(alloc: Global, table: &Table) -> Result<Seq<Point>, Memory>
    ensures { IfOk result (λ points. points ≡ map (λ (row : TableRow). row.point) table.now.rows) }
{
    let mut points = Seq::new(alloc);
    let numbered = table.numbered_rows(alloc)?;
    for row in numbered.rows.as_slice() {
        points.push(row.point)?;
    }
    Ok(points)
}

impl Watch {
    ghost use Rattle.std.specs.Prelude.{◌≡◌, ◌<◌, ◌^◌, ◌-◌, List, length, IfOk, None};
    ghost use Rattle.osek_values.specs.declared.{event.Event.{Event}, numbers.ModeNo.{ModeNo}};
    ghost use Rattle.abstract_state.specs.{Tables.{Least, sets_of}, Written.{IsWritten}};
    ghost use Rattle.std.specs.List.{list_any};
    ghost use Rattle.table_rows.specs.BareExits.{AreKnownExits};
    ghost use Rattle.flow_watch.specs.{Records.{IsQuiet, record_of}, Watches.{IsWatchOf, leads_to, may_come, seen_by}};

    /// A watch over the least table of an application, which saw nothing yet.
    pub fn new(alloc: Global, app: App, table: &Table) -> Result<Watch, Memory>
        requires written { IsWritten app table.now }
        requires least { Least app (sets_of table.now) }
        ensures watch { IfOk result (IsWatchOf app (sets_of table.now)) }
        // no record of a run has an alarm
        ensures quiet { (mode : ModeNo) (es : List Event) → mode.0 < length app.modes → IsQuiet app (sets_of table.now) None (record_of app mode es) }
    {
        Watch::with(alloc, app, table, &[])
    }

    /// The same watch, where exits are known of points, so that these needn't be evaluated again.
    pub fn with(
        alloc: Global,
        app: App,
        table: &Table,
        known: &[PointExits],
    ) -> Result<Watch, Memory>
        requires written { IsWritten app table.now }
        requires least { Least app (sets_of table.now) }
        requires known { AreKnownExits app table.now.rows known.now }
        ensures watch { IfOk result (IsWatchOf app (sets_of table.now)) }
        // no record of a run has an alarm
        ensures quiet { (mode : ModeNo) (es : List Event) → mode.0 < length app.modes → IsQuiet app (sets_of table.now) None (record_of app mode es) }
    {
        let entries = entries(alloc, table)?;
        let edges = edges_with(alloc, &app, table, known)?;
        let hints = Hints::new(alloc)?;
        Ok(Watch {
            app,
            entries,
            edges,
            hints,
            seen: 0,
            last: None,
            alarm: None,
        })
    }

    // Whether an edge leads from a point to another. Where it was found before is looked at first.
    fn has_edge(&mut self, from: Point, to: Point) -> bool
        ensures same { self.new ≡ self.old }
        ensures edge { result ≡ list_any (leads_to from to) self.old.edges }
    {
        let edges = self.edges.as_slice();
        if leads_at(edges, self.hints.place(from, to), from, to) {
            return true;
        }
        match edge_place(edges, from, to) {
            None => false,
            Some(place) => {
                self.hints.note(from, to, place);
                true
            }
        }
    }

    // Whether a point may come behind the last one.
    fn may_come(&mut self, point: Point) -> bool
        ensures same { self.new ≡ self.old }
        ensures comes { result ≡ may_come self.old self.old.last point }
    {
        match self.last {
            None => has_point(self.entries.as_slice(), point),
            Some(last) => is_same(last, point) || self.has_edge(last, point),
        }
    }

    /// Sees the next point of a record. It answers the record's first alarm, once that came: the same one ever after. It takes
    /// no memory.
    pub fn see(&mut self, point: Point) -> Option<Alarm>
        requires few { self.old.seen < 2 ^ 64 - 1 }
        ensures watch { self.new ≡ seen_by self.old point }
        ensures alarm { result ≡ self.new.alarm }
    {
        if self.alarm.is_none() {
            if self.may_come(point) {
                self.seen += 1;
                self.last = Some(point);
            } else {
                self.alarm = Some(Alarm {
                    place: self.seen,
                    before: self.last,
                    point,
                });
            }
        }
        self.alarm
    }

    /// How many points it saw before an alarm.
    pub fn seen(&self) -> u64
        ensures { result ≡ self.now.seen }
    {
        self.seen
    }

    /// The application whose points it sees.
    pub fn app(&self) -> &App
        ensures { result.now ≡ self.now.app }
    {
        &self.app
    }
}
