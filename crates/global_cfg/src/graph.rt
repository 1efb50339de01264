//! The control-flow graph of a table.
ghost use Rattle.std.specs.Prelude.{◌≡◌, ◌++◌, ◌↔◌, map, Contains, IfOk, OnOk};
ghost use Rattle.osek_standard.specs.declared.point.Point.{Point};
ghost use Rattle.abstract_state.specs.{Edges.{Edge, flow_edge}, Tables.{sets_of}, Written.{IsWritten}};
ghost use Rattle.table_rows.specs.BareExits.{AreKnownExits};
ghost use Rattle.global_cfg.specs.Edges.{AreAscending};

use crate::targets::targets;
use abstract_state::{FlowEdge, Point};
use numbered_sets::Table;
use osek_standard::App;
use osek_values::{Memory, Seq};
use std::alloc::Global;
use table_rows::{BareExit, PointExits, RowFold, fold_rows};

/// The edges that a table of the application dictates, by where they begin and then by where they end.
pub fn edges(alloc: Global, app: &App, table: &Table) -> Result<Seq<FlowEdge>, Memory>
    requires written { IsWritten app.now table.now }
    ensures exact { IfOk result (λ edges. (p q : Point) → Contains edges (flow_edge p q) ↔ Edge app.now (sets_of table.now) p q) }
    ensures ascending { IfOk result AreAscending }
{
    edges_with(alloc, app, table, &[])
}

/// The same edges, where exits are known of points, so that these needn't be evaluated again.
pub fn edges_with(
    alloc: Global,
    app: &App,
    table: &Table,
    known: &[PointExits],
) -> Result<Seq<FlowEdge>, Memory>
    requires written { IsWritten app.now table.now }
    requires known { AreKnownExits app.now table.now.rows known.now }
    ensures exact { IfOk result (λ edges. (p q : Point) → Contains edges (flow_edge p q) ↔ Edge app.now (sets_of table.now) p q) }
    ensures ascending { IfOk result AreAscending }
{
    let edges = Seq::new(alloc);
    let mut made = EdgesOfRows { edges };
    fold_rows(alloc, app, table, known, &mut made)?;
    Ok(made.edges)
}

// the edges that begin at the points of some rows
#[derive(Drop)]
struct EdgesOfRows {
    edges: Seq<FlowEdge>,
}

impl RowFold for EdgesOfRows {
    ghost use Rattle.global_cfg.specs.Targets.{AreOfRows};

    ghost is_of = { λ app rows made. AreOfRows app rows made.edges };

    fn add(
        &mut self,
        alloc: Global,
        _app: &App,
        point: Point,
        exits: &[BareExit],
    ) -> Result<(), Memory> {
        let targets = targets(alloc, point, exits)?;
        add_edges(&mut self.edges, point, targets.as_slice())?;
        Ok(())
    }
}

// adds the edges from a point to these targets
fn add_edges(edges: &mut Seq<FlowEdge>, from: Point, targets: &[Point]) -> Result<(), Memory>
    ensures { OnOk result (edges.new ≡ edges.old ++ map (flow_edge from) targets.now) }
{
    for to in targets {
        edges.push(FlowEdge { from, to: *to })?;
    }
    Ok(())
}
