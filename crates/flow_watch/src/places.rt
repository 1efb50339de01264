//! Whether a point, or an edge, is in a list in its order.
ghost use Rattle.std.specs.{Prelude.{◌≡◌, ◌<◌, ◌==◌, ◌&&◌, ◌||◌, nat_lt, true, false, MatchOption}, List.{list_any}};
ghost use Rattle.osek_standard.specs.Points.{point_number};
ghost use Rattle.abstract_state.specs.Tables.{same_point};
ghost use Rattle.table_rows.specs.Order.{AscendBy};
ghost use Rattle.global_cfg.specs.Edges.{AreAscending};
ghost use Rattle.flow_watch.specs.Watches.{leads_to};

use abstract_state::FlowEdge;
use osek_standard::Point;
use table_rows::place_of;

/// Whether two points are the same.
pub(crate) fn is_same(one: Point, other: Point) -> bool
    ensures { result ≡ same_point one other }
{
    one == other
}

/// Whether a point is among points in their order.
pub(crate) fn has_point(points: &[Point], point: Point) -> bool
    requires { AscendBy point_number points.now }
    ensures { result ≡ list_any (same_point point) points.now }
{
    match place_of(points, point.number()) {
        Ok(place) => is_same(point, points[place]),
        Err(_gap) => false,
    }
}

// Whether an edge comes before those from a point to another.
fn is_before(edge: FlowEdge, from: u32, to: u32) -> bool
    ensures { result ≡ (nat_lt (point_number edge.from) from || ((point_number edge.from == from) && nat_lt (point_number edge.to) to)) }
{
    let at = edge.from.number();
    let end = edge.to.number();
    at < from || (at == from && end < to)
}

fn leads(edge: FlowEdge, from: Point, to: Point) -> bool
    ensures { result ≡ leads_to from to edge }
{
    let begins = is_same(from, edge.from);
    begins && is_same(to, edge.to)
}

/// Whether the edge that stands at a place leads from a point to another.
pub(crate) fn leads_at(edges: &[FlowEdge], place: usize, from: Point, to: Point) -> bool
    ensures { result ≡ true → list_any (leads_to from to) edges.now ≡ true }
{
    match edges.get(place) {
        None => false,
        Some(edge) => leads(*edge, from, to),
    }
}

/// Where an edge from a point to another stands among edges in their order, if it is one of them.
pub(crate) fn edge_place(edges: &[FlowEdge], from: Point, to: Point) -> Option<usize>
    requires { AreAscending edges.now }
    ensures { MatchOption result (list_any (leads_to from to) edges.now ≡ false) (λ place. list_any (leads_to from to) edges.now ≡ true) }
{
    let begin = from.number();
    let end = to.number();
    let place = edges.partition_point(|edge| is_before(*edge, begin, end));
    match edges.get(place) {
        Some(edge) => {
            if leads(*edge, from, to) {
                Some(place)
            } else {
                None
            }
        }
        None => None,
    }
}
