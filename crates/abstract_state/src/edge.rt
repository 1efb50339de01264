//! Edges of the control-flow graph.

use osek_standard::Point;

/// An edge: control flow leads from a point to another, or to the same one where its task is dispatched anew.
#[derive(Clone, Copy)]
pub struct FlowEdge {
    pub from: Point,
    pub to: Point,
}
