//! The points to which edges lead from one point.
ghost use Rattle.std.specs.{Prelude.{◌≡◌, ◌∷◌, [], length, IfOk, OnOk}, Bool.{OnTrue}};
ghost use Rattle.osek_standard.specs.Points.{point_number};
ghost use Rattle.table_rows.specs.Order.{AscendBy, IsGapBy};
ghost use Rattle.global_cfg.specs.Targets.{dispatches, leads, AreEndsPut};

use abstract_state::Point;
use flow_model::Decision;
use osek_values::Memory;
use std::alloc::Global;
use table_rows::{BareExit, place_of};

/// The points to which exits lead on from a point, in the order of the points.
pub fn targets(alloc: Global, from: Point, exits: &[BareExit]) -> Result<Vec<Point>, Memory>
    ensures { IfOk result (λ targets. AreEndsPut from exits.now [] targets.items) }
{
    let mut targets = Vec::new(alloc);
    for exit in exits {
        put_target(&mut targets, *exit, from)?;
    }
    Ok(targets)
}

/// Puts the target of an exit in at its place, if control flow leads on to it.
fn put_target(points: &mut Vec<Point>, exit: BareExit, from: Point) -> Result<(), Memory>
    requires { AscendBy point_number points.old.items }
    ensures { OnOk result (AreEndsPut from (exit ∷ []) points.old.items points.new.items) }
{
    if !leads_on(exit.target, exit.decision, from) {
        return Ok(());
    }
    // mostly no other stands above it, and none is looked for
    if is_above(points.as_slice(), exit.target) {
        points.push(exit.target)?;
        return Ok(());
    }
    let Err(gap) = place_of(points.as_slice(), exit.target.number()) else {
        return Ok(());
    };
    points.insert(gap, exit.target)?;
    Ok(())
}

// whether a point stands above the last of points
fn is_above(points: &[Point], point: Point) -> bool
    requires { AscendBy point_number points.now }
    ensures { OnTrue result (IsGapBy point_number points.now (point_number point) (length points.now)) }
{
    match points.last() {
        None => true,
        Some(last) => last.number() < point.number(),
    }
}

/// Whether control flow leads on by a step from a point to a target. A dispatch at the same point is that of the task that ran
/// there, as no two tasks have a block in common.
fn leads_on(target: Point, decision: Option<Decision>, point: Point) -> bool
    ensures { result ≡ leads target decision point }
{
    target.number() != point.number() || dispatches(decision)
}

// whether the scheduler gives the processor to a task
fn dispatches(decision: Option<Decision>) -> bool
    ensures { result ≡ dispatches decision }
{
    match decision {
        Some(Decision::To(Some(_))) => true,
        Some(Decision::To(None)) | Some(Decision::Keep) | None => false,
    }
}
