//! Exits without their values: all that the graph of a table, its forms and what it excludes ask of them.
ghost use Rattle.std.specs.Prelude.{◌≡◌, ◌++◌, List, map, IfOk, OnOk};
ghost use Rattle.numbered_sets.specs.Pools.{Values};
ghost use Rattle.point_exits.specs.{declared.group.NumberEnd.{NumberEnd}, Groups.{exits_of, all_exits}};
ghost use Rattle.table_rows.specs.BareExits.{bare_end, bare_exit, AreBare};

use flow_model::Decision;
use osek_standard::Point;
use osek_values::{Memory, Seq, Status};
use point_exits::{Ends, ExitGroup, NumberEnd};
use std::alloc::Global;

/// An exit of a point without its values: where it ends, what the scheduler decided (nothing where a routine began), and the
/// status that the step notes.
#[derive(Clone, Copy)]
pub struct BareExit {
    pub target: Point,
    pub decision: Option<Decision>,
    pub status: Option<Status>,
}

/// The exits of a point.
#[derive(Drop)]
pub struct PointExits {
    pub point: Point,
    pub exits: Seq<BareExit>,
}

/// The exits of groups without their values.
pub fn bare_exits(alloc: Global, groups: &[ExitGroup]) -> Result<Seq<BareExit>, Memory>
    ensures { IfOk result (λ exits. (pool : List Values) → AreBare (all_exits pool groups.now) exits) }
{
    let mut exits = Seq::of(Vec::with_capacity(alloc, end_count(groups))?);
    for group in groups {
        push_group(&mut exits, group)?;
    }
    Ok(exits)
}

// how many exits the groups have, for which room is made
fn end_count(groups: &[ExitGroup]) -> usize {
    let mut count: usize = 0;
    for group in groups {
        let ends = match &group.ends {
            Ends::At(points) => points.len(),
            Ends::With(ends) => ends.len(),
        };
        count = count.saturating_add(ends);
    }
    count
}

// adds the exits of a group
fn push_group(exits: &mut Seq<BareExit>, group: &ExitGroup) -> Result<(), Memory>
    ensures { OnOk result ((pool : List Values) → exits.new ≡ exits.old ++ map bare_exit (exits_of pool group.now)) }
{
    match &group.ends {
        Ends::At(points) => push_points(exits, group, points.as_slice()),
        Ends::With(ends) => push_ends(exits, group, ends.as_slice()),
    }
}

// adds the exits of a group that end at these points
fn push_points(exits: &mut Seq<BareExit>, group: &ExitGroup, points: &[Point]) -> Result<(), Memory>
    ensures { OnOk result (exits.new ≡ exits.old ++ map (bare_end group.now) points.now) }
{
    for point in points {
        exits.push(exit_at(group, *point))?;
    }
    Ok(())
}

// adds the exits of a group with these ends
fn push_ends(exits: &mut Seq<BareExit>, group: &ExitGroup, ends: &[NumberEnd]) -> Result<(), Memory>
    ensures { OnOk result (exits.new ≡ exits.old ++ map (λ (x : NumberEnd). bare_end group.now x.target) ends.now) }
{
    for end in ends {
        exits.push(exit_at(group, end.target))?;
    }
    Ok(())
}

// the exit of a group that ends at a point
fn exit_at(group: &ExitGroup, target: Point) -> BareExit
    ensures { result ≡ bare_end group.now target }
{
    BareExit {
        target,
        decision: group.decision,
        status: group.status,
    }
}
