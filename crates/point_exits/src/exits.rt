//! All exits of a point.
ghost use Rattle.std.specs.Prelude.{IfOk};
ghost use Rattle.numbered_sets.specs.Views.{plain_entry};
ghost use Rattle.flow_exits.specs.Leaving.{AreExits};
ghost use Rattle.point_exits.specs.{Groups.{all_exits, AreKnownGroups}, Growing.{IsGrown}, PointNumbers.{AreNumbersAt}};

use crate::group::ExitGroup;
use crate::numbering::Numbering;
use abstract_state::Point;
use flow_model::Runner;
use numbered_sets::NumberedEntry;
use osek_values::Memory;
use std::alloc::Global;

/// The exits of a point with these numbers, of which each component has one. The numbering grows by the values that it lacks.
pub fn exit_groups(
    alloc: Global,
    numbering: &mut Numbering,
    point: Point,
    entry: &NumberedEntry,
) -> Result<Vec<ExitGroup>, Memory>
    requires { AreNumbersAt numbering.old.app.now point numbering.old.pool entry.now }
    ensures grown { IsGrown numbering.old numbering.new }
    ensures known { IfOk result (λ groups. AreKnownGroups numbering.new.pool groups.items) }
    ensures exits { IfOk result (λ groups. AreExits numbering.old.app.now point (plain_entry numbering.old.pool entry.now) (all_exits numbering.new.pool groups.items)) }
{
    let app = numbering.app;
    let mut groups = Vec::new(alloc);
    numbering.push_arrivals(alloc, point, entry, &mut groups)?;
    match Runner::executing(app, point) {
        None => Ok(groups),
        Some(_) => {
            numbering.push_instructions(alloc, point, entry, &mut groups)?;
            Ok(groups)
        }
    }
}
