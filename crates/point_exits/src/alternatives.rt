//! The exits of cases that differ in one condition alone: they share all values but those of one component each.
ghost use Rattle.std.specs.Prelude.{◌≡◌, ◌<◌, length, IfOk, Contains};
ghost use Rattle.flow_model.specs.declared.test.Condition.{Condition};
ghost use Rattle.numbered_sets.specs.Views.{AreNumbersOf};
ghost use Rattle.point_exits.specs.Alternatives.{ArePassingEnds};

use crate::group::{Ends, ExitGroup, NumberEnd};
use crate::numbering::Numbering;
use crate::settled::Settling;
use abstract_state::Point;
use flow_effects::Alternatives;
use flow_model::{Condition, Decision, Stay};
use numbered_sets::{NumberedEntry, Pool};
use osek_values::{Memory, Seq};
use std::alloc::Global;

impl<'a> Numbering<'a> {
    ghost use Rattle.std.specs.Prelude.{OnOk};
    ghost use Rattle.numbered_sets.specs.Views.{plain_entry};
    ghost use Rattle.flow_effects.specs.Alternatives.{alternative_cases};
    ghost use Rattle.point_exits.specs.{Alternatives.{MayApplyEach}, Groups.{AreKnownGroups}, Growing.{IsGrown}, Leaving.{AddsEffects}};

    /// Adds the exits of cases that differ in one condition alone, whose effect is looked at once: an end for each that passes.
    pub fn push_alternatives(
        &mut self,
        alloc: Global,
        before: &NumberedEntry,
        alternatives: &Alternatives,
        groups: &mut Vec<ExitGroup>,
    ) -> Result<(), Memory>
        requires cases { MayApplyEach self.old.app.now alternatives.now self.old.pool before.now }
        requires known { AreKnownGroups self.old.pool groups.old.items }
        ensures grown { IsGrown self.old self.new }
        ensures added { OnOk result (AddsEffects self.old.app.now (plain_entry self.old.pool before.now) (alternative_cases alternatives.now) self.old.pool groups.old.items self.new.pool groups.new.items) }
    {
        let app = self.app;
        let leaving = alternatives.effect.leaving;
        let Stay::At(target) = leaving.stay else {
            return Ok(());
        };
        let ends = passing_ends(
            alloc,
            before,
            &alternatives.conditions,
            target,
            &mut self.pool,
        )?;
        if ends.is_empty() {
            return Ok(());
        }
        let Some(after) = self.after(alloc, before, &alternatives.effect)? else {
            return Ok(());
        };
        let mut group = ExitGroup {
            decision: Some(Decision::Keep),
            status: leaving.status,
            entry: after,
            ends: Ends::With(ends),
        };
        let settling = Settling {
            app,
            pool: &self.pool,
            levels: &self.levels,
            stay: leaving.stay,
        };
        settling.settle_group(alloc, &mut group)?;
        groups.push(group)?;
        Ok(())
    }
}

// for each condition that some value passes an end with those that do
fn passing_ends(
    alloc: Global,
    before: &NumberedEntry,
    conditions: &Seq<Condition>,
    target: Point,
    pool: &mut Pool,
) -> Result<Seq<NumberEnd>, Memory>
    requires numbers { AreNumbersOf pool.old before.now }
    requires known { (y : Condition) → Contains conditions.now y → y.component.0 < length before.now.sets }
    ensures same { pool.new ≡ pool.old }
    ensures ends { IfOk result (ArePassingEnds pool.old before.now conditions.now target) }
{
    let mut ends = Vec::with_capacity(alloc, conditions.len())?;
    for condition in conditions.as_slice() {
        let component = condition.component.index();
        let numbers = pool.passing(alloc, component, &condition.test, before)?;
        if !numbers.is_empty() {
            ends.push(NumberEnd {
                component,
                numbers,
                target,
            })?;
        }
    }
    Ok(Seq::of(ends))
}
