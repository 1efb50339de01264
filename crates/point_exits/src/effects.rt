//! What an effect makes of the values before it, and the exits that it has then.

use crate::after_effect::AfterEffect;
use crate::changes::{NumberedValues, applied};
use crate::group::ExitGroup;
use crate::numbering::Numbering;
use crate::settled::Settling;
use abstract_state::{PartValue, Point, SourceVal};
use flow_effects::Effects;
use flow_model::{EffectCase, Test};
use numbered_sets::NumberedEntry;
use osek_standard::Kind;
use osek_values::{Memory, Seq};
use std::alloc::Global;

impl<'a> Numbering<'a> {
    ghost use Rattle.std.specs.Prelude.{◌∷◌, [], IfOk, OnOk, IfSome, IfNone};
    ghost use Rattle.flow_model.specs.Rules.{HasNone};
    ghost use Rattle.numbered_sets.specs.Views.{plain_entry};
    ghost use Rattle.flow_effects.specs.{Outs.{AreOutIn}, Alternatives.{all_cases}};
    ghost use Rattle.flow_exits.specs.Leaving.{effect_rule};
    ghost use Rattle.point_exits.specs.{Alternatives.{MayTakeAll}, Applying.{MayApply}, Groups.{AreKnownGroups}, Growing.{IsGrown}};
    ghost use Rattle.point_exits.specs.{Leaving.{MayTakeEffect, IsAfter, AddsEffects, AddsInstructions}, PointNumbers.{AreNumbersAt}};

    /// Adds the exits of the instruction of a task's or a routine's point.
    pub fn push_instructions(
        &mut self,
        alloc: Global,
        point: Point,
        before: &NumberedEntry,
        groups: &mut Vec<ExitGroup>,
    ) -> Result<(), Memory>
        requires at { AreNumbersAt self.old.app.now point self.old.pool before.now }
        requires known { AreKnownGroups self.old.pool groups.old.items }
        ensures grown { IsGrown self.old self.new }
        ensures added { OnOk result (AddsInstructions self.old.app.now point (plain_entry self.old.pool before.now) self.old.pool groups.old.items self.new.pool groups.new.items) }
    {
        let outs = self.sources_out(alloc, point, before)?;
        let app = self.app;
        let mut effects = self.waits.effects_at(alloc, app, point, outs.as_slice())?;
        self.push_effects(alloc, before, &effects, groups)?;
        self.waits.keep(alloc, &mut effects)?;
        Ok(())
    }

    // adds the exits of effects, of those that differ in one condition alone together
    fn push_effects(
        &mut self,
        alloc: Global,
        before: &NumberedEntry,
        effects: &Effects,
        groups: &mut Vec<ExitGroup>,
    ) -> Result<(), Memory>
        requires effects { MayTakeAll self.old.app.now effects.now self.old.pool before.now }
        requires known { AreKnownGroups self.old.pool groups.old.items }
        ensures grown { IsGrown self.old self.new }
        ensures added { OnOk result (AddsEffects self.old.app.now (plain_entry self.old.pool before.now) (all_cases effects.now) self.old.pool groups.old.items self.new.pool groups.new.items) }
    {
        for effect in effects.cases.as_slice() {
            self.push_effect(alloc, before, effect, groups)?;
        }
        match &effects.alternatives {
            None => Ok(()),
            Some(alternatives) => self.push_alternatives(alloc, before, alternatives, groups),
        }
    }

    /// Adds the exits of an effect, if it takes a value of each component.
    pub fn push_effect(
        &mut self,
        alloc: Global,
        before: &NumberedEntry,
        effect: &EffectCase,
        groups: &mut Vec<ExitGroup>,
    ) -> Result<(), Memory>
        requires effect { MayTakeEffect self.old.app.now effect.now self.old.pool before.now }
        requires known { AreKnownGroups self.old.pool groups.old.items }
        ensures grown { IsGrown self.old self.new }
        ensures added { OnOk result (AddsEffects self.old.app.now (plain_entry self.old.pool before.now) (effect.now ∷ []) self.old.pool groups.old.items self.new.pool groups.new.items) }
    {
        let app = self.app;
        let Some(after) = self.after(alloc, before, effect)? else {
            return Ok(());
        };
        let from = groups.len();
        let values = AfterEffect {
            app,
            pool: &self.pool,
            levels: &self.levels,
            leaving: effect.leaving,
            after,
        };
        values.push_decided(alloc, groups)?;
        let settling = Settling {
            app,
            pool: &self.pool,
            levels: &self.levels,
            stay: effect.leaving.stay,
        };
        settling.settle(alloc, from, groups)
    }

    /// What an effect makes of the values that it takes, judged with all values inside.
    pub fn after(
        &mut self,
        alloc: Global,
        before: &NumberedEntry,
        effect: &EffectCase,
    ) -> Result<Option<NumberedEntry>, Memory>
        requires { MayApply (effect_rule effect.now) self.old.pool before.now }
        ensures grown { IsGrown self.old self.new }
        ensures some { IfOk result (λ after. IfSome after (IsAfter self.old.app.now effect.now before.now self.old.pool self.new.pool self.new.levels)) }
        ensures none { IfOk result (λ after. IfNone after (HasNone (effect_rule effect.now) (plain_entry self.old.pool before.now))) }
    {
        let Some(after) = applied(
            alloc,
            &effect.conditions,
            &effect.changes,
            &mut self.pool,
            before,
        )?
        else {
            return Ok(None);
        };
        self.judge(alloc)?;
        Ok(Some(after))
    }

    /// The sources that are known to be out where a routine ends. Elsewhere no effect asks for them.
    pub fn sources_out(
        &self,
        alloc: Global,
        point: Point,
        before: &NumberedEntry,
    ) -> Result<Seq<bool>, Memory>
        requires { AreNumbersAt self.now.app.now point self.now.pool before.now }
        ensures { IfOk result (λ outs. AreOutIn self.now.app.now outs (plain_entry self.now.pool before.now)) }
    {
        let Point::Routine { block, .. } = point else {
            return Ok(Seq::new(alloc));
        };
        if !matches!(self.app.block(block).kind, Kind::IsrEnd) {
            return Ok(Seq::new(alloc));
        }
        let count = self.app.counters.len() + self.app.isrs.len();
        // the sources come last
        let first = before.sets.len() - count;
        let values = NumberedValues {
            pool: &self.pool,
            entry: before,
        };
        let mut outs = Seq::of(Vec::with_capacity(alloc, count)?);
        for source in 0..count {
            let is_in = Test::IsNot(PartValue::OfSource(SourceVal::Out));
            let may_be_in = values.may_pass_alone(&is_in, first + source);
            outs.push(!may_be_in)?;
        }
        Ok(outs)
    }
}
