//! The conditions of WaitEvents, kept by the task and the events that it waits for.

use crate::effects::Effects;
use crate::instruction::effect_cases;
use crate::waiting::{Wait, WaitConditions};
use abstract_state::{Point, masks_are_few};
use osek_standard::App;
use osek_values::{Mask, Memory, Seq, TaskNo};
use std::alloc::Global;
use std::mem;

// so many tasks and masks are kept at most
const MOST: usize = 16;

/// The conditions of the WaitEvents of a task with a mask. While effects have them they aren't here.
#[derive(Drop)]
pub struct KnownWait {
    pub task: TaskNo,
    pub mask: Mask,
    pub conditions: Option<WaitConditions>,
}

/// What was made of WaitEvents so far. Where memory is wanted some of it may be lost, and is made anew.
#[derive(Drop)]
pub struct KnownWaits {
    pub known: Seq<KnownWait>,
}

impl KnownWaits {
    ghost use Rattle.std.specs.Prelude.{◌≡◌, ◌<◌, length, IfOk, IfSome};
    ghost use Rattle.osek_standard.specs.{declared.app.App.{App}, Points.{IsPoint}};
    ghost use Rattle.abstract_state.specs.{declared.table.PlainEntry.{PlainEntry}, Domains.{domains, domains_of}};
    ghost use Rattle.flow_model.specs.Effects.{AreAllAllowed, CoverEffects, AreExactEffects, HaveKnownStays};
    ghost use Rattle.flow_effects.specs.{Outs.{AreOutIn}, Alternatives.{all_cases, AreApart, wait_conditions, wait_effects}};
    ghost use Rattle.flow_effects.specs.KnownWaits.{AreKnownWaits, IsPlaceOf, AreOfTheirWait, HaveWaitingCase};

    /// Nothing is known.
    pub fn new(alloc: Global) -> KnownWaits
        ensures { (app : App) → AreKnownWaits app result.known }
    {
        KnownWaits {
            known: Seq::new(alloc),
        }
    }

    /// The cases of the effect of the instruction at a point, as `effect_cases` says. What a WaitEvent of many events takes and
    /// makes where it goes on is so looked at once. After use they are to be kept.
    pub fn effects_at(
        &mut self,
        alloc: Global,
        app: &App,
        point: Point,
        outs: &[bool],
    ) -> Result<Effects, Memory>
        requires point { IsPoint app.now point }
        requires known { AreKnownWaits app.now self.old.known }
        ensures known { AreKnownWaits app.now self.new.known }
        ensures covering { IfOk result (λ x. (entry : PlainEntry) → domains entry ≡ domains_of app.now → AreOutIn app.now outs.now entry → CoverEffects app.now point entry (all_cases x)) }
        ensures exact { IfOk result (λ x. (entry : PlainEntry) → domains entry ≡ domains_of app.now → AreAllAllowed app.now point entry → AreExactEffects app.now point entry (all_cases x)) }
        ensures stays { IfOk result (λ x. HaveKnownStays app.now (all_cases x)) }
        ensures apart { IfOk result (λ x. IfSome x.alternatives (AreApart app.now)) }
        ensures wait { IfOk result (AreOfTheirWait app.now) }
    {
        match Wait::at(app, point) {
            Some(wait) => {
                masks_are_few(app);
                self.of_wait(alloc, app, wait)
            }
            None => {
                let cases = effect_cases(alloc, app, point, outs)?;
                Ok(Effects {
                    cases,
                    alternatives: None,
                    wait: None,
                })
            }
        }
    }

    /// Keeps the conditions of effects, which then are without them, if they are those of a WaitEvent.
    pub fn keep(&mut self, alloc: Global, effects: &mut Effects) -> Result<(), Memory>
        requires { HaveWaitingCase effects.old }
        ensures { (app : App) → AreKnownWaits app self.old.known → AreOfTheirWait app effects.old → AreKnownWaits app self.new.known }
    {
        let Some(wait) = effects.wait else {
            return Ok(());
        };
        let Some(alternatives) = effects.alternatives.take() else {
            return Ok(());
        };
        let case = effects.cases.at_mut(1);
        let waits = mem::replace(&mut case.conditions, Seq::new(alloc));
        let conditions = WaitConditions {
            waits,
            goes_on: alternatives.conditions,
        };
        self.put(wait, conditions)
    }

    // the effects of a WaitEvent, by the conditions that are known
    fn of_wait(&mut self, alloc: Global, app: &App, wait: Wait) -> Result<Effects, Memory>
        requires task { wait.task.0 < length app.now.tasks }
        requires known { AreKnownWaits app.now self.old.known }
        ensures known { AreKnownWaits app.now self.new.known }
        ensures effects { IfOk result (λ x. x ≡ wait_effects app.now wait) }
    {
        match self.take(wait) {
            Some(conditions) => wait.effects(alloc, conditions),
            None => {
                let conditions = WaitConditions::new(alloc, app, wait.task, wait.mask)?;
                wait.effects(alloc, conditions)
            }
        }
    }

    // takes out the conditions of a WaitEvent, if they are here
    fn take(&mut self, wait: Wait) -> Option<WaitConditions>
        ensures known { (app : App) → AreKnownWaits app self.old.known → AreKnownWaits app self.new.known }
        ensures conditions { (app : App) → AreKnownWaits app self.old.known → IfSome result (λ x. x ≡ wait_conditions app wait.task wait.mask) }
    {
        match self.place_of(wait) {
            Some(place) => self.known.at_mut(place).conditions.take(),
            None => None,
        }
    }

    // puts in the conditions of a WaitEvent, if there is room
    fn put(&mut self, wait: Wait, conditions: WaitConditions) -> Result<(), Memory>
        ensures { (app : App) → AreKnownWaits app self.old.known → conditions ≡ wait_conditions app wait.task wait.mask → AreKnownWaits app self.new.known }
    {
        let known = KnownWait {
            task: wait.task,
            mask: wait.mask,
            conditions: Some(conditions),
        };
        match self.place_of(wait) {
            Some(place) => {
                self.known.put(place, known);
                Ok(())
            }
            None if self.known.len() < MOST => self.known.push(known),
            None => Ok(()),
        }
    }

    // the place of the task and the mask of a WaitEvent
    fn place_of(&self, wait: Wait) -> Option<usize>
        ensures { IfSome result (IsPlaceOf wait self.now.known) }
    {
        for place in 0..self.known.len() {
            let known = self.known.at(place);
            if known.task == wait.task && known.mask == wait.mask {
                return Some(place);
            }
        }
        None
    }
}
