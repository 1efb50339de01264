//! The values of an application's components by number, and what the scheduler reads of them.
ghost use Rattle.std.specs.Prelude.{◌≡◌};
ghost use Rattle.abstract_state.specs.Domains.{domains_of};
ghost use Rattle.numbered_sets.specs.Pools.{pool_domains};
ghost use Rattle.flow_effects.specs.KnownWaits.{AreKnownWaits};
ghost use Rattle.point_exits.specs.{Levels.{AreLevels}, OneProof.{SameDomains-prop, AreLevels-prop, AreKnownWaits-prop}};

use crate::arrivals::Arrivals;
use crate::levels::{Levels, no_insides};
use crate::task_levels::TaskLevels;
use flow_effects::KnownWaits;
use numbered_sets::Pool;
use osek_standard::App;
use osek_values::{Memory, Seq};
use std::alloc::Global;

/// The values that the components of an application were seen with, by number, and their levels. Both grow as values come in,
/// also where memory is wanted. Kept with them are the conditions of WaitEvents.
#[derive(Drop)]
pub struct Numbering<'a> {
    pub app: &'a App,
    pub pool: Pool,
    pub levels: Levels,
    pub waits: KnownWaits,
    pub ghost domains: { pool_domains pool ≡ domains_of app.now } by { SameDomains-prop (pool_domains pool) (domains_of app.now) },
    pub ghost known: { AreLevels app.now pool levels } by { AreLevels-prop app.now pool levels },
    pub ghost conditions: { AreKnownWaits app.now waits.known } by { AreKnownWaits-prop app.now waits.known },
}

impl<'a> Numbering<'a> {
    ghost use Rattle.std.specs.Prelude.{◌≡◌, IfOk, OnOk};
    ghost use Rattle.abstract_state.specs.Domains.{domains_of};
    ghost use Rattle.numbered_sets.specs.Pools.{pool_domains};
    ghost use Rattle.point_exits.specs.{Growing.{IsGrown}, Levels.{AreAllLevels}};

    /// The numbering of these values. None was judged yet, and no rule is kept.
    pub fn new(alloc: Global, app: &'a App, pool: Pool) -> Result<Numbering<'a>, Memory>
        requires { pool_domains pool ≡ domains_of app.now }
        ensures app { IfOk result (λ numbering. numbering.app.now ≡ app.now) }
        ensures pool { IfOk result (λ numbering. numbering.pool ≡ pool) }
    {
        let mut tasks = Seq::new(alloc);
        for task in 0..app.tasks.len() {
            tasks.push(TaskLevels::new(alloc, pool.domain(task)))?;
        }
        let insides = no_insides(alloc, app)?;
        let known = Seq::new(alloc);
        let levels = Levels {
            tasks,
            insides,
            arrivals: Arrivals { known },
        };
        let waits = KnownWaits::new(alloc);
        Ok(Numbering {
            app,
            pool,
            levels,
            waits,
        })
    }

    /// Judges the values that came in since the last time. Of a task that names an INTERNAL resource the same values inside
    /// come in too. Where memory is wanted some may be missing.
    pub fn judge(&mut self, alloc: Global) -> Result<(), Memory>
        ensures grown { IsGrown self.old self.new }
        ensures all { OnOk result (AreAllLevels self.old.app.now self.new.pool self.new.levels) }
    {
        let app = self.app;
        self.levels.bring_in(app, &mut self.pool)?;
        self.levels.judge(alloc, app, &self.pool)
    }
}
