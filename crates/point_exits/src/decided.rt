//! What was decided with some of the values after an effect, and where the processor stands then.
ghost use Rattle.point_exits.specs.{Deciding.{IsDecided}, OneProof.{IsDecided-prop}};

use crate::group::{Ends, ExitGroup, at, at_blocks, at_task_blocks};
use crate::levels::Levels;
use abstract_state::Point;
use flow_model::{Decision, Leaving, Runner, Stay};
use numbered_sets::{NumberedEntry, Pool};
use osek_standard::App;
use osek_values::Memory;
use std::alloc::Global;

/// A decision of the scheduler after an effect, with the values, by number, that are left by it.
#[derive(Drop)]
pub struct Decided<'a> {
    pub app: &'a App,
    pub pool: &'a Pool,
    pub levels: &'a Levels,
    pub leaving: Leaving,
    pub decision: Decision,
    pub left: NumberedEntry,
    ghost decided: { IsDecided app.now pool.now levels.now leaving decision left } by { IsDecided-prop app.now pool.now levels.now leaving decision left },
}

impl<'a> Decided<'a> {
    ghost use Rattle.std.specs.Prelude.{IfOk, OnOk};
    ghost use Rattle.point_exits.specs.Deciding.{AreEndsBy, AddsOne};

    /// Adds the exits by which it is decided so.
    pub fn push(self, alloc: Global, groups: &mut Vec<ExitGroup>) -> Result<(), Memory>
        ensures { OnOk result (AddsOne self.entry.pool.now self.entry.leaving self.entry.decision self.entry.left groups.old.items groups.new.items) }
    {
        let ends = self.ends(alloc)?;
        groups.push(ExitGroup {
            decision: Some(self.decision),
            status: self.leaving.status,
            entry: self.left,
            ends,
        })?;
        Ok(())
    }

    // where the processor stands after it
    fn ends(&self, alloc: Global) -> Result<Ends, Memory>
        ensures { IfOk result (AreEndsBy self.now.pool.now self.now.left self.now.leaving.stay self.now.decision) }
    {
        match self.decision {
            Decision::Keep => match self.leaving.stay {
                Stay::At(point) => at(alloc, point),
                Stay::AtBlockOf(Runner::Task(task)) => at_task_blocks(
                    alloc,
                    self.pool,
                    task,
                    &self.levels.of(task).blocks,
                    &self.left,
                ),
                Stay::AtBlockOf(runner) => at_blocks(alloc, self.pool, runner, &self.left),
            },
            Decision::To(None) => at(alloc, Point::Idle),
            Decision::To(Some(task)) => at_task_blocks(
                alloc,
                self.pool,
                task,
                &self.levels.of(task).blocks,
                &self.left,
            ),
        }
    }
}
