//! Who has the processor after a decision comes in, where it names an INTERNAL resource.
ghost use Rattle.std.specs.Prelude.{◌≡◌, ◌<◌, ◌≤◌, length};
ghost use Rattle.flow_model.specs.Scheduling.{has_it_after as has_it_after_of, is_at_task as is_at_task_of};
ghost use Rattle.point_exits.specs.{Levels.{AreAllLevels}, OneProof.{AreAllLevels-prop}};

use crate::group::ExitGroup;
use crate::levels::Levels;
use abstract_state::Point;
use flow_model::{Decision, Runner, Stay};
use numbered_sets::Pool;
use osek_standard::App;
use osek_values::{Memory, TaskNo};
use std::alloc::Global;

/// What groups of exits are settled by: the values by number, and where the processor stays after the effect.
#[derive(Clone, Copy)]
pub struct Settling<'a> {
    pub app: &'a App,
    pub pool: &'a Pool,
    pub levels: &'a Levels,
    pub stay: Stay,
    ghost all: { AreAllLevels app.now pool.now levels.now } by { AreAllLevels-prop app.now pool.now levels.now },
    ghost tasks: { length app.now.tasks ≤ length pool.now },
}

/// Whether a task has the processor after a decision, where it else stays there.
pub fn has_it_after(app: &App, stay: Stay, decision: Decision, task: TaskNo) -> bool
    requires { task.0 < length app.now.tasks }
    ensures { result ≡ has_it_after_of app.now stay decision task.0 }
{
    match decision {
        Decision::To(None) => false,
        Decision::To(Some(winner)) => winner == task,
        Decision::Keep => match stay {
            Stay::At(point) => is_at_task(app, point, task),
            Stay::AtBlockOf(Runner::Task(owner)) => owner == task,
            Stay::AtBlockOf(Runner::Routine { .. }) => false,
        },
    }
}

// whether a point is at a block of a task
fn is_at_task(app: &App, point: Point, task: TaskNo) -> bool
    requires { task.0 < length app.now.tasks }
    ensures { result ≡ is_at_task_of app.now point task.0 }
{
    match point {
        Point::Task(block) => {
            let task = app.task(task);
            let first = task.first.index();
            first <= block.index() && block.index() < first + usize::from(task.count)
        }
        Point::Halted | Point::Idle | Point::Routine { .. } => false,
    }
}

impl<'a> Settling<'a> {
    ghost use Rattle.std.specs.Prelude.{ℕ, ◌≡◌, ◌<◌, ◌≤◌, true, false, length, slice_index_or, IfSome, IfNone, OnOk};
    ghost use Rattle.flow_model.specs.Scheduling.{goes_inside};
    ghost use Rattle.point_exits.specs.{declared.insides.Insides.{Insides}, Groups.{IsKnownGroup, AreKnownGroups}};
    ghost use Rattle.point_exits.specs.Settling.{IsSettledGroup, AreSettledFrom};

    /// Settles the groups from a place on.
    pub fn settle(
        &self,
        alloc: Global,
        from: usize,
        groups: &mut Vec<ExitGroup>,
    ) -> Result<(), Memory>
        requires { AreKnownGroups self.now.pool.now groups.old.items }
        ensures { OnOk result (AreSettledFrom self.now.app.now self.now.pool.now self.now.stay from groups.old.items groups.new.items) }
    {
        if self.levels.insides.is_empty() {
            return Ok(());
        }
        for place in from..groups.len() {
            self.settle_group(alloc, &mut groups[place])?;
        }
        Ok(())
    }

    /// Settles one group. One by which a routine begins stays as it is.
    pub fn settle_group(&self, alloc: Global, group: &mut ExitGroup) -> Result<(), Memory>
        requires { IsKnownGroup self.now.pool.now group.old }
        ensures { OnOk result (IsSettledGroup self.now.app.now self.now.pool.now self.now.stay group.old group.new) }
    {
        let Some(decision) = group.decision else {
            return Ok(());
        };
        match self.entering(decision) {
            None => Ok(()),
            Some(place) => self.levels.insides.at(place).settle(alloc, group),
        }
    }

    // the place of the task that comes in by a decision
    fn entering(&self, decision: Decision) -> Option<usize>
        ensures known { IfSome result (λ place. place < length self.now.levels.now.insides) }
        ensures goes { IfSome result (λ place. (d : Insides) → goes_inside self.now.app.now self.now.stay decision (slice_index_or self.now.levels.now.insides place d).task.0 ≡ true) }
        ensures none { IfNone result ((c : ℕ) → goes_inside self.now.app.now self.now.stay decision c ≡ false) }
    {
        for place in 0..self.levels.insides.len() {
            let task = self.levels.insides.at(place).task;
            if has_it_after(self.app, self.stay, decision, task) {
                return Some(place);
            }
        }
        None
    }
}
