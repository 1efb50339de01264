//! What the scheduler decides with the values after an effect.
ghost use Rattle.std.specs.Prelude.{◌≡◌};
ghost use Rattle.point_exits.specs.{Deciding.{IsDecidable}, OneProof.{IsDecidable-prop}};

use crate::contest::Contest;
use crate::decided::Decided;
use crate::group::ExitGroup;
use crate::levels::Levels;
use flow_model::{Asked, Decision, Leaving};
use numbered_sets::{NumberedEntry, Pool};
use osek_standard::App;
use osek_values::{Memory, Seq, TaskNo};
use std::alloc::Global;

/// The values after an effect, by number, what they are to the scheduler, and what the effect leaves to it.
#[derive(Drop)]
pub struct AfterEffect<'a> {
    pub app: &'a App,
    pub pool: &'a Pool,
    pub levels: &'a Levels,
    pub leaving: Leaving,
    pub after: NumberedEntry,
    pub ghost decidable: { IsDecidable app.now pool.now levels.now leaving after } by { IsDecidable-prop app.now pool.now levels.now leaving after },
}

impl<'a> AfterEffect<'a> {
    ghost use Rattle.std.specs.Prelude.{◌≡◌, IfOk, OnOk};
    ghost use Rattle.flow_model.specs.declared.case.Asked.TheVariants as asked;
    ghost use Rattle.flow_exits.specs.Outcomes.{IsVacant};
    ghost use Rattle.point_exits.specs.{Deciding.{IsAny}, AfterEffect.{Adds, AreNeedsOf}};

    /// Adds the exits that come of what the scheduler decides with these values.
    pub fn push_decided(self, alloc: Global, groups: &mut Vec<ExitGroup>) -> Result<(), Memory>
        ensures { OnOk result (Adds self.entry IsAny groups.old.items groups.new.items) }
    {
        match self.leaving.asked {
            Asked::No => self.push_unasked(alloc, groups),
            Asked::Maybe(task) => self.push_over(alloc, task, groups),
            Asked::Left | Asked::Free => self.push_vacant(alloc, groups),
        }
    }

    // the scheduler decides nothing
    fn push_unasked(self, alloc: Global, groups: &mut Vec<ExitGroup>) -> Result<(), Memory>
        requires { self.leaving.asked ≡ asked.No }
        ensures { OnOk result (Adds self.entry IsAny groups.old.items groups.new.items) }
    {
        let decided = Decided {
            app: self.app,
            pool: self.pool,
            levels: self.levels,
            leaving: self.leaving,
            decision: Decision::Keep,
            left: self.after,
        };
        decided.push(alloc, groups)?;
        Ok(())
    }

    // a task runs, which is Live
    fn push_over(
        self,
        alloc: Global,
        task: TaskNo,
        groups: &mut Vec<ExitGroup>,
    ) -> Result<(), Memory>
        requires { self.leaving.asked ≡ asked.Maybe task }
        ensures { OnOk result (Adds self.entry IsAny groups.old.items groups.new.items) }
    {
        if task.index() >= self.app.tasks.len() {
            return Ok(());
        }
        let mut live = self.after;
        self.levels.of(task).keep_live(task, &mut live)?;
        if !live.is_filled() {
            return Ok(());
        }
        let running = AfterEffect {
            app: self.app,
            pool: self.pool,
            levels: self.levels,
            leaving: self.leaving,
            after: live,
        };
        let needs = running.needs(alloc)?;
        let contest = Contest {
            values: &running,
            needs,
        };
        contest.push_keepers(alloc, task, groups)?;
        contest.push_winners(alloc, groups)?;
        Ok(())
    }

    // nobody has the processor
    fn push_vacant(&self, alloc: Global, groups: &mut Vec<ExitGroup>) -> Result<(), Memory>
        requires { IsVacant self.now.leaving.asked }
        ensures { OnOk result (Adds self.now IsAny groups.old.items groups.new.items) }
    {
        let needs = self.needs(alloc)?;
        let contest = Contest {
            values: self,
            needs,
        };
        contest.push_nobody(alloc, groups)?;
        contest.push_winners(alloc, groups)?;
        Ok(())
    }

    // for each task the least limit under which it is with some value of the entry
    fn needs(&self, alloc: Global) -> Result<Seq<u64>, Memory>
        ensures { IfOk result (AreNeedsOf self.now) }
    {
        let mut needs = Seq::of(Vec::with_capacity(alloc, self.app.tasks.len())?);
        for task in 0..self.app.tasks.len() {
            let task = TaskNo(task as u8);
            needs.push(self.levels.of(task).need(task, &self.after))?;
        }
        Ok(needs)
    }
}
