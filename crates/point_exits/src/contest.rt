//! Who keeps the processor or gets it after an effect, and what is left of the values then.
ghost use Rattle.std.specs.{Prelude.{◌≡◌, ◌<◌, ◌≤◌, not, length}, Bool.{OnTrue, OnFalse}};
ghost use Rattle.flow_exits.specs.{Outcomes.{idle_decision as idle_decision_of}, Needs.{is_too_low, IsTooLow}};
ghost use Rattle.point_exits.specs.{AfterEffect.{AreNeedsOf, AreNeedsOf-prop, IsAskedOf, IsAskedOf-prop}, Deciding.{IsLevelOf, over_of}};
ghost use Rattle.point_exits.specs.{Narrowing.{AreMet}, OneProof.{IsLevelOf-prop}};

use crate::after_effect::AfterEffect;
use crate::decided::Decided;
use crate::group::ExitGroup;
use crate::task_levels::Level;
use flow_exits::{Claim, is_running, may_tie};
use flow_model::{Asked, Decision};
use numbered_sets::NumberedEntry;
use osek_values::{Memory, Seq, TaskNo};
use std::alloc::Global;

/// The tasks that contend for the processor after an effect: for each the least limit under which it is with some value.
#[derive(Drop)]
pub struct Contest<'a> {
    pub values: &'a AfterEffect<'a>,
    pub needs: Seq<u64>,
    ghost needed: { AreNeedsOf values.now needs } by { AreNeedsOf-prop values.now needs },
    ghost asked: { IsAskedOf values.now } by { IsAskedOf-prop values.now },
}

/// A task that contends at one of its current priorities.
#[derive(Clone, Copy)]
struct Contender<'a> {
    contest: &'a Contest<'a>,
    task: TaskNo,
    level: &'a Level,
    ghost known: { task.0 < length contest.now.values.now.app.now.tasks },
    ghost has_level: { IsLevelOf contest.now.values.now.levels.now task.0 level.now } by { IsLevelOf-prop contest.now.values.now.levels.now task.0 level.now },
}

impl<'a> Contest<'a> {
    ghost use Rattle.std.specs.Prelude.{◌≡◌, ◌<◌, ◌+◌, length, IfOk, OnOk, IfSome, IfNone, Some};
    ghost use Rattle.flow_model.specs.declared.case.Asked.TheVariants as asked;
    ghost use Rattle.flow_model.specs.declared.case.Decision.TheVariants as decision;
    ghost use Rattle.numbered_sets.specs.NumberedEntries.{AreFilled};
    ghost use Rattle.flow_exits.specs.{Outcomes.{IsVacant, idle_decision as idle_decision_of}};
    ghost use Rattle.point_exits.specs.{Deciding.{IsIt, IsWinnerBelow}, AfterEffect.{Adds, IsLeftBy}, Narrowing.{NeverUnder}};

    /// Adds the exits by which no task is Live.
    pub fn push_nobody(&self, alloc: Global, groups: &mut Vec<ExitGroup>) -> Result<(), Memory>
        requires { IsVacant self.now.values.now.leaving.asked }
        ensures { OnOk result (Adds self.now.values.now (IsIt (idle_decision_of self.now.values.now.leaving.asked))
            groups.old.items groups.new.items) }
    {
        let Some(entry) = self.left_by(alloc, Claim::Nobody)? else {
            return Ok(());
        };
        let values = self.values;
        let decided = Decided {
            app: values.app,
            pool: values.pool,
            levels: values.levels,
            leaving: values.leaving,
            decision: idle_decision(values.leaving.asked),
            left: entry,
        };
        decided.push(alloc, groups)?;
        Ok(())
    }

    // The entry with those values of the tasks alone with which each is under its limit; none where some task has no such value.
    fn left_by(&self, alloc: Global, claim: Claim) -> Result<Option<NumberedEntry>, Memory>
        ensures left { IfOk result (λ left. IfSome left (IsLeftBy self.now.values.now claim (length self.now.values.now.app.now.tasks))) }
        ensures filled { IfOk result (λ left. IfSome left AreFilled) }
        ensures none { IfOk result (λ left. IfNone left (NeverUnder self.now.values.now.app.now claim self.now.values.now.pool.now self.now.values.now.after)) }
    {
        if !are_met(self.needs.as_slice(), claim) {
            return Ok(None);
        }
        let mut left = self.values.after.copy(alloc)?;
        for task in 0..self.values.app.tasks.len() {
            self.keep_under(claim, TaskNo(task as u8), &mut left)?;
        }
        Ok(Some(left))
    }

    // leaves the values of a task alone with which it is under its limit
    fn keep_under(
        &self,
        claim: Claim,
        task: TaskNo,
        entry: &mut NumberedEntry,
    ) -> Result<(), Memory>
        requires known { task.0 < length self.now.values.now.app.now.tasks }
        requires left { IsLeftBy self.now.values.now claim task.0 entry.old }
        ensures { OnOk result (IsLeftBy self.now.values.now claim (task.0 + 1) entry.new) }
    {
        let Some(limit) = claim.limit(task) else {
            return Ok(());
        };
        self.values.levels.of(task).keep_below(task, limit, entry)?;
        Ok(())
    }

    /// Adds the exits by which a task other than the one that runs gets the processor.
    pub fn push_winners(&self, alloc: Global, groups: &mut Vec<ExitGroup>) -> Result<(), Memory>
        ensures { OnOk result (Adds self.now.values.now (IsWinnerBelow (length self.now.values.now.app.now.tasks)) groups.old.items groups.new.items) }
    {
        for task in 0..self.values.app.tasks.len() {
            self.push_winner(alloc, TaskNo(task as u8), groups)?;
        }
        Ok(())
    }

    // this task gets it, at each of its current priorities, if it isn't the one that runs
    fn push_winner(
        &self,
        alloc: Global,
        task: TaskNo,
        groups: &mut Vec<ExitGroup>,
    ) -> Result<(), Memory>
        requires { task.0 < length self.now.values.now.app.now.tasks }
        ensures { OnOk result (Adds self.now.values.now (IsIt (decision.To (Some task))) groups.old.items groups.new.items) }
    {
        if is_running(over(self.values.leaving.asked), task) {
            return Ok(());
        }
        for level in self.values.levels.of(task).levels.as_slice() {
            let contender = Contender {
                contest: &*self,
                task,
                level,
            };
            contender.push_winner(alloc, groups)?;
        }
        Ok(())
    }

    /// Adds the exits by which the running task keeps the processor, at each of its current priorities.
    pub fn push_keepers(
        &self,
        alloc: Global,
        task: TaskNo,
        groups: &mut Vec<ExitGroup>,
    ) -> Result<(), Memory>
        requires { self.now.values.now.leaving.asked ≡ asked.Maybe task }
        ensures { OnOk result (Adds self.now.values.now (IsIt decision.Keep) groups.old.items groups.new.items) }
    {
        for level in self.values.levels.of(task).levels.as_slice() {
            let contender = Contender {
                contest: &*self,
                task,
                level,
            };
            contender.push_keeper(alloc, groups)?;
        }
        Ok(())
    }
}

impl<'a> Contender<'a> {
    ghost use Rattle.std.specs.Prelude.{◌≡◌, IfOk, OnOk, IfSome, IfNone, None, false, Some};
    ghost use Rattle.osek_standard.specs.States.{is_that_task};
    ghost use Rattle.flow_model.specs.declared.case.Asked.TheVariants as asked;
    ghost use Rattle.flow_model.specs.declared.case.Decision.TheVariants as decision;
    ghost use Rattle.flow_exits.specs.Claims.{limit_of};
    ghost use Rattle.point_exits.specs.{Deciding.{over_of}, AfterEffect.{AddsAt, IsCutOf, NeverOf}};

    // adds the exits by which it gets the processor
    fn push_winner(&self, alloc: Global, groups: &mut Vec<ExitGroup>) -> Result<(), Memory>
        requires { is_that_task (over_of self.now.contest.now.values.now.leaving.asked) self.now.task.0 ≡ false }
        ensures { OnOk result (AddsAt self.now.contest.now.values.now self.now.task.0 self.now.level.now (decision.To (Some self.now.task))
            groups.old.items groups.new.items) }
    {
        let values = self.contest.values;
        let claim = Claim::Gets {
            task: self.task,
            priority: self.level.priority,
            over: over(values.leaving.asked),
            may_tie: may_tie(values.leaving.last, self.task),
        };
        let Some(entry) = self.left_by(alloc, claim)? else {
            return Ok(());
        };
        let decided = Decided {
            app: values.app,
            pool: values.pool,
            levels: values.levels,
            leaving: values.leaving,
            decision: Decision::To(Some(self.task)),
            left: entry,
        };
        decided.push(alloc, groups)?;
        Ok(())
    }

    // adds the exits by which it keeps the processor
    fn push_keeper(&self, alloc: Global, groups: &mut Vec<ExitGroup>) -> Result<(), Memory>
        requires { self.now.contest.now.values.now.leaving.asked ≡ asked.Maybe self.now.task }
        ensures { OnOk result (AddsAt self.now.contest.now.values.now self.now.task.0 self.now.level.now decision.Keep groups.old.items groups.new.items) }
    {
        let claim = Claim::Keeps {
            task: self.task,
            priority: self.level.priority,
        };
        let Some(entry) = self.left_by(alloc, claim)? else {
            return Ok(());
        };
        let values = self.contest.values;
        let decided = Decided {
            app: values.app,
            pool: values.pool,
            levels: values.levels,
            leaving: values.leaving,
            decision: Decision::Keep,
            left: entry,
        };
        decided.push(alloc, groups)?;
        Ok(())
    }

    // What is left by its claim, with the numbers of its level alone; none where that is nothing.
    fn left_by(&self, alloc: Global, claim: Claim) -> Result<Option<NumberedEntry>, Memory>
        requires { limit_of claim self.now.task.0 ≡ None }
        ensures some { IfOk result (λ left. IfSome left (IsCutOf self.now.contest.now.values.now claim self.now.task.0 self.now.level.now)) }
        ensures none { IfOk result (λ left. IfNone left (NeverOf self.now.contest.now.values.now claim self.now.task.0 self.now.level.now)) }
    {
        let component = self.task.index();
        if !self
            .contest
            .values
            .after
            .meets(component, &self.level.numbers)
        {
            return Ok(None);
        }
        let Some(mut left) = self.contest.left_by(alloc, claim)? else {
            return Ok(None);
        };
        left.keep(component, &self.level.numbers)?;
        Ok(Some(left))
    }
}

// what is decided where no task is Live
fn idle_decision(asked: Asked) -> Decision
    ensures { result ≡ idle_decision_of asked }
{
    match asked {
        Asked::Left => Decision::To(None),
        Asked::No | Asked::Maybe(_) | Asked::Free => Decision::Keep,
    }
}

// whether each task is under its limit with some value
fn are_met(needs: &[u64], claim: Claim) -> bool
    requires { length needs.now ≤ 256 }
    ensures met { OnTrue result (AreMet claim needs.now) }
    ensures low { OnFalse result (IsTooLow claim needs.now) }
{
    for task in 0..needs.len() {
        if !is_met(claim.limit(TaskNo(task as u8)), needs[task]) {
            return false;
        }
    }
    true
}

fn is_met(limit: Option<u64>, need: u64) -> bool
    ensures { result ≡ not (is_too_low limit need) }
{
    match limit {
        None => true,
        Some(limit) => need <= limit,
    }
}

// the task that runs where this is asked
fn over(asked: Asked) -> Option<TaskNo>
    ensures { result ≡ over_of asked }
{
    match asked {
        Asked::Maybe(task) => Some(task),
        Asked::No | Asked::Left | Asked::Free => None,
    }
}
