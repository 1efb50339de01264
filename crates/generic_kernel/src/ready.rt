//! The tasks that are ready or running, kept from step to step, and the best of them.
ghost use Rattle.std.specs.Prelude.{◌≡◌, ◌↔◌, Some, ◌≢◌, ◌+◌, ◌<◌, ◌≤◌, length, nat_lt, ℕ, None, IfSome, IfNone, IsTrue, ◌||◌, true, false, slice_index_or};
ghost use Rattle.std.specs.List.{count_by};
ghost use Rattle.osek_standard.specs.{declared.{app.App.{App}, state.State.{State}}, TaskStates.{is_live}, States.{is_that_task, task_state}, Priority.{best}};
ghost use Rattle.osek_values.specs.Line.{place_in_line};
ghost use Rattle.osek_standard.specs.{Line.{turn}, Well.{Well, HasProcessor}};
ghost use Rattle.generic_kernel.specs.{BestBelow.{IsBestBelow, IsHighestBelow, some_of}, Changes.{ChangesOnly}, Levels.{IsReady, count_of, level as level_of, priority_in}};

use ceiling_rules::current_priority;
use osek_standard::{App, State};
use osek_values::limits::MAX_TASKS;
use osek_values::{Steps, TaskNo};
use std::marker::Model;
use std::sync::ledger::Ledger;

/// The Live tasks of a state with their current priorities. It takes no memory.
#[derive(Drop)]
pub struct Ready {
    /// Of each task its current priority, where it is Live.
    levels: [Option<u32>; MAX_TASKS],
}

impl Model for Ready {
    ghost use Rattle.std.specs.{Prelude.{List, ℕ}, declared.option.Option.{Option}};

    ghost Value = { List (Option ℕ) };

    ghost view = { λ r. r.levels };
}

/// The current priority of a task, where it is Live.
fn level(app: &App, state: &State, task: TaskNo) -> Option<u32>
    requires known { task.0 < length app.now.tasks }
    requires well { Well app.now state.now }
    ensures { result ≡ level_of app.now state.now task.0 }
{
    if state.task(task).is_live() {
        Some(current_priority(app, state, task))
    } else {
        None
    }
}

/// The priority of a level.
fn priority(level: Option<u32>) -> u32
    ensures { result ≡ priority_in level }
{
    match level {
        None => 0,
        Some(priority) => priority,
    }
}

/// A Live task of the highest current priority, of several the first by number, and whether there are several.
#[derive(Clone, Copy)]
struct Highest {
    task: TaskNo,
    priority: u32,
    ties: bool,
}

impl Ready {
    /// Those of a state.
    pub fn of(app: &App, state: &State) -> Ready
        requires { Well app.now state.now }
        ensures { IsReady app.now state.now result }
    {
        let mut ready = Ready {
            levels: [None; MAX_TASKS],
        };
        for task in 0..app.tasks.len() {
            ready.refresh(app, state, TaskNo(task as u8));
        }
        ready
    }

    /// Takes in what became of a task.
    pub fn refresh(&mut self, app: &App, state: &State, task: TaskNo)
        requires known { task.0 < length app.now.tasks }
        requires well { Well app.now state.now }
        ensures here { slice_index_or self.new task.0 None ≡ level_of app.now state.now task.0 }
        ensures others { (u : ℕ) → u ≢ task.0 → slice_index_or self.new u None ≡ slice_index_or self.old u None }
    {
        self.levels[task.index()] = level(app, state, task);
    }

    /// The same of a task, if there is one.
    fn refresh_some(&mut self, app: &App, state: &State, task: Option<TaskNo>)
        requires known { IfSome task (λ t. t.0 < length app.now.tasks) }
        requires well { Well app.now state.now }
        ensures here { (u : ℕ) → is_that_task task u ≡ true → slice_index_or self.new u None ≡ level_of app.now state.now u }
        ensures others { (u : ℕ) → is_that_task task u ≡ false → slice_index_or self.new u None ≡ slice_index_or self.old u None }
    {
        match task {
            None => {}
            Some(task) => self.refresh(app, state, task),
        }
    }

    /// Takes in what became of two tasks, and leaves the others. So the Live tasks of a state that differs in no other task become
    /// those of the state now.
    pub fn take_in(
        &mut self,
        app: &App,
        state: &State,
        first: Option<TaskNo>,
        second: Option<TaskNo>,
    )
        requires first { IfSome first (λ t. t.0 < length app.now.tasks) }
        requires second { IfSome second (λ t. t.0 < length app.now.tasks) }
        requires well { Well app.now state.now }
        ensures here { (u : ℕ) → IsTrue (is_that_task first u || is_that_task second u) → slice_index_or self.new u None ≡ level_of app.now state.now u }
        ensures others { (u : ℕ) → is_that_task first u ≡ false → is_that_task second u ≡ false → slice_index_or self.new u None ≡ slice_index_or self.old u None }
        ensures ready { (s : State) → IsReady app.now s self.old → ChangesOnly first second s state.now → IsReady app.now state.now self.new }
    {
        self.refresh_some(app, state, first);
        self.refresh_some(app, state, second);
    }

    /// Whether the first task has a lower current priority. A scan is one such comparison.
    pub fn is_lower<L: Ledger>(&self, first: TaskNo, second: TaskNo, scans: &mut Steps<L>) -> bool
        requires first { first.0 < MAX_TASKS }
        requires second { second.0 < MAX_TASKS }
        ensures lower { result ≡ nat_lt (priority_in (slice_index_or self.now first.0 None)) (priority_in (slice_index_or self.now second.0 None)) }
        ensures scan { scans.new ≡ scans.old + 1 }
    {
        scans.tick();
        priority(self.levels[first.index()]) < priority(self.levels[second.index()])
    }

    /// Whether a task is Live and has this current priority.
    fn has_priority(&self, task: TaskNo, priority: u32) -> bool
        ensures { IsTrue result ↔ (slice_index_or self.now task.0 None ≡ Some priority) }
    {
        match self.levels.get(task.index()) {
            Some(Some(level)) => *level == priority,
            _ => false,
        }
    }

    /// The higher of the highest so far and the next task.
    fn higher<L: Ledger>(
        &self,
        found: Option<Highest>,
        task: TaskNo,
        scans: &mut Steps<L>,
    ) -> Option<Highest>
        requires known { task.0 < MAX_TASKS }
        requires below { IfSome found (λ h. h.task.0 < task.0) }
        requires has { IfSome found (λ h. slice_index_or self.now h.task.0 None ≡ Some h.priority) }
        ensures has { IfSome result (λ h. slice_index_or self.now h.task.0 None ≡ Some h.priority) }
        ensures below { IfSome result (λ h. h.task.0 < task.0 + 1) }
        ensures highest { (app : App) (s : State) → IsReady app s self.now → IsHighestBelow app s task.0 found → IsHighestBelow app s (task.0 + 1) result }
        ensures scans { scans.new + some_of result ≡ scans.old + some_of found + count_of (slice_index_or self.now task.0 None) }
    {
        let Some(priority) = self.levels[task.index()] else {
            return found;
        };
        let Some(highest) = found else {
            return Some(Highest {
                task,
                priority,
                ties: false,
            });
        };
        if self.is_lower(highest.task, task, scans) {
            return Some(Highest {
                task,
                priority,
                ties: false,
            });
        }
        Some(Highest {
            task: highest.task,
            priority: highest.priority,
            ties: highest.ties || highest.priority == priority,
        })
    }

    /// Of the tasks of a priority the one whose place in the line is the first, or, where none stands there, the first by number.
    fn first_in_line(&self, line: &[TaskNo], highest: Highest) -> TaskNo
        requires { slice_index_or self.now highest.task.0 None ≡ Some highest.priority }
        ensures priority { slice_index_or self.now result.0 None ≡ Some highest.priority }
        ensures first { ((u : ℕ) → slice_index_or self.now u None ≡ Some highest.priority → highest.task.0 ≤ u) →
            (u : ℕ) → slice_index_or self.now u None ≡ Some highest.priority → place_in_line line.now result.0 ≤ place_in_line line.now u }
    {
        for task in line {
            if self.has_priority(*task, highest.priority) {
                return *task;
            }
        }
        highest.task
    }

    /// Of the tasks of a priority the one whose turn comes first.
    fn first_in_turn(&self, state: &State, highest: Highest) -> TaskNo
        requires { slice_index_or self.now highest.task.0 None ≡ Some highest.priority }
        ensures priority { slice_index_or self.now result.0 None ≡ Some highest.priority }
        ensures first { ((u : ℕ) → slice_index_or self.now u None ≡ Some highest.priority → highest.task.0 ≤ u) →
            (u : ℕ) → slice_index_or self.now u None ≡ Some highest.priority → turn state.now result.0 ≤ turn state.now u }
    {
        match state.current() {
            Some(current) if self.has_priority(current, highest.priority) => current,
            _ => self.first_in_line(state.line.as_slice(), highest),
        }
    }

    /// The task that is to run, by the highest of all tasks. The line is read where several are as high, as far as to the first of
    /// them.
    fn chosen(&self, state: &State, found: Option<Highest>) -> Option<TaskNo>
        requires { IfSome found (λ h. slice_index_or self.now h.task.0 None ≡ Some h.priority) }
        ensures best { (app : App) (n : ℕ) → IsReady app state.now self.now → IsHighestBelow app state.now n found → IsBestBelow app state.now n result }
        ensures some { some_of result ≡ some_of found }
    {
        match found {
            None => None,
            Some(highest) if highest.ties => Some(self.first_in_turn(state, highest)),
            Some(highest) => Some(highest.task),
        }
    }

    /// The Live task that is to run, of the state of which these are the Live tasks, after one scan fewer than there are
    /// such tasks. The line is read where two tie, as far as to the first of them.
    pub fn best<L: Ledger>(&self, state: &State, scans: &mut Steps<L>) -> Option<TaskNo>
        ensures best { (app : App) → Well app state.now → IsReady app state.now self.now → result ≡ best app state.now }
        ensures live { (app : App) → Well app state.now → IsReady app state.now self.now → IfSome result (HasProcessor app state.now) }
        ensures none { (app : App) → Well app state.now → IsReady app state.now self.now → IfNone result ((t : ℕ) → is_live (task_state state.now t) ≡ false) }
        ensures scans { (app : App) → Well app state.now → IsReady app state.now self.now → scans.new + some_of result ≡ scans.old + count_by is_live state.now.tasks }
        ensures few { (app : App) → Well app state.now → IsReady app state.now self.now → scans.new + some_of result ≤ scans.old + length app.tasks }
    {
        let mut found = None;
        for task in 0..MAX_TASKS {
            found = self.higher(found, TaskNo(task as u8), scans);
        }
        self.chosen(state, found)
    }
}
