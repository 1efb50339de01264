//! What a step does with the processor after the effect of its instruction.
ghost use Rattle.std.specs.Prelude.{◌≡◌, ◌+◌, ◌≤◌, length, nat_lt, IfSome};
ghost use Rattle.osek_standard.specs.{Priority.{best, current_priority}, Effects.{wanted}};
ghost use Rattle.osek_standard.specs.{Dispatch.{dispatched, dispatch_hooks, settled, outcome_by, outcome_hooks, instruction, stepped}, Well.{Well, AreOut, HasProcessor, IsActive}};
ghost use Rattle.osek_standard.specs.Internal.{kept};
ghost use Rattle.generic_kernel.specs.{BestBelow.{some_of}, Levels.{IsReady}, Moves.{KeepsLevels, MayDispatch}};

use crate::effects::effect;
use crate::inside::{keep, put_inside, take_in_running};
use crate::queue::{come_out, go_first};
use crate::ready::Ready;
use osek_standard::{App, Caller, Processor, State};
use osek_values::{Ask, HookSet, Notes, Steps, TaskNo};
use std::sync::ledger::Ledger;

/// Gives the processor to a task or to none: who had it goes first in the line, and who gets it leaves the line and is
/// inside. Answers the hooks of it that the OS object sets TRUE: PostTaskHook where a task left or has the processor,
/// PreTaskHook where a task gets it.
pub fn switch_to(app: &App, state: &mut State, task: Option<TaskNo>, ask: Ask) -> HookSet
    requires well { Well app.now state.old }
    requires out { AreOut app.now state.old }
    requires live { IfSome task (HasProcessor app.now state.old) }
    ensures state { dispatched app.now state.old task ≡ state.new }
    ensures hooks { result ≡ wanted app.now (dispatch_hooks state.old ask task) }
    ensures well { Well app.now state.new }
    ensures levels { KeepsLevels app.now state.old state.new }
{
    let left = ask == Ask::Left || state.current().is_some();
    let due = HookSet::POST_TASK
        .when(left)
        .with(HookSet::PRE_TASK.when(task.is_some()));
    go_first(app, state);
    come_out(state, task);
    put_inside(app, state, task);
    state.processor = match task {
        None => Processor::Idle,
        Some(task) => Processor::Running(task),
    };
    app.hooks.among(due)
}

// who had the processor keeps it, and no hook runs
fn stay(app: &App, state: &mut State) -> HookSet
    requires { Well app.now state.old }
    ensures state { kept app.now state.old ≡ state.new }
    ensures hooks { result ≡ wanted app.now 0 }
    ensures well { Well app.now state.new }
    ensures levels { KeepsLevels app.now state.old state.new }
{
    keep(app, state);
    app.hooks.among(HookSet::none())
}

/// The Live task that is to run, after one scan fewer than there are Live tasks.
pub fn best_task<L: Ledger>(
    app: &App,
    state: &State,
    ready: &Ready,
    scans: &mut Steps<L>,
) -> Option<TaskNo>
    requires well { Well app.now state.now }
    requires ready { IsReady app.now state.now ready.now }
    ensures best { result ≡ best app.now state.now }
    ensures live { IfSome result (HasProcessor app.now state.now) }
    ensures few { scans.new + some_of result ≤ scans.old + length app.now.tasks }
{
    ready.best(state, scans)
}

/// Whether the first task has a lower current priority. A scan is one such comparison.
fn is_lower<L: Ledger>(
    app: &App,
    state: &State,
    ready: &Ready,
    first: TaskNo,
    second: TaskNo,
    scans: &mut Steps<L>,
) -> bool
    requires well { Well app.now state.now }
    requires ready { IsReady app.now state.now ready.now }
    requires first { HasProcessor app.now state.now first }
    requires second { HasProcessor app.now state.now second }
    ensures lower { result ≡ nat_lt (current_priority app.now state.now first.0) (current_priority app.now state.now second.0) }
    ensures scan { scans.new ≡ scans.old + 1 }
{
    ready.is_lower(first, second, scans)
}

/// Dispatches what the ask of an effect leads to, and answers the hooks of it.
pub fn conclude<L: Ledger>(
    app: &App,
    state: &mut State,
    ready: &Ready,
    ask: Ask,
    scans: &mut Steps<L>,
) -> HookSet
    requires well { Well app.now state.old }
    requires ready { IsReady app.now state.old ready.now }
    requires dispatch { MayDispatch app.now state.old ask }
    ensures state { settled app.now state.old (outcome_by app.now state.old ask) ≡ state.new }
    ensures hooks { result ≡ wanted app.now (outcome_hooks state.old ask (outcome_by app.now state.old ask)) }
    ensures well { Well app.now state.new }
    ensures levels { KeepsLevels app.now state.old state.new }
    ensures scans { scans.new ≤ scans.old + length app.now.tasks }
{
    match ask {
        Ask::No => stay(app, state),
        Ask::Maybe => {
            let Caller::Task(caller) = state.caller() else {
                return stay(app, state);
            };
            let Some(task) = best_task(app, state, ready, scans) else {
                return stay(app, state);
            };
            if is_lower(app, state, ready, caller, task, scans) {
                switch_to(app, state, Some(task), ask)
            } else {
                stay(app, state)
            }
        }
        Ask::Left => {
            let task = best_task(app, state, ready, scans);
            switch_to(app, state, task, ask)
        }
        Ask::Free => {
            let Some(task) = best_task(app, state, ready, scans) else {
                return stay(app, state);
            };
            switch_to(app, state, Some(task), ask)
        }
    }
}

/// One instruction, with its dispatch.
#[tactic(auto, unfolding(osek_standard::specs::Dispatch::instruction))]
pub fn instruct<L: Ledger>(
    app: &App,
    state: &mut State,
    ready: &mut Ready,
    choice: bool,
    scans: &mut Steps<L>,
) -> Notes
    requires well { Well app.now state.old }
    requires ready { IsReady app.now state.old ready.old }
    requires active { IsActive state.old.processor }
    ensures instruction { instruction app.now state.old choice ≡ stepped state.new result }
    ensures well { Well app.now state.new }
    ensures ready { IsReady app.now state.new ready.new }
    ensures scans { scans.new ≤ scans.old + length app.now.tasks }
{
    let done = effect(app, state, ready, choice);
    let hooks = conclude(app, state, ready, done.ask, scans);
    take_in_running(app, state, ready);
    Notes {
        hooks: done.notes.hooks.with(hooks),
        ..done.notes
    }
}
