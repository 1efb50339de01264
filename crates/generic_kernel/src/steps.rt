//! One step of the kernel.
ghost use Rattle.std.specs.Prelude.{◌≡◌, ◌+◌, ◌≤◌, length, IfSome};
ghost use Rattle.osek_standard.specs.{Dispatch.{nothing_noted, stepped}, Kernel.{step as step_of}, Arrivals.{arrival as arrival_of}, Well.{Well, IsActive}, Apps.{IsDeclared}};
ghost use Rattle.generic_kernel.specs.{Levels.{IsReady}, Moves.{instruction_due, event_taken, due_by, run_taken}};

use crate::arrivals::take_arrival;
use crate::dispatch::instruct;
use crate::ready::Ready;
use osek_standard::{App, Processor, State};
use osek_values::{Event, HookSet, Notes, Steps};
use std::sync::ledger::Ledger;

/// Nothing is noted.
pub fn nothing() -> Notes
    ensures { result ≡ nothing_noted }
{
    Notes {
        status: None,
        value: None,
        hooks: HookSet::none(),
    }
}

/// What a run does but for an instruction: a routine may begin. The choice is answered where an instruction is due.
fn take_run(app: &App, state: &mut State, choice: bool) -> Option<bool>
    requires { Well app.now state.old }
    ensures due { due_by choice state.old.processor (arrival_of app.now state.old) ≡ result }
    ensures state { run_taken app.now state.old state.old.processor ≡ state.new }
    ensures well { Well app.now state.new }
    ensures instruction { IfSome result (λ c. IsActive state.new.processor) }
    ensures unchanged { IfSome result (λ c. state.new ≡ state.old) }
    ensures tasks { state.new.tasks ≡ state.old.tasks }
{
    match state.processor {
        Processor::Halted => None,
        Processor::Idle => {
            take_arrival(app, state);
            None
        }
        Processor::Running(_) | Processor::Interrupted { .. } => {
            if take_arrival(app, state) {
                None
            } else {
                Some(choice)
            }
        }
    }
}

/// What an event does but for an instruction: a source latches, one that is latched already stays so; or a routine
/// begins; or nothing. The choice is answered where an instruction is due.
pub fn take_event(app: &App, state: &mut State, event: Event) -> Option<bool>
    requires well { Well app.now state.old }
    requires declared { IsDeclared app.now event }
    ensures due { instruction_due app.now state.old event ≡ result }
    ensures state { event_taken app.now state.old event ≡ state.new }
    ensures well { Well app.now state.new }
    ensures instruction { IfSome result (λ c. IsActive state.new.processor) }
    ensures unchanged { IfSome result (λ c. state.new ≡ state.old) }
    ensures tasks { state.new.tasks ≡ state.old.tasks }
{
    match event {
        Event::Run(choice) => take_run(app, state, choice),
        Event::Irq(isr) => {
            state.latched.put(app.counters.len() + isr.index(), true);
            None
        }
        Event::Tick(counter) => {
            state.latched.put(counter.index(), true);
            None
        }
    }
}

/// One step of the kernel, with at most one scan for each task.
pub fn step<L: Ledger>(
    app: &App,
    state: &mut State,
    ready: &mut Ready,
    event: Event,
    scans: &mut Steps<L>,
) -> Notes
    requires well { Well app.now state.old }
    requires ready { IsReady app.now state.old ready.old }
    requires declared { IsDeclared app.now event }
    ensures step { step_of app.now state.old event ≡ stepped state.new result }
    ensures well { Well app.now state.new }
    ensures ready { IsReady app.now state.new ready.new }
    ensures scans { scans.new ≤ scans.old + length app.now.tasks }
{
    match take_event(app, state, event) {
        None => nothing(),
        Some(choice) => instruct(app, state, ready, choice, scans),
    }
}
