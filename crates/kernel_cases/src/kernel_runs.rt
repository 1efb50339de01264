//! Two tasks, of which one activates the other, from the start on.
ghost use Rattle.std.specs.Prelude.{◌≡◌, ◌<◌};
ghost use Rattle.osek_standard.specs.Well.{Well};

use crate::applications::activation;
use front_end::TextError;
use generic_kernel::{Ready, nothing, start, step};
use osek_standard::{App, Processor, State};
use osek_values::{Event, ModeNo, Notes, Status, Steps, TaskNo};
use std::alloc::Global;
use std::marker::Brand;
use std::sync::ledger::{Blank, Ledger};
use std::test::*;

fn three_runs<L: Ledger>(app: &App, state: &mut State, blank: Blank) -> [(Processor, Notes); 3]
    requires name { blank.name ≡ L.name }
    requires parts { blank.parts ≡ L.parts }
    requires some { 0 < L.parts }
    requires well { Well app.now state.old }
{
    let mut scans = Steps::<L>::of(blank);
    let mut ready = Ready::of(app, state);
    let run = Event::Run(false);
    let first = step(app, state, &mut ready, run, &mut scans);
    let after_first = state.processor;
    let second = step(app, state, &mut ready, run, &mut scans);
    let after_second = state.processor;
    let third = step(app, state, &mut ready, run, &mut scans);
    [
        (after_first, first),
        (after_second, second),
        (state.processor, third),
    ]
}

fn noted(status: Option<Status>) -> Notes {
    Notes {
        status,
        ..nothing()
    }
}

fn all_suspended(state: &State) -> bool {
    state
        .tasks
        .as_slice()
        .iter()
        .all(|task| task.is_suspended())
}

/// Whether three runs from a state are these, and all tasks are suspended then.
fn runs_as(app: &App, state: &mut State, wanted: &[(Processor, Notes); 3]) -> bool
    requires { Well app.now state.old }
{
    three_runs::<Brand>(app, state, Blank::new(1)) == *wanted && all_suspended(state)
}

/// Whether the start in the mode gives the processor to the first task and notes nothing, and runs so.
fn starts_and_runs_as(alloc: Global, app: &App, wanted: &[(Processor, Notes); 3]) -> bool {
    match start(alloc, app, ModeNo(0)) {
        Ok((mut state, notes)) => {
            let right = state.processor == Processor::Running(TaskNo(0))
                && notes == nothing()
                && runs_as(app, &mut state, wanted);
            drop(state);
            right
        }
        Err(_) => false,
    }
}

fn activation_runs_as(alloc: Global, wanted: &[(Processor, Notes); 3]) -> Result<bool, TextError> {
    let app = activation(alloc)?;
    let right = starts_and_runs_as(alloc, &app, wanted);
    drop(app);
    Ok(right)
}

#[test]
fn activation_preempts(rt: HostRuntime) {
    let (low, high) = (TaskNo(0), TaskNo(1));
    let wanted = [
        (Processor::Running(high), noted(Some(Status::Ok))),
        (Processor::Running(low), noted(None)),
        (Processor::Idle, noted(None)),
    ];
    assert!(rt; activation_runs_as(rt.alloc(), &wanted) == Ok(true));
}
