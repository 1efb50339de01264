//! Lines that are written of a small application: an extended task, an ISR and a counter.
ghost use Rattle.std.specs.{Prelude.{◌≡◌, IfOk, [], ◌∷◌}, Bool.{OnTrue}};
ghost use Rattle.osek_standard.specs.{Well.{Well}, declared.state.Source.TheVariants.{Out}};
ghost use Rattle.kernel_cases.specs.Sample.{IsOfSampleSize, sample_state};

use crate::applications::sample;
use crate::lists::{listed, one};
use front_end::TextError;
use osek_standard::{Activity, App, Processor, Source, State, TaskState};
use osek_values::limits::LINE_MAX;
use osek_values::{HookSet, Line, Mask, Memory, ModeNo, Notes, Seq, Status, TaskNo, Value};
use std::alloc::Global;
use std::test::*;
use trace_text::write_line;

fn two_out(alloc: Global) -> Result<Seq<Source>, Memory>
    ensures { IfOk result (λ s. s ≡ Out ∷ Out ∷ []) }
{
    let mut sources = Seq::new(alloc);
    sources.push(Source::Out)?;
    sources.push(Source::Out)?;
    Ok(sources)
}

// The task is suspended, and nothing runs.
fn idle(alloc: Global) -> Result<State, Memory>
    ensures { IfOk result (λ s. s ≡ sample_state) }
{
    let asleep = TaskState {
        activity: Activity::Suspended,
        events: Mask(0),
    };
    let tasks = one(alloc, asleep)?;
    let counters = listed(alloc, &[0])?;
    let sources = two_out(alloc)?;
    let latched = listed(alloc, &[false, false])?;
    Ok(State {
        mode: ModeNo(0),
        processor: Processor::Idle,
        tasks,
        counters,
        alarms: Seq::new(alloc),
        sources,
        latched,
        line: Line::new(),
    })
}

fn is_line(app: &App, n: u64, state: &State, notes: &Notes, want: &[u8]) -> bool
    requires { Well app.now state.now }
{
    let mut buf = [0; LINE_MAX];
    let length = write_line(app, n, state, notes, &mut buf);
    &buf[..length] == want
}

/// A service that is done, with its value.
fn valued(value: Value) -> Notes {
    Notes {
        status: Some(Status::Ok),
        value: Some(value),
        hooks: HookSet(0),
    }
}

/// Whether lines with nothing, with a value and with all hooks are written.
fn are_written(app: &App, state: &State) -> bool
    requires { Well app.now state.now }
{
    let nothing = Notes {
        status: None,
        value: None,
        hooks: HookSet(0),
    };
    let events = valued(Value::Mask(Mask(0x2af0)));
    let all = Notes {
        status: Some(Status::Limit),
        value: Some(Value::Task(Some(TaskNo(0)))),
        hooks: HookSet(31),
    };
    let longest =
        b"18446744073709551615 - T1=S !E_OS_LIMIT ^Error =T1 ^Startup ^Shutdown ^PostTask ^PreTask\n";
    is_line(app, 0, state, &nothing, b"0 - T1=S\n")
        && is_line(app, 12, state, &events, b"12 - T1=S !E_OK =2af0\n")
        && is_line(
            app,
            27,
            state,
            &valued(Value::Number(9)),
            b"27 - T1=S !E_OK =9\n",
        )
        && is_line(
            app,
            1,
            state,
            &valued(Value::Task(None)),
            b"1 - T1=S !E_OK =-\n",
        )
        && is_line(app, u64::MAX, state, &all, longest)
}

fn is_of_sample_size(app: &App) -> bool
    ensures { OnTrue result (IsOfSampleSize app.now) }
{
    app.tasks.len() == 1
        && app.isrs.len() == 1
        && app.counters.len() == 1
        && app.alarms.is_empty()
        && app.modes.len() == 1
}

fn sample_is_written(alloc: Global) -> Result<bool, TextError> {
    let state = idle(alloc)?;
    let app = sample(alloc)?;
    let written = is_of_sample_size(&app) && are_written(&app, &state);
    drop(app);
    drop(state);
    Ok(written)
}

#[test]
fn writes_lines(rt: HostRuntime) {
    assert!(rt; sample_is_written(rt.alloc()) == Ok(true));
}
