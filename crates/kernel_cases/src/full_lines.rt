//! A line with as many places as there may be: sixteen tasks of one priority, each with all activations that it takes.
ghost use Rattle.std.specs.Prelude.{◌≡◌, ◌<◌};

use front_end::{TextError, read_app, read_system};
use image_model::{Image, general};
use image_run::Machine;
use osek_standard::{Processor, State};
use osek_values::{Event, ModeNo, Status, Steps, TaskNo};
use std::alloc::Global;
use std::marker::Brand;
use std::sync::ledger::{Blank, Ledger};

/// Tasks of 255 activations.
const OIL: &[u8] = b"\
    CPU c { OS os;\n\
    TASK T0 { PRIORITY = 1; ACTIVATION = 255; AUTOSTART = TRUE; };\n\
    TASK T1 { PRIORITY = 1; ACTIVATION = 255; };\n\
    TASK T2 { PRIORITY = 1; ACTIVATION = 255; };\n\
    TASK T3 { PRIORITY = 1; ACTIVATION = 255; };\n\
    TASK T4 { PRIORITY = 1; ACTIVATION = 255; };\n\
    TASK T5 { PRIORITY = 1; ACTIVATION = 255; };\n\
    TASK T6 { PRIORITY = 1; ACTIVATION = 255; };\n\
    TASK T7 { PRIORITY = 1; ACTIVATION = 255; };\n\
    TASK T8 { PRIORITY = 1; ACTIVATION = 255; };\n\
    TASK T9 { PRIORITY = 1; ACTIVATION = 255; };\n\
    TASK T10 { PRIORITY = 1; ACTIVATION = 255; };\n\
    TASK T11 { PRIORITY = 1; ACTIVATION = 255; };\n\
    TASK T12 { PRIORITY = 1; ACTIVATION = 255; };\n\
    TASK T13 { PRIORITY = 1; ACTIVATION = 255; };\n\
    TASK T14 { PRIORITY = 1; ACTIVATION = 255; };\n\
    TASK T15 { PRIORITY = 1; ACTIVATION = 255; };\n\
    };\n";

/// T0 activates each task in turn, itself too, round by round, and halts the system.
const CODE: &[u8] = b"\
    TASK(T0) { while (?) {\n\
    ActivateTask(T0);\n\
    ActivateTask(T1);\n\
    ActivateTask(T2);\n\
    ActivateTask(T3);\n\
    ActivateTask(T4);\n\
    ActivateTask(T5);\n\
    ActivateTask(T6);\n\
    ActivateTask(T7);\n\
    ActivateTask(T8);\n\
    ActivateTask(T9);\n\
    ActivateTask(T10);\n\
    ActivateTask(T11);\n\
    ActivateTask(T12);\n\
    ActivateTask(T13);\n\
    ActivateTask(T14);\n\
    ActivateTask(T15);\n\
    } ShutdownOS(E_OK); }\n\
    TASK(T1) { }\n\
    TASK(T2) { }\n\
    TASK(T3) { }\n\
    TASK(T4) { }\n\
    TASK(T5) { }\n\
    TASK(T6) { }\n\
    TASK(T7) { }\n\
    TASK(T8) { }\n\
    TASK(T9) { }\n\
    TASK(T10) { }\n\
    TASK(T11) { }\n\
    TASK(T12) { }\n\
    TASK(T13) { }\n\
    TASK(T14) { }\n\
    TASK(T15) { }\n";

/// The steps of 256 rounds: one of the loop, and one for each call.
const STEPS: usize = 4352;

/// The status of a step. A task that has the processor takes 254 further activations, and each other one 255.
fn status_due(step: usize) -> Option<Status> {
    let (round, call) = (step / 17, step % 17);
    match call {
        0 => None,
        1 if round >= 254 => Some(Status::Limit),
        _ if round >= 255 => Some(Status::Limit),
        _ => Some(Status::Ok),
    }
}

/// Whose place this is: that of each task in turn, in each round that it takes an activation.
fn task_due(place: usize) -> usize {
    if place < 4064 {
        place % 16
    } else {
        place - 4063
    }
}

/// The first place of a line that another task has.
fn first_wrong_place(line: &[TaskNo]) -> Option<usize> {
    for (place, task) in line.iter().enumerate() {
        if usize::from(task.0) != task_due(place) {
            return Some(place);
        }
    }
    None
}

/// Whether T0 runs and each of the others is full.
fn is_full(state: &State) -> bool {
    let line = state.line.as_slice();
    state.processor == Processor::Running(TaskNo(0))
        && line.len() == 4079
        && first_wrong_place(line).is_none()
}

/// Whether the processor is halted and T0, which had it, has the first place.
fn is_halted(state: &State) -> bool {
    let line = state.line.as_slice();
    match line.get(0) {
        Some(first) => {
            state.processor == Processor::Halted
                && line.len() == 4080
                && first.0 == 0
                && first_wrong_place(&line[1..line.len()]).is_none()
        }
        None => false,
    }
}

/// The first step of the rounds that notes something else.
fn first_wrong_step<L: Ledger>(machine: &mut Machine, blank: Blank) -> Option<usize>
    requires name { blank.name ≡ L.name }
    requires parts { blank.parts ≡ L.parts }
    requires some { 0 < L.parts }
{
    let mut scans = Steps::<L>::of(blank);
    for step in 0..STEPS {
        let Ok(notes) = machine.step(Event::Run(true), &mut scans) else {
            return Some(step);
        };
        if notes.status != status_due(step) {
            return Some(step);
        }
    }
    None
}

/// Two steps, out of the loop and into the halt.
fn halts<L: Ledger>(machine: &mut Machine, blank: Blank) -> bool
    requires name { blank.name ≡ L.name }
    requires parts { blank.parts ≡ L.parts }
    requires some { 0 < L.parts }
{
    let mut scans = Steps::<L>::of(blank);
    machine.step(Event::Run(false), &mut scans).is_ok()
        && machine.step(Event::Run(false), &mut scans).is_ok()
        && is_halted(machine.state())
}

/// Both, each with its scans counted in a ledger of its own.
fn fills_and_halts(machine: &mut Machine) -> bool {
    first_wrong_step::<Brand>(machine, Blank::new(1)).is_none()
        && is_full(machine.state())
        && halts::<Brand>(machine, Blank::new(1))
}

/// Whether an image does so in its first mode.
fn is_filled(alloc: Global, image: Image) -> bool {
    if image.app.modes.is_empty() {
        drop(image);
        return false;
    }
    match Machine::start(alloc, image, ModeNo(0)) {
        Ok((mut machine, _)) => {
            let right = fills_and_halts(&mut machine);
            drop(machine);
            right
        }
        Err(_) => false,
    }
}

fn image(alloc: Global) -> Result<Image, TextError> {
    let system = read_system(alloc, OIL)?;
    let app = read_app(alloc, system, CODE)?;
    Ok(general(alloc, app)?)
}

fn a_line_is_filled(alloc: Global) -> Result<bool, TextError> {
    let image = image(alloc)?;
    Ok(is_filled(alloc, image))
}

#[test]
fn a_line_has_a_place_for_each_activation_and_none_more(rt: HostRuntime) {
    assert!(rt; a_line_is_filled(rt.alloc()) == Ok(true));
}
