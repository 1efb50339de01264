//! Tasks that share a current priority: a preempted task is the first of them, whatever its number. In this image, made by
//! hand, a resource has the base priority of another task as its ceiling.
ghost use Rattle.std.specs.Prelude.{◌≡◌, ◌<◌};

use image_codec::{Image, decode};
use image_run::Machine;
use osek_standard::{Processor, State};
use osek_values::{Event, ModeNo, Steps, TaskNo};
use std::alloc::Global;
use std::marker::Brand;
use std::sync::ledger::{Blank, Ledger};

/// T1 has priority 2, and T3 has 3. T2, of priority 1, takes R of ceiling 4, activates T1 and T3, gives R back and ends.
const TIED: &[u8] = b"\
    OSEKFIT\x02\x00\x03\x00\x00\x00\x01\x01\x00\x0a\
    \x02T1\x00\x02\x01\x00\x00\x00\x00\x00\x00\x00\x00\x00\x00\x00\x00\x02\x01\xff\
    \x02T2\x00\x01\x01\x00\x00\x00\x00\x00\x00\x00\x00\x01\x00\x02\x00\x06\x01\xff\
    \x02T3\x00\x03\x01\x00\x00\x00\x00\x00\x00\x00\x00\x00\x00\x08\x00\x02\x01\xff\
    \x01R\x00\x00\x00\x04\x00\x00\x00\
    \x10OSDEFAULTAPPMODE\
    \x04\x00\x00\x00\x00\x01\x00\x01\x03\x00\xff\
    \x16\x00\x00\x00\x00\x01\x03\x00\xff\
    \x07\x00\x00\x00\x00\x02\x00\x00\x03\
    \x03\x00\x00\x00\x00\x02\x00\x00\x04\x03\x00\xff\
    \x03\x00\x00\x00\x00\x02\x02\x00\x05\x03\x00\xff\
    \x08\x00\x00\x00\x00\x02\x00\x00\x06\x03\x00\xff\
    \x04\x00\x00\x00\x00\x02\x00\x07\x03\x00\xff\
    \x16\x00\x00\x00\x00\x02\x03\x00\xff\
    \x04\x00\x00\x00\x00\x03\x00\x09\x03\x00\xff\
    \x16\x00\x00\x00\x00\x03\x03\x00\xff";

/// Who has the processor, how many places the line has, and the first two.
#[derive(Clone, Copy, PartialEq, Eq)]
struct Turn {
    processor: Processor,
    places: usize,
    line: [Option<TaskNo>; 2],
}

const T1: Option<TaskNo> = Some(TaskNo(0));

const T2: Option<TaskNo> = Some(TaskNo(1));

/// At the start, and after each instruction. T3 preempts T2, which has the current priority of T1 then and goes before it,
/// though T1 was ready longer and has the lower number.
const TURNS: [Turn; 8] = [
    Turn {
        processor: Processor::Running(TaskNo(1)),
        places: 0,
        line: [None, None],
    },
    Turn {
        processor: Processor::Running(TaskNo(1)),
        places: 0,
        line: [None, None],
    },
    Turn {
        processor: Processor::Running(TaskNo(1)),
        places: 1,
        line: [T1, None],
    },
    Turn {
        processor: Processor::Running(TaskNo(2)),
        places: 2,
        line: [T2, T1],
    },
    Turn {
        processor: Processor::Running(TaskNo(1)),
        places: 1,
        line: [T1, None],
    },
    Turn {
        processor: Processor::Running(TaskNo(0)),
        places: 1,
        line: [T2, None],
    },
    Turn {
        processor: Processor::Running(TaskNo(1)),
        places: 0,
        line: [None, None],
    },
    Turn {
        processor: Processor::Idle,
        places: 0,
        line: [None, None],
    },
];

/// A task's place in a line, if the line is so long.
fn place(line: &[TaskNo], number: usize) -> Option<TaskNo> {
    match line.get(number) {
        Some(task) => Some(*task),
        None => None,
    }
}

fn turn_of(state: &State) -> Turn {
    let line = state.line.as_slice();
    Turn {
        processor: state.processor,
        places: line.len(),
        line: [place(line, 0), place(line, 1)],
    }
}

/// The first turn that is another than the machine's.
fn first_wrong_turn<L: Ledger>(machine: &mut Machine, blank: Blank) -> Option<usize>
    requires name { blank.name ≡ L.name }
    requires parts { blank.parts ≡ L.parts }
    requires some { 0 < L.parts }
{
    let mut scans = Steps::<L>::of(blank);
    for (number, turn) in TURNS.iter().enumerate() {
        if turn_of(machine.state()) != *turn {
            return Some(number);
        }
        if machine.step(Event::Run(false), &mut scans).is_err() {
            return Some(number);
        }
    }
    None
}

/// The same, with its scans counted in a ledger of their own.
fn wrong_turn(machine: &mut Machine) -> Option<usize> {
    first_wrong_turn::<Brand>(machine, Blank::new(1))
}

/// Whether an image has these turns in its first mode.
fn has_turns(alloc: Global, image: Image) -> bool {
    if image.app.modes.is_empty() {
        drop(image);
        return false;
    }
    match Machine::start(alloc, image, ModeNo(0)) {
        Ok((mut machine, _)) => {
            let wrong = wrong_turn(&mut machine);
            drop(machine);
            wrong.is_none()
        }
        Err(_) => false,
    }
}

fn preempted_goes_first(alloc: Global) -> bool {
    match decode(alloc, TIED) {
        Ok(image) => has_turns(alloc, image),
        Err(_) => false,
    }
}

#[test]
fn a_preempted_task_goes_before_others_of_its_priority(rt: HostRuntime) {
    assert!(rt; preempted_goes_first(rt.alloc()));
}
