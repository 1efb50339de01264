//! Images with each byte changed: what is still an image is spelled by its bytes, and runs. Their bytes stand here, whatever
//! `build` writes today.
ghost use Rattle.std.specs.Prelude.{◌≡◌, ◌<◌};
ghost use Rattle.osek_standard.specs.Apps.{IsDeclared};

use crate::stored_images::{ACTIVATION, BODY, LAMP};
use image_codec::{Image, ImageError, ImageRule, decode, encode};
use image_run::Machine;
use osek_standard::App;
use osek_values::{CounterNo, Event, IsrNo, Memory, ModeNo, Steps};
use std::alloc::Global;
use std::marker::Brand;
use std::sync::ledger::{Blank, Ledger};

/// An event of an application: runs, and in turn each of its sources.
fn event_at(app: &App, number: usize) -> Event
    ensures { IsDeclared app.now result }
{
    let turn = number / 4;
    let isrs = app.isrs.len().min(8);
    let counters = app.counters.len().min(8);
    match number % 4 {
        0 if isrs > 0 => Event::Irq(IsrNo((turn % isrs) as u8)),
        1 if counters > 0 => Event::Tick(CounterNo((turn % counters) as u8)),
        2 => Event::Run(true),
        _ => Event::Run(false),
    }
}

/// Whether a machine takes a thousand events, or traps at one and at each after it.
fn takes_events<L: Ledger>(machine: &mut Machine, blank: Blank) -> bool
    requires name { blank.name ≡ L.name }
    requires parts { blank.parts ≡ L.parts }
    requires some { 0 < L.parts }
{
    let mut scans = Steps::<L>::of(blank);
    let mut trapped = false;
    for number in 0..1_000 {
        let event = event_at(machine.app(), number);
        let traps = machine.step(event, &mut scans).is_err();
        if trapped && !traps {
            return false;
        }
        trapped = traps;
    }
    true
}

/// The same, with its scans counted in a ledger of their own.
fn takes_all(machine: &mut Machine) -> bool {
    takes_events::<Brand>(machine, Blank::new(1))
}

/// Whether an image runs so in its first mode.
fn runs(alloc: Global, image: Image) -> bool {
    if image.app.modes.is_empty() {
        drop(image);
        return false;
    }
    match Machine::start(alloc, image, ModeNo(0)) {
        Ok((mut machine, _)) => {
            let right = takes_all(&mut machine);
            drop(machine);
            right
        }
        Err(_) => false,
    }
}

/// Whether an image has these bytes.
fn is_spelled(alloc: Global, image: &Image, bytes: &[u8]) -> bool {
    encode(alloc, image).is_ok_and(|found| found.as_slice() == bytes)
}

/// Whether bytes are an image that they spell and that runs, or have a fault in them.
fn is_judged(alloc: Global, bytes: &[u8]) -> bool {
    match decode(alloc, bytes) {
        Ok(image) => is_spelled(alloc, &image, bytes) && runs(alloc, image),
        Err(ImageError::Fault(fault)) => fault.offset <= bytes.len(),
        Err(ImageError::Memory) => false,
    }
}

/// A change of a byte: its bits that stay, and those that are turned then.
#[derive(Clone, Copy)]
struct Change {
    keeps: u8,
    turns: u8,
}

fn turned(turns: u8) -> Change {
    Change { keeps: 255, turns }
}

fn made(byte: u8) -> Change {
    Change {
        keeps: 0,
        turns: byte,
    }
}

/// An image with a byte changed.
fn changed(alloc: Global, image: &[u8], at: usize, change: Change) -> Result<Vec<u8>, Memory> {
    let mut bytes = Vec::from_slice(alloc, image)?;
    if at < bytes.len() {
        bytes[at] = (bytes[at] & change.keeps) ^ change.turns;
    }
    Ok(bytes)
}

/// The first byte with a change that isn't judged rightly.
fn first_wrong_change(
    alloc: Global,
    image: &[u8],
    changes: &[Change],
) -> Result<Option<usize>, Memory> {
    for at in 0..image.len() {
        for change in changes {
            let bytes = changed(alloc, image, at, *change)?;
            if !is_judged(alloc, &bytes) {
                return Ok(Some(at));
            }
        }
    }
    Ok(None)
}

#[test]
fn each_byte_turned(rt: HostRuntime) {
    let changes = [turned(1), turned(128), turned(255)];
    assert!(rt; first_wrong_change(rt.alloc(), ACTIVATION, &changes) == Ok(None));
}

#[test]
fn each_byte_made_another(rt: HostRuntime) {
    let changes = [made(0), made(1), made(127), made(255)];
    assert!(rt; first_wrong_change(rt.alloc(), LAMP, &changes) == Ok(None));
    assert!(rt; first_wrong_change(rt.alloc(), BODY, &changes) == Ok(None));
}

/// Whether bytes end too early, in a field that they begin.
fn is_cut(alloc: Global, bytes: &[u8]) -> bool {
    match decode(alloc, bytes) {
        Ok(image) => {
            drop(image);
            false
        }
        Err(ImageError::Fault(fault)) => {
            fault.rule == ImageRule::I1 && fault.offset <= bytes.len()
        }
        Err(ImageError::Memory) => false,
    }
}

/// The first length to which an image isn't rightly cut.
fn first_wrong_cut(alloc: Global, image: &[u8]) -> Option<usize> {
    for len in 0..image.len() {
        match image.get(..len) {
            Some(bytes) if is_cut(alloc, bytes) => {}
            _ => return Some(len),
        }
    }
    None
}

#[test]
fn cut_anywhere(rt: HostRuntime) {
    assert!(rt; first_wrong_cut(rt.alloc(), ACTIVATION) == None);
    assert!(rt; first_wrong_cut(rt.alloc(), LAMP) == None);
    assert!(rt; first_wrong_cut(rt.alloc(), BODY) == None);
}
