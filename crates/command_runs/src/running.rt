//! An image that runs in a mode under an event text, and its trace or its points that are printed.
ghost use Rattle.std.specs.{Prelude.{◌≡◌, ◌≤◌, ◌<◌, [], length, take, false, IfOk, IfSome}, List.{position}, Str.{bytes_eq}};
ghost use Rattle.osek_io.specs.{Reads.{OnlyReads}, Sunk.{sunk}};
ghost use Rattle.trace_text.specs.{EventText.{numbered_lines}, Feeds.{no_bytes}, LineParts.{ArePartsOf}};
ghost use Rattle.osek_standard.specs.{Dispatch.{stepped}, Kernel.{start as start_of}};
ghost use Rattle.image_run.specs.Machines.{at_work};
ghost use Rattle.image_model.specs.ImageTrace.{has_trap};
ghost use Rattle.command_runs.specs.{Outside.{outside}, Inputs.{OfFile}, Playing.{ReadAnswers, PlaysWhole, plays, printing, line_of}};
ghost use Rattle.command_runs.specs.{Running.{mode_named as mode_of_name, RunAnswers}, Shown.{shown_trace}};

use crate::inputs::judge_length;
use crate::playing::{Place, Play};
use crate::showing::Showing;
use crate::stop::{Input, Stop};
use image_model::Image;
use image_run::Machine;
use osek_io::{PutBuffer, Shelf, Sink};
use osek_standard::App;
use osek_values::limits::{LINE_MAX, MAX_EVENT_TEXT};
use osek_values::{Memory, ModeNo, Name, Notes, Steps};
use std::alloc::Global;
use std::marker::Brand;
use std::sync::ledger::{Blank, Ledger};
use trace_text::{Feed, LineParts, Unshown};

/// The place of a name.
fn place_of(names: &[Name], name: &[u8]) -> Option<usize>
    ensures { result ≡ position (bytes_eq name.now) names.now }
{
    names.iter().position(|other| name == other.as_bytes())
}

/// The number of the mode of a name.
fn mode_named(app: &App, name: &str) -> Option<ModeNo>
    ensures mode { result ≡ mode_of_name app.now name.now }
    ensures known { IfSome result (λ m. m.0 < length app.now.modes) }
{
    match place_of(app.modes.as_slice(), name.as_bytes()) {
        Some(place) => Some(ModeNo(place as u8)),
        None => None,
    }
}

/// How an image runs: from its start in which mode, under which event text, and what is printed of it.
#[derive(Clone, Copy)]
pub struct Run<'a> {
    pub mode: &'a str,
    pub events: &'a str,
    pub showing: Showing,
}

/// A machine that has just started, what its start noted, and what its lines are printed by.
#[derive(Drop)]
struct Started {
    machine: Machine,
    notes: Notes,
    parts: LineParts,
    buffer: PutBuffer,
}

/// The start of an image in a mode.
fn start(alloc: Global, image: Image, mode: ModeNo) -> Result<Started, Memory>
    requires { mode.0 < length image.app.modes }
    ensures machine { IfOk result (λ x. x.machine ≡ at_work image x.machine.state false) }
    ensures start { IfOk result (λ x. start_of image.app mode ≡ stepped x.machine.state x.notes) }
    ensures parts { IfOk result (λ x. ArePartsOf image.app x.parts) }
    ensures nothing_held { IfOk result (λ x. x.buffer ≡ []) }
{
    let parts = LineParts::of(&image.app);
    let (machine, notes) = Machine::start(alloc, image, mode)?;
    let buffer = PutBuffer::new(alloc)?;
    Ok(Started {
        machine,
        notes,
        parts,
        buffer,
    })
}

/// Plays a machine that has just started, to its end. Its scans are counted in a ledger of their own.
fn play_started<L: Ledger, F: Shelf, O: Sink>(
    blank: Blank,
    started: Started,
    out: &mut O,
    shelf: &mut F,
    run: &Run<'_>,
    feed: &mut Feed,
) -> Result<(), Stop>
    requires name { blank.name ≡ L.name }
    requires parts { blank.parts ≡ L.parts }
    requires some { 0 < L.parts }
    requires running { started.machine.trapped ≡ false }
    requires of_app { ArePartsOf started.machine.image.app started.parts }
    requires nothing_held { started.buffer ≡ [] }
    requires empty { feed.old ≡ no_bytes }
    requires text { OfFile (F.contents shelf.old) run.now.events.now (λ t. length t ≤ MAX_EVENT_TEXT) }
    ensures answer { ReadAnswers (F.contents shelf.old) run.now.events.now (F.read_faults shelf.old run.now.events.now) (F.read_faults shelf.new run.now.events.now) (sunk O.Sink out.old) (sunk O.Sink out.new) (λ t. printing (line_of run.now.showing started.machine.image 0 (stepped started.machine.state started.notes)) (plays run.now.showing started.machine.image (numbered_lines t) 1 started.machine.state)) result }
    ensures same { OnlyReads F.Shelf shelf.old shelf.new }
{
    let Started {
        machine,
        notes,
        parts,
        buffer,
    } = started;
    let mut play = Play {
        machine,
        parts,
        unshown: Unshown::All,
        buffer,
        place: Place { event: 0, line: 0 },
        scans: Steps::<L>::of(blank),
    };
    play.print_trace(&notes, out, shelf, run, feed)
}

/// Plays an image from its start in a mode. All memory is taken before the first line is printed.
fn play_image<F: Shelf, O: Sink>(
    alloc: Global,
    shelf: &mut F,
    out: &mut O,
    image: Image,
    mode: ModeNo,
    run: &Run<'_>,
) -> Result<(), Stop>
    requires known { mode.0 < length image.app.modes }
    requires text { OfFile (F.contents shelf.old) run.now.events.now (λ t. length t ≤ MAX_EVENT_TEXT) }
    ensures answer { PlaysWhole (F.contents shelf.old) run.now.events.now (F.read_faults shelf.old run.now.events.now) (F.read_faults shelf.new run.now.events.now) (sunk O.Sink out.old) (sunk O.Sink out.new) run.now.showing image mode result }
    ensures same { OnlyReads F.Shelf shelf.old shelf.new }
{
    let Ok(started) = start(alloc, image, mode) else {
        return Err(Stop::Memory);
    };
    let Ok(mut feed) = Feed::new(alloc) else {
        return Err(Stop::Memory);
    };
    play_started::<Brand, F, O>(Blank::new(1), started, out, shelf, run, &mut feed)
}

/// Room for a line of the trace.
pub fn line_room(alloc: Global) -> Result<Vec<u8>, Memory>
    ensures { IfOk result (λ v. LINE_MAX ≤ length v.items) }
{
    Ok(vec![in alloc; 0u8; LINE_MAX]?)
}

/// The prefix of a buffer.
pub fn prefix(buffer: &[u8], size: usize) -> &[u8]
    requires { size ≤ length buffer.now }
    ensures { result.now ≡ take size buffer.now }
{
    &buffer[..size]
}

/// Prints what is shown of an image that runs.
pub fn run_image<F: Shelf, O: Sink>(
    alloc: Global,
    shelf: &mut F,
    out: &mut O,
    image: Image,
    run: &Run<'_>,
) -> Result<(), Stop>
    ensures answer { RunAnswers (outside F.Shelf O.Sink shelf.old out.old) (outside F.Shelf O.Sink shelf.new out.new) image.app (shown_trace run.now.showing image) (has_trap image) run.now.mode.now run.now.events.now result }
    ensures same { OnlyReads F.Shelf shelf.old shelf.new }
{
    let Some(mode) = mode_named(&image.app, run.mode) else {
        drop(image);
        return Err(Stop::NoMode);
    };
    match judge_length(shelf, Input::Events, run.events) {
        Ok(()) => play_image(alloc, shelf, out, image, mode, run),
        Err(stop) => {
            drop(image);
            Err(stop)
        }
    }
}
