//! The command `trace`: the kernel's trace of an application under an event text.
ghost use Rattle.osek_io.specs.Reads.{OnlyReads};
ghost use Rattle.command_runs.specs.Outside.{outside};
ghost use Rattle.commands.specs.Tracing.{TraceAnswers};

use crate::compiling::compile;
use command_runs::{Run, Showing, Stop, run_image};
use image_model::general;
use osek_io::{Shelf, Sink};
use std::alloc::Global;

/// The names of the two texts of an application.
#[derive(Clone, Copy)]
pub struct Texts<'a> {
    pub oil: &'a str,
    pub code: &'a str,
}

/// Prints the kernel's trace of the application that the two texts give, in a mode under an event text.
pub fn trace<F: Shelf, O: Sink>(
    alloc: Global,
    shelf: &mut F,
    out: &mut O,
    texts: &Texts<'_>,
    mode: &str,
    events: &str,
) -> Result<(), Stop>
    ensures answer { TraceAnswers (outside F.Shelf O.Sink shelf.old out.old) (outside F.Shelf O.Sink shelf.new out.new) texts.now.oil.now texts.now.code.now mode.now events.now result }
    ensures same { OnlyReads F.Shelf shelf.old shelf.new }
{
    let app = match compile(alloc, shelf, texts.oil, texts.code) {
        Ok(app) => app,
        Err(stop) => return Err(stop),
    };
    let Ok(image) = general(alloc, app) else {
        return Err(Stop::Memory);
    };
    let run = Run {
        mode,
        events,
        showing: Showing::Trace,
    };
    run_image(alloc, shelf, out, image, &run)
}
