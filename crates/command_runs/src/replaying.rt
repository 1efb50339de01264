//! The commands `replay` and `record`: the trace or the points of an image under an event text.
ghost use Rattle.std.specs.Prelude.{IfOk, IfErr, OnOk};
ghost use Rattle.osek_io.specs.{Counts.{Same}, Reads.{OnlyReads}};
ghost use Rattle.command_runs.specs.{Inputs.{OfFile}, Outside.{outside, told}, Replaying.{SpellImage, ImageStops, ReplayAnswers}};

use crate::inputs::load_input;
use crate::running::{Run, run_image};
use crate::stop::{Input, Stop};
use image_codec::{ImageError, decode};
use image_model::Image;
use osek_io::{Shelf, Sink};
use std::alloc::Global;

/// The image that a file's bytes spell.
pub fn load_image<F: Shelf>(alloc: Global, shelf: &mut F, image: &str) -> Result<Image, Stop>
    ensures image { IfOk result (λ i. OfFile (F.contents shelf.old) image.now (λ b. SpellImage b i)) }
    ensures stop { IfErr result (ImageStops (told F.Shelf shelf.old) (told F.Shelf shelf.new) image.now) }
    ensures same { OnlyReads F.Shelf shelf.old shelf.new }
    ensures no_fault { OnOk result (Same (F.read_faults shelf.old) (F.read_faults shelf.new)) }
{
    let bytes = match load_input(alloc, shelf, Input::Image, image) {
        Ok(bytes) => bytes,
        Err(stop) => return Err(stop),
    };
    match decode(alloc, &bytes) {
        Ok(image) => Ok(image),
        Err(ImageError::Fault(fault)) => Err(Stop::Image(fault)),
        Err(ImageError::Memory) => Err(Stop::Memory),
    }
}

/// Prints what is shown of the image that a file's bytes spell, as it runs.
pub fn replay<F: Shelf, O: Sink>(
    alloc: Global,
    shelf: &mut F,
    out: &mut O,
    image: &str,
    run: &Run<'_>,
) -> Result<(), Stop>
    ensures answer { ReplayAnswers run.now.showing (outside F.Shelf O.Sink shelf.old out.old) (outside F.Shelf O.Sink shelf.new out.new) image.now run.now.mode.now run.now.events.now result }
    ensures same { OnlyReads F.Shelf shelf.old shelf.new }
{
    let image = match load_image(alloc, shelf, image) {
        Ok(image) => image,
        Err(stop) => return Err(stop),
    };
    run_image(alloc, shelf, out, image, run)
}
