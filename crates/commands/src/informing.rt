//! The command `info`: the counts and the forms of an image.
ghost use Rattle.std.specs.Prelude.{◌≡◌, ◌≤◌, length, OnOk, OnErr};
ghost use Rattle.osek_io.specs.Reads.{OnlyReads};
ghost use Rattle.flow_text.specs.Texts.{info_text};
ghost use Rattle.commands.specs.Informing.{InfoAnswers};
ghost use Rattle.command_runs.specs.Outside.{outside};
ghost use Rattle.commands.specs.Printing.{PrintsWhole};
ghost use Rattle.osek_io.specs.Sunk.{sunk};
ghost use Rattle.command_runs.specs.Playing.{given, Puts, PutsPrefix};

use crate::printing::{print_info, print_sites};
use command_runs::{Stop, line_room, load_image};
use image_model::Image;
use osek_io::{PutBuffer, PutError, Shelf, Sink};
use osek_values::limits::LINE_MAX;
use std::alloc::Global;

/// Prints the text of an image, or holds back its end.
fn print_image<O: Sink>(
    out: &mut O,
    buffer: &mut PutBuffer,
    image: &Image,
    line: &mut [u8],
) -> Result<(), PutError>
    requires room { LINE_MAX ≤ length line.old }
    ensures ok { OnOk result (Puts (given (sunk O.Sink out.old) buffer.old) (given (sunk O.Sink out.new) buffer.new) (info_text image.now)) }
    ensures prefix { OnErr result (PutsPrefix (given (sunk O.Sink out.old) buffer.old) (given (sunk O.Sink out.new) buffer.new) (info_text image.now)) }
{
    print_info(out, buffer, image, line)?;
    print_sites(out, buffer, image, image.version, line)?;
    Ok(())
}

/// Prints all of it, with room for a line and for what is held back.
fn print_told<O: Sink>(alloc: Global, out: &mut O, image: &Image) -> Result<(), Stop>
    ensures { PrintsWhole (sunk O.Sink out.old) (sunk O.Sink out.new) (info_text image.now) result }
{
    let Ok(mut line) = line_room(alloc) else {
        return Err(Stop::Memory);
    };
    let Ok(mut buffer) = PutBuffer::new(alloc) else {
        return Err(Stop::Memory);
    };
    match print_image(out, &mut buffer, image, &mut line) {
        Ok(()) => {}
        Err(PutError::Write) => return Err(Stop::Unprinted),
    }
    match buffer.flush(out) {
        Ok(()) => Ok(()),
        Err(PutError::Write) => Err(Stop::Unprinted),
    }
}

/// Prints the counts and the forms of the image that a file's bytes spell.
pub fn info<F: Shelf, O: Sink>(
    alloc: Global,
    shelf: &mut F,
    out: &mut O,
    image: &str,
) -> Result<(), Stop>
    ensures answer { InfoAnswers (outside F.Shelf O.Sink shelf.old out.old) (outside F.Shelf O.Sink shelf.new out.new) image.now result }
    ensures same { OnlyReads F.Shelf shelf.old shelf.new }
{
    let image = match load_image(alloc, shelf, image) {
        Ok(image) => image,
        Err(stop) => return Err(stop),
    };
    let printed = print_told(alloc, out, &image);
    drop(image);
    printed
}
