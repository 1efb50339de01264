//! The command `build`: the image of an application.
ghost use Rattle.std.specs.Prelude.{IfOk};
ghost use Rattle.commands.specs.{Building.{BuildAnswers, SpellsFitted}, Fitting.{IsFitted}};
ghost use Rattle.osek_io.specs.Sunk.{Sunk};
ghost use Rattle.command_runs.specs.Outside.{beside, told};

use crate::compiling::compile;
use crate::fitting::{fitted, least_table};
use command_runs::{Output, Stop};
use image_codec::encode;
use image_model::Image;
use osek_io::{PutError, Shelf, store};
use osek_standard::App;
use osek_values::Memory;
use std::alloc::Global;

/// The image that is fitted to an application.
fn image_of(alloc: Global, app: App) -> Result<Image, Memory>
    ensures { IfOk result (IsFitted app) }
{
    let least = least_table(alloc, &app)?;
    let image = fitted(alloc, app, &least);
    drop(least);
    image
}

/// The bytes of that image.
fn image_bytes(alloc: Global, app: App) -> Result<Vec<u8>, Memory>
    ensures { IfOk result (λ v. SpellsFitted app v.items) }
{
    let image = image_of(alloc, app)?;
    let bytes = encode(alloc, &image);
    drop(image);
    Ok(bytes?)
}

/// Stores the image of the application that the two texts give. No file is written before the image is made.
pub fn build<F: Shelf>(
    alloc: Global,
    shelf: &mut F,
    oil: &str,
    code: &str,
    image: &str,
) -> Result<(), Stop>
    ensures answer { (out : Sunk) → BuildAnswers (beside (told F.Shelf shelf.old) out) (beside (told F.Shelf shelf.new) out) oil.now code.now image.now result }
{
    let bytes = match compile(alloc, shelf, oil, code) {
        Ok(app) => image_bytes(alloc, app),
        Err(stop) => return Err(stop),
    };
    let Ok(bytes) = bytes else {
        return Err(Stop::Memory);
    };
    match store(shelf, image, &bytes) {
        Ok(()) => Ok(()),
        Err(PutError::Write) => Err(Stop::Unstored(Output::Image)),
    }
}
