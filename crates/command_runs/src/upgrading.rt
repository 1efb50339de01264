//! The command `upgrade`: the image of version 2 that becomes of an image of version 1.
ghost use Rattle.std.specs.Prelude.{◌≡◌, ◌⊎◌, IfOk, IfErr};
ghost use Rattle.image_model.specs.declared.image.Version.TheVariants as a_version;
ghost use Rattle.image_codec.specs.Spelling.{spelling};
ghost use Rattle.osek_io.specs.Sunk.{Sunk};
ghost use Rattle.command_runs.specs.{Outside.{beside, told}, Upgrading.{SpellsUpgraded, UpgradeAnswers}};
ghost use Rattle.command_runs.specs.declared.stop.Stop.TheVariants as a_stop;

use crate::replaying::load_image;
use crate::stop::{Output, Stop};
use image_codec::encode;
use image_model::Image;
use osek_io::{PutError, Shelf, store};
use osek_values::Memory;
use std::alloc::Global;

/// The bytes of an image, which is let go.
fn bytes_of(alloc: Global, image: Image) -> Result<Vec<u8>, Memory>
    ensures { IfOk result (λ v. v.items ≡ spelling image) }
{
    let bytes = encode(alloc, &image);
    drop(image);
    Ok(bytes?)
}

/// The bytes of what becomes of an image that is upgraded.
fn upgraded_bytes(alloc: Global, mut image: Image) -> Result<Vec<u8>, Stop>
    ensures bytes { IfOk result (λ v. SpellsUpgraded image v.items) }
    ensures stop { IfErr result (λ s. (s ≡ a_stop.Memory) ⊎ ((s ≡ a_stop.AlreadyNew) × (image.version ≡ a_version.Two))) }
{
    match image_model::upgrade(&mut image) {
        Ok(()) => match bytes_of(alloc, image) {
            Ok(bytes) => Ok(bytes),
            Err(_) => Err(Stop::Memory),
        },
        Err(_) => {
            drop(image);
            Err(Stop::AlreadyNew)
        }
    }
}

/// Stores what becomes of the image that a file's bytes spell, once it is upgraded. No file is written before that is made,
/// so both names may be one.
pub fn upgrade<F: Shelf>(
    alloc: Global,
    shelf: &mut F,
    image: &str,
    upgraded: &str,
) -> Result<(), Stop>
    ensures answer { (out : Sunk) → UpgradeAnswers (beside (told F.Shelf shelf.old) out) (beside (told F.Shelf shelf.new) out) image.now upgraded.now result }
{
    let loaded = match load_image(alloc, shelf, image) {
        Ok(image) => image,
        Err(stop) => return Err(stop),
    };
    let bytes = match upgraded_bytes(alloc, loaded) {
        Ok(bytes) => bytes,
        Err(stop) => return Err(stop),
    };
    match store(shelf, upgraded, &bytes) {
        Ok(()) => Ok(()),
        Err(PutError::Write) => Err(Stop::Unstored(Output::Upgraded)),
    }
}
