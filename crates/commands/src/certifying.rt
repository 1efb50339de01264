//! The command `certify`: the image of an application, and the table that shows that it is the kernel.
ghost use Rattle.std.specs.Prelude.{◌≡◌, ◌≤◌, length, Err, IfOk};
ghost use Rattle.osek_values.specs.declared.limits.TheConstants.{MAX_TABLE};
ghost use Rattle.osek_io.specs.Sunk.{Sunk};
ghost use Rattle.table_codec.specs.declared.fault.WriteFault.TheVariants as a_fault;
ghost use Rattle.table_codec.specs.Spelling.{spelling as table_spelling};
ghost use Rattle.command_runs.specs.Outside.{beside, told};
ghost use Rattle.commands.specs.{Certifying.{CertifyAnswers, SpellCertified, IsTableTooLong, StoreAnswers}, Fitting.{IsLeastExplored}};

use crate::compiling::compile;
use crate::fitting::{fitted, least_table};
use command_runs::{Output, Stop};
use image_codec::encode;
use osek_io::{PutError, Shelf, store};
use osek_standard::App;
use osek_values::Memory;
use state_flow::Explored;
use std::alloc::Global;
use table_codec::{WriteFault, write_table};

/// The bytes of an image, and of the table that it is fitted by.
#[derive(Drop)]
struct Certified {
    image: Vec<u8>,
    table: Vec<u8>,
}

/// The bytes of the image that is fitted to an application, which is let go, beside those of the table.
fn beside_image(
    alloc: Global,
    app: App,
    least: &Explored,
    table: Vec<u8>,
) -> Result<Certified, Memory>
    requires least { IsLeastExplored app least.now }
    requires spelled { table.items ≡ table_spelling app least.now.table }
    requires within { length table.items ≤ MAX_TABLE }
    ensures { IfOk result (λ x. SpellCertified app x.image.items x.table.items) }
{
    let fitted = fitted(alloc, app, least)?;
    let image = encode(alloc, &fitted)?;
    Ok(Certified { image, table })
}

/// The bytes of both. The table is written before the image is made, since it may be over its limit.
fn certified_bytes(alloc: Global, app: App) -> Result<Certified, WriteFault>
    ensures bytes { IfOk result (λ x. SpellCertified app x.image.items x.table.items) }
    ensures too_long { result ≡ Err a_fault.TooLong → IsTableTooLong app }
{
    let least = least_table(alloc, &app)?;
    let table = write_table(alloc, &app, &least.table)?;
    match beside_image(alloc, app, &least, table) {
        Ok(certified) => Ok(certified),
        Err(_) => Err(WriteFault::Memory),
    }
}

/// Stores the image, and then the table.
fn store_both<F: Shelf>(
    shelf: &mut F,
    image: &str,
    table: &str,
    bytes: &Certified,
) -> Result<(), Stop>
    ensures { StoreAnswers (told F.Shelf shelf.old) (told F.Shelf shelf.new) image.now table.now bytes.now.image.items bytes.now.table.items result }
{
    match store(shelf, image, &bytes.image) {
        Ok(()) => {}
        Err(PutError::Write) => return Err(Stop::Unstored(Output::Image)),
    }
    match store(shelf, table, &bytes.table) {
        Ok(()) => Ok(()),
        Err(PutError::Write) => Err(Stop::Unstored(Output::Table)),
    }
}

/// Stores the image of the application that the two texts give, and its least table. No file is written before both are
/// made.
pub fn certify<F: Shelf>(
    alloc: Global,
    shelf: &mut F,
    oil: &str,
    code: &str,
    image: &str,
    table: &str,
) -> Result<(), Stop>
    ensures answer { (out : Sunk) → CertifyAnswers (beside (told F.Shelf shelf.old) out) (beside (told F.Shelf shelf.new) out) oil.now code.now image.now table.now result }
{
    let app = match compile(alloc, shelf, oil, code) {
        Ok(app) => app,
        Err(stop) => return Err(stop),
    };
    match certified_bytes(alloc, app) {
        Ok(bytes) => store_both(shelf, image, table, &bytes),
        Err(WriteFault::TooLong) => Err(Stop::TooLong),
        Err(WriteFault::Memory) => Err(Stop::Memory),
    }
}
