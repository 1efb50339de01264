//! The command `check`: whether a table shows that an image is the kernel.
ghost use Rattle.std.specs.Prelude.{◌≡◌, ◌<◌, ◌⊎◌, length, slice_index_or, [], Err, IfOk, IfErr, OnOk, codes};
ghost use Rattle.osek_io.specs.{Counts.{Same}, Reads.{OnlyReads}, Sunk.{sunk}};
ghost use Rattle.osek_standard.specs.Points.{IsPoint};
ghost use Rattle.abstract_state.specs.Written.{IsWritten};
ghost use Rattle.trace_text.specs.PointTexts.{block_text, point_text};
ghost use Rattle.command_runs.specs.{Inputs.{OfFile}, Outside.{outside, beside, told, Told}};
ghost use Rattle.commands.specs.{Checking.{CheckAnswers, SpellTable, TableStops, HasKnownPlace, IsSaid}, Due.{CheckDue}, Printing.{PrintAnswers}};
ghost use Rattle.command_runs.specs.declared.stop.Stop.TheVariants as a_stop;

use command_runs::{CheckRule, Denial, Input, Stop, load_image, load_input};
use flow_check::Verdict;
use image_model::Image;
use osek_io::{PutError, Shelf, Sink, put_all};
use osek_standard::{App, Point};
use osek_values::{BlockNo, Memory, ModeNo, Seq};
use std::alloc::Global;
use table_codec::{Table, TableError, read_table};
use trace_text::{MAX_POINT, put_block, put_point};

/// The table of an application that a file's bytes spell.
fn load_table<F: Shelf>(alloc: Global, shelf: &mut F, app: &App, table: &str) -> Result<Table, Stop>
    ensures table { IfOk result (λ t. OfFile (F.contents shelf.old) table.now (λ b. SpellTable app.now b t)) }
    ensures written { IfOk result (IsWritten app.now) }
    ensures stop { IfErr result (TableStops (told F.Shelf shelf.old) (told F.Shelf shelf.new) table.now app.now) }
    ensures same { OnlyReads F.Shelf shelf.old shelf.new }
    ensures no_fault { OnOk result (Same (F.read_faults shelf.old) (F.read_faults shelf.new)) }
{
    let bytes = match load_input(alloc, shelf, Input::Table, table) {
        Ok(bytes) => bytes,
        Err(stop) => return Err(stop),
    };
    match read_table(alloc, app, &bytes) {
        Ok(table) => Ok(table),
        Err(TableError::Fault(fault)) => Err(Stop::Table(fault)),
        Err(TableError::Memory) => Err(Stop::Memory),
    }
}

fn text_of(alloc: Global, bytes: &[u8]) -> Result<Seq<u8>, Memory>
    ensures { IfOk result (λ text. text ≡ bytes.now) }
{
    Ok(Seq::of(Vec::from_slice(alloc, bytes)?))
}

fn block_place(alloc: Global, block: BlockNo) -> Result<Seq<u8>, Memory>
    ensures { IfOk result (λ text. text ≡ block_text block.0) }
{
    let mut text = [0u8; MAX_POINT];
    let size = put_block(&mut text, 0, block);
    text_of(alloc, &text[..size])
}

fn point_place(alloc: Global, app: &App, point: Point) -> Result<Seq<u8>, Memory>
    requires { IsPoint app.now point }
    ensures { IfOk result (λ text. text ≡ point_text app.now point) }
{
    let mut text = [0u8; MAX_POINT];
    let size = put_point(&mut text, 0, app, point);
    text_of(alloc, &text[..size])
}

fn mode_place(alloc: Global, app: &App, mode: ModeNo) -> Result<Seq<u8>, Memory>
    requires { mode.0 < length app.now.modes }
    ensures { IfOk result (λ text. text ≡ slice_index_or app.now.modes mode.0 []) }
{
    text_of(alloc, app.modes.at(mode.0 as usize).as_bytes())
}

/// What is told where the check says no.
fn denial(alloc: Global, app: &App, verdict: Verdict) -> Result<Option<Denial>, Memory>
    requires { HasKnownPlace app.now verdict }
    ensures { IfOk result (IsSaid app.now verdict) }
{
    match verdict {
        Verdict::Yes => Ok(None),
        Verdict::N1(mode) => {
            let rule = CheckRule::N1;
            let place = mode_place(alloc, app, mode)?;
            Ok(Some(Denial { rule, place }))
        }
        Verdict::N2(point) => {
            let rule = CheckRule::N2;
            let place = point_place(alloc, app, point)?;
            Ok(Some(Denial { rule, place }))
        }
        Verdict::N3(block) => {
            let rule = CheckRule::N3;
            let place = block_place(alloc, block)?;
            Ok(Some(Denial { rule, place }))
        }
        Verdict::N4(block) => {
            let rule = CheckRule::N4;
            let place = block_place(alloc, block)?;
            Ok(Some(Denial { rule, place }))
        }
    }
}

/// Checks an image and a table.
fn judge(alloc: Global, image: &Image, table: &Table) -> Result<(), Stop>
    requires { IsWritten image.now.app table.now }
    ensures { (result ≡ Err a_stop.Memory) ⊎ CheckDue image.now table.now result }
{
    let Ok(verdict) = flow_check::check(alloc, image, table) else {
        return Err(Stop::Memory);
    };
    match denial(alloc, &image.app, verdict) {
        Ok(None) => Ok(()),
        Ok(Some(denial)) => Err(Stop::Denied(denial)),
        Err(_) => Err(Stop::Memory),
    }
}

/// Prints yes, all of it or a prefix.
fn print_yes<O: Sink>(out: &mut O) -> Result<(), Stop>
    ensures { (shelf : Told) → PrintAnswers (beside shelf (sunk O.Sink out.old)) (beside shelf (sunk O.Sink out.new)) (codes "yes\n") result }
{
    match put_all(out, b"yes\n") {
        Ok(()) => Ok(()),
        Err(PutError::Write) => Err(Stop::Unprinted),
    }
}

/// Prints yes where the table that the one file's bytes spell shows that the image of the other is the kernel.
pub fn check<F: Shelf, O: Sink>(
    alloc: Global,
    shelf: &mut F,
    out: &mut O,
    image: &str,
    table: &str,
) -> Result<(), Stop>
    ensures answer { CheckAnswers (outside F.Shelf O.Sink shelf.old out.old) (outside F.Shelf O.Sink shelf.new out.new) image.now table.now result }
    ensures same { OnlyReads F.Shelf shelf.old shelf.new }
{
    let image = match load_image(alloc, shelf, image) {
        Ok(image) => image,
        Err(stop) => return Err(stop),
    };
    let table = match load_table(alloc, shelf, &image.app, table) {
        Ok(table) => table,
        Err(stop) => return Err(stop),
    };
    match judge(alloc, &image, &table) {
        Ok(()) => print_yes(out),
        Err(stop) => Err(stop),
    }
}
