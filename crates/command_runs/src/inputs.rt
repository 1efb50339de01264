//! The inputs of the commands: each is loaded within its limit, or read piece by piece as event texts and records are, or stops
//! the command.
ghost use Rattle.std.specs.Prelude.{◌≡◌, ◌≤◌, ◌==◌, ◌⊎◌, false, length, IfOk, IfErr, OnOk, OnErr, Err};
ghost use Rattle.osek_io.specs.{Counts.{Rose, Same}, Files.{IsMissing}, Reads.{OnlyReads}};
ghost use Rattle.command_runs.specs.{Outside.{told}, Inputs.{OfFile, ReadsOn, NotLoaded, limit_of as the_limit, over_limit as the_stop_over_limit, unloaded as unloaded_stop}};

use crate::stop::{Input, Stop};
use image_codec::{ImageFault, ImageRule};
use osek_io::{LoadError, Shelf, load};
use osek_values::limits::{MAX_EVENT_LINE, MAX_EVENT_TEXT, MAX_FILE, MAX_RECORD, MAX_TABLE};
use osek_values::{LexRule, Refusal, Rule, TextFile};
use std::alloc::Global;
use table_codec::{TableFault, TableRule};
use trace_text::{EventFault, FaultyLine, FaultyPoint, Feed, PointFault};

/// How many bytes of a text of lines are read at once.
const PIECE: usize = 65_536;

/// How many bytes an input has at most.
fn limit_of(input: Input) -> u64
    ensures { result ≡ the_limit input }
{
    match input {
        Input::Oil => MAX_FILE as u64,
        Input::Code => MAX_FILE as u64,
        Input::Image => MAX_FILE as u64,
        Input::Table => MAX_TABLE as u64,
        Input::Events => MAX_EVENT_TEXT as u64,
        Input::Record => MAX_RECORD as u64,
    }
}

/// Why an input over its limit stops a command.
fn over_limit(input: Input) -> Stop
    ensures { result ≡ the_stop_over_limit input }
{
    match input {
        Input::Oil => Stop::Refused(Refusal {
            file: TextFile::Oil,
            line: 0,
            rule: Rule::Lex(LexRule::L6),
        }),
        Input::Code => Stop::Refused(Refusal {
            file: TextFile::Code,
            line: 0,
            rule: Rule::Lex(LexRule::L6),
        }),
        Input::Image => Stop::Image(ImageFault {
            rule: ImageRule::I7,
            offset: MAX_FILE,
        }),
        Input::Table => Stop::Table(TableFault {
            rule: TableRule::K6,
            offset: MAX_TABLE,
        }),
        Input::Events => Stop::Events(FaultyLine {
            line: 0,
            rule: EventFault::E4,
        }),
        Input::Record => Stop::Record(FaultyPoint {
            line: 0,
            rule: PointFault::G4,
        }),
    }
}

/// Why an input that isn't loaded stops a command.
fn unloaded(input: Input, error: LoadError) -> Stop
    ensures { result ≡ unloaded_stop input error }
{
    match error {
        LoadError::Read => Stop::Unread(input),
        LoadError::TooLong => over_limit(input),
        LoadError::Memory => Stop::Memory,
    }
}

/// The bytes of an input.
pub fn load_input<F: Shelf>(
    alloc: Global,
    shelf: &mut F,
    input: Input,
    name: &str,
) -> Result<Vec<u8>, Stop>
    ensures bytes { IfOk result (λ v. OfFile (F.contents shelf.old) name.now (λ b. b ≡ v.items)) }
    ensures within { IfOk result (λ v. length v.items ≤ the_limit input) }
    ensures stop { IfErr result (NotLoaded (told F.Shelf shelf.old) (told F.Shelf shelf.new) input name.now) }
    ensures same { OnlyReads F.Shelf shelf.old shelf.new }
    ensures no_fault { OnOk result (Same (F.read_faults shelf.old) (F.read_faults shelf.new)) }
{
    match load(alloc, shelf, name, limit_of(input)) {
        Ok(bytes) => Ok(bytes),
        Err(error) => Err(unloaded(input, error)),
    }
}

/// Judges the length of an input, by the one byte that none within its limit has.
pub fn judge_length<F: Shelf>(shelf: &mut F, input: Input, name: &str) -> Result<(), Stop>
    ensures within { OnOk result (OfFile (F.contents shelf.old) name.now (λ text. length text ≤ the_limit input)) }
    ensures stop { IfErr result (NotLoaded (told F.Shelf shelf.old) (told F.Shelf shelf.new) input name.now) }
    ensures same { OnlyReads F.Shelf shelf.old shelf.new }
    ensures no_fault { OnOk result (Same (F.read_faults shelf.old) (F.read_faults shelf.new)) }
{
    let mut byte = [0u8; 1];
    match shelf.read(name, limit_of(input), &mut byte) {
        Ok(0) => Ok(()),
        Ok(_) => Err(over_limit(input)),
        Err(_) => Err(Stop::Unread(input)),
    }
}

/// Gives a feed the next bytes of a text of lines of which so many were taken, or finishes it behind the last. It answers
/// how many they are.
pub fn read_on<F: Shelf>(
    shelf: &mut F,
    input: Input,
    name: &str,
    taken: usize,
    feed: &mut Feed,
) -> Result<usize, Stop>
    requires few { taken ≤ MAX_EVENT_TEXT }
    requires not_finished { feed.old.finished ≡ false }
    requires room { length feed.old.ahead ≤ MAX_EVENT_LINE }
    ensures more { IfOk result (ReadsOn (F.contents shelf.old) name.now taken feed.old.ahead feed.new.ahead) }
    ensures finished { IfOk result (λ n. feed.new.finished ≡ (n == 0)) }
    ensures stop { OnErr result (result ≡ Err (Stop.Unread input)) }
    ensures cause { OnErr result (Rose (F.read_faults shelf.old name.now taken) (F.read_faults shelf.new name.now taken) ⊎ IsMissing (F.contents shelf.old) name.now) }
    ensures same { OnlyReads F.Shelf shelf.old shelf.new }
    ensures no_fault { OnOk result (Same (F.read_faults shelf.old) (F.read_faults shelf.new)) }
{
    let mut piece = [0u8; PIECE];
    let want = PIECE.min(MAX_EVENT_TEXT - taken);
    match shelf.read(name, taken as u64, &mut piece[..want]) {
        Ok(0) => {
            feed.finish();
            Ok(0)
        }
        Ok(count) => Ok(feed.give(&piece[..count])),
        Err(_) => Err(Stop::Unread(input)),
    }
}
