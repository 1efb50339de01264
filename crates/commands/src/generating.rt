//! The command `gen`: a system that is made from a number, and run in memory.
ghost use Rattle.std.specs.Prelude.{◌≡◌, ◌⊎◌, ◌≤◌, ◌<◌, length, Some, Err, IfOk, IfErr};
ghost use Rattle.osek_values.specs.declared.limits.TheConstants.{MAX_TASKS};
ghost use Rattle.osek_io.specs.{Files.{Files}, Sunk.{sunk}};
ghost use Rattle.flow_text.specs.GeneratedLine.{text_size, gen_line};
ghost use Rattle.command_runs.specs.declared.stop.Stop.TheVariants as a_stop;
ghost use Rattle.commands.specs.{Due.{OwnDue}, Fitting.{IsKernelImage}, GeneratedFiles.{text_files, generated_files, own_stop as the_own_stop}};
ghost use Rattle.commands.specs.Generating.{AreLeastCounts, IsDefaultTrace, OfOwn, GenAnswers};
ghost use Rattle.command_runs.specs.Outside.{beside, Told};
ghost use Rattle.commands.specs.Printing.{PrintAnswers};

use crate::compiling::compile;
use crate::fitting::{fitted, least_table};
use crate::kept_text::KeptText;
use command_runs::{Run, Showing, Stop, line_room, run_image};
use flow_text::{AnalysisCounts, TextSize, analysis_counts, write_gen_line};
use image_model::Image;
use osek_io::{MemShelf, PutError, Shelf, Sink, put_all};
use osek_standard::App;
use osek_values::Memory;
use osek_values::limits::LINE_MAX;
use osek_vectors::{GenerateError, Generated, generate};
use state_flow::values;
use std::alloc::Global;

const OIL: &str = "oil";

const CODE: &str = "code";

const EVENTS: &str = "events";

const DEFAULT_MODE: &str = "OSDEFAULTAPPMODE";

/// An image, and what the analysis of its application counts.
#[derive(Drop)]
pub struct Analyzed {
    pub image: Image,
    pub counts: AnalysisCounts,
}

/// What is known of a system that was run in memory.
#[derive(Drop)]
pub struct Ran {
    pub counts: AnalysisCounts,
    pub trace: KeptText,
}

/// Why a run in memory stops the command.
fn own_stop(stop: Stop) -> Stop
    ensures { result ≡ the_own_stop stop }
{
    match stop {
        Stop::Unread(_) => Stop::Memory,
        Stop::Unprinted => Stop::Memory,
        other => other,
    }
}

/// The texts as files.
fn shelf_of(alloc: Global, texts: &Generated) -> Result<MemShelf, Memory>
    ensures { IfOk result (λ s. s.files ≡ text_files texts.now) }
{
    let mut shelf = MemShelf::new(alloc, Vec::new(alloc));
    shelf.set(OIL, Some(texts.oil.as_slice()), 0)?;
    shelf.set(CODE, Some(texts.code.as_slice()), 0)?;
    shelf.set(EVENTS, Some(texts.events.as_slice()), 0)?;
    Ok(shelf)
}

/// The files of a generated system, in memory.
fn generated_shelf(alloc: Global, seed: u64, tasks: u32) -> Result<MemShelf, Memory>
    ensures files { IfOk result (λ s. s.files ≡ generated_files seed tasks) }
    ensures few { IfOk result (λ _. (0 < tasks) × (tasks ≤ MAX_TASKS)) }
{
    match generate(alloc, seed, tasks) {
        Ok(texts) => shelf_of(alloc, &texts),
        Err(GenerateError::Memory) => Err(Memory),
        // The words have said a number of tasks that is in its range.
        Err(GenerateError::Tasks) => Err(Memory),
    }
}

/// The image that is fitted to an application, and the counts of its analysis.
fn analyze(alloc: Global, app: App) -> Result<Analyzed, Memory>
    ensures image { IfOk result (λ x. IsKernelImage app x.image) }
    ensures counts { IfOk result (λ x. AreLeastCounts app x.counts) }
{
    let least = least_table(alloc, &app)?;
    let values = values(&app, &least.table);
    let image = fitted(alloc, app, &least);
    drop(least);
    let image = image?;
    let counts = analysis_counts(&image, values);
    Ok(Analyzed { image, counts })
}

/// Runs the system that is there in memory.
fn run_system<F: Shelf>(alloc: Global, shelf: &mut F) -> Result<Ran, Stop>
    ensures run { IfOk result (λ x. OfOwn (F.contents shelf.old) (λ app text. AreLeastCounts app x.counts × IsDefaultTrace app text x.trace.bytes)) }
    ensures stop { (files : Files) → F.contents shelf.old ≡ Some files → IfErr result (λ s. (s ≡ a_stop.Memory) ⊎ OwnDue files (Err s)) }
{
    let app = match compile(alloc, shelf, OIL, CODE) {
        Ok(app) => app,
        Err(stop) => return Err(own_stop(stop)),
    };
    let Ok(analyzed) = analyze(alloc, app) else {
        return Err(Stop::Memory);
    };
    let Analyzed { image, counts } = analyzed;
    let mut trace = KeptText::new(alloc);
    let run = Run {
        mode: DEFAULT_MODE,
        events: EVENTS,
        showing: Showing::Trace,
    };
    match run_image(alloc, shelf, &mut trace, image, &run) {
        Ok(()) => Ok(Ran { counts, trace }),
        Err(stop) => {
            drop(trace);
            Err(own_stop(stop))
        }
    }
}

/// Prints the line of a system that was run.
fn print_ran<O: Sink>(out: &mut O, ran: &Ran, line: &mut [u8]) -> Result<(), Stop>
    requires room { LINE_MAX ≤ length line.old }
    ensures { (shelf : Told) → PrintAnswers (beside shelf (sunk O.Sink out.old)) (beside shelf (sunk O.Sink out.new)) (gen_line ran.now.counts (text_size ran.now.trace.bytes)) result }
{
    let size = write_gen_line(ran.counts, TextSize::of(ran.trace.bytes()), line);
    match put_all(out, &line[..size]) {
        Ok(()) => Ok(()),
        Err(PutError::Write) => Err(Stop::Unprinted),
    }
}

/// Makes a system from a seed for a number of tasks, analyzes and runs it in memory, and prints what its analysis counts
/// and how long its trace is. All memory is taken before the line is printed. It needs no file.
pub fn generate_and_run<O: Sink>(
    alloc: Global,
    out: &mut O,
    seed: u64,
    tasks: u32,
) -> Result<(), Stop>
    ensures { (shelf : Told) → GenAnswers (beside shelf (sunk O.Sink out.old)) (beside shelf (sunk O.Sink out.new)) seed tasks result }
{
    let Ok(mut shelf) = generated_shelf(alloc, seed, tasks) else {
        return Err(Stop::Memory);
    };
    let ran = match run_system(alloc, &mut shelf) {
        Ok(ran) => ran,
        Err(stop) => return Err(stop),
    };
    let Ok(mut line) = line_room(alloc) else {
        return Err(Stop::Memory);
    };
    print_ran(out, &ran, &mut line)
}
