//! The top call: the words of the command line, carried out over a shelf and two sinks.
ghost use Rattle.std.specs.{Prelude.{map, option_map, Some}, String.{string_bytes}};
ghost use Rattle.osek_io.specs.Sunk.{sunk};
ghost use Rattle.commands.specs.Answering.{Carries, CommandAnswers, IsDueStatus};
ghost use Rattle.command_runs.specs.Outside.{outside};
ghost use Rattle.commands.specs.{Seen.{seen}, Words.{command_of}};

use crate::building::build;
use crate::certifying::certify;
use crate::checking::check;
use crate::generating::generate_and_run;
use crate::informing::info;
use crate::reporting::report;
use crate::showing::show;
use crate::telling::refuse;
use crate::tracing::{Texts, trace};
use crate::watching::watch;
use crate::words::{Command, command_from};
use command_runs::{Run, Showing, Stop, replay, upgrade};
use osek_io::{Shelf, Sink};
use std::alloc::Global;

/// Carries out a command.
fn carry_out<F: Shelf, O: Sink>(
    alloc: Global,
    command: &Command<'_>,
    shelf: &mut F,
    out: &mut O,
) -> Result<(), Stop>
    ensures { CommandAnswers (outside F.Shelf O.Sink shelf.old out.old) (outside F.Shelf O.Sink shelf.new out.new) (Some (seen command.now)) result }
{
    match command {
        Command::Build { oil, code, image } => build(alloc, shelf, oil, code, image),
        Command::Replay {
            image,
            mode,
            events,
        } => {
            let run = Run {
                mode,
                events,
                showing: Showing::Trace,
            };
            replay(alloc, shelf, out, image, &run)
        }
        Command::Trace {
            oil,
            code,
            mode,
            events,
        } => trace(alloc, shelf, out, &Texts { oil, code }, mode, events),
        Command::Show { oil, code } => show(alloc, shelf, out, oil, code),
        Command::Report { oil, code } => report(alloc, shelf, out, oil, code),
        Command::Info { image } => info(alloc, shelf, out, image),
        Command::Gen { seed, tasks } => generate_and_run(alloc, out, *seed, *tasks),
        Command::Upgrade { image, upgraded } => upgrade(alloc, shelf, image, upgraded),
        Command::Certify {
            oil,
            code,
            image,
            table,
        } => certify(alloc, shelf, oil, code, image, table),
        Command::Check { image, table } => check(alloc, shelf, out, image, table),
        Command::Record {
            image,
            mode,
            events,
        } => {
            let run = Run {
                mode,
                events,
                showing: Showing::Points,
            };
            replay(alloc, shelf, out, image, &run)
        }
        Command::Watch { oil, code, points } => watch(alloc, shelf, out, oil, code, points),
    }
}

/// Carries out a command, if the words are one.
fn carry_out_words<F: Shelf, O: Sink>(
    alloc: Global,
    command: &Option<Command<'_>>,
    shelf: &mut F,
    out: &mut O,
) -> Result<(), Stop>
    ensures { CommandAnswers (outside F.Shelf O.Sink shelf.old out.old) (outside F.Shelf O.Sink shelf.new out.new) (option_map seen command.now) result }
{
    match command {
        Some(command) => carry_out(alloc, command, shelf, out),
        None => Err(Stop::Usage),
    }
}

/// Carries out a command, if the words are one, and tells why it isn't done.
fn run_command<F: Shelf, O: Sink, E: Sink>(
    alloc: Global,
    command: &Option<Command<'_>>,
    shelf: &mut F,
    out: &mut O,
    err: &mut E,
) -> u8
    ensures does { Carries (outside F.Shelf O.Sink shelf.old out.old) (outside F.Shelf O.Sink shelf.new out.new) (sunk E.Sink err.old) (sunk E.Sink err.new) (option_map seen command.now) result }
    ensures exact { IsDueStatus (outside F.Shelf O.Sink shelf.old out.old) (outside F.Shelf O.Sink shelf.new out.new) (sunk E.Sink err.old) (sunk E.Sink err.new) (option_map seen command.now) result }
{
    match carry_out_words(alloc, command, shelf, out) {
        Ok(()) => 0,
        Err(stop) => refuse(err, command, &stop),
    }
}

/// Carries out the words, of which the first is the program's name, and answers the program's status:
/// `build OIL CODE IMAGE` stores the image that is fitted to the application that an OIL text and task code give;
/// `replay IMAGE MODE EVENTS` prints on `out` the trace of an image, from a start in a mode, under an event text;
/// `trace OIL CODE MODE EVENTS` prints the kernel's trace of the application of the two texts;
/// `show OIL CODE` prints the form of each of its call sites, its control-flow graph and its counts;
/// `report OIL CODE` prints what can't happen in any run of it;
/// `info IMAGE` prints the forms of an image, and of version 2 what it knows of statuses;
/// `gen SEED TASKS` makes a system from a number, runs it in memory, and prints what its analysis counts and how long its trace is;
/// `upgrade IN OUT` stores the image of version 2 that becomes of an image of version 1.
/// `certify OIL CODE IMAGE TABLE` stores what `build` does, and the least table of the application;
/// `check IMAGE TABLE` prints `yes` where the table shows that the image is the kernel of its application;
/// `record IMAGE MODE EVENTS` prints the points of an image as it runs: where the processor is after the start and after each event;
/// `watch OIL CODE RECORD` prints of such points whether each may follow the one before it in a run of the application, or the first that
/// may not.
/// It tells on `err` why the status isn't 0.
pub fn osekfit<F: Shelf, O: Sink, E: Sink>(
    alloc: Global,
    words: &[String],
    shelf: &mut F,
    out: &mut O,
    err: &mut E,
) -> u8
    ensures does { Carries (outside F.Shelf O.Sink shelf.old out.old) (outside F.Shelf O.Sink shelf.new out.new) (sunk E.Sink err.old) (sunk E.Sink err.new) (command_of (map string_bytes words.now)) result }
    ensures exact { IsDueStatus (outside F.Shelf O.Sink shelf.old out.old) (outside F.Shelf O.Sink shelf.new out.new) (sunk E.Sink err.old) (sunk E.Sink err.new) (command_of (map string_bytes words.now)) result }
{
    match command_from(alloc, words) {
        Ok(command) => run_command(alloc, &command, shelf, out, err),
        Err(_) => refuse(err, &None, &Stop::Memory),
    }
}
