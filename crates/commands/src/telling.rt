//! The answer of a command: its text on err, and its status.
ghost use Rattle.std.specs.Prelude.{◌≡◌, ◌++◌, option_map, codes};
ghost use Rattle.osek_io.specs.Sunk.{sunk};
ghost use Rattle.commands.specs.{Answering.{Tells}, Names.{input_name, names_of as the_names}, Seen.{seen, seen_names}, Statuses.{stop_status, stop_text, text_input as the_text_input}};
ghost use Rattle.command_runs.specs.{CheckRules.{check_rule_name}, Telling.{TellsText, fault_text}};

use crate::names::{Names, names_of};
use crate::words::Command;
use command_runs::{Denial, Input, Stop, put_two, tell_fault};
use osek_io::{PutError, Sink};
use osek_values::TextFile;

/// The status where a write fails.
const UNWRITTEN: u8 = 6;

/// The status of a stop.
fn status(stop: &Stop) -> u8
    ensures { result ≡ stop_status stop.now }
{
    match stop {
        Stop::Refused(_) => 1,
        Stop::Usage => 2,
        Stop::Image(_) => 3,
        Stop::Events(_) => 4,
        Stop::Unread(_) => 5,
        Stop::Unstored(_) => UNWRITTEN,
        Stop::Unprinted => UNWRITTEN,
        Stop::Memory => 7,
        Stop::Trapped => 8,
        Stop::NoMode => 9,
        Stop::AlreadyNew => 10,
        Stop::Table(_) => 11,
        Stop::Denied(_) => 12,
        Stop::TooLong => 13,
        Stop::Record(_) => 14,
        Stop::Alarmed => 15,
    }
}

/// The input that holds a text.
fn text_input(file: TextFile) -> Input
    ensures { result ≡ the_text_input file }
{
    match file {
        TextFile::Oil => Input::Oil,
        TextFile::Code => Input::Code,
    }
}

/// Tells a fault at a place of an input.
fn tell_fault_in<E: Sink>(
    err: &mut E,
    names: &Names<'_>,
    input: Input,
    place: u64,
    rule: &[u8],
) -> Result<(), PutError>
    ensures { TellsText (sunk E.Sink err.old) (sunk E.Sink err.new) (fault_text (input_name (seen_names names.now) input) place rule.now) result }
{
    tell_fault(err, names.input(input).as_bytes(), place, rule)
}

/// Tells a word and what is said of it.
fn tell_of<E: Sink>(err: &mut E, word: &str, said: &[u8]) -> Result<(), PutError>
    ensures { TellsText (sunk E.Sink err.old) (sunk E.Sink err.new) (word.now ++ said.now) result }
{
    put_two(err, word.as_bytes(), said)
}

/// Tells which rule of a check is broken, and where.
fn tell_denial<E: Sink>(err: &mut E, table: &str, denial: &Denial) -> Result<(), PutError>
    ensures { TellsText (sunk E.Sink err.old) (sunk E.Sink err.new) ((table.now ++ codes ": ") ++ (check_rule_name denial.now.rule ++ codes " ") ++ (denial.now.place ++ codes "\n")) result }
{
    put_two(err, table.as_bytes(), b": ")?;
    put_two(err, denial.rule.name(), b" ")?;
    put_two(err, denial.place.as_slice(), b"\n")
}

/// Tells the text of a stop.
fn tell_stop<E: Sink>(err: &mut E, names: &Names<'_>, stop: &Stop) -> Result<(), PutError>
    ensures { TellsText (sunk E.Sink err.old) (sunk E.Sink err.new) (stop_text (seen_names names.now) stop.now) result }
{
    match stop {
        Stop::Refused(refusal) => {
            let input = text_input(refusal.file);
            tell_fault_in(err, names, input, refusal.line as u64, refusal.rule.name())
        }
        Stop::Usage => put_two(err, b"usage", b"\n"),
        Stop::Image(fault) => {
            tell_fault_in(
                err,
                names,
                Input::Image,
                fault.offset as u64,
                fault.rule.name(),
            )
        }
        Stop::Events(fault) => {
            tell_fault_in(
                err,
                names,
                Input::Events,
                fault.line as u64,
                fault.rule.name(),
            )
        }
        Stop::Unread(input) => tell_of(err, names.input(*input), b": read\n"),
        Stop::Unstored(output) => tell_of(err, names.output(*output), b": write\n"),
        Stop::Unprinted => put_two(err, b"out", b": write\n"),
        Stop::Memory => put_two(err, b"memory", b"\n"),
        Stop::Trapped => Ok(()),
        Stop::NoMode => tell_of(err, names.mode, b": no such mode\n"),
        Stop::AlreadyNew => tell_of(err, names.image, b": version 2\n"),
        Stop::Table(fault) => tell_fault_in(
            err,
            names,
            Input::Table,
            fault.offset as u64,
            fault.rule.name(),
        ),
        Stop::Denied(denial) => tell_denial(err, names.table, denial),
        Stop::TooLong => tell_of(err, names.table, b": too long\n"),
        Stop::Record(fault) => {
            tell_fault_in(
                err,
                names,
                Input::Record,
                fault.line as u64,
                fault.rule.name(),
            )
        }
        Stop::Alarmed => Ok(()),
    }
}

/// Tells why a command stopped.
pub fn refuse<E: Sink>(err: &mut E, command: &Option<Command<'_>>, stop: &Stop) -> u8
    ensures { Tells (sunk E.Sink err.old) (sunk E.Sink err.new) (stop_text (the_names (option_map seen command.now)) stop.now) (stop_status stop.now) result }
{
    let names = names_of(command);
    match tell_stop(err, &names, stop) {
        Ok(()) => status(stop),
        Err(PutError::Write) => UNWRITTEN,
    }
}
