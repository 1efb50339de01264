//! What one line of an event text says.
ghost use Rattle.std.specs.{Prelude.{◌≡◌, [], ◌∷◌, ◌++◌, codes, not, IfSome, MatchOption, Ok, Some}, List.{position, position_or_len}};
ghost use Rattle.trace_text.specs.EventWords.{is_blank as is_a_blank, is_comment as is_a_comment, words, run_by, isr_named, counter_named, said_by, said, read_line};

use crate::fault::EventFault;
use osek_standard::App;
use osek_values::limits::MAX_EVENT_LINE;
use osek_values::{CounterNo, Event, IsrNo};

const RUN: &[u8] = b"run";

const IRQ: &[u8] = b"irq";

const TICK: &[u8] = b"tick";

const ZERO: &[u8] = b"0";

const ONE: &[u8] = b"1";

fn is_blank(byte: u8) -> bool
    ensures { result ≡ is_a_blank byte }
{
    byte == b' ' || byte == b'\t'
}

pub(crate) fn is_comment(word: &[u8]) -> bool
    ensures { result ≡ is_a_comment word.now }
{
    match word {
        [first, ..] => *first == b'#',
        [] => false,
    }
}

// Where the first word begins.
fn word_start(line: &[u8]) -> Option<usize>
    ensures { result ≡ position (λ c. not (is_a_blank c)) line.now }
{
    line.iter().position(|byte| !is_blank(*byte))
}

fn first_blank(line: &[u8]) -> Option<usize>
    ensures { result ≡ position is_a_blank line.now }
{
    line.iter().position(|byte| is_blank(*byte))
}

// Where the word at the front ends.
fn word_end(line: &[u8]) -> usize
    ensures { result ≡ position_or_len is_a_blank line.now }
{
    first_blank(line).unwrap_or(line.len())
}

// The first word, and what stands behind it.
pub(crate) fn next_word(line: &[u8]) -> Option<(&[u8], &[u8])>
    ensures { MatchOption result (words line.now ≡ []) (λ x. words line.now ≡ x.0.now ∷ words x.1.now) }
{
    match word_start(line) {
        None => None,
        Some(start) => {
            let front = &line[start..];
            Some(front.split_at(word_end(front)))
        }
    }
}

fn run_event(choice: &[u8]) -> Result<Option<Event>, EventFault>
    ensures { result ≡ run_by choice.now }
{
    if choice == ZERO {
        Ok(Some(Event::Run(false)))
    } else if choice == ONE {
        Ok(Some(Event::Run(true)))
    } else {
        Err(EventFault::E1)
    }
}

fn isr_of(app: &App, name: &[u8]) -> Option<usize>
    ensures { result ≡ isr_named app.now name.now }
{
    app.isrs
        .as_slice()
        .iter()
        .position(|isr| isr.name.as_bytes() == name)
}

fn counter_of(app: &App, name: &[u8]) -> Option<usize>
    ensures { result ≡ counter_named app.now name.now }
{
    app.counters
        .as_slice()
        .iter()
        .position(|counter| counter.name.as_bytes() == name)
}

fn event_of(app: &App, verb: &[u8], operand: &[u8]) -> Result<Option<Event>, EventFault>
    ensures { result ≡ said_by app.now verb.now operand.now }
{
    if verb == RUN {
        return run_event(operand);
    }
    if verb == IRQ {
        let Some(isr) = isr_of(app, operand) else {
            return Err(EventFault::E2);
        };
        return Ok(Some(Event::Irq(IsrNo(isr as u8))));
    }
    if verb == TICK {
        let Some(counter) = counter_of(app, operand) else {
            return Err(EventFault::E2);
        };
        return Ok(Some(Event::Tick(CounterNo(counter as u8))));
    }
    Err(EventFault::E1)
}

// A call of its own, so that `read_event` is short enough to stand in the loop over the lines.
#[inline(never)]
fn event_in(app: &App, line: &[u8]) -> Result<Option<Event>, EventFault>
    ensures { result ≡ said app.now (words line.now) }
{
    let Some((verb, rest)) = next_word(line) else {
        return Ok(None);
    };
    if is_comment(verb) {
        return Ok(None);
    }
    let Some((operand, rest)) = next_word(rest) else {
        return Err(EventFault::E1);
    };
    match next_word(rest) {
        None => event_of(app, verb, operand),
        Some(_) => Err(EventFault::E1),
    }
}

// What most lines say, judged at one look: a step, spelled with no blank more than it needs.
fn plain_run(line: &[u8]) -> Option<bool>
    ensures { IfSome result (λ choice. (app : App) → read_line app line.now ≡ Ok (Some (Event.Run choice))) }
{
    match line {
        [b'r', b'u', b'n', b' ', b'0'] => Some(false),
        [b'r', b'u', b'n', b' ', b'1'] => Some(true),
        _ => None,
    }
}

// The name behind the word for an interrupt.
fn irq_name(line: &[u8]) -> Option<&[u8]>
    ensures { IfSome result (λ name. line.now ≡ codes "irq " ++ name.now) }
{
    match line {
        [b'i', b'r', b'q', b' ', name @ ..] => Some(name),
        _ => None,
    }
}

// The name behind the word for a tick.
fn tick_name(line: &[u8]) -> Option<&[u8]>
    ensures { IfSome result (λ name. line.now ≡ codes "tick " ++ name.now) }
{
    match line {
        [b't', b'i', b'c', b'k', b' ', name @ ..] => Some(name),
        _ => None,
    }
}

// What most other lines say, judged at one look: an interrupt or a tick of a source that is declared, spelled with no blank
// more than it needs.
#[inline(never)]
fn plain_source(app: &App, line: &[u8]) -> Option<Event>
    ensures { IfSome result (λ event. read_line app.now line.now ≡ Ok (Some event)) }
{
    if let Some(name) = irq_name(line) {
        let Some(isr) = isr_of(app, name) else {
            return None;
        };
        return Some(Event::Irq(IsrNo(isr as u8)));
    }
    if let Some(name) = tick_name(line) {
        let Some(counter) = counter_of(app, name) else {
            return None;
        };
        return Some(Event::Tick(CounterNo(counter as u8)));
    }
    None
}

/// What a line says, without its LF and the CR before it: an event, or none in a line of blanks alone or one whose
/// first other byte is `#`. It takes no memory.
#[inline(always)]
pub fn read_event(app: &App, line: &[u8]) -> Result<Option<Event>, EventFault>
    ensures { result ≡ read_line app.now line.now }
{
    if let Some(choice) = plain_run(line) {
        return Ok(Some(Event::Run(choice)));
    }
    if let Some(event) = plain_source(app, line) {
        return Ok(Some(event));
    }
    if line.len() > MAX_EVENT_LINE {
        return Err(EventFault::E3);
    }
    event_in(app, line)
}
