//! What is wanted of a run, out of the entries behind it.
use crate::entry::{Entry, first_word};
use crate::row::{Fact, Fault, Side, Wanted, What};
use crate::text::{Part, Piece, Text, number};
use crate::wrong::{Wrong, needed};
use std::alloc::Global;

impl<'a> Wanted<'a> {
    /// A run that is done, and nothing else yet.
    pub fn new(alloc: Global, line: u64) -> Wanted<'a> {
        Wanted {
            line,
            faults: Vec::new(alloc),
            by_bytes: false,
            status: 0,
            facts: Vec::new(alloc),
        }
    }

    /// A run that prints one line.
    pub fn printing(alloc: Global, line: u64, text: &'a str) -> Result<Wanted<'a>, Wrong> {
        let mut wanted = Wanted::new(alloc, line);
        let mut out = Text::new(alloc, line);
        out.pieces.push(Piece {
            times: 1,
            part: Part::Line(text),
        })?;
        wanted.facts.push(Fact {
            line,
            what: What::Out(out),
        })?;
        Ok(wanted)
    }

    /// A run that prints so many lines, which are kept under a name.
    pub fn keeping(
        alloc: Global,
        line: u64,
        name: &'a str,
        count: u64,
    ) -> Result<Wanted<'a>, Wrong> {
        let mut wanted = Wanted::new(alloc, line);
        wanted.facts.push(Fact {
            line,
            what: What::Count(count),
        })?;
        wanted.facts.push(Fact {
            line,
            what: What::Keep(name),
        })?;
        Ok(wanted)
    }

    /// What a trace that is played is wanted to be: it is kept, beside what is said of it.
    pub fn of_trace(alloc: Global, line: u64) -> Result<Wanted<'a>, Wrong> {
        let mut wanted = Wanted::new(alloc, line);
        wanted.facts.push(Fact {
            line,
            what: What::Keep("a.trace"),
        })?;
        Ok(wanted)
    }
}

fn side(word: &str) -> Option<Side> {
    match word {
        "shelf" => Some(Side::Shelf),
        "out" => Some(Side::Out),
        "err" => Some(Side::Err),
        _ => None,
    }
}

/// The calls that `fail SIDE NUMBER` and `fail SIDE NUMBER to NUMBER` say.
fn fault(rest: &str) -> Option<Fault> {
    let (word, numbers) = first_word(rest);
    let (first, last) = numbers.split_once(" to ").unwrap_or((numbers, numbers));
    Some(Fault {
        side: side(word)?,
        first: number(first)?,
        last: number(last)?,
    })
}

/// A name that isn't empty.
fn name(word: &str) -> Option<&str> {
    if word.is_empty() { None } else { Some(word) }
}

fn part_of<'a>(whole: &'a str, text: Text<'a>) -> Option<What<'a>> {
    match whole {
        "of out" => Some(What::PartOfOut(text)),
        "of err" => Some(What::PartOfErr(text)),
        _ => Some(What::PartOfFile(name(whole.strip_prefix("of file ")?)?, text)),
    }
}

fn bytes_at<'a>(rest: &'a str, text: Text<'a>) -> Option<What<'a>> {
    let (name, place) = rest.split_once(' ')?;
    Some(What::At(name, number(place)?, text))
}

/// A fact that goes on with a text.
fn text_fact<'a>(word: &str, rest: &'a str, text: Text<'a>) -> Option<What<'a>> {
    match word {
        "out" if rest.is_empty() => Some(What::Out(text)),
        "err" if rest.is_empty() => Some(What::Err(text)),
        "begins" if rest.is_empty() => Some(What::Begins(text)),
        "ends" if rest.is_empty() => Some(What::Ends(text)),
        "part" => part_of(rest, text),
        "holds" => Some(What::Holds(name(rest)?, text)),
        "at" => bytes_at(rest, text),
        _ => None,
    }
}

fn numbered_line(rest: &str) -> Option<What<'_>> {
    let (place, line) = first_word(rest);
    Some(What::Line(number(place)?, line))
}

fn site(rest: &str) -> Option<What<'_>> {
    let (block, form) = rest.split_once(' ')?;
    Some(What::Site(block, form))
}

fn size(rest: &str) -> Option<What<'_>> {
    let (name, bytes) = rest.split_once(' ')?;
    Some(What::Size(name, number(bytes)?))
}

/// A fact of one line.
fn line_fact<'a>(word: &str, rest: &'a str) -> Option<What<'a>> {
    match word {
        "line" => numbered_line(rest),
        "has" => Some(What::Has(rest)),
        "count" => Some(What::Count(number(rest)?)),
        "site" => site(rest),
        "no" => Some(What::NoSite(rest.strip_prefix("site ")?)),
        "keep" => Some(What::Keep(name(rest.strip_prefix("out as ")?)?)),
        "missing" => Some(What::Missing(name(rest)?)),
        "size" => size(rest),
        _ => None,
    }
}

fn is_line_fact(word: &str) -> bool {
    matches!(
        word,
        "line" | "has" | "count" | "site" | "no" | "keep" | "missing" | "size"
    )
}

fn what<'a>(entry: Entry<'a>) -> Option<What<'a>> {
    if !is_line_fact(entry.word) {
        return text_fact(entry.word, entry.rest, entry.text);
    }
    if !entry.text.pieces.is_empty() {
        return None;
    }
    line_fact(entry.word, entry.rest)
}

/// How a run is made.
fn add_setting(wanted: &mut Wanted, entry: &Entry) -> Result<(), Wrong> {
    let line = entry.line;
    if !entry.text.pieces.is_empty() {
        return Err(Wrong::Line(line));
    }
    match entry.word {
        "fail" => Ok(wanted.faults.push(needed(fault(entry.rest), line)?)?),
        "status" => {
            wanted.status = needed(number(entry.rest), line)?;
            Ok(())
        }
        _ if entry.rest == "one byte" => {
            wanted.by_bytes = true;
            Ok(())
        }
        _ => Err(Wrong::Line(line)),
    }
}

/// Something more that is wanted of a run, or how it is made.
pub fn add_wanted<'a>(wanted: &mut Wanted<'a>, entry: Entry<'a>) -> Result<(), Wrong> {
    if matches!(entry.word, "fail" | "move" | "status") {
        return add_setting(wanted, &entry);
    }
    let line = entry.line;
    let what = needed(what(entry), line)?;
    Ok(wanted.facts.push(Fact { line, what })?)
}
