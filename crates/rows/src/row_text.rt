//! Rows out of the entries of a text.
use crate::command_line::words;
use crate::entry::{Entry, first_word};
use crate::row::{Act, Change, How, Row, Wanted};
use crate::text::{Text, number};
use crate::wanted_text::add_wanted;
use crate::wrong::{Wrong, needed};
use std::alloc::Global;

/// The words that begin an act.
fn is_act(word: &str) -> bool {
    matches!(
        word,
        "file" | "cut" | "set" | "add" | "remove" | "run" | "play"
    )
}

/// A line behind which no text may stand.
fn without_text(entry: &Entry) -> Result<(), Wrong> {
    if entry.text.pieces.is_empty() {
        Ok(())
    } else {
        Err(Wrong::Line(entry.line))
    }
}

/// What stands behind the word: something.
fn rest_of<'a>(entry: &Entry<'a>) -> Result<&'a str, Wrong> {
    if entry.rest.is_empty() {
        Err(Wrong::Line(entry.line))
    } else {
        Ok(entry.rest)
    }
}

fn how<'a>(word: &str, numbers: &str, text: Text<'a>) -> Option<How<'a>> {
    match word {
        "set" => Some(How::Set(number(numbers)?, text)),
        "add" if numbers.is_empty() => Some(How::Add(text)),
        "cut" if text.pieces.is_empty() => Some(How::Cut(number(numbers)?)),
        "remove" if text.pieces.is_empty() => {
            let (place, count) = first_word(numbers);
            Some(How::Remove(number(place)?, number(count)?))
        }
        _ => None,
    }
}

/// The change that `cut TO from FROM ..` and the like say.
fn change<'a>(entry: Entry<'a>) -> Result<Change<'a>, Wrong> {
    let line = entry.line;
    let (to, behind) = first_word(entry.rest);
    let behind = needed(behind.strip_prefix("from "), line)?;
    let (from, numbers) = first_word(behind);
    let how = needed(how(entry.word, numbers, entry.text), line)?;
    Ok(Change {
        line,
        to,
        from,
        how,
    })
}

fn run<'a>(alloc: Global, entry: &Entry<'a>) -> Result<Act<'a>, Wrong> {
    without_text(entry)?;
    let words = words(alloc, entry.rest, entry.line)?;
    Ok(Act::Run(words, Wanted::new(alloc, entry.line)))
}

fn play<'a>(alloc: Global, entry: &Entry<'a>) -> Result<Act<'a>, Wrong> {
    without_text(entry)?;
    let wanted = Wanted::of_trace(alloc, entry.line)?;
    Ok(Act::Play(rest_of(entry)?, wanted))
}

fn act<'a>(alloc: Global, entry: Entry<'a>) -> Result<Act<'a>, Wrong> {
    match entry.word {
        "file" => Ok(Act::File(rest_of(&entry)?, entry.text)),
        "run" => run(alloc, &entry),
        "play" => play(alloc, &entry),
        _ => Ok(Act::Change(change(entry)?)),
    }
}

fn row<'a>(alloc: Global, entry: &Entry<'a>) -> Result<Row<'a>, Wrong> {
    without_text(entry)?;
    Ok(Row {
        line: entry.line,
        name: rest_of(entry)?,
        acts: Vec::new(alloc),
    })
}

/// An act more of a row, or something more that is wanted of its last run.
fn add_to_row<'a>(alloc: Global, row: &mut Row<'a>, entry: Entry<'a>) -> Result<(), Wrong> {
    if is_act(entry.word) {
        let act = act(alloc, entry)?;
        return Ok(row.acts.push(act)?);
    }
    match row.acts.last_mut() {
        Some(Act::Run(_, wanted)) => add_wanted(wanted, entry),
        Some(Act::Play(_, wanted)) => add_wanted(wanted, entry),
        _ => Err(Wrong::Line(entry.line)),
    }
}

fn add_entry<'a>(alloc: Global, rows: &mut Vec<Row<'a>>, entry: Entry<'a>) -> Result<(), Wrong> {
    if entry.word == "row" {
        let row = row(alloc, &entry)?;
        return Ok(rows.push(row)?);
    }
    match rows.last_mut() {
        Some(row) => add_to_row(alloc, row, entry),
        None => Err(Wrong::Line(entry.line)),
    }
}

/// The rows that the entries say. Each entry is one that is known, or its line is wrong.
pub fn rows<'a>(alloc: Global, entries: Vec<Entry<'a>>) -> Result<Vec<Row<'a>>, Wrong> {
    let mut rows = Vec::new(alloc);
    for entry in entries {
        add_entry(alloc, &mut rows, entry)?;
    }
    Ok(rows)
}
