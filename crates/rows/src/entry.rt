//! A text of rows, cut into entries: lines with a word at their head, each with the lines of text behind it.
use crate::text::{Piece, Text, is_of_text, piece_of_line};
use crate::wrong::{Wrong, needed};
use std::alloc::Global;

/// A line with a word at its head, and the text that belongs to it.
#[derive(Drop)]
pub struct Entry<'a> {
    /// The line's number, from 1.
    pub line: u64,
    pub word: &'a str,
    /// What stands behind the word and a blank.
    pub rest: &'a str,
    pub text: Text<'a>,
}

/// Blank lines and comments belong to no entry.
fn is_passed_over(line: &str) -> bool {
    line.is_empty() || line.starts_with('#')
}

/// A word, and what stands behind it and a blank.
pub fn first_word(line: &str) -> (&str, &str) {
    match line.split_once(' ') {
        Some((word, rest)) => (word, rest),
        None => (line, ""),
    }
}

/// The entry that a line begins.
fn new_entry<'a>(alloc: Global, line: u64, text: &'a str) -> Entry<'a> {
    let (word, rest) = first_word(text);
    Entry {
        line,
        word,
        rest,
        text: Text::new(alloc, line),
    }
}

/// A piece more of the last entry's text.
fn add_piece<'a>(entries: &mut Vec<Entry<'a>>, piece: Piece<'a>, line: u64) -> Result<(), Wrong> {
    match entries.last_mut() {
        Some(entry) => Ok(entry.text.pieces.push(piece)?),
        None => Err(Wrong::Line(line)),
    }
}

fn add_line<'a>(
    alloc: Global,
    entries: &mut Vec<Entry<'a>>,
    line: u64,
    text: &'a str,
) -> Result<(), Wrong> {
    if is_passed_over(text) {
        return Ok(());
    }
    if is_of_text(text) {
        let piece = needed(piece_of_line(text), line)?;
        return add_piece(entries, piece, line);
    }
    Ok(entries.push(new_entry(alloc, line, text))?)
}

/// The entries of a text of rows.
pub fn entries<'a>(alloc: Global, text: &'a str) -> Result<Vec<Entry<'a>>, Wrong> {
    let mut entries = Vec::new(alloc);
    let mut line = 0u64;
    for one in text.split('\n') {
        line = line.saturating_add(1);
        add_line(alloc, &mut entries, line, one)?;
    }
    Ok(entries)
}
