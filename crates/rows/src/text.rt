//! Texts: pieces that stand one behind the other.
use crate::wrong::{Wrong, needed};
use osek_io::{LoadError, Shelf, load};
use std::alloc::Global;

/// The most bytes of a file beside the rows.
const MAX_FILE: u64 = 16_777_216;

/// What a line says of a text.
#[derive(Clone, Copy)]
pub enum Part<'a> {
    /// `|`: a line, with a line feed behind it.
    Line(&'a str),
    /// `:`: the same without a line feed.
    Bare(&'a str),
    /// `=`: bytes in hexadecimal.
    Bytes(&'a str),
    /// `<`: all bytes of a file that lies beside the rows.
    File(&'a str),
}

/// A part, so many times.
#[derive(Clone, Copy)]
pub struct Piece<'a> {
    pub times: u64,
    pub part: Part<'a>,
}

/// The pieces of a text, and the line that it belongs to.
#[derive(Drop)]
pub struct Text<'a> {
    pub line: u64,
    pub pieces: Vec<Piece<'a>>,
}

/// The part that a line says.
fn part_of_line(line: &str) -> Option<Part<'_>> {
    if let Some(rest) = line.strip_prefix('|') {
        return Some(Part::Line(rest));
    }
    if let Some(rest) = line.strip_prefix(':') {
        return Some(Part::Bare(rest));
    }
    if let Some(rest) = line.strip_prefix('=') {
        return Some(Part::Bytes(rest));
    }
    line.strip_prefix('<').map(|rest| Part::File(rest))
}

/// A number of decimal digits.
pub fn number(word: &str) -> Option<u64> {
    word.parse::<u64>().ok()
}

/// The part behind a star, a number and a blank.
fn repeated(line: &str) -> Option<Piece<'_>> {
    let (count, rest) = line.split_once(' ')?;
    Some(Piece {
        times: number(count)?,
        part: part_of_line(rest)?,
    })
}

/// Whether a line is one of a text.
pub fn is_of_text(line: &str) -> bool {
    matches!(
        line.as_bytes().first(),
        Some(b'|' | b':' | b'=' | b'<' | b'*')
    )
}

/// The piece that a line says.
pub fn piece_of_line(line: &str) -> Option<Piece<'_>> {
    match line.strip_prefix('*') {
        Some(rest) => repeated(rest),
        None => part_of_line(line).map(|part| Piece { times: 1, part }),
    }
}

/// All bytes of a file that lies beside the rows.
fn bytes_of_file<F: Shelf>(
    alloc: Global,
    data: &mut F,
    name: &str,
    line: u64,
) -> Result<Vec<u8>, Wrong> {
    match load(alloc, data, name, MAX_FILE) {
        Ok(bytes) => Ok(bytes),
        Err(LoadError::Memory) => Err(Wrong::Memory),
        Err(_) => Err(Wrong::Line(line)),
    }
}

/// The bytes of a part.
fn bytes_of_part<F: Shelf>(
    alloc: Global,
    data: &mut F,
    part: Part<'_>,
    line: u64,
) -> Result<Vec<u8>, Wrong> {
    match part {
        Part::Line(text) => {
            let mut bytes = Vec::from_slice(alloc, text.as_bytes())?;
            bytes.push(b'\n')?;
            Ok(bytes)
        }
        Part::Bare(text) => Ok(Vec::from_slice(alloc, text.as_bytes())?),
        Part::Bytes(digits) => needed(hex::decode(alloc, digits).ok(), line),
        Part::File(name) => bytes_of_file(alloc, data, name, line),
    }
}

/// The same bytes, so many times.
fn add_times(bytes: &mut Vec<u8>, more: &[u8], times: u64) -> Result<(), Wrong> {
    for _ in 0..times {
        bytes.extend_from_slice(more)?;
    }
    Ok(())
}

impl<'a> Text<'a> {
    /// A text of no pieces.
    pub fn new(alloc: Global, line: u64) -> Text<'a> {
        Text {
            line,
            pieces: Vec::new(alloc),
        }
    }

    /// The bytes of the text. `data` has the files that lie beside the rows.
    pub fn bytes<F: Shelf>(&self, alloc: Global, data: &mut F) -> Result<Vec<u8>, Wrong> {
        let mut bytes = Vec::new(alloc);
        for piece in &self.pieces {
            let part = bytes_of_part(alloc, data, piece.part, self.line)?;
            add_times(&mut bytes, part.as_slice(), piece.times)?;
        }
        Ok(bytes)
    }
}
