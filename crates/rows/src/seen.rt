//! What a run answered and wrote, and whether it is what is wanted.
use crate::files::Files;
use crate::row::{Fact, Wanted, What};
use crate::text::Text;
use crate::wrong::Wrong;
use osek_io::{MemShelf, Shelf};
use std::alloc::Global;

/// What a run left.
#[derive(Clone, Copy)]
pub struct Seen<'s, 'a> {
    pub status: u8,
    pub out: &'s [u8],
    pub err: &'s [u8],
    /// The files that its words name.
    pub shelf: &'s MemShelf,
    /// The row's files before it.
    pub files: &'s Files<'a>,
}

fn is_break(byte: &u8) -> bool {
    *byte == b'\n'
}

/// How many lines a text has.
pub fn count_of_lines(text: &[u8]) -> usize {
    text.iter().filter(|byte| is_break(byte)).count()
}

/// Whether the line of this number, from 0, is so.
fn has_line(text: &[u8], number: u64, line: &str) -> bool {
    text.split(is_break).nth(number as usize) == Some(line.as_bytes())
}

/// Whether one of the lines is so.
fn has_some_line(text: &[u8], line: &str) -> bool {
    text.split(is_break).any(|other| other == line.as_bytes())
}

/// The form behind `site BLOCK line NUMBER `, up to what is known of a status.
fn form_of<'s>(line: &'s str, block: &str) -> Option<&'s str> {
    let (found, rest) = line.strip_prefix("site ")?.split_once(' ')?;
    if found != block {
        return None;
    }
    let (_, form) = rest.strip_prefix("line ")?.split_once(' ')?;
    match form.split_once(" known ") {
        Some((form, _)) => Some(form),
        None => Some(form),
    }
}

/// The form of a call site that a text tells of.
fn site_form<'s>(text: &'s [u8], block: &str) -> Option<&'s str> {
    let text = str::from_utf8(text).ok()?;
    for line in text.split('\n') {
        if let Some(form) = form_of(line, block) {
            return Some(form);
        }
    }
    None
}

/// The bytes from a place on, so many.
fn piece_at(bytes: &[u8], place: u64, count: usize) -> Option<&[u8]> {
    if place > bytes.len() as u64 {
        return None;
    }
    bytes.get(place as usize..)?.get(..count)
}

impl<'s, 'a> Seen<'s, 'a> {
    /// The bytes of a file after the run.
    fn bytes_at(&self, name: &str) -> Option<&'s [u8]> {
        match self.shelf.bytes(name) {
            Some(bytes) => Some(bytes),
            None => self.files.bytes(name),
        }
    }

    fn has_size(&self, name: &str, size: u64) -> bool {
        match self.bytes_at(name) {
            Some(bytes) => bytes.len() as u64 == size,
            None => false,
        }
    }

    /// Whether what is printed is so.
    fn out_is<F: Shelf>(&self, alloc: Global, data: &mut F, what: &What) -> Result<bool, Wrong> {
        let out = self.out;
        match what {
            What::Out(text) => Ok(out == text.bytes(alloc, data)?.as_slice()),
            What::PartOfOut(text) => Ok(text.bytes(alloc, data)?.starts_with(out)),
            What::Begins(text) => Ok(out.starts_with(text.bytes(alloc, data)?.as_slice())),
            What::Ends(text) => Ok(out.ends_with(text.bytes(alloc, data)?.as_slice())),
            What::Line(number, line) => Ok(has_line(out, *number, line)),
            What::Has(line) => Ok(has_some_line(out, line)),
            What::Count(count) => Ok(count_of_lines(out) as u64 == *count),
            What::Site(block, form) => Ok(site_form(out, block) == Some(*form)),
            What::NoSite(block) => Ok(site_form(out, block).is_none()),
            _ => Ok(true),
        }
    }

    fn bytes_are<F: Shelf>(
        &self,
        alloc: Global,
        data: &mut F,
        name: &str,
        text: &Text,
    ) -> Result<bool, Wrong> {
        let bytes = text.bytes(alloc, data)?;
        Ok(self.bytes_at(name) == Some(bytes.as_slice()))
    }

    fn bytes_begin<F: Shelf>(
        &self,
        alloc: Global,
        data: &mut F,
        name: &str,
        text: &Text,
    ) -> Result<bool, Wrong> {
        let whole = text.bytes(alloc, data)?;
        match self.bytes_at(name) {
            Some(bytes) => Ok(whole.starts_with(bytes)),
            None => Ok(false),
        }
    }

    fn bytes_are_at<F: Shelf>(
        &self,
        alloc: Global,
        data: &mut F,
        name: &str,
        place: u64,
        text: &Text,
    ) -> Result<bool, Wrong> {
        let piece = text.bytes(alloc, data)?;
        match self.bytes_at(name) {
            Some(bytes) => Ok(piece_at(bytes, place, piece.len()) == Some(piece.as_slice())),
            None => Ok(false),
        }
    }

    /// Whether what is told on err, and a file, is so.
    fn is_so<F: Shelf>(&self, alloc: Global, data: &mut F, what: &What) -> Result<bool, Wrong> {
        match what {
            What::Err(text) => Ok(self.err == text.bytes(alloc, data)?.as_slice()),
            What::PartOfErr(text) => Ok(text.bytes(alloc, data)?.starts_with(self.err)),
            What::Holds(name, text) => self.bytes_are(alloc, data, name, text),
            What::PartOfFile(name, text) => self.bytes_begin(alloc, data, name, text),
            What::Missing(name) => Ok(self.bytes_at(name).is_none()),
            What::Size(name, size) => Ok(self.has_size(name, *size)),
            What::At(name, place, text) => self.bytes_are_at(alloc, data, name, *place, text),
            _ => self.out_is(alloc, data, what),
        }
    }

    fn meets_fact<F: Shelf>(&self, alloc: Global, data: &mut F, fact: &Fact) -> Result<(), Wrong> {
        if self.is_so(alloc, data, &fact.what)? {
            Ok(())
        } else {
            Err(Wrong::Line(fact.line))
        }
    }

    /// Whether the status is the one that is wanted, and nothing is written of which nothing is said.
    fn is_plain(&self, wanted: &Wanted) -> bool {
        self.status as u64 == wanted.status
            && (!wanted.is_silent() || self.out.is_empty())
            && (!wanted.is_quiet() || self.err.is_empty())
    }

    /// The first line of what is wanted that isn't so.
    pub fn meets<F: Shelf>(
        &self,
        alloc: Global,
        data: &mut F,
        wanted: &Wanted,
    ) -> Result<(), Wrong> {
        for fact in &wanted.facts {
            self.meets_fact(alloc, data, fact)?;
        }
        if self.is_plain(wanted) {
            Ok(())
        } else {
            Err(Wrong::Line(wanted.line))
        }
    }
}
