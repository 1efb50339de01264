//! Files that are changed.
use crate::row::{Change, How};
use crate::wrong::{Wrong, needed};
use osek_io::Shelf;
use std::alloc::Global;

/// The bytes with these in place of as many from a place on.
fn set(alloc: Global, bytes: &[u8], place: usize, piece: &[u8]) -> Result<Vec<u8>, Wrong> {
    let mut changed = first_bytes(alloc, bytes, place)?;
    changed.extend_from_slice(piece)?;
    changed.extend_from_slice(bytes_behind(bytes, place.saturating_add(piece.len())))?;
    Ok(changed)
}

/// The bytes without so many from a place on.
fn remove(alloc: Global, bytes: &[u8], place: usize, count: usize) -> Result<Vec<u8>, Wrong> {
    let mut changed = first_bytes(alloc, bytes, place)?;
    changed.extend_from_slice(bytes_behind(bytes, place.saturating_add(count)))?;
    Ok(changed)
}

fn add(alloc: Global, bytes: &[u8], more: &[u8]) -> Result<Vec<u8>, Wrong> {
    let mut changed = Vec::from_slice(alloc, bytes)?;
    changed.extend_from_slice(more)?;
    Ok(changed)
}

fn first_bytes(alloc: Global, bytes: &[u8], count: usize) -> Result<Vec<u8>, Wrong> {
    Ok(Vec::from_slice(alloc, bytes.get(..count).unwrap_or(bytes))?)
}

fn bytes_behind(bytes: &[u8], place: usize) -> &[u8] {
    bytes.get(place..).unwrap_or(&[])
}

/// A place in a file of at most so many bytes; a line that names a place beyond is wrong.
fn place_in(bytes: &[u8], place: u64, line: u64) -> Result<usize, Wrong> {
    if place > bytes.len() as u64 {
        return Err(Wrong::Line(line));
    }
    Ok(place as usize)
}

/// What the bytes become.
pub fn changed<F: Shelf>(
    alloc: Global,
    data: &mut F,
    bytes: Option<&[u8]>,
    change: &Change,
) -> Result<Vec<u8>, Wrong> {
    let bytes = needed(bytes, change.line)?;
    match &change.how {
        How::Cut(count) => first_bytes(alloc, bytes, place_in(bytes, *count, change.line)?),
        How::Set(place, text) => {
            let piece = text.bytes(alloc, data)?;
            let place = place_in(bytes, *place, change.line)?;
            set(alloc, bytes, place, piece.as_slice())
        }
        How::Add(text) => {
            let piece = text.bytes(alloc, data)?;
            add(alloc, bytes, piece.as_slice())
        }
        How::Remove(place, count) => {
            let place = place_in(bytes, *place, change.line)?;
            let count = place_in(bytes, *count, change.line)?;
            remove(alloc, bytes, place, count)
        }
    }
}
