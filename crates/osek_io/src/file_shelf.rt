//! A shelf over the files of the system.
ghost use Rattle.std.specs.Prelude.{◌≡◌, ◌≤◌, length, None, IfOk};

use crate::counts::one_more;
use crate::failed::Failed;
use crate::shelf::Shelf;
use crate::stream::{read_some, write_some};
use std::fs;
use std::fs::OpenOptions;
use std::io::{Seek, SeekFrom};
use std::rt::Files;

/// The files of the system by their paths. It tells no contents. What the system refuses, out of memory
/// included, is a fault, and so is a read of what is no regular file: a pipe or a terminal would be waited
/// for, and has no places to seek. `/dev/null` alone, which stands for an empty file in scripts, is read as one.
///
/// Each call opens its file anew, and a read seeks to its place: nothing is kept between two calls, and a
/// file that is read piece by piece costs one opening a piece, wherever the piece is.
#[derive(Drop)]
pub struct FileShelf<R> {
    files: R,
    read_faults: u64,
    write_faults: u64,
}

impl<R: Files> FileShelf<R> {
    /// The files that a runtime reaches, without a fault yet.
    pub fn new(files: R) -> FileShelf<R>
        ensures reads { result.read_faults ≡ 0 }
        ensures writes { result.write_faults ≡ 0 }
    {
        FileShelf {
            files,
            read_faults: 0,
            write_faults: 0,
        }
    }
}

/// The path that scripts name for an empty file.
const EMPTY_FILE: &str = "/dev/null";

/// Whether a path leads to a regular file.
fn is_regular<R: Files>(files: &R, name: &str) -> bool {
    match fs::metadata(files, name) {
        Ok(data) => data.is_file(),
        Err(_) => false,
    }
}

/// Reads from a place of a regular file.
fn read_at<R: Files>(files: &R, name: &str, at: u64, into: &mut [u8]) -> Result<usize, Failed>
    ensures bound { IfOk result (λ n. n ≤ length into.new) }
{
    if name == EMPTY_FILE {
        return Ok(0);
    }
    if !is_regular(files, name) {
        return Err(Failed);
    }
    let Ok(mut file) = fs::open(files, name) else {
        return Err(Failed);
    };
    if at > 0 && file.seek(SeekFrom::Start(at)).is_err() {
        return Err(Failed);
    }
    read_some(&mut file, into)
}

/// Adds to the end of a file that is there.
fn append_to<R: Files>(files: &R, name: &str, piece: &[u8]) -> Result<usize, Failed>
    ensures bound { IfOk result (λ n. n ≤ length piece.now) }
    ensures some { IfOk result (λ n. n ≡ 0 → length piece.now ≡ 0) }
{
    let Ok(mut file) = OpenOptions::new().append(true).open(files, name) else {
        return Err(Failed);
    };
    write_some(&mut file, piece)
}

impl<R: Files> Shelf for FileShelf<R> {
    ghost contents = { λ _. None };

    ghost read_faults = { λ s _ _. s.read_faults };

    ghost asked = { λ _. 0 };

    ghost write_faults = { λ s. s.write_faults };

    fn read(&mut self, name: &str, at: u64, into: &mut [u8]) -> Result<usize, Failed> {
        let result = read_at(&self.files, name, at, into);
        if result.is_err() {
            self.read_faults = one_more(self.read_faults);
        }
        result
    }

    fn create(&mut self, name: &str) -> Result<(), Failed> {
        if fs::create(&self.files, name).is_err() {
            self.write_faults = one_more(self.write_faults);
            return Err(Failed);
        }
        Ok(())
    }

    fn append(&mut self, name: &str, piece: &[u8]) -> Result<usize, Failed> {
        let result = append_to(&self.files, name, piece);
        if result.is_err() {
            self.write_faults = one_more(self.write_faults);
        }
        result
    }
}
