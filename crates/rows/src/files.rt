//! The files of a row, by their names.
use crate::wrong::Wrong;
use osek_io::MemShelf;
use std::alloc::Global;

/// Room for each file that a run stores: the most bytes that an image or a table has.
const ROOM: usize = 16_777_216;

#[derive(Drop)]
struct NamedFile<'a> {
    name: &'a str,
    bytes: Vec<u8>,
}

/// Files, one of each name.
#[derive(Drop)]
pub struct Files<'a> {
    files: Vec<NamedFile<'a>>,
}

/// A name with a slash is of a folder that isn't there: nothing can be stored there.
fn has_folder(name: &str) -> bool {
    name.contains('/')
}

impl<'a> Files<'a> {
    pub fn new(alloc: Global) -> Files<'a> {
        Files {
            files: Vec::new(alloc),
        }
    }

    /// The bytes of a file, where it is there.
    pub fn bytes(&self, name: &str) -> Option<&[u8]> {
        for file in &self.files {
            if file.name == name {
                return Some(file.bytes.as_slice());
            }
        }
        None
    }

    /// A file of these bytes, in place of one of its name.
    pub fn put(&mut self, name: &'a str, bytes: Vec<u8>) -> Result<(), Wrong> {
        self.files.retain(|file| file.name != name);
        Ok(self.files.push(NamedFile { name, bytes })?)
    }

    /// Gives each of the words a place on a shelf, with the file that it names.
    pub fn place_on(&self, shelf: &mut MemShelf, words: &[&str]) -> Result<(), Wrong> {
        for word in words {
            if !has_folder(word) {
                shelf.set(word, self.bytes(word), ROOM)?;
            }
        }
        Ok(())
    }

    /// Takes the files that the words name from a shelf.
    pub fn take_from(
        &mut self,
        alloc: Global,
        shelf: &MemShelf,
        words: &[&'a str],
    ) -> Result<(), Wrong> {
        for word in words {
            if let Some(bytes) = shelf.bytes(word) {
                self.put(word, Vec::from_slice(alloc, bytes)?)?;
            }
        }
        Ok(())
    }
}
