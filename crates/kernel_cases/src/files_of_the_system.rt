//! Files of the system: a shelf over them tells nothing, so no clause says what it reads and writes.
use osek_io::{Failed, FileShelf, LoadError, Shelf, load, store};
use std::alloc::{Allocator, Global};
use std::fs::{Metadata, OpenFile, OpenOptions};
use std::io::{ErrorKind, Read, Seek, SeekFrom, Write};
use std::rt::Files;
use std::test::Fail;
use std::{env, fs, io, process};

/// The path of a file that isn't there yet.
fn path_of(rt: &HostRuntime, name: &str) -> Result<String, Fail> {
    let folder = env::temp_dir(rt)?;
    let number = process::id(rt.process());
    let path = format!(in rt.alloc(); "{}/osek-io-{number}-{name}", folder.display())?;
    Ok(path)
}

/// Whether a file that isn't there is refused, made and replaced.
fn keeps<F: Shelf>(alloc: Global, shelf: &mut F, name: &str, bytes: &[u8]) -> bool {
    load(alloc, shelf, name, 9).err() == Some(LoadError::Read)
        && shelf.append(name, b"x") == Err(Failed)
        && store(shelf, name, b"older, to be replaced") == Ok(())
        && store(shelf, name, bytes) == Ok(())
}

/// Whether the 9,000 bytes of a file are read, and are too many for a limit below.
fn reads<F: Shelf>(alloc: Global, shelf: &mut F, name: &str, bytes: &[u8]) -> bool {
    match (
        load(alloc, shelf, name, 9_000),
        load(alloc, shelf, name, 8_999),
    ) {
        (Ok(found), Err(error)) => found.as_slice() == bytes && error == LoadError::TooLong,
        _ => false,
    }
}

/// Whether ten bytes are stored, and the file holds these and no others.
fn holds_ten<F: Shelf>(alloc: Global, shelf: &mut F, name: &str) -> bool {
    store(shelf, name, b"0123456789") == Ok(())
        && load(alloc, shelf, name, 9_000).is_ok_and(|found| found.as_slice()
            == b"0123456789".as_slice())
}

#[test]
fn keeps_a_file_of_the_system(rt: HostRuntime) -> Result<(), Fail> {
    let path = path_of(&rt, "kept")?;
    let mut bytes = [1; 9_000];
    bytes[5_000..].fill(2);
    let mut shelf = FileShelf::new(&rt);
    assert!(rt; keeps(rt.alloc(), &mut shelf, path.as_str(), &bytes));
    assert!(rt; reads(rt.alloc(), &mut shelf, path.as_str(), &bytes));
    assert!(rt; holds_ten(rt.alloc(), &mut shelf, path.as_str()));
    fs::remove_file(&rt, path.as_str())?;
    Ok(())
}

/// Whether eight bytes from a place on, as far as there are so many, are these.
fn is_at<F: Shelf>(shelf: &mut F, name: &str, place: u64, wanted: &[u8]) -> bool {
    let mut into = [0; 8];
    match shelf.read(name, place, &mut into) {
        Ok(count) => &into[..count] == wanted,
        Err(_) => false,
    }
}

#[test]
fn reads_a_file_at_its_places(rt: HostRuntime) -> Result<(), Fail> {
    let path = path_of(&rt, "places")?;
    let mut shelf = FileShelf::new(&rt);
    assert!(rt; store(&mut shelf, path.as_str(), b"0123456789") == Ok(()));
    assert!(rt; is_at(&mut shelf, path.as_str(), 0, b"01234567"));
    assert!(rt; is_at(&mut shelf, path.as_str(), 3, b"3456789"));
    assert!(rt; is_at(&mut shelf, path.as_str(), 9, b"9"));
    // At the end, and past it.
    assert!(rt; is_at(&mut shelf, path.as_str(), 10, b""));
    assert!(rt; is_at(&mut shelf, path.as_str(), 1 << 40, b""));
    fs::remove_file(&rt, path.as_str())?;
    assert!(rt; shelf.read(path.as_str(), 0, &mut [0; 8]) == Err(Failed));
    Ok(())
}

#[test]
fn a_folder_is_no_file(rt: HostRuntime) -> Result<(), Fail> {
    let path = path_of(&rt, "folder")?;
    fs::create_dir(&rt, path.as_str())?;
    let mut shelf = FileShelf::new(&rt);
    assert!(rt; shelf.read(path.as_str(), 0, &mut [0; 8]) == Err(Failed));
    assert!(rt; shelf.create(path.as_str()) == Err(Failed));
    assert!(rt; shelf.append(path.as_str(), b"x") == Err(Failed));
    fs::remove_dir(&rt, path.as_str())?;
    Ok(())
}

/// The files of a runtime, where a signal interrupts the first read and the first write of each that is opened.
#[derive(Clone, Copy)]
struct Signals<'a, R>(&'a R);

/// A file that is opened there.
#[derive(Drop)]
struct Signalled<F> {
    file: F,
    calls: u8,
}

impl<F> Signalled<F> {
    /// Whether this call is the first one.
    fn is_first(&mut self) -> bool {
        self.calls = self.calls.saturating_add(1);
        self.calls == 1
    }
}

impl<F: Read> Read for Signalled<F> {
    fn read(&mut self, into: &mut [u8]) -> io::Result<usize> {
        if self.is_first() {
            return Err(io::Error::from(ErrorKind::Interrupted));
        }
        self.file.read(into)
    }
}

impl<F: Write> Write for Signalled<F> {
    fn write(&mut self, piece: &[u8]) -> io::Result<usize> {
        if self.is_first() {
            return Err(io::Error::from(ErrorKind::Interrupted));
        }
        self.file.write(piece)
    }

    fn flush(&mut self) -> io::Result<()> {
        self.file.flush()
    }
}

impl<F: Seek> Seek for Signalled<F> {
    fn seek(&mut self, to: SeekFrom) -> io::Result<u64> {
        self.file.seek(to)
    }
}

impl<F: OpenFile> OpenFile for Signalled<F> {
    fn metadata(&self) -> io::Result<Metadata> {
        self.file.metadata()
    }

    fn set_len(&self, size: u64) -> io::Result<()> {
        self.file.set_len(size)
    }

    fn sync_all(&self) -> io::Result<()> {
        self.file.sync_all()
    }

    fn sync_data(&self) -> io::Result<()> {
        self.file.sync_data()
    }
}

impl<R: Files> Files for Signals<'_, R> {
    type File = Signalled<R::File>;

    type Dir = R::Dir;

    fn open_file(&self, how: &OpenOptions, path: &str) -> io::Result<Signalled<R::File>> {
        let file = self.0.open_file(how, path)?;
        Ok(Signalled { file, calls: 0 })
    }

    fn open_dir(&self, path: &str) -> io::Result<R::Dir> {
        self.0.open_dir(path)
    }

    fn metadata(&self, path: &str) -> io::Result<Metadata> {
        self.0.metadata(path)
    }

    fn symlink_metadata(&self, path: &str) -> io::Result<Metadata> {
        self.0.symlink_metadata(path)
    }

    fn copy(&self, from: &str, to: &str) -> io::Result<u64> {
        self.0.copy(from, to)
    }

    fn rename(&self, from: &str, to: &str) -> io::Result<()> {
        self.0.rename(from, to)
    }

    fn remove_file(&self, path: &str) -> io::Result<()> {
        self.0.remove_file(path)
    }

    fn create_dir(&self, path: &str) -> io::Result<()> {
        self.0.create_dir(path)
    }

    fn remove_dir(&self, path: &str) -> io::Result<()> {
        self.0.remove_dir(path)
    }

    fn remove_dir_all<B: Allocator>(&self, alloc: B, path: &str) -> io::Result<()> {
        self.0.remove_dir_all(alloc, path)
    }
}

#[test]
fn calls_that_signals_interrupt_are_made_again(rt: HostRuntime) -> Result<(), Fail> {
    let path = path_of(&rt, "signals")?;
    let mut shelf = FileShelf::new(Signals(&rt));
    assert!(rt; holds_ten(rt.alloc(), &mut shelf, path.as_str()));
    fs::remove_file(&rt, path.as_str())?;
    Ok(())
}
