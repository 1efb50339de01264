//! What no clause says: that the calls succeed where memory is there, the scripted failures by the
//! numbers of the calls, and the real streams.
ghost use Rattle.std.specs.Prelude.{false, refl};

use osek_io::{
    Failed, LoadError, MemShelf, MemSink, PUT_ROOM, PutBuffer, PutError, Shelf, Sink, StdSink,
    Stream, load, put_all, store,
};
use osek_values::Memory;
use std::alloc::Global;
use std::io;
use std::io::{ErrorKind, Write};
use std::test::Fail;

/// A call over a shelf with its answer, or what the shelf tells.
#[derive(Clone, Copy)]
enum Step<'a> {
    Loads(&'a str, u64, Result<&'a [u8], LoadError>),
    Stores(&'a str, &'a [u8], Result<(), PutError>),
    Appends(&'a str, &'a [u8], Result<usize, Failed>),
    Holds(&'a str, Option<&'a [u8]>),
    Called(u64),
}

fn loads(
    alloc: Global,
    shelf: &mut MemShelf,
    name: &str,
    most: u64,
    wanted: Result<&[u8], LoadError>,
) -> bool {
    match (load(alloc, shelf, name, most), wanted) {
        (Ok(bytes), Ok(text)) => bytes.as_slice() == text,
        (Err(one), Err(other)) => one == other,
        _ => false,
    }
}

fn is_so(alloc: Global, shelf: &mut MemShelf, step: Step) -> bool {
    match step {
        Step::Loads(name, most, wanted) => loads(alloc, shelf, name, most, wanted),
        Step::Stores(name, bytes, wanted) => store(shelf, name, bytes) == wanted,
        Step::Appends(name, bytes, wanted) => shelf.append(name, bytes) == wanted,
        Step::Holds(name, wanted) => shelf.bytes(name) == wanted,
        Step::Called(calls) => shelf.calls() == calls,
    }
}

/// The number of the first step that isn't so.
fn first_wrong(alloc: Global, shelf: &mut MemShelf, steps: &[Step]) -> Option<usize> {
    for (number, step) in steps.iter().enumerate() {
        if !is_so(alloc, shelf, *step) {
            return Some(number);
        }
    }
    None
}

/// A shelf with room for so many bytes at two names, the second of which isn't there, where these calls fail.
fn shelf_of(alloc: Global, bytes: &[u8], room: usize, fails: &[u64]) -> Result<MemShelf, Memory> {
    let mut shelf = MemShelf::new(alloc, Vec::from_slice(alloc, fails)?);
    shelf.set("a", Some(bytes), room)?;
    shelf.set("b", None, room)?;
    Ok(shelf)
}

/// The number of the first step that isn't so over a shelf.
fn first_wrong_over(
    alloc: Global,
    bytes: &[u8],
    room: usize,
    fails: &[u64],
    steps: &[Step],
) -> Result<Option<usize>, Memory> {
    let mut shelf = shelf_of(alloc, bytes, room, fails)?;
    Ok(first_wrong(alloc, &mut shelf, steps))
}

#[test]
fn loads_up_to_the_limit(rt: HostRuntime) {
    let steps = [
        Step::Loads("a", 5, Ok(b"12345")),
        // A piece, and its end.
        Step::Called(2),
        Step::Loads("a", 4, Err(LoadError::TooLong)),
        // It isn't there.
        Step::Loads("b", 4, Err(LoadError::Read)),
        // The fifth call.
        Step::Loads("a", 5, Err(LoadError::Read)),
        Step::Loads("a", 5, Ok(b"12345")),
    ];
    let wrong = first_wrong_over(rt.alloc(), b"12345", 8, &[5], &steps);
    assert!(rt; wrong == Ok(None));
}

#[test]
fn loads_a_file_of_many_pieces(rt: HostRuntime) {
    let bytes = [7; 10_000];
    let steps = [
        Step::Loads("a", 10_000, Ok(&bytes)),
        Step::Loads("a", 9_999, Err(LoadError::TooLong)),
    ];
    let wrong = first_wrong_over(rt.alloc(), &bytes, 0, &[], &steps);
    assert!(rt; wrong == Ok(None));
}

#[test]
fn stores_over_pieces_and_failures(rt: HostRuntime) {
    let steps = [
        // Calls 1 and 2 write; call 3, a `create`, fails, and the file is as it was.
        Step::Stores("a", b"1234", Ok(())),
        Step::Stores("a", b"xy", Err(PutError::Write)),
        Step::Holds("a", Some(b"1234")),
        // Call 5 takes what fits; call 6 fails by its number, call 9 at a full room.
        Step::Stores("a", b"12345", Err(PutError::Write)),
        Step::Holds("a", Some(b"1234")),
        Step::Holds("b", None),
        Step::Stores("b", b"12345", Err(PutError::Write)),
        Step::Holds("b", Some(b"1234")),
        // A name without a place can't be made, and one that isn't there can't grow.
        Step::Stores("none", b"", Err(PutError::Write)),
        Step::Appends("none", b"x", Err(Failed)),
        Step::Called(11),
    ];
    let wrong = first_wrong_over(rt.alloc(), b"old", 4, &[3, 6], &steps);
    assert!(rt; wrong == Ok(None));
}

/// A call over a sink with its answer, or what the sink tells.
#[derive(Clone, Copy)]
enum Put<'a> {
    All(&'a [u8], Result<(), PutError>),
    Once(&'a [u8], Result<usize, Failed>),
    Holds(&'a [u8]),
    Called(u64),
}

fn is_put(sink: &mut MemSink, put: Put) -> bool {
    match put {
        Put::All(bytes, wanted) => put_all(sink, bytes) == wanted,
        Put::Once(bytes, wanted) => sink.put(bytes) == wanted,
        Put::Holds(bytes) => sink.bytes() == bytes,
        Put::Called(calls) => sink.calls() == calls,
    }
}

/// The number of the first that isn't so over a sink with room for five bytes, whose second call fails.
fn first_wrong_put(alloc: Global, puts: &[Put]) -> Result<Option<usize>, Memory> {
    let mut sink = MemSink::new(alloc, Vec::from_slice(alloc, &[2])?, 5)?;
    for (number, put) in puts.iter().enumerate() {
        if !is_put(&mut sink, *put) {
            return Ok(Some(number));
        }
    }
    Ok(None)
}

#[test]
fn puts_over_pieces_and_failures(rt: HostRuntime) {
    let puts = [
        Put::All(b"123", Ok(())),
        // The second call.
        Put::All(b"45", Err(PutError::Write)),
        Put::Holds(b"123"),
        // What fits, then a full room.
        Put::All(b"456", Err(PutError::Write)),
        Put::Holds(b"12345"),
        // No call.
        Put::All(b"", Ok(())),
        // A full room takes an empty piece.
        Put::Once(b"", Ok(0)),
        Put::Called(5),
    ];
    assert!(rt; first_wrong_put(rt.alloc(), &puts) == Ok(None));
}

/// A call over a buffer and its sink with its answer, or what the sink tells.
#[derive(Clone, Copy)]
enum Held<'a> {
    Puts(&'a [u8], Result<(), PutError>),
    Flushes(Result<(), PutError>),
    Holds(&'a [u8]),
    Called(u64),
}

fn is_held(buffer: &mut PutBuffer, sink: &mut MemSink, step: Held) -> bool {
    match step {
        Held::Puts(bytes, wanted) => buffer.put(sink, bytes) == wanted,
        Held::Flushes(wanted) => buffer.flush(sink) == wanted,
        Held::Holds(bytes) => sink.bytes() == bytes,
        Held::Called(calls) => sink.calls() == calls,
    }
}

/// The number of the first that isn't so over a buffer and a sink with this room, whose second call fails.
fn first_wrong_held(alloc: Global, room: usize, steps: &[Held]) -> Result<Option<usize>, Memory> {
    let mut sink = MemSink::new(alloc, Vec::from_slice(alloc, &[2])?, room)?;
    let mut buffer = PutBuffer::new(alloc)?;
    for (number, step) in steps.iter().enumerate() {
        if !is_held(&mut buffer, &mut sink, *step) {
            return Ok(Some(number));
        }
    }
    Ok(None)
}

#[test]
fn holds_back_what_there_is_room_for(rt: HostRuntime) {
    let steps = [
        Held::Puts(b"0 T1\n", Ok(())),
        Held::Puts(b"1 -\n", Ok(())),
        Held::Called(0),
        Held::Flushes(Ok(())),
        Held::Holds(b"0 T1\n1 -\n"),
        Held::Called(1),
        // Nothing is held, and no call is made.
        Held::Flushes(Ok(())),
        Held::Called(1),
        // The second call fails, and what was held is lost.
        Held::Puts(b"2 -\n", Ok(())),
        Held::Flushes(Err(PutError::Write)),
        Held::Flushes(Ok(())),
        Held::Holds(b"0 T1\n1 -\n"),
    ];
    assert!(rt; first_wrong_held(rt.alloc(), 64, &steps) == Ok(None));
}

#[test]
fn makes_room_for_what_is_put(rt: HostRuntime) {
    let bytes = [7; PUT_ROOM + 1];
    let large = &bytes[..];
    let half = &bytes[..PUT_ROOM / 2];
    let byte = &bytes[..1];
    let steps = [
        Held::Puts(half, Ok(())),
        Held::Puts(half, Ok(())),
        Held::Called(0),
        // Room is made for a byte, which is held back.
        Held::Puts(byte, Ok(())),
        Held::Called(1),
        // The second call fails.
        Held::Puts(large, Err(PutError::Write)),
        // Nothing is held, and what is too large for the buffer goes past it.
        Held::Puts(large, Ok(())),
        Held::Called(3),
        Held::Flushes(Ok(())),
        Held::Called(3),
    ];
    assert!(rt; first_wrong_held(rt.alloc(), 200_000, &steps) == Ok(None));
}

/// A stream that is interrupted, takes two bytes at a time, and then fails.
#[derive(Drop)]
struct Failing {
    calls: u8,
}

impl Write for Failing {
    fn write(&mut self, piece: &[u8]) -> io::Result<usize> {
        self.calls = self.calls.saturating_add(1);
        match self.calls {
            1 | 3 => Err(io::Error::from(ErrorKind::Interrupted)),
            2 | 4 => Ok(piece.len().min(2)),
            5 => Ok(0),
            _ => Err(io::Error::from(ErrorKind::BrokenPipe)),
        }
    }

    fn flush(&mut self) -> io::Result<()> {
        Ok(())
    }
}

impl Stream for Failing {
    ghost tells = { false };

    ghost always = { λ _. refl };
}

#[test]
fn names_its_errors(rt: HostRuntime) -> Result<(), Fail> {
    let alloc = rt.alloc();
    let text = format!(in alloc;
        "{}, {}, {}, {}, {}",
        Failed,
        LoadError::Read,
        LoadError::TooLong,
        LoadError::Memory,
        PutError::Write
    )?;
    assert!(rt; text.as_str() == "failed, read, too long, memory, write");
    Ok(())
}

#[test]
fn writes_to_a_stream(rt: HostRuntime) {
    let mut sink = StdSink::new(Failing { calls: 0 });
    // Two pieces, each tried twice.
    assert!(rt; put_all(&mut sink, b"123") == Ok(()));
    // Nothing is taken; a broken pipe.
    assert!(rt; sink.put(b"4") == Err(Failed));
    assert!(rt; sink.put(b"4") == Err(Failed));
}

#[test]
fn writes_to_the_standard_streams(rt: HostRuntime) {
    let mut out = StdSink::new(rt.stdout());
    assert!(rt; put_all(&mut out, b"to standard output\n") == Ok(()));
    let mut err = StdSink::new(rt.stderr());
    assert!(rt; put_all(&mut err, b"to standard error\n") == Ok(()));
}
