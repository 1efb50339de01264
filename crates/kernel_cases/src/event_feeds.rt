//! What no clause says of event texts in pieces: that the calls succeed where memory is there, and which lines come out.
ghost use Rattle.std.specs.Prelude.{◌<◌};

use osek_values::Memory;
use std::alloc::Global;
use trace_text::{FEED_ROOM, Feed, FeedStep};

/// Lets lines come out until none does, and answers how many there were with those before: None where one isn't the
/// wanted one.
fn drained(feed: &mut Feed, want: &[&[u8]], before: usize) -> Option<usize> {
    let mut seen = before;
    for _ in 0..=FEED_ROOM {
        if feed.next() != FeedStep::Line {
            return Some(seen);
        }
        match want.get(seen) {
            Some(line) if *line == feed.line() => seen = seen.saturating_add(1),
            _ => return None,
        }
    }
    None
}

/// Whether these lines come out of a text in pieces of a size.
fn come_out(alloc: Global, text: &[u8], size: usize, want: &[&[u8]]) -> Result<bool, Memory>
    requires { 0 < size }
{
    let mut feed = Feed::new(alloc)?;
    let mut seen = 0;
    for piece in text.chunks(size) {
        if feed.give(piece) != piece.len() {
            return Ok(false);
        }
        match drained(&mut feed, want, seen) {
            Some(count) => seen = count,
            None => return Ok(false),
        }
    }
    feed.finish();
    let all = drained(&mut feed, want, seen) == Some(want.len());
    Ok(all && feed.next() == FeedStep::End && feed.line().is_empty())
}

/// The lines of a text with CRLF, blanks and a comment, and without a last LF.
const ROW_TEXT: &[u8] = b"run 0\r\n\r\n# x\r\nrun 0\r\nrun 0";

const ROW_LINES: [&[u8]; 5] = [b"run 0", b"", b"# x", b"run 0", b"run 0"];

#[test]
fn the_lines_of_each_cut_are_the_same(rt: HostRuntime) {
    assert!(rt; come_out(rt.alloc(), ROW_TEXT, 1, &ROW_LINES) == Ok(true));
    assert!(rt; come_out(rt.alloc(), ROW_TEXT, 7, &ROW_LINES) == Ok(true));
    assert!(rt; come_out(rt.alloc(), ROW_TEXT, 4096, &ROW_LINES) == Ok(true));
}

#[test]
fn ends_of_texts_are_lines(rt: HostRuntime) {
    assert!(rt; come_out(rt.alloc(), b"", 1, &[]) == Ok(true));
    assert!(rt; come_out(rt.alloc(), b"\n", 1, &[b""]) == Ok(true));
    assert!(rt; come_out(rt.alloc(), b"run 0\r", 1, &[b"run 0\r"]) == Ok(true));
    assert!(rt; come_out(rt.alloc(), b"\r\r\n\nx", 2, &[b"\r", b"", b"x"]) == Ok(true));
    assert!(rt; come_out(rt.alloc(), b"\r\n\n", 1, &[b"", b""]) == Ok(true));
}

/// So many marks of a comment, and then an end.
fn long_line(alloc: Global, marks: usize, end: &[u8]) -> Result<Vec<u8>, Memory> {
    let mut text = vec![in alloc; b'#'; marks]?;
    text.extend_from_slice(end)?;
    Ok(text)
}

/// Whether one line of so many bytes comes out of marks with an end.
fn is_cut(alloc: Global, marks: usize, end: &[u8], size: usize) -> Result<bool, Memory> {
    let text = long_line(alloc, marks, end)?;
    let mut feed = Feed::new(alloc)?;
    let given = feed.give(&text);
    feed.finish();
    let step = feed.next();
    Ok(given == text.len() && step == FeedStep::Line && feed.line().len() == size)
}

#[test]
fn long_lines_show_that_they_are(rt: HostRuntime) {
    // With its CR the line is within the limit, or over it.
    assert!(rt; is_cut(rt.alloc(), 255, b"\r\n", 255) == Ok(true));
    assert!(rt; is_cut(rt.alloc(), 256, b"\r\n", 257) == Ok(true));
    assert!(rt; is_cut(rt.alloc(), 256, b"\n", 256) == Ok(true));
    assert!(rt; is_cut(rt.alloc(), 257, b"\n", 257) == Ok(true));
    assert!(rt; is_cut(rt.alloc(), 900, b"", 257) == Ok(true));
    assert!(rt; is_cut(rt.alloc(), 256, b"", 256) == Ok(true));
}

/// Whether the lines come out of a text of one line of 600 bytes and a short one, for pieces of a size.
fn go_on_behind(alloc: Global, size: usize) -> Result<bool, Memory>
    requires { 0 < size }
{
    let text = long_line(alloc, 600, b"\r\nrun 0\n")?;
    let long = [b'#'; 257];
    come_out(alloc, &text, size, &[&long, &long, &[b'#'; 86], b"run 0"])
}

#[test]
fn lines_behind_a_long_one_are_the_same(rt: HostRuntime) {
    assert!(rt; go_on_behind(rt.alloc(), 1) == Ok(true));
    assert!(rt; go_on_behind(rt.alloc(), 300) == Ok(true));
    assert!(rt; go_on_behind(rt.alloc(), 4096) == Ok(true));
}

/// What a feed takes of two pieces of a size, and of a third once it is finished.
fn taken(alloc: Global, size: usize) -> Result<[usize; 3], Memory> {
    let piece = vec![in alloc; b'#'; size]?;
    let mut feed = Feed::new(alloc)?;
    let first = feed.give(&piece);
    let second = feed.give(&piece);
    feed.finish();
    Ok([first, second, feed.give(&piece)])
}

#[test]
fn takes_what_there_is_room_for(rt: HostRuntime) {
    assert!(rt; taken(rt.alloc(), 4096) == Ok([4096, 4096, 0]));
    assert!(rt; taken(rt.alloc(), 40_000) == Ok([40_000, 33_728, 0]));
    assert!(rt; taken(rt.alloc(), 80_000) == Ok([73_728, 0, 0]));
}

/// What two calls answer where a line isn't whole yet, and where it is.
fn steps(alloc: Global) -> Result<[FeedStep; 4], Memory> {
    let mut feed = Feed::new(alloc)?;
    let empty = feed.next();
    let _ = feed.give(b"run 0");
    let begun = feed.next();
    let _ = feed.give(b"\n");
    let whole = feed.next();
    let behind = feed.next();
    Ok([empty, begun, whole, behind])
}

#[test]
fn waits_for_a_whole_line(rt: HostRuntime) {
    let want = [
        FeedStep::More,
        FeedStep::More,
        FeedStep::Line,
        FeedStep::More,
    ];
    assert!(rt; steps(rt.alloc()) == Ok(want));
}
