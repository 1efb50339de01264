//! The lines of an event text that comes in pieces.
ghost use Rattle.std.specs.{Prelude.{◌≡◌, ◌≤◌, ◌+◌, ◌==◌, ◌<◌, length, map, take, drop, vec_len, vec_capacity, IfOk, IfSome, option_map}, List.{position}};
ghost use Rattle.std.specs.Simd.Lanes.{mask_l};
ghost use Rattle.std.specs.Str.Lines.{strip_carriage_return};
ghost use Rattle.trace_text.specs.Feeds.{peeled};

use osek_values::Memory;
use osek_values::limits::MAX_EVENT_LINE;
use std::alloc::Global;
use std::marker::Model;
use std::simd::prelude::*;

/// How many bytes a feed has room for.
pub const FEED_ROOM: usize = 73_728;

// How many bytes are looked at at once.
const LANES: usize = 16;

/// What a feed answers where the next line is asked for.
#[derive(Clone, Copy, PartialEq, Eq)]
pub enum FeedStep {
    /// A line came out.
    Line,
    /// The text is at its end.
    End,
    /// The next line isn't whole yet.
    More,
}

// How many bytes ahead are a line, and how many go with it.
#[derive(Clone, Copy)]
struct Cut {
    line: usize,
    taken: usize,
}

/// An event text that comes in pieces, and goes in lines. It takes no memory once it is made.
#[derive(Drop)]
pub struct Feed {
    // Bytes that came: those of lines that came out, and then those ahead.
    bytes: Vec<u8>,
    ahead: usize,
    line_start: usize,
    line_end: usize,
    finished: bool,
}

impl Model for Feed {
    ghost use Rattle.std.specs.Prelude.{◌≤◌, ◌-◌, take, drop, vec_capacity, vec_len};
    ghost use Rattle.trace_text.specs.{Feeds.{FeedState}, declared.feed.TheConstants.{FEED_ROOM}};

    ghost Value = { FeedState };

    ghost view = { λ f. record { ahead = drop f.ahead f.bytes.items; finished = f.finished; line = take (f.line_end - f.line_start) (drop f.line_start f.bytes.items) } };

    ghost invariant = { λ f. (f.ahead ≤ vec_len f.bytes) × (f.line_start ≤ f.line_end) × (f.line_end ≤ vec_len f.bytes) × (vec_len f.bytes ≤ FEED_ROOM) × (FEED_ROOM ≤ vec_capacity f.bytes) };
}

fn line_ends(bytes: u8x16) -> u64
    ensures { result ≡ mask_l (map (λ c. c == 10) bytes) }
{
    bytes.simd_eq(u8x16::splat(b'\n')).to_bitmask()
}

// Where the first line of a text ends, if it does among the first bytes, which are looked at at once: most lines are short.
fn near_line_end(text: &[u8]) -> Option<usize>
    ensures { IfSome result (λ end. Some end ≡ position (λ c. c == 10) text.now) }
{
    if text.len() < LANES {
        return None;
    }
    let ends = line_ends(u8x16::from_slice(text));
    if ends == 0 {
        return None;
    }
    Some(ends.trailing_zeros() as usize)
}

fn line_end(text: &[u8]) -> Option<usize>
    ensures { result ≡ position (λ c. c == 10) text.now }
{
    match near_line_end(text) {
        Some(end) => Some(end),
        None => text.iter().position(|byte| *byte == b'\n'),
    }
}

fn without_cr(line: &[u8]) -> &[u8]
    ensures { result.now ≡ strip_carriage_return line.now }
{
    match line {
        [prefix @ .., b'\r'] => prefix,
        _ => line,
    }
}

// Where an LF ends the first line of the bytes ahead, unless the line is too long.
fn short_line_end(ahead: &[u8]) -> Option<usize>
    ensures place { result ≡ position (λ c. c == 10) (take (MAX_EVENT_LINE + 1) ahead.now) }
    ensures within { IfSome result (λ end. end < length ahead.now) }
{
    line_end(&ahead[..(MAX_EVENT_LINE + 1).min(ahead.len())])
}

// The first line of the bytes ahead.
fn first_cut(ahead: &[u8], finished: bool) -> Option<Cut>
    ensures peels { peeled finished ahead.now ≡ option_map (λ c. record { line = take c.line ahead.now; rest = drop c.taken ahead.now }) result }
    ensures within { IfSome result (λ c. (c.line ≤ c.taken) × (c.taken ≤ length ahead.now)) }
{
    if let Some(end) = short_line_end(ahead) {
        return Some(Cut {
            line: without_cr(&ahead[..end]).len(),
            taken: end + 1,
        });
    }
    if ahead.len() > MAX_EVENT_LINE {
        return Some(Cut {
            line: MAX_EVENT_LINE + 1,
            taken: MAX_EVENT_LINE + 1,
        });
    }
    if finished && !ahead.is_empty() {
        return Some(Cut {
            line: ahead.len(),
            taken: ahead.len(),
        });
    }
    None
}

// Lets go of the first bytes.
fn let_go(bytes: &mut Vec<u8>, count: usize)
    requires { count ≤ vec_len bytes.old }
    ensures items { bytes.new.items ≡ drop count bytes.old.items }
    ensures room { vec_capacity bytes.new ≡ vec_capacity bytes.old }
{
    let left = bytes.len() - count;
    bytes.rotate_left(count);
    bytes.truncate(left);
}

impl Feed {
    ghost use Rattle.trace_text.specs.Feeds.{no_bytes, taken_count, after_give, after_finish, next_answer, after_next};

    /// A feed of which nothing came yet.
    pub fn new(alloc: Global) -> Result<Feed, Memory>
        ensures { IfOk result (λ f. f ≡ no_bytes) }
    {
        Ok(Feed {
            bytes: Vec::with_capacity(alloc, FEED_ROOM)?,
            ahead: 0,
            line_start: 0,
            line_end: 0,
            finished: false,
        })
    }

    /// Takes a prefix of the piece, as large as the room that is left. It answers how many bytes.
    pub fn give(&mut self, piece: &[u8]) -> usize
        ensures taken { result ≡ taken_count self.old piece.now }
        ensures after { self.new ≡ after_give self.old piece.now }
    {
        let_go(&mut self.bytes, self.ahead);
        self.ahead = 0;
        self.line_start = 0;
        self.line_end = 0;
        if self.finished {
            return 0;
        }
        let count = piece.len().min(FEED_ROOM - self.bytes.len());
        self.bytes.extend_from_slice(&piece[..count]).unwrap();
        count
    }

    /// Nothing comes behind what came.
    pub fn finish(&mut self)
        ensures { self.new ≡ after_finish self.old }
    {
        self.finished = true;
    }

    /// Lets the next line come out.
    pub fn next(&mut self) -> FeedStep
        ensures answer { result ≡ next_answer self.old }
        ensures after { self.new ≡ after_next self.old }
    {
        let start = self.ahead;
        match first_cut(&self.bytes[start..], self.finished) {
            Some(cut) => {
                self.line_start = start;
                self.line_end = start + cut.line;
                self.ahead = start + cut.taken;
                FeedStep::Line
            }
            None => {
                self.line_end = self.line_start;
                if self.finished {
                    FeedStep::End
                } else {
                    FeedStep::More
                }
            }
        }
    }

    /// The line that came out last, or nothing where the last call of `next` let none come out, or a piece was given since.
    pub fn line(&self) -> &[u8]
        ensures { result.now ≡ self.now.line }
    {
        &self.bytes[self.line_start..self.line_end]
    }
}
