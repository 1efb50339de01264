//! Short texts that are put often. One is kept at the front of a piece of constant size and is put with what stands
//! behind it there, since a copy of constant size is a few moves, and one of any other size a call.
ghost use Rattle.std.specs.Prelude.{◌≡◌, ◌+◌, ◌≤◌, [], ◌++◌, length, take};

use crate::pieces::{put, put_prefix};
use std::marker::Model;

/// The most bytes of a label: a name, and a mark on both sides.
pub const MAX_LABEL: usize = 66;
/// How many bytes a buffer needs where a label is put.
pub const LABEL_ROOM: usize = 80;

// The sizes of copies; most labels are short.
const SHORT: usize = 16;

const MIDDLE: usize = 32;

/// A short text, which contracts see as the list of its bytes.
#[derive(Drop)]
pub struct Label {
    // The text, and behind it bytes that have no meaning.
    bytes: [u8; LABEL_ROOM],
    size: usize,
}

impl Model for Label {
    ghost use Rattle.std.specs.Prelude.{List, ℕ, ◌≤◌, take};
    ghost use Rattle.text_pieces.specs.declared.label.TheConstants.{MAX_LABEL};

    ghost Value = { List ℕ };

    ghost view = { λ l. take l.size l.bytes };

    ghost invariant = { λ l. l.size ≤ MAX_LABEL };
}

impl Label {
    /// The empty text.
    pub fn new() -> Label
        ensures { result ≡ [] }
    {
        Label {
            bytes: [0; LABEL_ROOM],
            size: 0,
        }
    }

    /// Adds bytes at the end.
    pub fn add(&mut self, bytes: &[u8])
        requires { length self.old + length bytes.now ≤ MAX_LABEL }
        ensures { self.new ≡ self.old ++ bytes.now }
    {
        self.size = put(&mut self.bytes, self.size, bytes);
    }
}

impl Default for Label {
    fn default() -> Label {
        Label::new()
    }
}

/// Puts a label.
#[inline(always)]
pub fn put_label(buf: &mut [u8], at: usize, label: &Label) -> usize
    requires room { at + LABEL_ROOM ≤ length buf.old }
    ensures text { take result buf.new ≡ take at buf.old ++ label.now }
    ensures most { result ≤ at + MAX_LABEL }
{
    let size = label.size;
    if size <= SHORT {
        return put_prefix(buf, at, &label.bytes[..SHORT], size);
    }
    if size <= MIDDLE {
        return put_prefix(buf, at, &label.bytes[..MIDDLE], size);
    }
    put_prefix(buf, at, &label.bytes, size)
}
