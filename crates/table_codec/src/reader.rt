//! Reading numbers from the start of bytes.
ghost use Rattle.std.specs.{Prelude.{◌≡◌, ◌∷◌, ◌++◌, ◌<◌, ◌≤◌, IfSome, IfNone, length, take, drop}, Int.{to_be_bytes, w16, w32}};

use crate::fault::{Fault, TableRule};
use std::marker::Model;

/// Bytes that are read from their start.
#[derive(Drop)]
pub(crate) struct Reader<'a> {
    rest: &'a [u8],
}

impl<'a> Model for Reader<'a> {
    ghost use Rattle.std.specs.Prelude.{List, ℕ};

    ghost Value = { List ℕ };

    ghost view = { λ r. r.rest.now };
}

/// Bytes that spelled a set, to be found again; none where none were read yet.
#[derive(Drop)]
pub(crate) struct Spelled<'a> {
    bytes: &'a [u8],
}

impl<'a> Model for Spelled<'a> {
    ghost use Rattle.std.specs.Prelude.{List, ℕ};

    ghost Value = { List ℕ };

    ghost view = { λ s. s.bytes.now };
}

impl<'a> Spelled<'a> {
    ghost use Rattle.std.specs.Prelude.{◌≡◌, ◌==◌, [], length};

    /// No bytes.
    pub fn none() -> Spelled<'a>
        ensures { result ≡ [] }
    {
        Spelled { bytes: b"" }
    }

    /// Whether there are none.
    pub fn is_empty(&self) -> bool
        ensures { result ≡ (length self.now == 0) }
    {
        self.bytes.is_empty()
    }
}

/// A fault of a rule, at a field before which so many bytes are left.
pub(crate) fn fault(rule: TableRule, left: usize) -> Fault
    ensures { result ≡ record { rule = rule; left = left } }
{
    Fault { rule, left }
}

impl<'a> Reader<'a> {
    ghost use Rattle.std.specs.{Prelude.{◌≡◌, ◌∷◌, ◌++◌, ◌<◌, ◌≤◌, ◌^◌, [], IfSome, IfNone, List, ℕ, length, take, drop}, Bool.{OnTrue, OnFalse}, Int.{to_be_bytes, w16, w32}};

    /// Reads these bytes.
    pub fn new(bytes: &'a [u8]) -> Reader<'a>
        ensures { result ≡ bytes.now }
    {
        Reader { rest: bytes }
    }

    /// How many bytes are left.
    pub fn left(&self) -> usize
        ensures { result ≡ length self.now }
    {
        self.rest.len()
    }

    /// One byte. Where there is none, as with every other number, nothing is taken.
    pub fn byte(&mut self) -> Option<u8>
        ensures number { IfSome result (λ n. self.old ≡ n ∷ self.new) }
        ensures none { IfNone result (self.old ≡ []) }
    {
        match self.rest {
            [] => None,
            [byte, rest @ ..] => {
                self.rest = rest;
                Some(*byte)
            }
        }
    }

    /// A number of two bytes.
    pub fn number_16(&mut self) -> Option<u16>
        ensures number { IfSome result (λ n. self.old ≡ to_be_bytes w16 n ++ self.new) }
        ensures none { IfNone result (length self.old < 2) }
    {
        if self.rest.len() < 2 {
            return None;
        }
        let (first, rest) = self.rest.split_at(2);
        self.rest = rest;
        Some(u16::from_be_bytes([first[0], first[1]]))
    }

    /// A number of four bytes.
    pub fn number_32(&mut self) -> Option<u32>
        ensures number { IfSome result (λ n. self.old ≡ to_be_bytes w32 n ++ self.new) }
        ensures none { IfNone result (length self.old < 4) }
    {
        if self.rest.len() < 4 {
            return None;
        }
        let (first, rest) = self.rest.split_at(4);
        self.rest = rest;
        Some(u32::from_be_bytes([first[0], first[1], first[2], first[3]]))
    }

    /// So many bytes, or all that are left.
    pub fn text(&mut self, most: usize) -> &'a [u8]
        ensures text { result.now ≡ take most self.old }
        ensures rest { self.new ≡ drop most self.old }
    {
        let count = if self.rest.len() < most {
            self.rest.len()
        } else {
            most
        };
        let (text, rest) = self.rest.split_at(count);
        self.rest = rest;
        text
    }
    /// Takes such bytes, if they stand at the start.
    pub fn skip(&mut self, spelled: &Spelled) -> bool
        ensures skipped { OnTrue result (self.old ≡ spelled.now ++ self.new) }
        ensures same { OnFalse result (self.new ≡ self.old) }
    {
        if !self.rest.starts_with(spelled.bytes) {
            return false;
        }
        let (_spelled, rest) = self.rest.split_at(spelled.bytes.len());
        self.rest = rest;
        true
    }

    /// All bytes that are left.
    pub fn all(&self) -> Spelled<'a>
        ensures { result ≡ self.now }
    {
        Spelled { bytes: self.rest }
    }

    /// Of bytes that were left before, those that were read since.
    pub fn since(&self, before: &Spelled<'a>) -> Spelled<'a>
        ensures { (bytes : List ℕ) → before.now ≡ bytes ++ self.now → result ≡ bytes }
    {
        let count = before.bytes.len().saturating_sub(self.rest.len());
        let (bytes, _rest) = before.bytes.split_at(count);
        Spelled { bytes }
    }
}
