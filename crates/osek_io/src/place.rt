//! A place for a file in memory.
ghost use Rattle.std.specs.Prelude.{◌≡◌, ◌≤◌, ◌+◌, ◌++◌, ℕ, [], length, Option, Some, None, IfSome, option_map, unwrap_or, IfOk, max};

use osek_values::Memory;
use std::alloc::Global;
use std::marker::Model;

/// A name, room for its bytes, and whether the file is there.
#[derive(Drop)]
pub struct Place {
    name: String,
    there: bool,
    bytes: Vec<u8>,
    room: usize,
}

impl Model for Place {
    ghost use Rattle.std.specs.{Prelude.{◌≤◌, Some, None, if◌then◌else◌, vec_capacity, vec_len}, String.{string_bytes}};
    ghost use Rattle.osek_io.specs.Place.{PlaceState};

    ghost Value = { PlaceState };

    ghost view = { λ p. record { name = string_bytes p.name; bytes = (if p.there then Some p.bytes.items else None); room = p.room } };

    ghost invariant = { λ p. (vec_len p.bytes ≤ p.room) × (p.room ≤ vec_capacity p.bytes) };
}

impl Place {
    ghost use Rattle.osek_io.specs.Place.{PlaceState, is_named};

    /// A place with room for these bytes, and at least this room. Without bytes the file isn't there.
    pub fn new(
        alloc: Global,
        name: &str,
        bytes: Option<&[u8]>,
        room: usize,
    ) -> Result<Place, Memory>
        ensures { IfOk result (λ p. p ≡ record { name = name.now; bytes = option_map (λ b. b.now) bytes.entry; room = max room (length (unwrap_or (option_map (λ b. b.now) bytes.entry) [])) }) }
    {
        let start = bytes.unwrap_or(&[]);
        let room = room.max(start.len());
        let mut all = Vec::with_capacity(alloc, room)?;
        all.extend_from_slice(start)?;
        Ok(Place {
            name: String::from_str(alloc, name)?,
            there: bytes.is_some(),
            bytes: all,
            room,
        })
    }

    /// Whether the place has this name.
    pub fn is(&self, name: &str) -> bool
        ensures { result ≡ is_named name.now self.now }
    {
        name == self.name.as_str()
    }

    /// The bytes, where the file is there.
    pub fn bytes(&self) -> Option<&[u8]>
        ensures { option_map (λ b. b.now) result ≡ self.now.bytes }
    {
        self.there.then_some(self.bytes.as_slice())
    }

    /// How much room there is.
    pub fn room(&self) -> usize
        ensures room { result ≡ self.now.room }
        ensures within { IfSome self.now.bytes (λ b. length b ≤ result) }
    {
        self.room
    }

    /// Makes the file hold no bytes.
    pub fn clear(&mut self)
        ensures { self.new ≡ record { name = self.old.name; bytes = Some []; room = self.old.room } }
    {
        self.there = true;
        self.bytes.clear();
    }

    /// Adds bytes that there is room for.
    pub fn add(&mut self, piece: &[u8])
        requires { IfSome self.old.bytes (λ b. length b + length piece.now ≤ self.old.room) }
        ensures { self.new ≡ record { name = self.old.name; bytes = option_map (λ b. b ++ piece.now) self.old.bytes; room = self.old.room } }
    {
        if self.there {
            self.bytes.extend_from_slice(piece).unwrap();
        }
    }
}
