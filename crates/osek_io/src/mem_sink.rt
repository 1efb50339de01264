//! A sink in memory, whose failing calls are listed.
ghost use Rattle.std.specs.Prelude.{◌≡◌, ◌≤◌, ◌<◌, ◌^◌, ◌-◌, [], length, take, Some, IfOk, OnOk, OnErr};
ghost use Rattle.osek_io.specs.{Counts.{Rose}, Pieces.{grown}};

use crate::counts::{is_listed, one_more};
use crate::failed::Failed;
use crate::sink::Sink;
use osek_values::Memory;
use std::alloc::Global;
use std::marker::Model;

/// A sink in memory. A call fails exactly where its number is listed, counted from 1, or where a piece
/// that isn't empty finds the room full; else it takes what fits, and no more than was set by `limit`.
#[derive(Drop)]
pub struct MemSink {
    fails: Vec<u64>,
    bytes: Vec<u8>,
    room: usize,
    most: usize,
    calls: u64,
    faults: u64,
}

impl Model for MemSink {
    ghost use Rattle.std.specs.Prelude.{◌≤◌, ◌<◌, vec_capacity, vec_len};
    ghost use Rattle.osek_io.specs.MemSink.{SinkState};

    ghost Value = { SinkState };

    ghost view = { λ s. record { fails = s.fails.items; bytes = s.bytes.items; room = s.room; most = s.most; calls = s.calls; faults = s.faults } };

    ghost invariant = { λ s. (vec_len s.bytes ≤ s.room) × (s.room ≤ vec_capacity s.bytes) × (0 < s.most) };
}

impl MemSink {
    ghost use Rattle.osek_io.specs.MemSink.{SinkState};

    /// An empty sink with room for so many bytes, without a limit. The calls of these numbers fail.
    pub fn new(alloc: Global, fails: Vec<u64>, room: usize) -> Result<MemSink, Memory>
        ensures { IfOk result (λ s. s ≡ record { fails = fails.items; bytes = []; room = room; most = 2 ^ 64 - 1; calls = 0; faults = 0 }) }
    {
        Ok(MemSink {
            fails,
            bytes: Vec::with_capacity(alloc, room)?,
            room,
            most: usize::MAX,
            calls: 0,
            faults: 0,
        })
    }

    /// Lets each later `put` take at most so many bytes.
    pub fn limit(&mut self, most: usize)
        requires { 0 < most }
        ensures { self.new ≡ record self.old { most = most } }
    {
        self.most = most;
    }

    /// What was written.
    pub fn bytes(&self) -> &[u8]
        ensures { result.now ≡ self.now.bytes }
    {
        &self.bytes
    }

    /// How often `put` was called.
    pub fn calls(&self) -> u64
        ensures { result ≡ self.now.calls }
    {
        self.calls
    }
}

impl Sink for MemSink {
    ghost use Rattle.osek_io.specs.MemSink.{put_answer, after_put};

    ghost written = { λ s. Some s.bytes };

    ghost faults = { λ s. s.faults };

    fn put(&mut self, piece: &[u8]) -> Result<usize, Failed>
        ensures bound { IfOk result (λ n. n ≤ length piece.now) }
        ensures some { IfOk result (λ n. n ≡ 0 → length piece.now ≡ 0) }
        ensures ok { IfOk result (λ n. Some self.new.bytes ≡ grown (Some self.old.bytes) (take n piece.now)) }
        ensures err { OnErr result (Some self.new.bytes ≡ Some self.old.bytes) }
        ensures cause { OnErr result (Rose self.old.faults self.new.faults) }
        ensures no_fault { OnOk result (self.new.faults ≡ self.old.faults) }
        ensures never_falls { self.old.faults ≤ self.new.faults }

        // More than every sink promises: the answer and what is left, exactly.
        ensures answer { result ≡ put_answer self.old piece.now }
        ensures after { self.new ≡ after_put self.old piece.now }
    {
        let listed = is_listed(&self.fails, self.calls);
        let full = !piece.is_empty() && self.bytes.len() == self.room;
        self.calls = one_more(self.calls);
        if listed || full {
            self.faults = one_more(self.faults);
            return Err(Failed);
        }
        let count = piece.len().min(self.room - self.bytes.len()).min(self.most);
        self.bytes.extend_from_slice(&piece[..count]).unwrap();
        Ok(count)
    }
}
