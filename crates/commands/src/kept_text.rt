//! A text that grows in memory as it is written.
ghost use Rattle.std.specs.Prelude.{◌≡◌, ◌≤◌, [], length, take, Some, IfOk, OnErr};

use osek_io::{Failed, Sink};
use std::alloc::Global;
use std::marker::Model;

/// A sink that keeps all that is written. A call fails only where a growth is refused.
#[derive(Drop)]
pub struct KeptText {
    bytes: Vec<u8>,
    faults: u64,
}

impl Model for KeptText {
    ghost use Rattle.commands.specs.KeptTexts.{Kept};

    ghost Value = { Kept };

    ghost view = { λ t. record { bytes = t.bytes.items; faults = t.faults } };
}

impl KeptText {
    /// The empty text. It takes no memory yet.
    pub fn new(alloc: Global) -> KeptText
        ensures { result ≡ record { bytes = []; faults = 0 } }
    {
        KeptText {
            bytes: Vec::new(alloc),
            faults: 0,
        }
    }

    /// What was written.
    pub fn bytes(&self) -> &[u8]
        ensures { result.now ≡ self.now.bytes }
    {
        &self.bytes
    }
}

impl Sink for KeptText {
    ghost written = { λ t. Some t.bytes };

    ghost faults = { λ t. t.faults };

    fn put(&mut self, piece: &[u8]) -> Result<usize, Failed> {
        match self.bytes.extend_from_slice(piece) {
            Ok(()) => Ok(piece.len()),
            Err(_) => {
                self.faults = self.faults.saturating_add(1);
                Err(Failed)
            }
        }
    }
}
