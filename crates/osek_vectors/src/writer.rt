//! Texts that draw numbers, one behind the other.
ghost use Rattle.std.specs.Prelude.{◌≡◌, ◌<◌, [], OnOk, IfSome};
ghost use Rattle.osek_vectors.specs.{Draws.{next_state}, Writing.{fixed, onto, drawn, with_draw}};

use osek_values::{Memory, Seq};
use std::alloc::Global;
use std::fmt::Display;
use std::marker::Model;
use std::mem;

const FACTOR: u64 = 1_103_515_245;

const SUMMAND: u64 = 12_345;

const MODULUS: u64 = 1 << 31;
/// The low bits of a state are poor, so a draw leaves them out.
const LOW: u32 = 1 << 16;

/// A text that is being written, and the state of the draws.
#[derive(Drop)]
pub(crate) struct Writer {
    text: String,
    state: u32,
}

impl Model for Writer {
    ghost use Rattle.std.specs.String.{string_bytes};
    ghost use Rattle.osek_vectors.specs.Writing.{Written};

    ghost Value = { Written };

    ghost view = { λ w. record { text = string_bytes w.text; state = w.state } };
}

impl Writer {
    ghost use Rattle.osek_vectors.specs.Draws.{first_state};

    /// An empty text, and the draws that a seed begins. It takes no memory yet.
    pub fn new(alloc: Global, seed: u64) -> Writer
        ensures { result ≡ record { text = []; state = first_state seed } }
    {
        Writer {
            text: String::new(alloc),
            state: (seed % MODULUS) as u32,
        }
    }

    /// Draws one of the numbers below `choices`.
    pub fn draw(&mut self, choices: u32) -> u32
        requires { 0 < choices }
        ensures number { result ≡ drawn choices self.old }
        ensures below { result < choices }
        ensures after { self.new ≡ with_draw self.old }
    {
        let next = (u64::from(self.state) * FACTOR + SUMMAND) % MODULUS;
        self.state = next as u32;
        self.state / LOW % choices
    }

    /// Adds bytes to the text.
    pub fn put(&mut self, text: &str) -> Result<(), Memory>
        ensures { OnOk result (self.new ≡ onto self.old (fixed text.now)) }
    {
        self.text.push_str(text)?;
        Ok(())
    }

    /// Adds what a format says. `write!` calls it.
    pub fn write_fmt<D: Display + Drop>(&mut self, value: D) -> Result<(), Memory>
        ensures { OnOk result (IfSome (D.output value) (λ bytes. self.new ≡ onto self.old (fixed bytes))) }
    {
        self.text.write_fmt(value)?;
        Ok(())
    }

    /// Takes the text, and goes on with an empty one. It takes no memory.
    pub fn take_text(&mut self, alloc: Global) -> Seq<u8>
        ensures text { result ≡ self.old.text }
        ensures rest { self.new ≡ record self.old { text = [] } }
    {
        let text = mem::replace(&mut self.text, String::new(alloc));
        Seq::of(text.into_bytes())
    }
}
