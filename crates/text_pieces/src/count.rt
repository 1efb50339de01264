//! A number that is put often and mostly goes up by one: its digits are kept, and then only the last of them changes.
ghost use Rattle.std.specs.Prelude.{◌≡◌, ◌==◌, ◌+◌, ◌≤◌, ◌++◌, length, take, decimal};

use crate::pieces::{MAX_DECIMAL, put_decimal, put_prefix};
use std::marker::Model;

// Twice the room that digits need: a copy has a constant size.
const ROOM: usize = 2 * MAX_DECIMAL;

/// A number with its digits, which contracts see as the number.
#[derive(Drop)]
pub struct Count {
    // The digits, and behind them bytes that have no meaning.
    digits: [u8; ROOM],
    size: usize,
    number: u64,
}

impl Model for Count {
    ghost use Rattle.std.specs.Prelude.{ℕ, ◌≡◌, ◌≤◌, take, decimal};
    ghost use Rattle.text_pieces.specs.declared.pieces.TheConstants.{MAX_DECIMAL};

    ghost Value = { ℕ };

    ghost view = { λ c. c.number };

    ghost invariant = { λ c. (c.size ≤ MAX_DECIMAL) × (take c.size c.digits ≡ decimal c.number) };
}

impl Count {
    /// The number with its digits.
    pub fn of(number: u64) -> Count
        ensures { result ≡ number }
    {
        let mut digits = [0; ROOM];
        let size = put_decimal(&mut digits, 0, number);
        Count {
            digits,
            size,
            number,
        }
    }

    /// Whether it is this number.
    pub fn is(&self, number: u64) -> bool
        ensures { result ≡ (self.now == number) }
    {
        self.number == number
    }

    /// Becomes another number. To become one more mostly costs nothing.
    pub fn set(&mut self, number: u64)
        ensures { self.new ≡ number }
    {
        let last_digit = number % 10;
        if last_digit > 0 && self.number == number - 1 {
            self.digits[self.size - 1] = b'0' + last_digit as u8;
            self.number = number;
        } else {
            *self = Count::of(number);
        }
    }
}

/// Puts the digits of a number.
pub fn put_count(buf: &mut [u8], at: usize, count: &Count) -> usize
    requires room { at + MAX_DECIMAL ≤ length buf.old }
    ensures text { take result buf.new ≡ take at buf.old ++ decimal count.now }
    ensures most { result ≤ at + MAX_DECIMAL }
{
    put_prefix(buf, at, &count.digits[..MAX_DECIMAL], count.size)
}
