//! Reading fields from the front of bytes.
ghost use Rattle.std.specs.{Prelude.{◌≡◌, ◌≤◌, ◌<◌, ◌+◌, ◌^◌, ◌==◌, ◌&&◌, IfOk, List, ℕ, length, nat_lt}, Int.{w16, w32, w64}};
ghost use Rattle.image_fields.specs.declared.fault.ImageRule.TheVariants.{I3};
ghost use Rattle.osek_values.specs.declared.refused.Refused.TheVariants as refused;

use crate::fault::{Fault, ImageRule, ReadError};
use std::marker::Model;

/// Bytes that are read from their front.
#[derive(Drop)]
pub struct Reader<'a> {
    rest: &'a [u8],
}

impl<'a> Model for Reader<'a> {
    ghost use Rattle.std.specs.Prelude.{List, ℕ};

    ghost Value = { List ℕ };

    ghost view = { λ r. r.rest.now };
}

/// A fault of a rule, at a field before which so many bytes are left.
pub(crate) fn fault(rule: ImageRule, left: usize) -> ReadError
    ensures { result ≡ refused.Fault (record { rule = rule; left = left }) }
{
    ReadError::Fault(Fault { rule, left })
}

impl<'a> Reader<'a> {
    ghost use Rattle.image_fields.specs.Reading.{Gives, byte_at, number_at, text_at, byte_below_at, tested_at, flag_at, modes_at};

    /// Reads these bytes.
    pub fn new(bytes: &'a [u8]) -> Reader<'a>
        ensures { result ≡ bytes.now }
    {
        Reader { rest: bytes }
    }

    /// How many bytes are left.
    pub fn left(&self) -> usize
        ensures { result ≡ length self.now }
    {
        self.rest.len()
    }

    /// One byte.
    pub fn byte(&mut self) -> Result<u8, ReadError>
        ensures { Gives (λ x. x) result self.new (byte_at self.old) }
    {
        match self.rest {
            [] => Err(fault(ImageRule::I1, 0)),
            [byte, rest @ ..] => {
                self.rest = rest;
                Ok(*byte)
            }
        }
    }

    /// A number of two bytes.
    pub fn number_16(&mut self) -> Result<u16, ReadError>
        ensures { Gives (λ x. x) result self.new (number_at w16 self.old) }
    {
        if self.rest.len() < 2 {
            return Err(fault(ImageRule::I1, self.rest.len()));
        }
        let (front, rest) = self.rest.split_at(2);
        self.rest = rest;
        Ok(u16::from_be_bytes([front[0], front[1]]))
    }

    /// A number of four bytes.
    pub fn number_32(&mut self) -> Result<u32, ReadError>
        ensures { Gives (λ x. x) result self.new (number_at w32 self.old) }
    {
        if self.rest.len() < 4 {
            return Err(fault(ImageRule::I1, self.rest.len()));
        }
        let (front, rest) = self.rest.split_at(4);
        self.rest = rest;
        Ok(u32::from_be_bytes([front[0], front[1], front[2], front[3]]))
    }

    /// A number of eight bytes.
    pub fn number_64(&mut self) -> Result<u64, ReadError>
        ensures { Gives (λ x. x) result self.new (number_at w64 self.old) }
    {
        if self.rest.len() < 8 {
            return Err(fault(ImageRule::I1, self.rest.len()));
        }
        let (front, rest) = self.rest.split_at(8);
        self.rest = rest;
        Ok(u64::from_be_bytes([
            front[0], front[1], front[2], front[3], front[4], front[5], front[6], front[7],
        ]))
    }

    /// So many bytes, of a field before which `left` bytes were left.
    pub fn text(&mut self, len: usize, left: usize) -> Result<&'a [u8], ReadError>
        ensures { Gives (λ x. x.now) result self.new (text_at len left self.old) }
    {
        if self.rest.len() < len {
            return Err(fault(ImageRule::I1, left));
        }
        let (text, rest) = self.rest.split_at(len);
        self.rest = rest;
        Ok(text)
    }

    /// A byte below a limit.
    #[tactic(auto, unfolding(crate::specs::Reading::tested_byte_at))]
    pub fn byte_below(&mut self, limit: u8) -> Result<u8, ReadError>
        ensures gives { Gives (λ x. x) result self.new (byte_below_at limit self.old) }
        ensures below { IfOk result (λ n. n < limit) }
    {
        let left = self.left();
        let byte = self.byte()?;
        if byte >= limit {
            return Err(fault(ImageRule::I3, left));
        }
        Ok(byte)
    }

    /// The number of one of so many blocks.
    #[tactic(auto, unfolding(crate::specs::Reading::tested_at))]
    pub fn block_no(&mut self, blocks: u16) -> Result<u16, ReadError>
        ensures { Gives (λ x. x) result self.new (tested_at w16 (λ n. nat_lt n blocks) I3 self.old) }
    {
        let left = self.left();
        let number = self.number_16()?;
        if number >= blocks {
            return Err(fault(ImageRule::I3, left));
        }
        Ok(number)
    }

    /// A byte that is 0 or 1.
    #[tactic(auto, unfolding(crate::specs::Reading::flag_at))]
    pub fn flag(&mut self) -> Result<bool, ReadError>
        ensures { Gives (λ x. x) result self.new (flag_at self.old) }
    {
        let byte = self.byte_below(2)?;
        Ok(byte == 1)
    }

    /// A set of modes, bit k for mode k.
    #[tactic(auto, unfolding(crate::specs::Reading::tested_byte_at))]
    pub fn modes(&mut self, modes: u8) -> Result<u8, ReadError>
        requires { modes ≤ 8 }
        ensures { Gives (λ x. x) result self.new (modes_at modes self.old) }
    {
        let left = self.left();
        let byte = self.byte()?;
        if byte as u16 >= 1u16 << modes {
            return Err(fault(ImageRule::I3, left));
        }
        Ok(byte)
    }
}
