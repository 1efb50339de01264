//! A column of slots, by row.
ghost use Rattle.std.specs.Prelude.{◌≡◌};

use osek_values::Memory;
use std::alloc::{AllocError, Global};
use std::marker::Model;

/// For each row the number of the slot that stands there, or `NONE`. Rows from the end on have none.
#[derive(Drop)]
pub struct Column {
    numbers: Vec<u32>,
}

pub const NONE: u32 = 4294967295;

impl Model for Column {
    ghost use Rattle.std.specs.Prelude.{ℕ, List};

    ghost Value = { List ℕ };

    ghost view = { λ c. c.numbers.items };
}

impl Clone for Column {
    ghost is_clone = { λ column copy. copy ≡ column };

    fn clone(&self) -> Result<Column, AllocError> {
        let numbers = Vec::from_slice(*self.numbers.allocator(), self.numbers.as_slice())?;
        Ok(Column { numbers })
    }
}

impl Column {
    ghost use Rattle.std.specs.Prelude.{ℕ, ◌≡◌, ◌<◌, ◌≤◌, ◌^◌, [], length, slice_set, slice_index_or, OnOk};
    ghost use Rattle.numbered_sets.specs.Slots.{none};

    /// No number yet. It takes no memory.
    pub fn new(alloc: Global) -> Column
        ensures { result ≡ [] }
    {
        Column {
            numbers: Vec::new(alloc),
        }
    }

    /// The number in a row, or `NONE`.
    pub fn at(&self, row: usize) -> u32
        ensures { result ≡ slice_index_or self.now row none }
    {
        if row >= self.numbers.len() {
            return NONE;
        }
        self.numbers[row]
    }

    /// Makes room for so many rows.
    pub fn widen(&mut self, rows: usize) -> Result<(), Memory>
        ensures room { OnOk result (rows ≤ length self.new) }
        ensures same { (row : ℕ) → slice_index_or self.new row none ≡ slice_index_or self.old row none }
    {
        for _row in self.numbers.len()..rows {
            self.numbers.push(NONE)?;
        }
        Ok(())
    }

    /// Puts a number in a row.
    pub fn put(&mut self, row: usize, number: u32)
        requires { row < length self.old }
        ensures { self.new ≡ slice_set self.old row number }
    {
        self.numbers[row] = number;
    }
}
