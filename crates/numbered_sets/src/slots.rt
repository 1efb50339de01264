//! Slots by number.
ghost use Rattle.std.specs.Prelude.{◌≡◌, ◌<◌, ◌≤◌, ◌^◌, length, IfOk, OnOk};
ghost use Rattle.numbered_sets.specs.Slots.{AreSameNumbers, IsRoomAt};

use crate::column::{Column, NONE};
use osek_values::{Memory, Seq};
use std::alloc::{AllocError, Global};
use std::marker::Model;

/// Different slots in the order of first use: each has its place as its number. Both are found by the other without a search.
/// The numbers of slots that are the width apart lie side by side.
#[derive(Drop)]
pub struct Slots {
    width: u32,
    used: Vec<u32>,
    columns: Seq<Column>,
}

impl Model for Slots {
    ghost use Rattle.numbered_sets.specs.Slots.{UsedSlots, AreNumbersBySlot};

    ghost Value = { UsedSlots };

    ghost view = { λ s. record { width = s.width; used = s.used.items } };

    ghost invariant = { λ s. AreNumbersBySlot s.width s.used.items s.columns };
}

impl Clone for Slots {
    ghost is_clone = { λ slots copy. copy ≡ slots };

    fn clone(&self) -> Result<Slots, AllocError> {
        let alloc = *self.used.allocator();
        let used = Vec::from_slice(alloc, self.used.as_slice())?;
        let columns = copies(alloc, &self.columns)?;
        Ok(Slots {
            width: self.width,
            used,
            columns,
        })
    }
}

impl Slots {
    ghost use Rattle.std.specs.Prelude.{◌≡◌, ◌<◌, ◌+◌, ◌*◌, ◌^◌, [], ◌∷◌, ◌++◌, length, IfOk, OnOk, OnErr, IfSome, IfNone};
    ghost use Rattle.numbered_sets.specs.Slots.{used_slots, IsUnused, IsNumberOfSlot, IsSlotGiven};

    /// No slot yet, of so many columns.
    pub fn new(alloc: Global, width: u32) -> Slots
        requires { 0 < width }
        ensures { result ≡ used_slots width [] }
    {
        Slots {
            width,
            used: Vec::new(alloc),
            columns: Seq::new(alloc),
        }
    }

    /// How many slots there are.
    pub fn len(&self) -> usize
        ensures { result ≡ length self.now.used }
    {
        self.used.len()
    }

    /// The slot with a number.
    pub fn at(&self, number: usize) -> usize
        requires { number < length self.now.used }
        ensures slot { IsNumberOfSlot self.now.used result number }
        ensures small { result < 2 ^ 32 }
    {
        self.used[number] as usize
    }

    /// The number of a slot, if it has one.
    pub fn find(&self, slot: usize) -> Option<usize>
        ensures number { IfSome result (IsNumberOfSlot self.now.used slot) }
        ensures none { IfNone result (IsUnused self.now.used slot) }
    {
        let width = self.width as usize;
        // events, alarms and many a task have but the first row
        if slot < width {
            return self.find_in(slot, 0);
        }
        self.find_in(slot % width, slot / width)
    }

    /// The number of the slot in a column and a row, if it has one.
    pub fn find_in(&self, column: usize, row: usize) -> Option<usize>
        requires { column < self.now.width }
        ensures number { IfSome result (IsNumberOfSlot self.now.used (row * self.now.width + column)) }
        ensures none { IfNone result (IsUnused self.now.used (row * self.now.width + column)) }
    {
        if column >= self.columns.len() {
            return None;
        }
        let number = self.columns.at(column).at(row);
        if number == NONE {
            return None;
        }
        Some(number as usize)
    }

    /// The number of the slot at an offset in a row behind the first slot, if it has one.
    pub fn find_behind(&self, row: usize, offset: usize) -> Option<usize>
        requires { row ≤ 2 ^ 32 }
        ensures { IfSome result (IsNumberOfSlot self.now.used (1 + row * self.now.width + offset)) }
    {
        let width = self.width as usize;
        if offset >= width {
            return None;
        }
        // the last slot of a row stands in the first column, a row further
        if offset + 1 == width {
            return self.find_in(0, row + 1);
        }
        self.find_in(offset + 1, row)
    }

    /// The number of a slot, which gets the next one where it has none.
    pub fn number(&mut self, slot: usize) -> Result<usize, Memory>
        ensures width { self.new.width ≡ self.old.width }
        ensures slots { OnOk result (IsSlotGiven self.old.used slot self.new.used) }
        ensures number { IfOk result (IsNumberOfSlot self.new.used slot) }
        ensures err { OnErr result (self.new ≡ self.old) }
    {
        if let Some(number) = self.find(slot) {
            return Ok(number);
        }
        let number = self.used.len();
        self.push(slot)?;
        Ok(number)
    }

    // gives the next number to a slot; there are no slots past 32 bits
    fn push(&mut self, slot: usize) -> Result<(), Memory>
        requires { IsUnused self.old.used slot }
        ensures width { self.new.width ≡ self.old.width }
        ensures slots { OnOk result (self.new.used ≡ self.old.used ++ slot ∷ []) }
        ensures err { OnErr result (self.new ≡ self.old) }
    {
        let number = self.used.len();
        if slot >= NONE as usize || number >= NONE as usize {
            return Err(Memory);
        }
        let width = self.width as usize;
        let (column, row) = (slot % width, slot / width);
        widen(*self.used.allocator(), &mut self.columns, column, row)?;
        self.used.push(slot as u32)?;
        self.columns.at_mut(column).put(row, number as u32);
        Ok(())
    }
}

// makes room for a number in a column and a row
fn widen(alloc: Global, columns: &mut Seq<Column>, column: usize, row: usize) -> Result<(), Memory>
    requires column { column < 2 ^ 32 }
    requires row { row < 2 ^ 32 }
    ensures room { OnOk result (IsRoomAt columns.new column row) }
    ensures same { AreSameNumbers columns.old columns.new }
{
    add_columns(alloc, columns, column + 1)?;
    let numbers = columns.at_mut(column);
    numbers.widen(row + 1)?;
    Ok(())
}

// makes room for so many columns
fn add_columns(alloc: Global, columns: &mut Seq<Column>, count: usize) -> Result<(), Memory>
    ensures room { OnOk result (count ≤ length columns.new) }
    ensures same { AreSameNumbers columns.old columns.new }
{
    for _column in columns.len()..count {
        columns.push(Column::new(alloc))?;
    }
    Ok(())
}

// the same columns once more
fn copies(alloc: Global, columns: &Seq<Column>) -> Result<Seq<Column>, AllocError>
    ensures { IfOk result (λ copies. copies ≡ columns.now) }
{
    let mut copies = Seq::new(alloc);
    for column in columns.as_slice() {
        let copy = column.clone()?;
        let Ok(()) = copies.push(copy) else {
            return Err(AllocError);
        };
    }
    Ok(copies)
}
