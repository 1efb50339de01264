//! The values of one domain that were seen, by number.
ghost use Rattle.std.specs.Prelude.{◌≡◌};

use crate::column::{Column, NONE};
use crate::loads::{Load, Loads};
use crate::slot_values::{
    BlockColumn, block_column, block_in, changes_load, load_in, slot_after, slot_for, slot_of,
    slot_place, slot_released, slot_width, value_at,
};
use crate::slots::Slots;
use abstract_state::{Domain, PartValue};
use flow_model::{Releases, Update};
use osek_values::{BlockNo, Memory};
use std::alloc::{AllocError, Global};
use std::marker::Model;

/// Different values of a domain in the order of first use: each has its place as its number. A value takes eight bytes: its slot
/// is told by its block and the number of its load, and tells them.
#[derive(Drop)]
pub struct SeenValues {
    pub(crate) domain: Domain,
    pub(crate) loads: Loads,
    pub(crate) slots: Slots,
}

impl Model for SeenValues {
    ghost use Rattle.numbered_sets.specs.{Pools.{Values}, Slots.{slot_values}, SeenSlots.{AreSeen}};

    ghost Value = { Values };

    ghost view = { λ s. record { domain = s.domain; values = slot_values s.domain s.loads s.slots.used } };

    ghost invariant = { λ s. AreSeen s.domain s.loads s.slots };
}

impl Clone for SeenValues {
    ghost is_clone = { λ seen copy. copy ≡ seen };

    fn clone(&self) -> Result<SeenValues, AllocError> {
        let domain = self.domain;
        let loads = self.loads.clone()?;
        let slots = self.slots.clone()?;
        Ok(SeenValues {
            domain,
            loads,
            slots,
        })
    }
}

impl SeenValues {
    ghost use Rattle.std.specs.{Prelude.{◌≡◌, ◌<◌, false, length, IfOk, OnOk, OnErr, IfSome, IfNone}, List.{list_any}, Bool.{OnTrue}};
    ghost use Rattle.abstract_state.specs.{declared.value.PartValue.{PartValue}, Domains.{IsWithin, domain_size}, ValueOrder.{same_part}};
    ghost use Rattle.flow_model.specs.{declared.change.Update.TheVariants.{Block, Release}, Tests.{updated}, Values.{block_of_part}};
    ghost use Rattle.numbered_sets.specs.{Pools.{no_values, value_seen, AreValues, IsNumberOf, IsBeside}, Slots.{IsBlockColumn}};

    /// No value yet.
    pub fn new(alloc: Global, domain: Domain) -> SeenValues
        ensures { result ≡ no_values domain }
    {
        SeenValues {
            domain,
            loads: Loads::new(alloc),
            slots: Slots::new(alloc, slot_width(domain)),
        }
    }

    /// How many values there are.
    pub fn len(&self) -> usize
        ensures { result ≡ length self.now.values }
    {
        self.slots.len()
    }

    /// What its values are values of.
    pub fn domain(&self) -> Domain
        ensures { result ≡ self.now.domain }
    {
        self.domain
    }

    /// The value with a number.
    pub fn value(&self, number: usize) -> PartValue
        requires { number < length self.now.values }
        ensures { IsNumberOf self.now.values result number }
    {
        value_at(self.domain, &self.loads, self.slots.at(number))
    }

    /// The block of the value with a number; 0 where it has none.
    pub fn block(&self, number: usize) -> BlockNo
        requires { number < length self.now.values }
        ensures { (v : PartValue) → IsNumberOf self.now.values v number → result ≡ block_of_part v }
    {
        block_in(self.domain, self.slots.at(number))
    }

    /// The number of a value, if it has one.
    pub fn number_of(&self, value: &PartValue) -> Option<usize>
        ensures number { IfSome result (IsNumberOf self.now.values value.now) }
        ensures none { IfNone result (list_any (same_part value.now) self.now.values ≡ false) }
    {
        match slot_of(self.domain, &self.loads, value) {
            None => None,
            Some(slot) => self.slots.find(slot),
        }
    }

    /// The number of a value, which comes in last where it is new.
    pub fn number(&mut self, value: &PartValue) -> Result<usize, Memory>
        requires { IsWithin self.old.domain value.now }
        ensures values { OnOk result (self.new ≡ value_seen self.old value.now) }
        ensures number { IfOk result (IsNumberOf self.new.values value.now) }
        ensures below { IfOk result (λ n. n < domain_size self.old.domain) }
        ensures err { OnErr result (self.new ≡ self.old) }
    {
        let slot = slot_for(self.domain, &mut self.loads, value)?;
        let number = self.slots.number(slot)?;
        Ok(number)
    }

    /// The number of what an update makes of the value with a number, which comes in last where it is new.
    pub fn number_after(&mut self, number: usize, update: &Update) -> Result<usize, Memory>
        requires known { number < length self.old.values }
        requires within { (v : PartValue) → IsNumberOf self.old.values v number → IsWithin self.old.domain (updated update.now v) }
        ensures values { OnOk result ((v : PartValue) → IsNumberOf self.old.values v number → self.new ≡ value_seen self.old (updated update.now v)) }
        ensures number { IfOk result (λ n. (v : PartValue) → IsNumberOf self.old.values v number → IsNumberOf self.new.values (updated update.now v) n) }
        ensures err { OnErr result (self.new ≡ self.old) }
    {
        let slot = self.slots.at(number);
        if let Some(moved) = slot_after(self.domain, &self.loads, slot, update) {
            let number = self.slots.number(moved)?;
            return Ok(number);
        }
        let value = update.of(&self.value(number));
        self.number(&value)
    }

    /// Keeps which load an update made of that of the value with a number.
    pub fn note_after(&mut self, update: &Update, number: usize, after: usize) -> Result<(), Memory>
        requires known { number < length self.old.values }
        requires after { after < length self.old.values }
        requires made { (v : PartValue) → IsNumberOf self.old.values v number → IsNumberOf self.old.values (updated update.now v) after }
        ensures { self.new ≡ self.old }
    {
        if !changes_load(self.domain, update) {
            return Ok(());
        }
        let Some(load) = load_in(self.domain, self.slots.at(number)) else {
            return Ok(());
        };
        let Some(made) = load_in(self.domain, self.slots.at(after)) else {
            return Ok(());
        };
        self.loads.note(update, load, made)?;
        Ok(())
    }

    /// The column of a block's slots, if it is one of the task's.
    pub fn column(&self, block: BlockNo) -> Option<BlockColumn>
        ensures column { IfSome result (IsBlockColumn self.now.domain) }
        ensures block { IfSome result (λ column. column.block ≡ block) }
    {
        block_column(self.domain, block)
    }

    /// The number of what a Live value is at the block of a column, if it was seen.
    pub fn found_in(&self, number: usize, column: BlockColumn) -> Option<usize>
        requires known { number < length self.now.values }
        requires column { IsBlockColumn self.now.domain column }
        ensures { IfSome result (λ n. (v : PartValue) → IsNumberOf self.now.values v number → IsNumberOf self.now.values (updated (Block column.block) v) n) }
    {
        let slot = self.slots.at(number);
        let place = slot_place(self.domain, slot)?;
        if place.row == 0 {
            return None;
        }
        self.loads.are_distinct();
        let row = column.row as usize + place.row as usize;
        self.slots.find_in(column.column, row)
    }

    /// The number of the load of a task that is outside and holds nothing, or how many loads there are. Nothing rests on it.
    pub fn load_of_none(&self) -> usize {
        match self.loads.find(&Load::none()) {
            Some(load) => load,
            None => self.loads.len(),
        }
    }

    /// The number of what a task that waits is once it is released, if it was seen with this load.
    pub fn found_released(&self, number: usize, releases: &Releases, load: usize) -> Option<usize>
        requires { number < length self.now.values }
        ensures { IfSome result (λ n. (v : PartValue) → IsNumberOf self.now.values v number → IsNumberOf self.now.values (updated (Release releases.now) v) n) }
    {
        let slot = self.slots.at(number);
        let after = slot_released(self.domain, &self.loads, slot, releases, load)?;
        self.slots.find(after)
    }

    /// The number of what a Live value would be at the block before its own, if it was seen.
    pub fn beside(&self, number: usize) -> Option<usize>
        requires { number < length self.now.values }
        ensures { IfSome result (IsBeside self.now.values number) }
    {
        let slot = self.slots.at(number);
        let place = slot_place(self.domain, slot)?;
        if place.row == 0 || place.offset == 0 {
            return None;
        }
        self.loads.are_distinct();
        // the slot before
        self.slots.find_in(place.offset, place.row as usize)
    }

    /// The number of the value that is asked for all with the load of a Live value, if it is among these, which are by load.
    pub fn sample(&self, samples: &Column, number: usize) -> Option<usize>
        requires { number < length self.now.values }
        ensures known { IfSome result (λ m. m < length self.now.values) }
        ensures beside { IfSome result (λ m. IsBeside self.now.values m number) }
    {
        let load = load_in(self.domain, self.slots.at(number))?;
        let sample = samples.at(load) as usize;
        if sample >= self.slots.len() {
            return None;
        }
        let other = load_in(self.domain, self.slots.at(sample))?;
        if other != load {
            return None;
        }
        self.loads.are_distinct();
        Some(sample)
    }

    /// Puts in that a Live value is asked for all with its load. Nothing rests on it.
    pub fn add_sample(&self, samples: &mut Column, number: usize) -> Result<(), Memory>
        requires { number < length self.now.values }
    {
        let Some(place) = slot_place(self.domain, self.slots.at(number)) else {
            return Ok(());
        };
        if place.row == 0 || number >= NONE as usize {
            return Ok(());
        }
        let row = place.row as usize;
        samples.widen(row)?;
        samples.put(row - 1, number as u32);
        Ok(())
    }

    /// None stands twice, and each is one of the domain's.
    pub fn are_values(&self)
        ensures { AreValues self.now }
    {
        let _domain = self.domain;
    }
}
