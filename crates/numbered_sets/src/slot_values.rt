//! The slots of a domain's values, by arithmetic.
ghost use Rattle.std.specs.Prelude.{ℕ, List, ◌≡◌, ◌≢◌, ◌<◌, ◌≤◌, ◌^◌, IfOk, IfSome, IfNone};
ghost use Rattle.osek_standard.specs.Validity.{IsAmong};
ghost use Rattle.flow_model.specs.{declared.change.Update.TheVariants.{Block, Release}, Tests.{updated}, Values.{block_of_part}};
ghost use Rattle.abstract_state.specs.declared.value.{Val.TheVariants.{Live, Waiting}, SourceVal.TheVariants.{In}};
ghost use Rattle.numbered_sets.specs.declared.loads.Load.{Load};
ghost use Rattle.numbered_sets.specs.Slots.{no_load, carrying, val_in, value_in, source_in, blocks_of, IsTaskSlot, IsSourceSlot, IsSlot, IsSlotOf, IsTaskSlotOf, IsSourceSlotOf, IsSlotInRow, AreMoreLoads, slot_width, IsBlockColumn, IsSlotPlace};
ghost use Rattle.numbered_sets.specs.LoadUpdates.{changes_load, named_block, offset_after, IsStandingAfter, IsLoadIn};

use crate::column::NONE;
use crate::loads::{Load, Loads};
use abstract_state::{Domain, LiveVal, PartValue, RoutineVal, SourceVal, Val};
use flow_model::{Releases, Update};
use osek_values::{BlockNo, Memory};

/// Where the slots of a block stand: that of a waiting task in this column and row.
#[derive(Clone, Copy)]
pub struct BlockColumn {
    pub block: BlockNo,
    pub column: usize,
    pub row: u32,
}

/// The row of a slot, and its block by the number of those of its task or its routine before it.
#[derive(Clone, Copy)]
pub struct SlotPlace {
    pub row: u32,
    pub offset: usize,
}

/// Where an update leaves what is Live: all at one block, told by the number of those of its task or its routine before it, or each
/// at its own.
#[derive(Clone, Copy)]
pub enum Standing {
    At(usize),
    Own,
}

/// The value of a domain that has a slot.
pub fn value_at(domain: Domain, loads: &Loads, slot: usize) -> PartValue
    requires { IsSlot domain loads.now slot }
    ensures { result ≡ value_in domain loads.now slot }
{
    match domain {
        Domain::Task { first, count, .. } => {
            PartValue::OfTask(val_at(first, count, loads, slot))
        }
        Domain::Event => PartValue::OfEvent(slot == 1),
        Domain::Alarm => PartValue::OfAlarm(slot == 1),
        Domain::Source { first, count, .. } => {
            PartValue::OfSource(source_at(first, count, loads, slot))
        }
    }
}

// what a task with these blocks is in a slot
fn val_at(first: BlockNo, count: u16, loads: &Loads, slot: usize) -> Val
    requires { IsTaskSlot first.0 count loads.now slot }
    ensures { result ≡ val_in first.0 count loads.now slot }
{
    if slot == 0 {
        return Val::Suspended;
    }
    let place = slot - 1;
    let block = BlockNo((first.0 as usize + place % count as usize) as u16);
    let row = place / count as usize;
    if row == 0 {
        return Val::Waiting(block);
    }
    let load = loads.at(row - 1);
    Val::Live(load.at(block))
}

// what a source whose routine has these blocks is in a slot: what stands where a task would wait is none
fn source_at(first: BlockNo, count: u16, loads: &Loads, slot: usize) -> SourceVal
    requires { IsSourceSlot first.0 count loads.now slot }
    ensures { result ≡ source_in first.0 count loads.now slot }
{
    if slot == 0 {
        return SourceVal::Out;
    }
    let place = slot - 1;
    let block = BlockNo((first.0 as usize + place % count as usize) as u16);
    let load = loads.at(place / count as usize - 1);
    SourceVal::In(RoutineVal {
        block,
        held: load.held.copy(),
    })
}

/// The slot of a value, if its load was seen and it is one of the domain's.
#[inline(always)]
pub fn slot_of(domain: Domain, loads: &Loads, value: &PartValue) -> Option<usize>
    ensures slot { IfSome result (IsSlotOf domain loads.now value.now) }
    ensures none { IfNone result ((s : ℕ) → IsSlot domain loads.now s → value_in domain loads.now s ≢ value.now) }
{
    match (domain, value) {
        (Domain::Task { first, count, .. }, PartValue::OfTask(val)) => {
            slot_of_val(first, count, loads, val)
        }
        (Domain::Event, PartValue::OfEvent(flag)) => Some(*flag as usize),
        (Domain::Alarm, PartValue::OfAlarm(flag)) => Some(*flag as usize),
        (Domain::Source { first, count, .. }, PartValue::OfSource(val)) => {
            slot_of_source(first, count, loads, val)
        }
        _ => None,
    }
}

fn slot_of_val(first: BlockNo, count: u16, loads: &Loads, val: &Val) -> Option<usize>
    ensures slot { IfSome result (IsTaskSlotOf first.0 count loads.now val.now) }
    ensures none { IfNone result ((s : ℕ) → IsTaskSlot first.0 count loads.now s → val_in first.0 count loads.now s ≢ val.now) }
{
    match val {
        Val::Suspended => Some(0),
        Val::Waiting(block) => slot_in_row(first, count, 0, *block),
        Val::Live(live) => slot_of_live(first, count, loads, live),
    }
}

fn slot_of_live(first: BlockNo, count: u16, loads: &Loads, live: &LiveVal) -> Option<usize>
    ensures slot { IfSome result (IsTaskSlotOf first.0 count loads.now (Live live.now)) }
    ensures none { IfNone result ((s : ℕ) → IsTaskSlot first.0 count loads.now s → val_in first.0 count loads.now s ≢ Live live.now) }
{
    let carried = Load::of(live);
    match loads.find(&carried) {
        None => None,
        Some(load) => slot_in_row(first, count, load + 1, live.block),
    }
}

fn slot_of_source(first: BlockNo, count: u16, loads: &Loads, val: &SourceVal) -> Option<usize>
    ensures slot { IfSome result (IsSourceSlotOf first.0 count loads.now val.now) }
    ensures none { IfNone result ((s : ℕ) → IsSourceSlot first.0 count loads.now s → source_in first.0 count loads.now s ≢ val.now) }
{
    match val {
        SourceVal::Out => Some(0),
        SourceVal::In(routine) => {
            let carried = Load::of_routine(routine);
            match loads.find(&carried) {
                None => None,
                Some(load) => slot_in_row(first, count, load + 1, routine.block),
            }
        }
    }
}

// the slot in a row, where the block is one of the task's or the routine's
fn slot_in_row(first: BlockNo, count: u16, row: usize, block: BlockNo) -> Option<usize>
    requires { row ≤ 2 ^ 32 }
    ensures small { block.0 < 2 ^ 16 }
    ensures slot { IfSome result (IsSlotInRow first.0 count row block.0) }
    ensures none { IfNone result (IsAmong block.0 first.0 count → ⊥) }
{
    if block.0 < first.0 || block.0 - first.0 >= count {
        return None;
    }
    let offset = (block.0 - first.0) as usize;
    Some(1 + row * count as usize + offset)
}

// the blocks of a task or of a routine: the first, and how many
fn blocks(domain: Domain) -> Option<(BlockNo, u16)>
    ensures { result ≡ blocks_of domain }
{
    match domain {
        Domain::Task { first, count, .. } => Some((first, count)),
        Domain::Source { first, count, .. } => Some((first, count)),
        Domain::Event | Domain::Alarm => None,
    }
}

/// The slot of what a Live task's or a routine's value becomes at a block, if it is one of its.
pub fn slot_at_block(domain: Domain, loads: &Loads, slot: usize, block: BlockNo) -> Option<usize>
    requires known { IsSlot domain loads.now slot }
    requires small { slot < 2 ^ 32 }
    ensures { IfSome result (IsSlotOf domain loads.now (updated (Block block) (value_in domain loads.now slot))) }
{
    let (first, count) = blocks(domain)?;
    if slot == 0 || count == 0 {
        return None;
    }
    let row = (slot - 1) / count as usize;
    if row == 0 {
        return None;
    }
    loads.are_distinct();
    slot_in_row(first, count, row, block)
}

/// Whether the load and the block of a Live task, or of a routine, tell what an update makes of it, with another load.
pub fn changes_load(domain: Domain, update: &Update) -> bool
    ensures { result ≡ changes_load domain update.now }
{
    match domain {
        Domain::Task { .. } => {
            !matches!(
                update,
                Update::Set(_) | Update::Block(_) | Update::Release(_)
            )
        }
        Domain::Source { .. } => matches!(update, Update::Take { .. } | Update::Give { .. }),
        Domain::Event | Domain::Alarm => false,
    }
}

// the block at which an update leaves what is Live, if it names one
fn named_block(update: &Update) -> Option<BlockNo>
    ensures { result ≡ named_block update.now }
{
    match update {
        Update::Block(block) | Update::Again(block) | Update::Leave(block) => Some(*block),
        Update::Take { block, .. } | Update::Give { block } => Some(*block),
        Update::Set(_) | Update::More | Update::Inside | Update::Release(_) => None,
    }
}

/// Where an update leaves what is Live, unless that is no block of the task or of the routine.
pub fn standing_after(domain: Domain, update: &Update) -> Option<Standing>
    ensures { IfSome result (IsStandingAfter domain update.now) }
{
    let (first, count) = blocks(domain)?;
    match named_block(update) {
        None => Some(Standing::Own),
        Some(block) => {
            if block.0 < first.0 || block.0 - first.0 >= count {
                return None;
            }
            Some(Standing::At((block.0 - first.0) as usize))
        }
    }
}

/// The slot of what an update makes of a Live task's or a routine's value, if it is known which load that has.
pub fn slot_after(domain: Domain, loads: &Loads, slot: usize, update: &Update) -> Option<usize>
    requires known { IsSlot domain loads.now slot }
    requires small { slot < 2 ^ 32 }
    ensures { IfSome result (IsSlotOf domain loads.now (updated update.now (value_in domain loads.now slot))) }
{
    if let Update::Block(block) = update {
        return slot_at_block(domain, loads, slot, *block);
    }
    if !changes_load(domain, update) {
        return None;
    }
    let standing = standing_after(domain, update)?;
    let place = slot_place(domain, slot)?;
    if place.row == 0 {
        return None;
    }
    let numbers = loads.numbers_after(update)?;
    let load = numbers.at(place.row as usize - 1);
    if load == NONE {
        return None;
    }
    loads.are_distinct();
    let offset = offset_after(standing, place);
    let width = slot_width(domain) as usize;
    Some(1 + (load as usize + 1) * width + offset)
}

/// The slot of what a task that waits is once it is released, if this is the load of one that holds nothing.
pub fn slot_released(
    domain: Domain,
    loads: &Loads,
    slot: usize,
    releases: &Releases,
    load: usize,
) -> Option<usize>
    ensures { IfSome result (IsSlotOf domain loads.now (updated (Release releases.now) (value_in domain loads.now slot))) }
{
    match domain {
        Domain::Task { first, count, .. } => {
            let waiting = waiting_block(first, count, slot)?;
            let next = releases.behind(waiting)?;
            slot_with_nothing(first, count, loads, load, next)
        }
        Domain::Event | Domain::Alarm | Domain::Source { .. } => None,
    }
}

// the block at which a task waits in a slot, if it does
fn waiting_block(first: BlockNo, count: u16, slot: usize) -> Option<BlockNo>
    ensures { IfSome result (λ b. (loads : List Load) → val_in first.0 count loads slot ≡ Waiting b) }
{
    if slot == 0 || slot > count as usize {
        return None;
    }
    let block = first.0 as usize + slot - 1;
    if block > 65535 {
        return None;
    }
    Some(BlockNo(block as u16))
}

// the slot of a task that stands at a block, is outside and holds nothing, if this is the load of one
fn slot_with_nothing(
    first: BlockNo,
    count: u16,
    loads: &Loads,
    load: usize,
    block: BlockNo,
) -> Option<usize>
    ensures { IfSome result (IsTaskSlotOf first.0 count loads.now (Live (carrying block no_load))) }
{
    if load >= loads.len() {
        return None;
    }
    if !loads.at(load).is_none() {
        return None;
    }
    loads.are_few();
    slot_in_row(first, count, load + 1, block)
}

/// Which of the blocks it is at which what is Live in a slot is left.
pub fn offset_after(standing: Standing, place: SlotPlace) -> usize
    ensures { result ≡ offset_after standing place }
{
    match standing {
        Standing::At(offset) => offset,
        Standing::Own => place.offset,
    }
}

/// How many slots of a domain stand side by side: one for each block of a task or of a routine.
pub fn slot_width(domain: Domain) -> u32
    ensures is { result ≡ slot_width domain }
    ensures wide { 0 < result }
{
    match blocks(domain) {
        Some((_, count)) => if count == 0 { 1 } else { count as u32 },
        None => 1,
    }
}

/// Where the slots of a block stand, if it is one of the task's or of the routine's.
pub fn block_column(domain: Domain, block: BlockNo) -> Option<BlockColumn>
    ensures column { IfSome result (IsBlockColumn domain) }
    ensures block { IfSome result (λ c. c.block ≡ block) }
{
    let (first, count) = blocks(domain)?;
    let slot = slot_in_row(first, count, 0, block)?;
    let width = count as usize;
    // the slot of the last block is the first one of the next row
    if slot == width {
        return Some(BlockColumn {
            block,
            column: 0,
            row: 1,
        });
    }
    Some(BlockColumn {
        block,
        column: slot,
        row: 0,
    })
}

/// The row and the block of a task's or a source's slot, unless it is suspended or Out there.
pub fn slot_place(domain: Domain, slot: usize) -> Option<SlotPlace>
    requires { slot < 2 ^ 32 }
    ensures { IfSome result (IsSlotPlace domain slot) }
{
    let (_, count) = blocks(domain)?;
    if slot == 0 || count == 0 {
        return None;
    }
    // a division of 32 bits takes a third of the time
    let place = (slot - 1) as u32;
    let width = count as u32;
    Some(SlotPlace {
        row: place / width,
        offset: (place % width) as usize,
    })
}

/// The number of the load of what is Live in a slot.
pub fn load_in(domain: Domain, slot: usize) -> Option<usize>
    requires { slot < 2 ^ 32 }
    ensures { IfSome result (IsLoadIn domain slot) }
{
    let place = slot_place(domain, slot)?;
    if place.row == 0 {
        return None;
    }
    Some(place.row as usize - 1)
}

/// The block of a slot's value; 0 where it has none.
pub fn block_in(domain: Domain, slot: usize) -> BlockNo
    ensures small { result.0 < 2 ^ 16 }
    ensures block { (loads : List Load) → IsSlot domain loads slot → result ≡ block_of_part (value_in domain loads slot) }
{
    match blocks(domain) {
        Some((first, count)) if slot > 0 && count > 0 => {
            let block = first.0 as usize + (slot - 1) % count as usize;
            BlockNo((block % 65536) as u16)
        }
        _ => BlockNo(0),
    }
}

/// The slot of a value, whose load comes in where it is new. Each value of the domain has one.
pub fn slot_for(domain: Domain, loads: &mut Loads, value: &PartValue) -> Result<usize, Memory>
    ensures loads { AreMoreLoads loads.old loads.new }
    ensures slot { IfOk result (IsSlotOf domain loads.new value.now) }
{
    match (domain, value) {
        (Domain::Task { first, count, .. }, PartValue::OfTask(Val::Live(live))) => {
            slot_for_live(first, count, loads, live)
        }
        (Domain::Source { first, count, .. }, PartValue::OfSource(SourceVal::In(routine))) => {
            slot_for_routine(first, count, loads, routine)
        }
        _ => match slot_of(domain, loads, value) {
            None => Err(Memory),
            Some(slot) => Ok(slot),
        },
    }
}

fn slot_for_live(
    first: BlockNo,
    count: u16,
    loads: &mut Loads,
    live: &LiveVal,
) -> Result<usize, Memory>
    ensures loads { AreMoreLoads loads.old loads.new }
    ensures slot { IfOk result (IsTaskSlotOf first.0 count loads.new (Live live.now)) }
{
    let carried = Load::of(live);
    let load = loads.number(&carried)?;
    match slot_in_row(first, count, load + 1, live.block) {
        None => Err(Memory),
        Some(slot) => Ok(slot),
    }
}

fn slot_for_routine(
    first: BlockNo,
    count: u16,
    loads: &mut Loads,
    routine: &RoutineVal,
) -> Result<usize, Memory>
    ensures loads { AreMoreLoads loads.old loads.new }
    ensures slot { IfOk result (IsSourceSlotOf first.0 count loads.new (In routine.now)) }
{
    let carried = Load::of_routine(routine);
    let load = loads.number(&carried)?;
    match slot_in_row(first, count, load + 1, routine.block) {
        None => Err(Memory),
        Some(slot) => Ok(slot),
    }
}
