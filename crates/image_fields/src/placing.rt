//! Which kind of block may stand where, by the owners of blocks.
ghost use Rattle.std.specs.{Prelude.{◌≡◌, ◌+◌, ◌-◌, ◌≤◌, ◌<◌, ◌^◌, ◌&&◌, ◌==◌, length, slice_index_or, if◌then◌else◌}, List.{list_any}};
ghost use Rattle.osek_standard.specs.{Validity.{is_within as is_among, task_may as may_in_task, isr_may as may_in_isr, due_of}, Versions.{is_for_resource as takes_or_gives}};
ghost use Rattle.image_fields.specs.BlockReading.{AreSmall, tick_order as order_of_ticks, where_has, task_range, isr_range, isr_may_in as may_in_isr_of, tasks_allow as do_tasks_allow, isrs_allow as do_isrs_allow, counter_allows as does_counter_allow, counters_allow as do_counters_allow, is_owned as has_owner, is_allowed as may_stand, is_due_in as is_due_in_counter, is_due as is_the_due};

use crate::parts::Tables;
use image_model::{Version, is_task_block, is_within};
use osek_standard::{Alarm, Call, Counter, Isr, Kind, Task};
use osek_values::BlockNo;

/// Whether a kind may stand in a task's code.
fn task_may(last: bool, kind: Kind) -> bool
    ensures { result ≡ may_in_task last kind }
{
    match kind {
        Kind::TaskEnd => last,
        Kind::IsrEnd | Kind::CountUp | Kind::Expire(_) => false,
        Kind::Work(_) | Kind::Choice(_) | Kind::Loop | Kind::Call(_) => !last,
    }
}

/// Whether a kind may stand in an ISR's code.
fn isr_may(last: bool, kind: Kind) -> bool
    ensures { result ≡ may_in_isr last kind }
{
    match kind {
        Kind::IsrEnd => last,
        Kind::TaskEnd | Kind::CountUp | Kind::Expire(_) => false,
        Kind::Work(_) | Kind::Choice(_) | Kind::Loop | Kind::Call(_) => !last,
    }
}

/// Whether a block of a kind takes a resource or gives one back.
fn is_for_resource(kind: Kind) -> bool
    ensures { result ≡ takes_or_gives kind }
{
    match kind {
        Kind::Call(Call::Resource(_, _)) => true,
        _ => false,
    }
}

/// Whether a kind may stand in an ISR's code, in a version of the format.
fn isr_may_in(version: Version, last: bool, kind: Kind) -> bool
    ensures { result ≡ may_in_isr_of version last kind }
{
    match version {
        Version::One => !is_for_resource(kind) && isr_may(last, kind),
        Version::Two => isr_may(last, kind),
    }
}

/// Whether a kind may stand at a place of the tick routine of a counter with so many alarms.
fn tick_order(alarms: usize, place: usize, kind: Kind) -> bool
    requires { alarms < 2 ^ 32 }
    ensures { result ≡ order_of_ticks alarms place kind }
{
    match kind {
        Kind::CountUp => place == 0,
        Kind::Expire(_) => place > 0 && place <= alarms,
        Kind::IsrEnd => place == alarms + 1,
        _ => false,
    }
}

/// Whether the block at a place is the last of an owner's.
fn is_last(block: u16, first: BlockNo, count: u16) -> bool
    ensures { result ≡ (block + 1 == first.0 + count) }
{
    block as u32 + 1 == first.0 as u32 + count as u32
}

fn task_allows(task: &Task, block: u16, kind: Kind) -> bool
    ensures { result ≡ where_has block (task_range task.now) (may_in_task (block + 1 == task.now.first.0 + task.now.count) kind) }
{
    if !is_within(block, task.first, task.count) {
        return true;
    }
    task_may(is_last(block, task.first, task.count), kind)
}

fn isr_allows(version: Version, isr: &Isr, block: u16, kind: Kind) -> bool
    ensures { result ≡ where_has block (isr_range isr.now) (may_in_isr_of version (block + 1 == isr.now.first.0 + isr.now.count) kind) }
{
    if !is_within(block, isr.first, isr.count) {
        return true;
    }
    isr_may_in(version, is_last(block, isr.first, isr.count), kind)
}

/// How many alarms a counter has.
#[tactic(auto, using(osek_standard::proofs::DueAlarms::due_count))]
fn due_count(alarms: &[Alarm], counter: usize) -> usize
    ensures count { result ≡ length (due_of alarms.now counter) }
    ensures few { result ≤ length alarms.now }
{
    alarms
        .iter()
        .filter(|alarm| alarm.counter.0 as usize == counter)
        .count()
}

fn is_here(due: bool, left: usize) -> bool
    ensures { result ≡ (due && left == 0) }
{
    due && left == 0
}

fn left_after(due: bool, left: usize) -> usize
    ensures { result ≡ (if due then left - 1 else left) }
{
    if due { left.saturating_sub(1) } else { left }
}

/// Whether the alarm is a counter's alarm at a place, in their order.
fn is_alarm_at(alarms: &[Alarm], counter: usize, place: usize, alarm: u8) -> bool
    ensures { result ≡ (slice_index_or (due_of alarms.now counter) place 256 == alarm) }
{
    let mut left = place;
    for number in 0..alarms.len() {
        let due = alarms[number].counter.0 as usize == counter;
        if is_here(due, left) {
            return number == alarm as usize;
        }
        left = left_after(due, left);
    }
    false
}

fn counter_allows(tables: &Tables, block: u16, number: usize, counter: &Counter, kind: Kind) -> bool
    requires { AreSmall tables.now }
    ensures { result ≡ does_counter_allow tables.now block kind (number, counter.now) }
{
    if !is_within(block, counter.first, counter.count) {
        return true;
    }
    let alarms = due_count(tables.alarms.as_slice(), number);
    let fits = counter.count as usize == alarms + 2;
    let place = (block - counter.first.0) as usize;
    let in_order = tick_order(alarms, place, kind);
    fits && in_order
}

fn tasks_allow(tables: &Tables, block: u16, kind: Kind) -> bool
    ensures { result ≡ do_tasks_allow tables.now block kind }
{
    tables
        .tasks
        .as_slice()
        .iter()
        .all(|task| task_allows(task, block, kind))
}

fn isrs_allow(version: Version, tables: &Tables, block: u16, kind: Kind) -> bool
    ensures { result ≡ do_isrs_allow tables.now block version kind }
{
    tables
        .isrs
        .as_slice()
        .iter()
        .all(|isr| isr_allows(version, isr, block, kind))
}

fn counters_allow(tables: &Tables, block: u16, kind: Kind) -> bool
    requires { AreSmall tables.now }
    ensures { result ≡ do_counters_allow tables.now block kind }
{
    for number in 0..tables.counters.len() {
        let counter = tables.counters.at(number);
        if !counter_allows(tables, block, number, counter, kind) {
            return false;
        }
    }
    true
}

fn has_isr(isrs: &[Isr], block: u16) -> bool
    ensures { result ≡ list_any (λ x. is_among block (x.first.0, x.count)) isrs.now }
{
    isrs.iter().any(|x| is_within(block, x.first, x.count))
}

fn has_counter(counters: &[Counter], block: u16) -> bool
    ensures { result ≡ list_any (λ x. is_among block (x.first.0, x.count)) counters.now }
{
    counters.iter().any(|x| is_within(block, x.first, x.count))
}

/// Whether some owner has the block.
#[tactic(auto, using(crate::proofs::OwnerTests::any_of_owners))]
fn is_owned(tables: &Tables, block: u16) -> bool
    ensures { result ≡ has_owner tables.now block }
{
    let task = is_task_block(tables.tasks.as_slice(), block);
    let isr = has_isr(tables.isrs.as_slice(), block);
    let counter = has_counter(tables.counters.as_slice(), block);
    let routine = isr || counter;
    task || routine
}

/// Whether a block of a kind may stand here, in a version of the format.
pub(crate) fn is_allowed(version: Version, tables: &Tables, block: u16, kind: Kind) -> bool
    requires { AreSmall tables.now }
    ensures { result ≡ may_stand tables.now block version kind }
{
    let owned = is_owned(tables, block);
    let by_tasks = tasks_allow(tables, block, kind);
    let by_isrs = isrs_allow(version, tables, block, kind);
    let by_counters = counters_allow(tables, block, kind);
    let by_code = owned && by_tasks;
    let by_both = by_code && by_isrs;
    by_both && by_counters
}

fn is_due_in(alarms: &[Alarm], block: u16, number: usize, counter: &Counter, alarm: u8) -> bool
    ensures { result ≡ is_due_in_counter alarms.now block alarm (number, counter.now) }
{
    if !is_within(block, counter.first, counter.count) {
        return true;
    }
    let place = (block - counter.first.0) as usize;
    is_alarm_at(alarms, number, place.saturating_sub(1), alarm)
}

/// Whether the alarm is the one that is due at this place of the tick routine.
pub(crate) fn is_due(tables: &Tables, block: u16, alarm: u8) -> bool
    ensures { result ≡ is_the_due tables.now block alarm }
{
    for number in 0..tables.counters.len() {
        let counter = tables.counters.at(number);
        if !is_due_in(tables.alarms.as_slice(), block, number, counter, alarm) {
            return false;
        }
    }
    true
}
