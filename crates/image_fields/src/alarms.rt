//! Reading an alarm.
ghost use Rattle.std.specs.{Prelude.{◌≡◌, ◌≤◌, ◌<◌, slice_index_or, length}, Int.{w32, w64}};
ghost use Rattle.osek_standard.specs.Validity.{no_counter, is_cycle_of};
ghost use Rattle.image_fields.specs.Reading.{Gives, tested_at};
ghost use Rattle.image_fields.specs.TableReading.{is_action_mask as is_mask_of_action, action_of as action_of_numbers, action_at, is_start_time as is_time_of_start, is_start_cycle as is_cycle_of_start, alarm_at};
ghost use Rattle.image_fields.specs.declared.fault.ImageRule.TheVariants.{I3};

use crate::fault::{ImageRule, ReadError};
use crate::parts::Header;
use crate::reader::{Reader, fault};
use osek_standard::{Action, Alarm, Counter};
use osek_values::limits::MAX_MODES;
use osek_values::{CounterNo, Mask, TaskNo};
use std::alloc::Global;

fn is_action_mask(act: u8, events: u64) -> bool
    ensures { result ≡ is_mask_of_action act events }
{
    if act == 0 { events == 0 } else { events > 0 }
}

/// The events of an alarm's action: none where it activates, and some where it sets events.
#[tactic(auto, unfolding(crate::specs::Reading::tested_at))]
fn action_mask(reader: &mut Reader, act: u8) -> Result<u64, ReadError>
    ensures { Gives (λ x. x) result reader.new (tested_at w64 (λ m. is_mask_of_action act m) I3 reader.old) }
{
    let left = reader.left();
    let events = reader.number_64()?;
    if !is_action_mask(act, events) {
        return Err(fault(ImageRule::I3, left));
    }
    Ok(events)
}

fn action_of(act: u8, task: u8, events: u64) -> Action
    ensures { result ≡ action_of_numbers act task events }
{
    if act == 0 {
        Action::ActivateTask(TaskNo(task))
    } else {
        Action::SetEvent(TaskNo(task), Mask(events))
    }
}

#[tactic(auto, unfolding(crate::specs::TableReading::action_at))]
fn action(reader: &mut Reader, header: Header) -> Result<Action, ReadError>
    ensures { Gives (λ x. x) result reader.new (action_at header reader.old) }
{
    let act = reader.byte_below(2)?;
    let task = reader.byte_below(header.tasks)?;
    let events = action_mask(reader, act)?;
    Ok(action_of(act, task, events))
}

fn is_start_time(counter: &Counter, autostart: u8, time: u32) -> bool
    ensures { result ≡ is_time_of_start counter.now autostart time }
{
    if autostart == 0 {
        time == 0
    } else {
        time <= counter.max
    }
}

fn is_cycle(counter: &Counter, cycle: u32) -> bool
    ensures { result ≡ is_cycle_of counter.now cycle }
{
    let above = counter.min_cycle <= cycle;
    let within = above && cycle <= counter.max;
    cycle == 0 || within
}

fn is_start_cycle(counter: &Counter, autostart: u8, cycle: u32) -> bool
    ensures { result ≡ is_cycle_of_start counter.now autostart cycle }
{
    if autostart == 0 {
        cycle == 0
    } else {
        is_cycle(counter, cycle)
    }
}

#[tactic(auto, unfolding(crate::specs::Reading::tested_at))]
fn start_time(reader: &mut Reader, counter: &Counter, autostart: u8) -> Result<u32, ReadError>
    ensures { Gives (λ x. x) result reader.new (tested_at w32 (λ t. is_time_of_start counter.now autostart t) I3 reader.old) }
{
    let left = reader.left();
    let time = reader.number_32()?;
    if !is_start_time(counter, autostart, time) {
        return Err(fault(ImageRule::I3, left));
    }
    Ok(time)
}

#[tactic(auto, unfolding(crate::specs::Reading::tested_at))]
fn start_cycle(reader: &mut Reader, counter: &Counter, autostart: u8) -> Result<u32, ReadError>
    ensures { Gives (λ x. x) result reader.new (tested_at w32 (λ c. is_cycle_of_start counter.now autostart c) I3 reader.old) }
{
    let left = reader.left();
    let cycle = reader.number_32()?;
    if !is_start_cycle(counter, autostart, cycle) {
        return Err(fault(ImageRule::I3, left));
    }
    Ok(cycle)
}

fn counter_of(counters: &[Counter], counter: u8) -> &Counter
    requires { counter < length counters.now }
    ensures { slice_index_or counters.now counter no_counter ≡ result.now }
{
    &counters[counter as usize]
}

#[tactic(auto, unfolding(crate::specs::TableReading::alarm_at))]
pub(crate) fn alarm(
    alloc: Global,
    reader: &mut Reader,
    header: Header,
    counters: &[Counter],
    earlier: &[Alarm],
) -> Result<Alarm, ReadError>
    requires modes { header.modes ≤ MAX_MODES }
    requires counters { length counters.now ≡ header.counters }
    ensures { Gives (λ x. x) result reader.new (alarm_at header counters.now earlier.now reader.old) }
{
    let name = reader.name(alloc, earlier)?;
    let counter = reader.byte_below(header.counters)?;
    let action = action(reader, header)?;
    let autostart = reader.modes(header.modes)?;
    let of = counter_of(counters, counter);
    let time = start_time(reader, of, autostart)?;
    let cycle = start_cycle(reader, of, autostart)?;
    Ok(Alarm {
        name,
        counter: CounterNo(counter),
        action,
        autostart,
        time,
        cycle,
    })
}
