//! Reading the tables of an image.
ghost use Rattle.std.specs.{Prelude.{◌≡◌, ◌≤◌, IfOk, [], nat_eq, nat_lt, nat_le, length}, Int.{w16, w32}, List.{list_any, list_all}};
ghost use Rattle.image_fields.specs.Reading.{Gives, tested_at, further_byte_at, further_16_at, entries_at, name_at};
ghost use Rattle.image_fields.specs.TableReading.{HasFew, is_priority, is_activation, is_internal_number, internal_of as internal_of_number, is_other, is_property, property_at, is_isr_priority, is_interrupt_ceiling};
ghost use Rattle.image_fields.specs.TableReading.{schedule_of as schedule_of_number, schedule_at, task_at, isr_at, counter_at, alarm_at, resource_at, tables_at};
ghost use Rattle.image_fields.specs.{BlockReading.{AreSmall}, declared.fault.ImageRule.TheVariants.{I3, I5}};

use crate::alarms::alarm;
use crate::fault::{ImageRule, ReadError};
use crate::parts::{Header, Tables};
use crate::ranges::range;
use crate::reader::{Reader, fault};
use image_model::Version;
use osek_standard::{Alarm, Counter, Isr, Resource, Schedule, Task};
use osek_values::limits::MAX_MODES;
use osek_values::{Mask, Name, ResNo, Seq};
use std::alloc::Global;

/// Above the greatest base priority, which is twice a number of 16 bits.
const GREATEST_CEILING: u32 = 131_071;

/// One more than the greatest priority of an ISR.
const GREATEST_INTERRUPT_CEILING: u16 = 256;

/// Whether some task has the priority.
fn has_priority(tasks: &[Task], priority: u16) -> bool
    ensures { result ≡ list_any (λ x. nat_eq x.priority priority) tasks.now }
{
    tasks.iter().any(|x| x.priority == priority)
}

/// Whether a task may have the priority: in version 1 it is no earlier task's.
fn is_priority(version: Version, earlier: &[Task], priority: u16) -> bool
    ensures { result ≡ is_priority version earlier.now priority }
{
    match version {
        Version::One => !has_priority(earlier, priority),
        Version::Two => true,
    }
}

#[tactic(auto, unfolding(crate::specs::Reading::tested_at))]
fn priority(reader: &mut Reader, version: Version, earlier: &[Task]) -> Result<u16, ReadError>
    ensures { Gives (λ x. x) result reader.new (tested_at w16 (is_priority version earlier.now) I5 reader.old) }
{
    let left = reader.left();
    let priority = reader.number_16()?;
    if !is_priority(version, earlier, priority) {
        return Err(fault(ImageRule::I5, left));
    }
    Ok(priority)
}

fn is_activation(own: Mask, number: u8) -> bool
    ensures { result ≡ is_activation own.0 number }
{
    if own.0 == 0 { number > 0 } else { number == 1 }
}

/// How many activations a task with these events takes at a time.
#[tactic(auto, unfolding(crate::specs::Reading::further_byte_at, crate::specs::Reading::tested_byte_at))]
fn activation(reader: &mut Reader, version: Version, own: Mask) -> Result<u8, ReadError>
    ensures { Gives (λ x. x) result reader.new (further_byte_at version 1 (is_activation own.0) reader.old) }
{
    match version {
        Version::One => Ok(1),
        Version::Two => {
            let left = reader.left();
            let number = reader.byte()?;
            if !is_activation(own, number) {
                return Err(fault(ImageRule::I3, left));
            }
            Ok(number)
        }
    }
}

fn is_internal_number(resources: u8, number: u8) -> bool
    ensures { result ≡ is_internal_number resources number }
{
    number == 0xff || number < resources
}

/// The number of the INTERNAL resource that a task names, one of so many resources, or 0xff.
#[tactic(auto, unfolding(crate::specs::Reading::further_byte_at, crate::specs::Reading::tested_byte_at))]
fn internal_number(reader: &mut Reader, version: Version, resources: u8) -> Result<u8, ReadError>
    ensures { Gives (λ x. x) result reader.new (further_byte_at version 0xff (is_internal_number resources) reader.old) }
{
    match version {
        Version::One => Ok(0xff),
        Version::Two => {
            let left = reader.left();
            let number = reader.byte()?;
            if !is_internal_number(resources, number) {
                return Err(fault(ImageRule::I3, left));
            }
            Ok(number)
        }
    }
}

fn internal_of(number: u8) -> Option<ResNo>
    ensures { result ≡ internal_of_number number }
{
    if number == 0xff {
        None
    } else {
        Some(ResNo(number))
    }
}

fn schedule_of(number: u8) -> Schedule
    ensures { result ≡ schedule_of_number number }
{
    if number == 0 {
        Schedule::Non
    } else {
        Schedule::Full
    }
}

#[tactic(auto, unfolding(crate::specs::TableReading::schedule_at))]
fn schedule(reader: &mut Reader) -> Result<Schedule, ReadError>
    ensures { Gives (λ x. x) result reader.new (schedule_at reader.old) }
{
    Ok(schedule_of(reader.byte_below(2)?))
}

#[tactic(auto, unfolding(crate::specs::TableReading::task_at))]
fn task(
    alloc: Global,
    reader: &mut Reader,
    header: Header,
    earlier: &[Task],
) -> Result<Task, ReadError>
    requires { header.modes ≤ MAX_MODES }
    ensures { Gives (λ x. x) result reader.new (task_at header earlier.now reader.old) }
{
    let name = reader.name(alloc, earlier)?;
    let priority = priority(reader, header.version, earlier)?;
    let schedule = schedule(reader)?;
    let own = Mask(reader.number_64()?);
    let autostart = reader.modes(header.modes)?;
    let code = range(reader, header.blocks, earlier, &[], &[])?;
    let activation = activation(reader, header.version, own)?;
    let internal = internal_number(reader, header.version, header.resources)?;
    Ok(Task {
        name,
        priority,
        schedule,
        own,
        autostart,
        first: code.first,
        count: code.count,
        activation,
        internal: internal_of(internal),
    })
}

/// The priority of an ISR: in version 1 it is 0.
#[tactic(auto, unfolding(crate::specs::Reading::further_byte_at, crate::specs::Reading::tested_byte_at))]
fn isr_priority(reader: &mut Reader, version: Version) -> Result<u8, ReadError>
    ensures { Gives (λ x. x) result reader.new (further_byte_at version 0 is_isr_priority reader.old) }
{
    match version {
        Version::One => Ok(0),
        Version::Two => {
            let priority = reader.byte()?;
            Ok(priority)
        }
    }
}

#[tactic(auto, unfolding(crate::specs::TableReading::isr_at))]
fn isr(
    alloc: Global,
    reader: &mut Reader,
    header: Header,
    tasks: &[Task],
    earlier: &[Isr],
) -> Result<Isr, ReadError>
    ensures { Gives (λ x. x) result reader.new (isr_at header tasks.now earlier.now reader.old) }
{
    let name = reader.name(alloc, earlier)?;
    let code = range(reader, header.blocks, tasks, earlier, &[])?;
    let priority = isr_priority(reader, header.version)?;
    Ok(Isr {
        name,
        first: code.first,
        count: code.count,
        priority,
    })
}

/// MAXALLOWEDVALUE.
#[tactic(auto, unfolding(crate::specs::Reading::tested_at))]
fn max(reader: &mut Reader) -> Result<u32, ReadError>
    ensures { Gives (λ x. x) result reader.new (tested_at w32 (λ m. nat_lt 0 m) I3 reader.old) }
{
    let left = reader.left();
    let max = reader.number_32()?;
    if max == 0 {
        return Err(fault(ImageRule::I3, left));
    }
    Ok(max)
}

/// A number of four bytes up to a greatest one.
#[tactic(auto, unfolding(crate::specs::Reading::tested_at))]
fn at_most(reader: &mut Reader, most: u32) -> Result<u32, ReadError>
    ensures { Gives (λ x. x) result reader.new (tested_at w32 (λ m. nat_le m most) I3 reader.old) }
{
    let left = reader.left();
    let number = reader.number_32()?;
    if number > most {
        return Err(fault(ImageRule::I3, left));
    }
    Ok(number)
}

#[tactic(auto, unfolding(crate::specs::TableReading::counter_at))]
fn counter(
    alloc: Global,
    reader: &mut Reader,
    header: Header,
    tasks: &[Task],
    isrs: &[Isr],
    earlier: &[Counter],
) -> Result<Counter, ReadError>
    ensures { Gives (λ x. x) result reader.new (counter_at header tasks.now isrs.now earlier.now reader.old) }
{
    let name = reader.name(alloc, earlier)?;
    let max = max(reader)?;
    let min_cycle = at_most(reader, max)?;
    let code = range(reader, header.blocks, tasks, isrs, earlier)?;
    Ok(Counter {
        name,
        max,
        min_cycle,
        first: code.first,
        count: code.count,
    })
}

fn is_other(number: usize, internal: Option<ResNo>) -> bool
    ensures { result ≡ is_other number internal }
{
    match internal {
        None => true,
        Some(resource) => resource.index() != number,
    }
}

fn names_other(task: &Task, number: usize) -> bool
    ensures { result ≡ is_other number task.now.internal }
{
    is_other(number, task.internal)
}

fn name_others(tasks: &[Task], number: usize) -> bool
    ensures { result ≡ list_all (λ x. is_other number x.internal) tasks.now }
{
    tasks.iter().all(|x| names_other(x, number))
}

/// Whether the resource of this number may have the property.
fn is_property(tasks: &[Task], number: usize, internal: bool) -> bool
    ensures { result ≡ is_property tasks.now number internal }
{
    internal || name_others(tasks, number)
}

/// Whether the resource of this number is INTERNAL.
#[tactic(auto, unfolding(crate::specs::TableReading::property_at))]
fn property(
    reader: &mut Reader,
    version: Version,
    tasks: &[Task],
    number: usize,
) -> Result<bool, ReadError>
    ensures { Gives (λ x. x) result reader.new (property_at version tasks.now number reader.old) }
{
    match version {
        Version::One => Ok(false),
        Version::Two => {
            let left = reader.left();
            let internal = reader.flag()?;
            if !is_property(tasks, number, internal) {
                return Err(fault(ImageRule::I5, left));
            }
            Ok(internal)
        }
    }
}

/// The ceiling of a resource for interrupts: in version 1 it is 0.
#[tactic(auto, unfolding(crate::specs::Reading::further_16_at, crate::specs::Reading::tested_at))]
fn interrupt_ceiling(reader: &mut Reader, version: Version) -> Result<u16, ReadError>
    ensures { Gives (λ x. x) result reader.new (further_16_at version 0 is_interrupt_ceiling reader.old) }
{
    match version {
        Version::One => Ok(0),
        Version::Two => {
            let left = reader.left();
            let ceiling = reader.number_16()?;
            if ceiling > GREATEST_INTERRUPT_CEILING {
                return Err(fault(ImageRule::I3, left));
            }
            Ok(ceiling)
        }
    }
}

#[tactic(auto, unfolding(crate::specs::TableReading::resource_at))]
fn resource(
    alloc: Global,
    reader: &mut Reader,
    version: Version,
    tasks: &[Task],
    earlier: &[Resource],
) -> Result<Resource, ReadError>
    ensures { Gives (λ x. x) result reader.new (resource_at version tasks.now earlier.now reader.old) }
{
    let name = reader.name(alloc, earlier)?;
    let ceiling = at_most(reader, GREATEST_CEILING)?;
    let internal = property(reader, version, tasks, earlier.len())?;
    let interrupt_ceiling = interrupt_ceiling(reader, version)?;
    Ok(Resource {
        name,
        ceiling,
        internal,
        interrupt_ceiling,
    })
}

fn read_tasks(alloc: Global, reader: &mut Reader, header: Header) -> Result<Seq<Task>, ReadError>
    requires { header.modes ≤ MAX_MODES }
    ensures { Gives (λ x. x) result reader.new (entries_at (task_at header) [] header.tasks reader.old) }
{
    let mut tasks = Seq::new(alloc);
    for _ in 0..header.tasks {
        let task = task(alloc, reader, header, tasks.as_slice())?;
        tasks.push(task)?;
    }
    Ok(tasks)
}

fn read_isrs(
    alloc: Global,
    reader: &mut Reader,
    header: Header,
    tasks: &[Task],
) -> Result<Seq<Isr>, ReadError>
    ensures { Gives (λ x. x) result reader.new (entries_at (isr_at header tasks.now) [] header.isrs reader.old) }
{
    let mut isrs = Seq::new(alloc);
    for _ in 0..header.isrs {
        let isr = isr(alloc, reader, header, tasks, isrs.as_slice())?;
        isrs.push(isr)?;
    }
    Ok(isrs)
}

fn read_counters(
    alloc: Global,
    reader: &mut Reader,
    header: Header,
    tasks: &[Task],
    isrs: &[Isr],
) -> Result<Seq<Counter>, ReadError>
    ensures gives { Gives (λ x. x) result reader.new (entries_at (counter_at header tasks.now isrs.now) [] header.counters reader.old) }
    ensures count { IfOk result (λ x. length x ≡ header.counters) }
{
    let mut counters = Seq::new(alloc);
    for _ in 0..header.counters {
        let counter = counter(alloc, reader, header, tasks, isrs, counters.as_slice())?;
        counters.push(counter)?;
    }
    Ok(counters)
}

fn read_alarms(
    alloc: Global,
    reader: &mut Reader,
    header: Header,
    counters: &[Counter],
) -> Result<Seq<Alarm>, ReadError>
    requires modes { header.modes ≤ MAX_MODES }
    requires counters { length counters.now ≡ header.counters }
    ensures { Gives (λ x. x) result reader.new (entries_at (alarm_at header counters.now) [] header.alarms reader.old) }
{
    let mut alarms = Seq::new(alloc);
    for _ in 0..header.alarms {
        let alarm = alarm(alloc, reader, header, counters, alarms.as_slice())?;
        alarms.push(alarm)?;
    }
    Ok(alarms)
}

fn read_resources(
    alloc: Global,
    reader: &mut Reader,
    header: Header,
    tasks: &[Task],
) -> Result<Seq<Resource>, ReadError>
    ensures { Gives (λ x. x) result reader.new (entries_at (resource_at header.version tasks.now) [] header.resources reader.old) }
{
    let mut resources = Seq::new(alloc);
    for _ in 0..header.resources {
        let resource = resource(alloc, reader, header.version, tasks, resources.as_slice())?;
        resources.push(resource)?;
    }
    Ok(resources)
}

fn read_modes(alloc: Global, reader: &mut Reader, header: Header) -> Result<Seq<Name>, ReadError>
    ensures { Gives (λ x. x) result reader.new (entries_at name_at [] header.modes reader.old) }
{
    let mut modes: Seq<Name> = Seq::new(alloc);
    for _ in 0..header.modes {
        let mode = reader.name(alloc, modes.as_slice())?;
        modes.push(mode)?;
    }
    Ok(modes)
}

/// The tables in order.
#[tactic(auto, unfolding(crate::specs::TableReading::tables_at))]
pub fn tables(alloc: Global, reader: &mut Reader, header: Header) -> Result<Tables, ReadError>
    requires { HasFew header }
    ensures gives { Gives (λ x. x) result reader.new (tables_at header reader.old) }
    ensures small { IfOk result AreSmall }
{
    let tasks = read_tasks(alloc, reader, header)?;
    let isrs = read_isrs(alloc, reader, header, tasks.as_slice())?;
    let counters = read_counters(alloc, reader, header, tasks.as_slice(), isrs.as_slice())?;
    let alarms = read_alarms(alloc, reader, header, counters.as_slice())?;
    let resources = read_resources(alloc, reader, header, tasks.as_slice())?;
    let modes = read_modes(alloc, reader, header)?;
    Ok(Tables {
        tasks,
        isrs,
        counters,
        alarms,
        resources,
        modes,
    })
}
