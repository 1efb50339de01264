//! The bytes of an image.
ghost use Rattle.std.specs.{Prelude.{◌≡◌, ◌++◌, length, OnOk, IfOk}, List.{flat_map, zip}};
ghost use Rattle.image_codec.specs.Spelling.{one, eight, further, spelling, header_bytes, name_bytes, range_bytes, schedule_number as number_of_schedule, internal_number as number_of_internal, task_bytes, isr_bytes, counter_bytes, action_bytes, alarm_bytes, resource_bytes, operand_bytes, way_bytes, site_bytes, block_bytes};

use crate::numbers::{form_number, kind_number, known_number, lock_number};
use image_fields::magic;
use image_model::{Image, Site, Version};
use osek_standard::{
    Action, Alarm, App, Block, Call, Counter, Isr, Kind, Resource, Schedule, Task,
};
use osek_values::{AlarmNo, BlockNo, Memory, Name, ResNo};
use std::alloc::{AllocError, Global};

/// Bytes that version 2 alone has.
fn put_further(out: &mut Vec<u8>, version: Version, bytes: &[u8]) -> Result<(), AllocError>
    ensures { OnOk result (out.new.items ≡ out.old.items ++ further version bytes.now) }
{
    match version {
        Version::One => Ok(()),
        Version::Two => out.extend_from_slice(bytes),
    }
}

fn put_name(out: &mut Vec<u8>, name: &Name) -> Result<(), AllocError>
    ensures { OnOk result (out.new.items ≡ out.old.items ++ name_bytes name.now) }
{
    let bytes = name.as_bytes();
    out.push(bytes.len() as u8)?;
    out.extend_from_slice(bytes)
}

fn put_range(out: &mut Vec<u8>, first: BlockNo, count: u16) -> Result<(), AllocError>
    ensures { OnOk result (out.new.items ≡ out.old.items ++ range_bytes first count) }
{
    out.extend_from_slice(&first.0.to_be_bytes())?;
    out.extend_from_slice(&count.to_be_bytes())
}

fn schedule_number(schedule: Schedule) -> u8
    ensures { result ≡ number_of_schedule schedule }
{
    match schedule {
        Schedule::Non => 0,
        Schedule::Full => 1,
    }
}

/// The number of an INTERNAL resource.
fn internal_number(internal: Option<ResNo>) -> u8
    ensures { result ≡ number_of_internal internal }
{
    match internal {
        None => 0xff,
        Some(resource) => resource.0,
    }
}

fn put_task(out: &mut Vec<u8>, version: Version, task: &Task) -> Result<(), AllocError>
    ensures { OnOk result (out.new.items ≡ out.old.items ++ task_bytes version task.now) }
{
    put_name(out, &task.name)?;
    out.extend_from_slice(&task.priority.to_be_bytes())?;
    out.push(schedule_number(task.schedule))?;
    out.extend_from_slice(&task.own.0.to_be_bytes())?;
    out.push(task.autostart)?;
    put_range(out, task.first, task.count)?;
    put_further(out, version, &[task.activation])?;
    put_further(out, version, &[internal_number(task.internal)])
}

fn put_isr(out: &mut Vec<u8>, version: Version, isr: &Isr) -> Result<(), AllocError>
    ensures { OnOk result (out.new.items ≡ out.old.items ++ isr_bytes version isr.now) }
{
    put_name(out, &isr.name)?;
    put_range(out, isr.first, isr.count)?;
    put_further(out, version, &[isr.priority])
}

fn put_counter(out: &mut Vec<u8>, counter: &Counter) -> Result<(), AllocError>
    ensures { OnOk result (out.new.items ≡ out.old.items ++ counter_bytes counter.now) }
{
    put_name(out, &counter.name)?;
    out.extend_from_slice(&counter.max.to_be_bytes())?;
    out.extend_from_slice(&counter.min_cycle.to_be_bytes())?;
    put_range(out, counter.first, counter.count)
}

fn put_action(out: &mut Vec<u8>, action: Action) -> Result<(), AllocError>
    ensures { OnOk result (out.new.items ≡ out.old.items ++ action_bytes action) }
{
    match action {
        Action::ActivateTask(task) => {
            out.push(0)?;
            out.push(task.0)?;
            out.extend_from_slice(&0u64.to_be_bytes())
        }
        Action::SetEvent(task, events) => {
            out.push(1)?;
            out.push(task.0)?;
            out.extend_from_slice(&events.0.to_be_bytes())
        }
    }
}

fn put_alarm(out: &mut Vec<u8>, alarm: &Alarm) -> Result<(), AllocError>
    ensures { OnOk result (out.new.items ≡ out.old.items ++ alarm_bytes alarm.now) }
{
    put_name(out, &alarm.name)?;
    out.push(alarm.counter.0)?;
    put_action(out, alarm.action)?;
    out.push(alarm.autostart)?;
    out.extend_from_slice(&alarm.time.to_be_bytes())?;
    out.extend_from_slice(&alarm.cycle.to_be_bytes())
}

fn put_resource(out: &mut Vec<u8>, version: Version, resource: &Resource) -> Result<(), AllocError>
    ensures { OnOk result (out.new.items ≡ out.old.items ++ resource_bytes version resource.now) }
{
    put_name(out, &resource.name)?;
    out.extend_from_slice(&resource.ceiling.to_be_bytes())?;
    put_further(out, version, &[resource.internal as u8])?;
    put_further(out, version, &resource.interrupt_ceiling.to_be_bytes())
}

fn put_ticks(out: &mut Vec<u8>, alarm: AlarmNo, ticks: u64, cycle: u64) -> Result<(), AllocError>
    ensures { OnOk result (out.new.items ≡ out.old.items ++ one alarm.0 ++ eight ticks ++ eight cycle) }
{
    out.push(alarm.0)?;
    out.extend_from_slice(&ticks.to_be_bytes())?;
    out.extend_from_slice(&cycle.to_be_bytes())
}

fn put_operands(out: &mut Vec<u8>, kind: Kind) -> Result<(), AllocError>
    ensures { OnOk result (out.new.items ≡ out.old.items ++ operand_bytes kind) }
{
    match kind {
        Kind::Work(count) => out.extend_from_slice(&count.to_be_bytes()),
        Kind::Call(Call::Task(_, task)) => Ok(out.push(task.0)?),
        Kind::Call(Call::Resource(_, resource)) => Ok(out.push(resource.0)?),
        Kind::Call(Call::SetEvent(task, events)) => {
            out.push(task.0)?;
            out.extend_from_slice(&events.0.to_be_bytes())
        }
        Kind::Call(Call::Mask(_, events)) => out.extend_from_slice(&events.0.to_be_bytes()),
        Kind::Call(Call::Arm(_, alarm, first, cycle)) => put_ticks(out, alarm, first, cycle),
        Kind::Call(Call::Alarm(_, alarm)) | Kind::Expire(alarm) => Ok(out.push(alarm.0)?),
        Kind::Call(Call::Lock(lock)) => Ok(out.push(lock_number(lock))?),
        Kind::Choice(_)
        | Kind::Loop
        | Kind::Call(Call::Plain(_) | Call::ShutdownOs)
        | Kind::TaskEnd
        | Kind::IsrEnd
        | Kind::CountUp => Ok(()),
    }
}

fn put_ways(out: &mut Vec<u8>, kind: Kind, next: BlockNo) -> Result<(), AllocError>
    ensures { OnOk result (out.new.items ≡ out.old.items ++ way_bytes kind next) }
{
    match kind {
        Kind::TaskEnd | Kind::IsrEnd => Ok(()),
        Kind::Choice(other) => {
            out.extend_from_slice(&next.0.to_be_bytes())?;
            out.extend_from_slice(&other.0.to_be_bytes())
        }
        _ => out.extend_from_slice(&next.0.to_be_bytes()),
    }
}

fn put_site(out: &mut Vec<u8>, version: Version, site: Option<Site>) -> Result<(), AllocError>
    ensures { OnOk result (out.new.items ≡ out.old.items ++ site_bytes version site) }
{
    match site {
        None => Ok(()),
        Some(site) => {
            out.extend_from_slice(&form_number(site.form).to_be_bytes())?;
            put_further(out, version, &[known_number(site.known)])
        }
    }
}

fn put_block(
    out: &mut Vec<u8>,
    version: Version,
    block: &Block,
    site: Option<Site>,
) -> Result<(), AllocError>
    ensures { OnOk result (out.new.items ≡ out.old.items ++ block_bytes version (block.now, site)) }
{
    out.push(kind_number(block.kind))?;
    out.push(block.locked as u8)?;
    out.extend_from_slice(&block.line.to_be_bytes())?;
    put_operands(out, block.kind)?;
    put_ways(out, block.kind, block.next)?;
    put_site(out, version, site)
}

fn put_tasks(out: &mut Vec<u8>, version: Version, tasks: &[Task]) -> Result<(), AllocError>
    ensures { OnOk result (out.new.items ≡ out.old.items ++ flat_map (task_bytes version) tasks.now) }
{
    for task in tasks {
        put_task(out, version, task)?;
    }
    Ok(())
}

fn put_isrs(out: &mut Vec<u8>, version: Version, isrs: &[Isr]) -> Result<(), AllocError>
    ensures { OnOk result (out.new.items ≡ out.old.items ++ flat_map (isr_bytes version) isrs.now) }
{
    for isr in isrs {
        put_isr(out, version, isr)?;
    }
    Ok(())
}

fn put_counters(out: &mut Vec<u8>, counters: &[Counter]) -> Result<(), AllocError>
    ensures { OnOk result (out.new.items ≡ out.old.items ++ flat_map counter_bytes counters.now) }
{
    for counter in counters {
        put_counter(out, counter)?;
    }
    Ok(())
}

fn put_alarms(out: &mut Vec<u8>, alarms: &[Alarm]) -> Result<(), AllocError>
    ensures { OnOk result (out.new.items ≡ out.old.items ++ flat_map alarm_bytes alarms.now) }
{
    for alarm in alarms {
        put_alarm(out, alarm)?;
    }
    Ok(())
}

fn put_resources(
    out: &mut Vec<u8>,
    version: Version,
    resources: &[Resource],
) -> Result<(), AllocError>
    ensures { OnOk result (out.new.items ≡ out.old.items ++ flat_map (resource_bytes version) resources.now) }
{
    for resource in resources {
        put_resource(out, version, resource)?;
    }
    Ok(())
}

fn put_modes(out: &mut Vec<u8>, modes: &[Name]) -> Result<(), AllocError>
    ensures { OnOk result (out.new.items ≡ out.old.items ++ flat_map name_bytes modes.now) }
{
    for mode in modes {
        put_name(out, mode)?;
    }
    Ok(())
}

fn put_blocks(
    out: &mut Vec<u8>,
    version: Version,
    blocks: &[Block],
    sites: &[Option<Site>],
) -> Result<(), AllocError>
    requires { length sites.now ≡ length blocks.now }
    ensures { OnOk result (out.new.items ≡ out.old.items ++ flat_map (block_bytes version) (zip blocks.now sites.now)) }
{
    for at in 0..blocks.len() {
        put_block(out, version, &blocks[at], sites[at])?;
    }
    Ok(())
}

fn put_header(out: &mut Vec<u8>, app: &App) -> Result<(), AllocError>
    ensures { OnOk result (out.new.items ≡ out.old.items ++ header_bytes app.now) }
{
    out.push(app.hooks.0)?;
    out.push(app.tasks.len() as u8)?;
    out.push(app.isrs.len() as u8)?;
    out.push(app.counters.len() as u8)?;
    out.push(app.alarms.len() as u8)?;
    out.push(app.resources.len() as u8)?;
    out.push(app.modes.len() as u8)?;
    out.extend_from_slice(&(app.blocks.len() as u16).to_be_bytes())
}

/// The one spelling of an image, in its version.
#[tactic(auto, unfolding(crate::specs::Spelling::spelling))]
pub fn encode(alloc: Global, image: &Image) -> Result<Vec<u8>, Memory>
    ensures { IfOk result (λ v. v.items ≡ spelling image.now) }
{
    let app = &image.app;
    let version = image.version;
    let mut out = Vec::new(alloc);
    out.extend_from_slice(magic(version))?;
    put_header(&mut out, app)?;
    put_tasks(&mut out, version, app.tasks.as_slice())?;
    put_isrs(&mut out, version, app.isrs.as_slice())?;
    put_counters(&mut out, app.counters.as_slice())?;
    put_alarms(&mut out, app.alarms.as_slice())?;
    put_resources(&mut out, version, app.resources.as_slice())?;
    put_modes(&mut out, app.modes.as_slice())?;
    put_blocks(
        &mut out,
        version,
        app.blocks.as_slice(),
        image.sites.as_slice(),
    )?;
    Ok(out)
}
