//! Reading the operands of a kind.
ghost use Rattle.std.specs.{Prelude.{◌≡◌, ℕ, nat_lt, length}, Int.{w16, w64}};
ghost use Rattle.osek_standard.specs.Validity.{is_internal};
ghost use Rattle.image_fields.specs.{Reading.{Gives, byte_below_at, tested_at}, BlockReading.{AreSmall, lock_at, takable_at, due_at, operands_at}};
ghost use Rattle.image_fields.specs.declared.fault.ImageRule.TheVariants.{I3};
ghost use Rattle.osek_standard.specs.declared.block.Kind.TheVariants as kind;

use crate::fault::{ImageRule, ReadError};
use crate::numbers::lock_of;
use crate::parts::Tables;
use crate::placing::is_due;
use crate::reader::{Reader, fault};
use osek_standard::{Call, Kind, Resource};
use osek_values::{AlarmNo, Lock, Mask, ResNo, TaskNo};

/// The number of a task.
fn task_no(reader: &mut Reader, tables: &Tables) -> Result<TaskNo, ReadError>
    requires { AreSmall tables.now }
    ensures { Gives (λ x. x.0) result reader.new (byte_below_at (length tables.now.tasks) reader.old) }
{
    Ok(TaskNo(reader.byte_below(tables.tasks.len() as u8)?))
}

/// The number of a resource.
fn resource_no(reader: &mut Reader, tables: &Tables) -> Result<ResNo, ReadError>
    requires { AreSmall tables.now }
    ensures { Gives (λ x. x.0) result reader.new (byte_below_at (length tables.now.resources) reader.old) }
{
    Ok(ResNo(reader.byte_below(tables.resources.len() as u8)?))
}

/// The number of an alarm.
fn alarm_no(reader: &mut Reader, tables: &Tables) -> Result<AlarmNo, ReadError>
    requires { AreSmall tables.now }
    ensures { Gives (λ x. x.0) result reader.new (byte_below_at (length tables.now.alarms) reader.old) }
{
    Ok(AlarmNo(reader.byte_below(tables.alarms.len() as u8)?))
}

/// The number of instructions of `work`.
#[tactic(auto, unfolding(crate::specs::Reading::tested_at))]
fn instructions(reader: &mut Reader) -> Result<u16, ReadError>
    ensures { Gives (λ x. x) result reader.new (tested_at w16 (λ n. nat_lt 0 n) I3 reader.old) }
{
    let left = reader.left();
    let count = reader.number_16()?;
    if count == 0 {
        return Err(fault(ImageRule::I3, left));
    }
    Ok(count)
}

fn is_internal(resources: &[Resource], number: u8) -> bool
    ensures { result ≡ is_internal resources.now number }
{
    let at = number as usize;
    if at < resources.len() {
        resources[at].internal
    } else {
        false
    }
}

/// A resource that isn't INTERNAL.
#[tactic(auto, unfolding(crate::specs::BlockReading::takable_at))]
fn takable(reader: &mut Reader, tables: &Tables) -> Result<ResNo, ReadError>
    requires { AreSmall tables.now }
    ensures { Gives (λ x. x.0) result reader.new (takable_at tables.now reader.old) }
{
    let left = reader.left();
    let resource = resource_no(reader, tables)?;
    if is_internal(tables.resources.as_slice(), resource.0) {
        return Err(fault(ImageRule::I5, left));
    }
    Ok(resource)
}

/// Some events.
#[tactic(auto, unfolding(crate::specs::Reading::tested_at))]
fn events(reader: &mut Reader) -> Result<Mask, ReadError>
    ensures { Gives (λ x. x.0) result reader.new (tested_at w64 (λ m. nat_lt 0 m) I3 reader.old) }
{
    let left = reader.left();
    let events = reader.number_64()?;
    if events == 0 {
        return Err(fault(ImageRule::I3, left));
    }
    Ok(Mask(events))
}

/// Which lock call it is.
#[tactic(auto, unfolding(crate::specs::BlockReading::lock_at))]
fn lock(reader: &mut Reader) -> Result<Lock, ReadError>
    ensures { Gives (λ x. x) result reader.new (lock_at reader.old) }
{
    let left = reader.left();
    let number = reader.byte()?;
    match lock_of(number) {
        None => Err(fault(ImageRule::I3, left)),
        Some(lock) => Ok(lock),
    }
}

/// The alarm that is due.
#[tactic(auto, unfolding(crate::specs::BlockReading::due_at))]
fn due(reader: &mut Reader, tables: &Tables, block: u16) -> Result<AlarmNo, ReadError>
    requires { AreSmall tables.now }
    ensures { Gives (λ x. x.0) result reader.new (due_at tables.now block reader.old) }
{
    let left = reader.left();
    let alarm = alarm_no(reader, tables)?;
    if !is_due(tables, block, alarm.0) {
        return Err(fault(ImageRule::I5, left));
    }
    Ok(alarm)
}

/// A call with its operands.
#[tactic(auto, unfolding(crate::specs::BlockReading::operands_at))]
fn call_operands(reader: &mut Reader, tables: &Tables, call: Call) -> Result<Kind, ReadError>
    requires { AreSmall tables.now }
    ensures { (block : ℕ) → Gives (λ x. x) result reader.new (operands_at tables.now block (kind.Call call) reader.old) }
{
    let filled = match call {
        Call::Plain(_) | Call::ShutdownOs => call,
        Call::Task(service, _) => Call::Task(service, task_no(reader, tables)?),
        Call::Resource(service, _) => Call::Resource(service, takable(reader, tables)?),
        Call::SetEvent(_, _) => {
            let task = task_no(reader, tables)?;
            Call::SetEvent(task, events(reader)?)
        }
        Call::Mask(service, _) => Call::Mask(service, events(reader)?),
        Call::Alarm(service, _) => Call::Alarm(service, alarm_no(reader, tables)?),
        Call::Arm(service, _, _, _) => {
            let alarm = alarm_no(reader, tables)?;
            let first = reader.number_64()?;
            Call::Arm(service, alarm, first, reader.number_64()?)
        }
        Call::Lock(_) => Call::Lock(lock(reader)?),
    };
    Ok(Kind::Call(filled))
}

/// A kind with its operands.
#[tactic(auto, unfolding(crate::specs::BlockReading::operands_at))]
pub(crate) fn operands(
    reader: &mut Reader,
    tables: &Tables,
    block: u16,
    kind: Kind,
) -> Result<Kind, ReadError>
    requires { AreSmall tables.now }
    ensures { Gives (λ x. x) result reader.new (operands_at tables.now block kind reader.old) }
{
    match kind {
        Kind::Work(_) => Ok(Kind::Work(instructions(reader)?)),
        Kind::Call(call) => call_operands(reader, tables, call),
        Kind::Expire(_) => Ok(Kind::Expire(due(reader, tables, block)?)),
        Kind::Choice(_) | Kind::Loop | Kind::TaskEnd | Kind::IsrEnd | Kind::CountUp => Ok(kind),
    }
}
