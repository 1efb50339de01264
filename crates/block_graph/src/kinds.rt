//! What the block of a call does.
ghost use Rattle.std.specs.Prelude.{◌≡◌, ◌≤◌};
ghost use Rattle.oil_model.specs.Linkable.{IsLinkable};
ghost use Rattle.block_graph.specs.Blocks.{the_task, the_alarm, the_resource, the_mask, event_bits as the_bits, kind_of as the_kind_of, service_of as the_service_of};

use crate::names::Declared;
use osek_standard::{
    AlarmService, ArmService, Call as Service, Kind, MaskService, PlainService, ResourceService,
    TaskService,
};
use osek_values::{AlarmNo, Mask, ResNo, TaskNo};
use task_code::{Call, Reference};

/// A number of an object as a number of 8 bits.
fn narrow(number: usize) -> u8
    requires { number ≤ 255 }
    ensures { result ≡ number }
{
    number as u8
}

fn task(system: &Declared, reference: &Reference) -> TaskNo
    requires { IsLinkable system.now }
    ensures { result ≡ the_task system.now reference.now }
{
    TaskNo(narrow(system.task_of(&reference.name).unwrap_or(0)))
}

fn alarm(system: &Declared, reference: &Reference) -> AlarmNo
    requires { IsLinkable system.now }
    ensures { result ≡ the_alarm system.now reference.now }
{
    AlarmNo(narrow(system.alarm_of(&reference.name).unwrap_or(0)))
}

fn resource(system: &Declared, reference: &Reference) -> ResNo
    requires { IsLinkable system.now }
    ensures { result ≡ the_resource system.now reference.now }
{
    ResNo(narrow(system.resource_of(&reference.name).unwrap_or(0)))
}

fn event_bits(system: &Declared, reference: &Reference) -> u64
    ensures { result ≡ the_bits system.now reference.now }
{
    let events = system.system().events.as_slice();
    let number = system.event_of(&reference.name).unwrap_or(0);
    if number < events.len() {
        events[number].mask.0
    } else {
        0
    }
}

/// The events of a mask.
fn mask(system: &Declared, events: &[Reference]) -> Mask
    ensures { result ≡ the_mask system.now events.now }
{
    let mut bits = 0;
    for event in events {
        bits |= event_bits(system, event);
    }
    Mask(bits)
}

/// The service that a call calls. A name that isn't declared stands for the first object.
fn service_of(system: &Declared, call: &Call) -> Service
    requires { IsLinkable system.now }
    ensures { result ≡ the_service_of system.now call.now }
{
    match call {
        Call::ActivateTask(named) => Service::Task(TaskService::ActivateTask, task(system, named)),
        Call::TerminateTask => Service::Plain(PlainService::TerminateTask),
        Call::ChainTask(named) => Service::Task(TaskService::ChainTask, task(system, named)),
        Call::Schedule => Service::Plain(PlainService::Schedule),
        Call::GetResource(named) => Service::Resource(
            ResourceService::GetResource,
            resource(system, named),
        ),
        Call::ReleaseResource(named) => Service::Resource(
            ResourceService::ReleaseResource,
            resource(system, named),
        ),
        Call::SetEvent(named, events) => {
            Service::SetEvent(task(system, named), mask(system, events.as_slice()))
        }
        Call::ClearEvent(events) => Service::Mask(
            MaskService::ClearEvent,
            mask(system, events.as_slice()),
        ),
        Call::GetEvent(named) => Service::Task(TaskService::GetEvent, task(system, named)),
        Call::WaitEvent(events) => Service::Mask(
            MaskService::WaitEvent,
            mask(system, events.as_slice()),
        ),
        Call::SetRelAlarm(named, increment, cycle) => {
            Service::Arm(
                ArmService::SetRelAlarm,
                alarm(system, named),
                *increment,
                *cycle,
            )
        }
        Call::SetAbsAlarm(named, start, cycle) => {
            Service::Arm(
                ArmService::SetAbsAlarm,
                alarm(system, named),
                *start,
                *cycle,
            )
        }
        Call::CancelAlarm(named) => Service::Alarm(AlarmService::CancelAlarm, alarm(system, named)),
        Call::GetAlarm(named) => Service::Alarm(AlarmService::GetAlarm, alarm(system, named)),
        Call::GetTaskId => Service::Plain(PlainService::GetTaskId),
        Call::GetTaskState(named) => Service::Task(TaskService::GetTaskState, task(system, named)),
        Call::GetActiveApplicationMode => Service::Plain(PlainService::GetActiveApplicationMode),
        Call::ShutdownOs(_) => Service::ShutdownOs,
        Call::LockCall(lock) => Service::Lock(*lock),
    }
}

/// What the block of a call does.
pub fn kind_of(system: &Declared, call: &Call) -> Kind
    requires { IsLinkable system.now }
    ensures { result ≡ the_kind_of system.now call.now }
{
    Kind::Call(service_of(system, call))
}
