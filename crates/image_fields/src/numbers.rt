//! The kinds, locks, forms and statuses of the numbers in an image.
ghost use Rattle.std.specs.Prelude.{◌≡◌, ◌≤◌, slice_get};
ghost use Rattle.image_fields.specs.BlockReading.{blank_kinds, locks, direct_form, form_of as form_of_number, knowns, known_of as known_of_number};

use image_model::{Form, Known};
use osek_standard::{
    AlarmService, ArmService, Call, Kind, MaskService, PlainService, ResourceService, TaskService,
};
use osek_values::{AlarmNo, BlockNo, Lock, Mask, ResNo, Status, TaskNo};

/// The lock calls, each at the place of its number.
const LOCKS: [Lock; 6] = [
    Lock::SuspendAll,
    Lock::ResumeAll,
    Lock::SuspendOs,
    Lock::ResumeOs,
    Lock::DisableAll,
    Lock::EnableAll,
];

pub(crate) fn lock_of(number: u8) -> Option<Lock>
    ensures { result ≡ slice_get locks number }
{
    LOCKS.get(number as usize).copied()
}

/// Each kind at the place of its number, its operands still blank.
const BLANK_KINDS: [Kind; 26] = [
    Kind::Work(0),
    Kind::Choice(BlockNo(0)),
    Kind::Loop,
    Kind::Call(Call::Task(TaskService::ActivateTask, TaskNo(0))),
    Kind::Call(Call::Plain(PlainService::TerminateTask)),
    Kind::Call(Call::Task(TaskService::ChainTask, TaskNo(0))),
    Kind::Call(Call::Plain(PlainService::Schedule)),
    Kind::Call(Call::Resource(ResourceService::GetResource, ResNo(0))),
    Kind::Call(Call::Resource(ResourceService::ReleaseResource, ResNo(0))),
    Kind::Call(Call::SetEvent(TaskNo(0), Mask(0))),
    Kind::Call(Call::Mask(MaskService::ClearEvent, Mask(0))),
    Kind::Call(Call::Task(TaskService::GetEvent, TaskNo(0))),
    Kind::Call(Call::Mask(MaskService::WaitEvent, Mask(0))),
    Kind::Call(Call::Arm(ArmService::SetRelAlarm, AlarmNo(0), 0, 0)),
    Kind::Call(Call::Arm(ArmService::SetAbsAlarm, AlarmNo(0), 0, 0)),
    Kind::Call(Call::Alarm(AlarmService::CancelAlarm, AlarmNo(0))),
    Kind::Call(Call::Alarm(AlarmService::GetAlarm, AlarmNo(0))),
    Kind::Call(Call::Plain(PlainService::GetTaskId)),
    Kind::Call(Call::Task(TaskService::GetTaskState, TaskNo(0))),
    Kind::Call(Call::Plain(PlainService::GetActiveApplicationMode)),
    Kind::Call(Call::ShutdownOs),
    Kind::Call(Call::Lock(Lock::SuspendAll)),
    Kind::TaskEnd,
    Kind::IsrEnd,
    Kind::CountUp,
    Kind::Expire(AlarmNo(0)),
];

fn kind_of(kinds: &[Kind], number: u8) -> Option<Kind>
    ensures { result ≡ slice_get kinds.now number }
{
    kinds.get(number as usize).copied()
}

/// The kind of a number, its operands still blank.
pub(crate) fn blank_kind(number: u8) -> Option<Kind>
    ensures { result ≡ slice_get blank_kinds number }
{
    kind_of(&BLANK_KINDS, number)
}

/// The form of a number.
pub(crate) fn form_of(number: u16, tasks: usize) -> Option<Form>
    requires { tasks ≤ 255 }
    ensures { result ≡ form_of_number tasks number }
{
    match number {
        0x0000 => Some(Form::Never),
        0x0100 => Some(Form::Stay),
        0x02ff => Some(Form::Direct(None)),
        0x0300 => Some(Form::General),
        _ => direct(number, tasks),
    }
}

fn direct(number: u16, tasks: usize) -> Option<Form>
    requires { tasks ≤ 255 }
    ensures { result ≡ direct_form tasks number }
{
    if number < 0x0200 || number as usize >= 0x0200 + tasks {
        return None;
    }
    Some(Form::Direct(Some(TaskNo((number - 0x0200) as u8))))
}

/// What is known of a status, each at the place of its number.
const KNOWNS: [Known; 10] = [
    Known::Always(Some(Status::Ok)),
    Known::Always(Some(Status::Access)),
    Known::Always(Some(Status::CallLevel)),
    Known::Always(Some(Status::Id)),
    Known::Always(Some(Status::Limit)),
    Known::Always(Some(Status::NoFunc)),
    Known::Always(Some(Status::Resource)),
    Known::Always(Some(Status::State)),
    Known::Always(Some(Status::Value)),
    Known::Always(None),
];

/// What is known of a status, by its number.
pub(crate) fn known_of(number: u8) -> Option<Known>
    ensures { result ≡ known_of_number number }
{
    if number == 0xff {
        return Some(Known::Any);
    }
    listed_known(number)
}

fn listed_known(number: u8) -> Option<Known>
    ensures { result ≡ slice_get knowns number }
{
    KNOWNS.get(number as usize).copied()
}
