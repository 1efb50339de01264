//! The numbers of kinds, locks, forms and statuses in an image.
ghost use Rattle.std.specs.Prelude.{◌≡◌};
ghost use Rattle.osek_standard.specs.declared.block.Kind.TheVariants as kind;
ghost use Rattle.image_codec.specs.Spelling.{lock_number as number_of_lock, kind_number as number_of_kind, form_number as number_of_form, known_number as number_of_known};

use image_model::{Form, Known, status_number};
use osek_standard::{
    AlarmService, ArmService, Call, Kind, MaskService, PlainService, ResourceService, TaskService,
};
use osek_values::Lock;

pub(crate) fn lock_number(lock: Lock) -> u8
    ensures { result ≡ number_of_lock lock }
{
    match lock {
        Lock::SuspendAll => 0,
        Lock::ResumeAll => 1,
        Lock::SuspendOs => 2,
        Lock::ResumeOs => 3,
        Lock::DisableAll => 4,
        Lock::EnableAll => 5,
    }
}

fn call_number(call: Call) -> u8
    ensures { result ≡ number_of_kind (kind.Call call) }
{
    match call {
        Call::Plain(PlainService::TerminateTask) => 4,
        Call::Plain(PlainService::Schedule) => 6,
        Call::Plain(PlainService::GetTaskId) => 17,
        Call::Plain(PlainService::GetActiveApplicationMode) => 19,
        Call::ShutdownOs => 20,
        Call::Task(TaskService::ActivateTask, _) => 3,
        Call::Task(TaskService::ChainTask, _) => 5,
        Call::Task(TaskService::GetEvent, _) => 11,
        Call::Task(TaskService::GetTaskState, _) => 18,
        Call::Resource(ResourceService::GetResource, _) => 7,
        Call::Resource(ResourceService::ReleaseResource, _) => 8,
        Call::SetEvent(_, _) => 9,
        Call::Mask(MaskService::ClearEvent, _) => 10,
        Call::Mask(MaskService::WaitEvent, _) => 12,
        Call::Alarm(AlarmService::CancelAlarm, _) => 15,
        Call::Alarm(AlarmService::GetAlarm, _) => 16,
        Call::Arm(ArmService::SetRelAlarm, _, _, _) => 13,
        Call::Arm(ArmService::SetAbsAlarm, _, _, _) => 14,
        Call::Lock(_) => 21,
    }
}

pub(crate) fn kind_number(kind: Kind) -> u8
    ensures { result ≡ number_of_kind kind }
{
    match kind {
        Kind::Work(_) => 0,
        Kind::Choice(_) => 1,
        Kind::Loop => 2,
        Kind::Call(call) => call_number(call),
        Kind::TaskEnd => 22,
        Kind::IsrEnd => 23,
        Kind::CountUp => 24,
        Kind::Expire(_) => 25,
    }
}

pub(crate) fn form_number(form: Form) -> u16
    ensures { result ≡ number_of_form form }
{
    match form {
        Form::Never => 0x0000,
        Form::Stay => 0x0100,
        Form::Direct(Some(task)) => 0x0200 + task.0 as u16,
        Form::Direct(None) => 0x02ff,
        Form::General => 0x0300,
    }
}

pub(crate) fn known_number(known: Known) -> u8
    ensures { result ≡ number_of_known known }
{
    match known {
        Known::Any => 0xff,
        Known::Always(None) => 9,
        Known::Always(Some(status)) => status_number(status),
    }
}
