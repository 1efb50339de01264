//! The words of the grammar: the keywords, the services by what stands between their parentheses, the status names.
ghost use Rattle.std.specs.Prelude.{◌≡◌, map};
ghost use Rattle.task_code.specs.Words.{body_kind as the_body_kind, is_else as is_the_else, status_of as the_status, plain_service as the_plain_service, object_service as the_object_service, service_of as the_service, statement_word as the_statement_word, found_in as meaning_in, entry};

use crate::tree::BodyKind;
use osek_values::{Lock, Status};

/// Services without operands.
#[derive(Clone, Copy)]
pub enum PlainService {
    TerminateTask,
    Schedule,
    GetTaskId,
    GetActiveApplicationMode,
    Lock(Lock),
}

/// Services of one object.
#[derive(Clone, Copy)]
pub enum ObjectService {
    ActivateTask,
    ChainTask,
    GetResource,
    ReleaseResource,
    GetEvent,
    CancelAlarm,
    GetAlarm,
    GetTaskState,
}

/// Services of a mask.
#[derive(Clone, Copy)]
pub enum MaskService {
    ClearEvent,
    WaitEvent,
}

/// Services of an alarm and two numbers.
#[derive(Clone, Copy)]
pub enum AlarmService {
    SetRelAlarm,
    SetAbsAlarm,
}

/// The services, by what stands between their parentheses.
#[derive(Clone, Copy)]
pub enum Service {
    Plain(PlainService),
    Object(ObjectService),
    Mask(MaskService),
    /// A task and a mask.
    SetEvent,
    Alarm(AlarmService),
    /// The name of a status.
    ShutdownOs,
}

/// The words that a statement begins with.
#[derive(Clone, Copy)]
pub enum StatementWord {
    Work,
    If,
    While,
    Service(Service),
}

/// A word with what it stands for.
type Entry<T> = (&'static [u8], T);

/// What a name stands for in a table of words, if it is one of them.
fn found_in<T: Copy>(table: &[Entry<T>], name: &[u8]) -> Option<T>
    ensures { result ≡ meaning_in (map entry table.now) name.now }
{
    for (word, meaning) in table {
        if name == *word {
            return Some(*meaning);
        }
    }
    None
}

const BODY_KINDS: [Entry<BodyKind>; 2] = [(b"TASK", BodyKind::Task), (b"ISR", BodyKind::Isr)];

/// Whose body it is, by its first word.
#[tactic(auto, unfolding(crate::specs::Words::body_kind))]
pub fn body_kind(name: &[u8]) -> Option<BodyKind>
    ensures { result ≡ the_body_kind name.now }
{
    found_in(&BODY_KINDS, name)
}

/// Whether it is the keyword `else`.
#[tactic(auto, unfolding(crate::specs::Words::is_else))]
pub fn is_else(name: &[u8]) -> bool
    ensures { result ≡ is_the_else name.now }
{
    name == b"else".as_slice()
}

const STATUSES: [Entry<Status>; 9] = [
    (b"E_OK", Status::Ok),
    (b"E_OS_ACCESS", Status::Access),
    (b"E_OS_CALLEVEL", Status::CallLevel),
    (b"E_OS_ID", Status::Id),
    (b"E_OS_LIMIT", Status::Limit),
    (b"E_OS_NOFUNC", Status::NoFunc),
    (b"E_OS_RESOURCE", Status::Resource),
    (b"E_OS_STATE", Status::State),
    (b"E_OS_VALUE", Status::Value),
];

/// The status that has the name.
#[tactic(auto, unfolding(crate::specs::Words::status_of))]
pub fn status_of(name: &[u8]) -> Option<Status>
    ensures { result ≡ the_status name.now }
{
    found_in(&STATUSES, name)
}

const PLAIN_SERVICES: [Entry<PlainService>; 10] = [
    (b"TerminateTask", PlainService::TerminateTask),
    (b"Schedule", PlainService::Schedule),
    (b"GetTaskID", PlainService::GetTaskId),
    (
        b"GetActiveApplicationMode",
        PlainService::GetActiveApplicationMode,
    ),
    (
        b"SuspendAllInterrupts",
        PlainService::Lock(Lock::SuspendAll),
    ),
    (b"ResumeAllInterrupts", PlainService::Lock(Lock::ResumeAll)),
    (b"SuspendOSInterrupts", PlainService::Lock(Lock::SuspendOs)),
    (b"ResumeOSInterrupts", PlainService::Lock(Lock::ResumeOs)),
    (
        b"DisableAllInterrupts",
        PlainService::Lock(Lock::DisableAll),
    ),
    (b"EnableAllInterrupts", PlainService::Lock(Lock::EnableAll)),
];

#[tactic(auto, unfolding(crate::specs::Words::plain_service))]
fn plain_service(name: &[u8]) -> Option<PlainService>
    ensures { result ≡ the_plain_service name.now }
{
    found_in(&PLAIN_SERVICES, name)
}

const OBJECT_SERVICES: [Entry<ObjectService>; 8] = [
    (b"ActivateTask", ObjectService::ActivateTask),
    (b"ChainTask", ObjectService::ChainTask),
    (b"GetResource", ObjectService::GetResource),
    (b"ReleaseResource", ObjectService::ReleaseResource),
    (b"GetEvent", ObjectService::GetEvent),
    (b"CancelAlarm", ObjectService::CancelAlarm),
    (b"GetAlarm", ObjectService::GetAlarm),
    (b"GetTaskState", ObjectService::GetTaskState),
];

#[tactic(auto, unfolding(crate::specs::Words::object_service))]
fn object_service(name: &[u8]) -> Option<ObjectService>
    ensures { result ≡ the_object_service name.now }
{
    found_in(&OBJECT_SERVICES, name)
}

const OTHER_SERVICES: [Entry<Service>; 6] = [
    (b"SetEvent", Service::SetEvent),
    (b"ClearEvent", Service::Mask(MaskService::ClearEvent)),
    (b"WaitEvent", Service::Mask(MaskService::WaitEvent)),
    (b"SetRelAlarm", Service::Alarm(AlarmService::SetRelAlarm)),
    (b"SetAbsAlarm", Service::Alarm(AlarmService::SetAbsAlarm)),
    (b"ShutdownOS", Service::ShutdownOs),
];

#[tactic(auto, unfolding(crate::specs::Words::service_of))]
fn service_of(name: &[u8]) -> Option<Service>
    ensures { result ≡ the_service name.now }
{
    if let Some(service) = found_in(&OTHER_SERVICES, name) {
        Some(service)
    } else if let Some(object) = object_service(name) {
        Some(Service::Object(object))
    } else if let Some(plain) = plain_service(name) {
        Some(Service::Plain(plain))
    } else {
        None
    }
}

const KEYWORDS: [Entry<StatementWord>; 3] = [
    (b"work", StatementWord::Work),
    (b"if", StatementWord::If),
    (b"while", StatementWord::While),
];

/// The word that a statement begins with.
#[tactic(auto, unfolding(crate::specs::Words::statement_word))]
pub fn statement_word(name: &[u8]) -> Option<StatementWord>
    ensures { result ≡ the_statement_word name.now }
{
    if let Some(keyword) = found_in(&KEYWORDS, name) {
        Some(keyword)
    } else if let Some(service) = service_of(name) {
        Some(StatementWord::Service(service))
    } else {
        None
    }
}
