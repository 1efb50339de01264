//! The table of attributes: which stand where, and with which values (this project's profile of ISO 17356-6).
ghost use Rattle.std.specs.{Prelude.{◌≡◌, Some, None, if◌then◌else◌}, Str.{bytes_eq}};
ghost use Rattle.oil_tree.specs.declared.tree.Value.TheVariants.{Word};
ghost use Rattle.oil_model.specs.declared.table.Scope.TheVariants as scopes;
ghost use Rattle.oil_model.specs.{declared.table.Presence.TheVariants.{Required, Optional, Many}, Table.{scope_of, entry_of, inner_scope}};

use crate::domain::Domain;
use crate::names::same;
use oil_tree::Value;

/// What a list of attributes describes: an object of a kind, or what an attribute says more of.
#[derive(Clone, Copy)]
pub enum Scope {
    Os,
    AppMode,
    Task,
    Isr,
    Counter,
    Alarm,
    Event,
    Resource,
    /// AUTOSTART = TRUE of a task.
    TaskStart,
    /// AUTOSTART = TRUE of an alarm.
    AlarmStart,
    /// ACTION = ACTIVATETASK.
    Activation,
    /// ACTION = SETEVENT.
    EventSetting,
}

/// How often an attribute may stand in a list.
#[derive(Clone, Copy)]
pub enum Presence {
    /// Once.
    Required,
    /// Once or not at all.
    Optional,
    /// Any number of times.
    Many,
}

/// What the table says of a name.
#[derive(Clone, Copy)]
pub struct Entry {
    pub domain: Domain,
    pub presence: Presence,
}

/// The scope of an object's own attributes, by its kind; none of a kind that the profile doesn't have.
pub fn scope_of(kind: &[u8]) -> Option<Scope>
    ensures { result ≡ scope_of kind.now }
{
    if same(kind, b"OS") {
        Some(Scope::Os)
    } else if same(kind, b"APPMODE") {
        Some(Scope::AppMode)
    } else if same(kind, b"TASK") {
        Some(Scope::Task)
    } else if same(kind, b"ISR") {
        Some(Scope::Isr)
    } else if same(kind, b"COUNTER") {
        Some(Scope::Counter)
    } else if same(kind, b"ALARM") {
        Some(Scope::Alarm)
    } else if same(kind, b"EVENT") {
        Some(Scope::Event)
    } else if same(kind, b"RESOURCE") {
        Some(Scope::Resource)
    } else {
        None
    }
}

fn required(domain: Domain) -> Option<Entry>
    ensures { result ≡ Some (record { domain = domain; presence = Required }) }
{
    Some(Entry {
        domain,
        presence: Presence::Required,
    })
}

fn optional(domain: Domain) -> Option<Entry>
    ensures { result ≡ Some (record { domain = domain; presence = Optional }) }
{
    Some(Entry {
        domain,
        presence: Presence::Optional,
    })
}

fn many(domain: Domain) -> Option<Entry>
    ensures { result ≡ Some (record { domain = domain; presence = Many }) }
{
    Some(Entry {
        domain,
        presence: Presence::Many,
    })
}

fn os_entry(name: &[u8]) -> Option<Entry>
    ensures { result ≡ entry_of scopes.Os name.now }
{
    if same(name, b"STATUS") {
        optional(Domain::Status)
    } else if same(name, b"STARTUPHOOK")
        || same(name, b"ERRORHOOK")
        || same(name, b"SHUTDOWNHOOK")
        || same(name, b"PRETASKHOOK")
        || same(name, b"POSTTASKHOOK")
        || same(name, b"USERESSCHEDULER")
    {
        optional(Domain::Truth)
    } else {
        None
    }
}

fn task_entry(name: &[u8]) -> Option<Entry>
    ensures { result ≡ entry_of scopes.Task name.now }
{
    if same(name, b"PRIORITY") {
        required(Domain::Number(0, 65535))
    } else if same(name, b"SCHEDULE") {
        optional(Domain::Schedule)
    } else if same(name, b"ACTIVATION") {
        optional(Domain::Number(0, u64::MAX))
    } else if same(name, b"AUTOSTART") {
        optional(Domain::Truth)
    } else if same(name, b"RESOURCE") {
        many(Domain::ResourceName)
    } else if same(name, b"EVENT") {
        many(Domain::EventName)
    } else {
        None
    }
}

fn isr_entry(name: &[u8]) -> Option<Entry>
    ensures { result ≡ entry_of scopes.Isr name.now }
{
    if same(name, b"CATEGORY") {
        required(Domain::Number(0, u64::MAX))
    } else if same(name, b"PRIORITY") {
        optional(Domain::Number(0, 255))
    } else if same(name, b"RESOURCE") {
        many(Domain::ResourceName)
    } else {
        None
    }
}

fn counter_entry(name: &[u8]) -> Option<Entry>
    ensures { result ≡ entry_of scopes.Counter name.now }
{
    if same(name, b"MAXALLOWEDVALUE") {
        required(Domain::Number(1, 0xffff_ffff))
    } else if same(name, b"TICKSPERBASE") || same(name, b"MINCYCLE") {
        optional(Domain::Number(0, u64::MAX))
    } else {
        None
    }
}

fn alarm_entry(name: &[u8]) -> Option<Entry>
    ensures { result ≡ entry_of scopes.Alarm name.now }
{
    if same(name, b"COUNTER") {
        required(Domain::CounterName)
    } else if same(name, b"ACTION") {
        required(Domain::Action)
    } else if same(name, b"AUTOSTART") {
        optional(Domain::Truth)
    } else {
        None
    }
}

fn alarm_start_entry(name: &[u8]) -> Option<Entry>
    ensures { result ≡ entry_of scopes.AlarmStart name.now }
{
    if same(name, b"ALARMTIME") || same(name, b"CYCLETIME") {
        required(Domain::Number(0, u64::MAX))
    } else if same(name, b"APPMODE") {
        many(Domain::ModeName)
    } else {
        None
    }
}

fn resource_entry(name: &[u8]) -> Option<Entry>
    ensures { result ≡ entry_of scopes.Resource name.now }
{
    if same(name, b"RESOURCEPROPERTY") {
        optional(Domain::Property)
    } else {
        None
    }
}

fn event_setting_entry(name: &[u8]) -> Option<Entry>
    ensures { result ≡ entry_of scopes.EventSetting name.now }
{
    if same(name, b"TASK") {
        required(Domain::TaskName)
    } else if same(name, b"EVENT") {
        required(Domain::EventName)
    } else {
        None
    }
}

fn only(name: &[u8], wanted: &[u8], entry: Option<Entry>) -> Option<Entry>
    ensures { result ≡ (if bytes_eq name.now wanted.now then entry else None) }
{
    if same(name, wanted) { entry } else { None }
}

/// What the table says of a name in a scope; none of a name that it doesn't have.
pub fn entry_of(scope: Scope, name: &[u8]) -> Option<Entry>
    ensures { result ≡ entry_of scope name.now }
{
    match scope {
        Scope::Os => os_entry(name),
        Scope::AppMode => None,
        Scope::Task => task_entry(name),
        Scope::Isr => isr_entry(name),
        Scope::Counter => counter_entry(name),
        Scope::Alarm => alarm_entry(name),
        Scope::Event => only(name, b"MASK", optional(Domain::EventMask)),
        Scope::Resource => resource_entry(name),
        Scope::TaskStart => only(name, b"APPMODE", many(Domain::ModeName)),
        Scope::AlarmStart => alarm_start_entry(name),
        Scope::Activation => only(name, b"TASK", required(Domain::TaskName)),
        Scope::EventSetting => event_setting_entry(name),
    }
}

fn scope_in_task(name: &[u8], word: &[u8]) -> Option<Scope>
    ensures { result ≡ inner_scope scopes.Task name.now (Word word.now) }
{
    if same(name, b"AUTOSTART") && same(word, b"TRUE") {
        Some(Scope::TaskStart)
    } else {
        None
    }
}

fn scope_in_alarm(name: &[u8], word: &[u8]) -> Option<Scope>
    ensures { result ≡ inner_scope scopes.Alarm name.now (Word word.now) }
{
    if same(name, b"AUTOSTART") && same(word, b"TRUE") {
        Some(Scope::AlarmStart)
    } else if same(name, b"ACTION") && same(word, b"ACTIVATETASK") {
        Some(Scope::Activation)
    } else if same(name, b"ACTION") && same(word, b"SETEVENT") {
        Some(Scope::EventSetting)
    } else {
        None
    }
}

/// The scope of the attributes in an attribute; none where they are passed over.
pub fn inner_scope(scope: Scope, name: &[u8], value: &Value) -> Option<Scope>
    ensures { result ≡ inner_scope scope name.now value.now }
{
    match value {
        Value::Word(word) => match scope {
            Scope::Task => scope_in_task(name, word.as_bytes()),
            Scope::Alarm => scope_in_alarm(name, word.as_bytes()),
            _ => None,
        },
        _ => None,
    }
}
