//! What a call answers, and what an instruction notes of it.
ghost use Rattle.std.specs.Prelude.{◌≡◌, Some, None};
ghost use Rattle.osek_values.specs.Hooks.{error, when};
ghost use Rattle.osek_standard.specs.Effects.{wanted, is_error as is_error_of};

use osek_standard::App;
use osek_values::{Ask, HookSet, Notes, Status, Value};

/// What a call answers and asks.
#[derive(Clone, Copy)]
pub struct Reply {
    pub status: Option<Status>,
    pub value: Option<Value>,
    pub ask: Ask,
}

impl Reply {
    /// Of what notes no status.
    pub fn unnoted(ask: Ask) -> Reply
        ensures { result ≡ record { status = None; value = None; ask = ask } }
    {
        Reply {
            status: None,
            value: None,
            ask,
        }
    }

    /// Of a service that hands out no value.
    pub fn of(status: Option<Status>, ask: Ask) -> Reply
        ensures { result ≡ record { status = status; value = None; ask = ask } }
    {
        Reply {
            status,
            value: None,
            ask,
        }
    }

    /// Of an accepted service that hands out a value.
    pub fn value(value: Value) -> Reply
        ensures { result ≡ record { status = Some Status.Ok; value = Some value; ask = Ask.No } }
    {
        Reply {
            status: Some(Status::Ok),
            value: Some(value),
            ask: Ask::No,
        }
    }
}

/// What an instruction notes, and what it asks of the scheduler.
#[derive(Clone, Copy)]
pub struct Effect {
    pub notes: Notes,
    pub ask: Ask,
}

fn is_error(status: Option<Status>) -> bool
    ensures { result ≡ is_error_of status }
{
    match status {
        None | Some(Status::Ok) => false,
        Some(
            Status::Access
            | Status::CallLevel
            | Status::Id
            | Status::Limit
            | Status::NoFunc
            | Status::Resource
            | Status::State
            | Status::Value,
        ) => true,
    }
}

/// ErrorHook runs where a service or an alarm's action answers other than E_OK.
pub fn noted(app: &App, reply: Reply) -> Effect
    ensures { result ≡ record { notes = record { status = reply.status; value = reply.value; hooks = wanted app.now (when (is_error_of reply.status) error) }; ask = reply.ask } }
{
    let due = HookSet::ERROR.when(is_error(reply.status));
    Effect {
        notes: Notes {
            status: reply.status,
            value: reply.value,
            hooks: app.hooks.among(due),
        },
        ask: reply.ask,
    }
}
