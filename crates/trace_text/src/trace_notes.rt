//! What a step noted, in a line of the trace.
ghost use Rattle.std.specs.Prelude.{◌≡◌, ◌+◌, ◌≤◌, Some, [], ◌∷◌, ◌++◌, length, take, codes};
ghost use Rattle.osek_standard.specs.TraceText.{status_name as name_of_status, letter as letter_text, has_hook as is_hook_in, hook_text, status_text, value_text, value_note, notes_text};

use osek_standard::App;
use osek_values::limits::MAX_NAME;
use osek_values::{HookSet, Letter, ModeNo, Notes, Status, TaskNo, Value};
use text_pieces::{put, put_byte, put_decimal, put_hexadecimal, put_name};

/// The most bytes of a status: ` !` and E_OS_CALLEVEL or E_OS_RESOURCE.
const MAX_STATUS: usize = 15;
/// The most bytes of a value: ` =` and a name.
const MAX_VALUE: usize = 66;
/// The most bytes of a hook: ` ^` and Shutdown or PostTask.
const MAX_HOOK: usize = 10;
/// The most bytes of all notes of a step.
pub(crate) const MAX_NOTES: usize = 131;

// The mark and the name of a status.
fn status_note(status: Status) -> &'static [u8]
    ensures text { result.now ≡ status_text (Some status) }
    ensures short { length result.now ≤ MAX_STATUS }
{
    match status {
        Status::Ok => b" !E_OK",
        Status::Access => b" !E_OS_ACCESS",
        Status::CallLevel => b" !E_OS_CALLEVEL",
        Status::Id => b" !E_OS_ID",
        Status::Limit => b" !E_OS_LIMIT",
        Status::NoFunc => b" !E_OS_NOFUNC",
        Status::Resource => b" !E_OS_RESOURCE",
        Status::State => b" !E_OS_STATE",
        Status::Value => b" !E_OS_VALUE",
    }
}

/// The name of a status, as it is printed.
pub fn status_name(status: Status) -> &'static [u8]
    ensures name { result.now ≡ name_of_status status }
    ensures short { length result.now ≤ 13 }
{
    &status_note(status)[2..]
}

/// The letter of a task's state behind its mark, as it is printed.
pub(crate) fn state_mark(letter: Letter) -> [u8; 2]
    ensures { result ≡ codes "=" ++ letter_text letter }
{
    match letter {
        Letter::S => *b"=S",
        Letter::Y => *b"=Y",
        Letter::R => *b"=R",
        Letter::W => *b"=W",
    }
}

fn put_status(buf: &mut [u8], at: usize, status: Option<Status>) -> usize
    requires room { at + MAX_STATUS ≤ length buf.old }
    ensures text { take result buf.new ≡ take at buf.old ++ status_text status }
    ensures most { result ≤ at + MAX_STATUS }
{
    match status {
        None => at,
        Some(status) => put(buf, at, status_note(status)),
    }
}

fn has_hook(hooks: HookSet, hook: HookSet) -> bool
    ensures { result ≡ is_hook_in hooks hook.0 }
{
    hooks.among(hook).0 != 0
}

fn put_hook(buf: &mut [u8], at: usize, hooks: HookSet, hook: HookSet, name: &[u8]) -> usize
    requires short { length name.now ≤ 8 }
    requires room { at + MAX_HOOK ≤ length buf.old }
    ensures text { take result buf.new ≡ take at buf.old ++ hook_text hooks hook.0 name.now }
    ensures most { result ≤ at + MAX_HOOK }
{
    if !has_hook(hooks, hook) {
        return at;
    }
    let at = put(buf, at, b" ^");
    put(buf, at, name)
}

fn put_task_name(buf: &mut [u8], at: usize, app: &App, task: TaskNo) -> usize
    requires room { at + MAX_NAME ≤ length buf.old }
    ensures text { take result buf.new ≡ take at buf.old ++ value_text app.now (Value.Task (Some task)) }
    ensures most { result ≤ at + MAX_NAME }
{
    match app.tasks.as_slice().get(task.index()) {
        None => at,
        Some(task) => put_name(buf, at, &task.name),
    }
}

fn put_mode(buf: &mut [u8], at: usize, app: &App, mode: ModeNo) -> usize
    requires room { at + MAX_NAME ≤ length buf.old }
    ensures text { take result buf.new ≡ take at buf.old ++ value_text app.now (Value.Mode mode) }
    ensures most { result ≤ at + MAX_NAME }
{
    match app.modes.as_slice().get(mode.index()) {
        None => at,
        Some(name) => put_name(buf, at, name),
    }
}

fn put_value(buf: &mut [u8], at: usize, app: &App, value: Value) -> usize
    requires room { at + MAX_NAME ≤ length buf.old }
    ensures text { take result buf.new ≡ take at buf.old ++ value_text app.now value }
    ensures most { result ≤ at + MAX_NAME }
{
    match value {
        Value::Number(ticks) => put_decimal(buf, at, ticks),
        Value::Mask(mask) => put_hexadecimal(buf, at, mask.0),
        Value::Task(None) => put_byte(buf, at, b'-'),
        Value::Task(Some(task)) => put_task_name(buf, at, app, task),
        Value::State(state) => put_byte(buf, at, state_mark(state)[1]),
        Value::Mode(mode) => put_mode(buf, at, app, mode),
    }
}

fn put_value_note(buf: &mut [u8], at: usize, app: &App, value: Option<Value>) -> usize
    requires room { at + MAX_VALUE ≤ length buf.old }
    ensures text { take result buf.new ≡ take at buf.old ++ value_note app.now value }
    ensures most { result ≤ at + MAX_VALUE }
{
    match value {
        None => at,
        Some(value) => {
            let at = put(buf, at, b" =");
            put_value(buf, at, app, value)
        }
    }
}

/// The notes of a step, each where there is one.
pub(crate) fn put_notes(buf: &mut [u8], at: usize, app: &App, notes: &Notes) -> usize
    requires room { at + MAX_NOTES ≤ length buf.old }
    ensures text { take result buf.new ≡ take at buf.old ++ notes_text app.now notes.now }
    ensures most { result ≤ at + MAX_NOTES }
{
    let hooks = notes.hooks;
    let at = put_status(buf, at, notes.status);
    let at = put_hook(buf, at, hooks, HookSet::ERROR, b"Error");
    let at = put_value_note(buf, at, app, notes.value);
    let at = put_hook(buf, at, hooks, HookSet::STARTUP, b"Startup");
    let at = put_hook(buf, at, hooks, HookSet::SHUTDOWN, b"Shutdown");
    let at = put_hook(buf, at, hooks, HookSet::POST_TASK, b"PostTask");
    put_hook(buf, at, hooks, HookSet::PRE_TASK, b"PreTask")
}
