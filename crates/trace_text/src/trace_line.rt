//! A line of the trace.
ghost use Rattle.std.specs.{Prelude.{◌≡◌, ◌+◌, ◌*◌, ◌<◌, ◌≤◌, [], ◌∷◌, ◌++◌, All, length, take, slice_index_or, if◌then◌else◌, None, true, ℕ}, List.{flat_map, cons_option, sum_by}};
ghost use Rattle.osek_values.specs.declared.numbers.ResNo.{ResNo as AResource};
ghost use Rattle.osek_standard.specs.{declared.app.App.{App}, Apps.{the_task, source_count}, Dispatch.{stepped}};
ghost use Rattle.osek_standard.specs.{TraceText.{who, events_text, resource_text, task_text, line_text, further_text, routine_text}, Well.{Well, IsActivityOf}};
ghost use Rattle.osek_standard.specs.{Internal.{internal_of, occupied}, States.{source_state, is_source_at}};
ghost use Rattle.trace_text.specs.{Labels.{label_texts}, LineParts.{tasks_text, routines_text, kept_texts, not_shown, IsKept, ShowsAll}};

use crate::labels::{Labels, MAX_SOURCES};
use crate::line_parts::LineParts;
use crate::shown::{KeptTask, shown_of};
use crate::trace_notes::{put_notes, state_mark};
use arrayvec::ArrayVec;
use osek_standard::{Activity, App, Processor, Source, State, Task, TaskState};
use osek_values::limits::{LINE_MAX, MAX_RESOURCES, MAX_TASKS};
use osek_values::{Notes, ResNo, SourceNo, TaskNo};
use text_pieces::{
    LABEL_ROOM, MAX_DECIMAL, MAX_HEXADECIMAL, MAX_LABEL, put, put_byte, put_decimal,
    put_hexadecimal, put_label,
};

/// The most bytes of the events of a task: a mark and a set.
const MAX_TASK_EVENTS: usize = 1 + MAX_HEXADECIMAL;
/// The most bytes of the further activations of a task: a mark and a number.
const MAX_FURTHER: usize = 1 + MAX_DECIMAL;
/// The most bytes of resources.
const MAX_OCCUPIED: usize = MAX_RESOURCES * MAX_LABEL;
/// The most bytes of a task: its label, a mark, a letter, its further activations, its events, and the labels of what it
/// has.
pub(crate) const MAX_TASK: usize = MAX_LABEL + 2 + MAX_FURTHER + MAX_TASK_EVENTS + MAX_OCCUPIED;
/// The most bytes of a routine: its label, and the labels of what it holds.
const MAX_ROUTINE: usize = MAX_LABEL + MAX_OCCUPIED;

/// The most bytes of all tasks.
pub(crate) const MAX_ALL_TASKS: usize = MAX_TASKS * MAX_TASK;
/// The most bytes of all routines.
const MAX_ALL_ROUTINES: usize = MAX_SOURCES * MAX_ROUTINE;

// A space, and who has the processor.
fn put_who(buf: &mut [u8], at: usize, labels: &Labels, app: &App, state: &State) -> usize
    requires well { Well app.now state.now }
    requires labelled { labels.now ≡ label_texts app.now }
    requires room { at + LABEL_ROOM ≤ length buf.old }
    ensures text { take result buf.new ≡ take at buf.old ++ 32 ∷ who app.now state.now.processor }
    ensures most { result ≤ at + MAX_LABEL }
{
    match state.processor {
        Processor::Halted => put(buf, at, b" #"),
        Processor::Idle => put(buf, at, b" -"),
        Processor::Running(task) => put_label(buf, at, labels.task(app, task)),
        Processor::Interrupted { source, .. } => put_label(buf, at, labels.source(app, source)),
    }
}

fn put_events(buf: &mut [u8], at: usize, task: &Task, state: &TaskState) -> usize
    requires room { at + MAX_TASK_EVENTS ≤ length buf.old }
    ensures text { take result buf.new ≡ take at buf.old ++ events_text task.now state.now }
    ensures most { result ≤ at + MAX_TASK_EVENTS }
{
    if task.own.is_empty() || state.is_suspended() {
        return at;
    }
    let at = put_byte(buf, at, b':');
    put_hexadecimal(buf, at, state.events.0)
}

fn put_further(buf: &mut [u8], at: usize, further: u8) -> usize
    requires room { at + MAX_FURTHER ≤ length buf.old }
    ensures text { take result buf.new ≡ take at buf.old ++ further_text further }
    ensures most { result ≤ at + MAX_FURTHER }
{
    if further == 0 {
        return at;
    }
    let at = put_byte(buf, at, b'*');
    put_decimal(buf, at, further as u64)
}

fn put_resources(
    buf: &mut [u8],
    from: usize,
    labels: &Labels,
    app: &App,
    resources: &[ResNo],
) -> usize
    requires known { All (λ (r : AResource). r.0 < length app.now.resources) resources.now }
    requires labelled { labels.now ≡ label_texts app.now }
    requires room { from + length resources.now * MAX_LABEL + LABEL_ROOM ≤ length buf.old }
    ensures text { take result buf.new ≡ take from buf.old ++ flat_map (resource_text app.now) resources.now }
    ensures most { result ≤ from + length resources.now * MAX_LABEL }
{
    let mut at = from;
    for resource in resources {
        at = put_label(buf, at, labels.resource(app, *resource));
    }
    at
}

// The INTERNAL resource that a task names, where it is inside.
fn put_internal(
    buf: &mut [u8],
    at: usize,
    labels: &Labels,
    app: &App,
    task: TaskNo,
    inside: bool,
) -> usize
    requires known { task.0 < length app.now.tasks }
    requires labelled { labels.now ≡ label_texts app.now }
    requires room { at + LABEL_ROOM ≤ length buf.old }
    ensures text { take result buf.new ≡ take at buf.old ++ flat_map (resource_text app.now) (cons_option (if inside then internal_of app.now task.0 else None) []) }
    ensures most { result ≤ at + length (cons_option (if inside then internal_of app.now task.0 else None) []) * MAX_LABEL }
{
    if !inside {
        return at;
    }
    match app.task(task).internal {
        None => at,
        Some(resource) => put_label(buf, at, labels.resource(app, resource)),
    }
}

// What a task has: its INTERNAL resource where it is inside, and then its stack, the first taken first.
fn put_occupied(
    buf: &mut [u8],
    at: usize,
    labels: &Labels,
    app: &App,
    task: TaskNo,
    state: &TaskState,
) -> usize
    requires known { task.0 < length app.now.tasks }
    requires right { IsActivityOf app.now task.0 state.now.activity }
    requires labelled { labels.now ≡ label_texts app.now }
    requires room { at + MAX_OCCUPIED + LABEL_ROOM ≤ length buf.old }
    ensures text { take result buf.new ≡ take at buf.old ++ flat_map (resource_text app.now) (occupied app.now task.0 state.now) }
    ensures most { result ≤ at + MAX_OCCUPIED }
{
    match &state.activity {
        Activity::Suspended | Activity::Waiting(_) => at,
        Activity::Live(standing) => {
            let at = put_internal(buf, at, labels, app, task, standing.inside);
            put_resources(buf, at, labels, app, standing.held.as_slice())
        }
    }
}

/// Puts a task.
pub(crate) fn put_task(
    buf: &mut [u8],
    at: usize,
    labels: &Labels,
    app: &App,
    state: &State,
    task: TaskNo,
) -> usize
    requires known { task.0 < length app.now.tasks }
    requires well { Well app.now state.now }
    requires labelled { labels.now ≡ label_texts app.now }
    requires room { at + MAX_TASK + LABEL_ROOM ≤ length buf.old }
    ensures text { take result buf.new ≡ take at buf.old ++ task_text app.now state.now (task.0, the_task app.now task.0) }
    ensures most { result ≤ at + MAX_TASK }
{
    let at = put_label(buf, at, labels.task(app, task));
    let task_state = state.task(task);
    let at = put(buf, at, &state_mark(state.letter(task)));
    let at = put_further(buf, at, task_state.further());
    let at = put_events(buf, at, app.task(task), task_state);
    put_occupied(buf, at, labels, app, task, task_state)
}

/// Puts all tasks at the front of a buffer, and keeps of each what is shown and how many bytes that has.
pub(crate) fn put_tasks(
    buf: &mut [u8],
    kept: &mut ArrayVec<KeptTask, MAX_TASKS>,
    labels: &Labels,
    app: &App,
    state: &State,
) -> usize
    requires well { Well app.now state.now }
    requires labelled { labels.now ≡ label_texts app.now }
    requires room { MAX_ALL_TASKS + LABEL_ROOM ≤ length buf.old }
    requires empty { kept.old.items ≡ [] }
    ensures text { take result buf.new ≡ tasks_text app.now state.now }
    ensures most { result ≤ MAX_ALL_TASKS }
    ensures kept { (t : ℕ) → t < length kept.new.items → IsKept app.now t (slice_index_or kept.new.items t not_shown) }
    ensures shown { ShowsAll app.now state.now kept.new.items }
    ensures same { take result buf.new ≡ kept_texts app.now 0 kept.new.items }
    ensures size { result ≡ sum_by (λ k. k.size) kept.new.items }
{
    let mut at = 0;
    for task in 0..app.tasks.len() {
        let task = TaskNo(task as u8);
        let end = put_task(buf, at, labels, app, state, task);
        kept.push(KeptTask {
            shown: shown_of(state, task),
            size: end - at,
        });
        at = end;
    }
    at
}

fn is_at_processor(state: &State, source: SourceNo) -> bool
    ensures { result ≡ is_source_at state.now.processor source.0 }
{
    match state.processor {
        Processor::Halted | Processor::Idle | Processor::Running(_) => false,
        Processor::Interrupted { source: top, .. } => top == source,
    }
}

// A routine that is in; the one at the processor only where it holds something.
fn put_routine(
    buf: &mut [u8],
    at: usize,
    labels: &Labels,
    app: &App,
    state: &State,
    source: SourceNo,
) -> usize
    requires known { source.0 < source_count app.now }
    requires well { Well app.now state.now }
    requires labelled { labels.now ≡ label_texts app.now }
    requires room { at + MAX_ROUTINE + LABEL_ROOM ≤ length buf.old }
    ensures text { take result buf.new ≡ take at buf.old ++ routine_text app.now state.now.processor (source.0, source_state state.now source.0) }
    ensures most { result ≤ at + MAX_ROUTINE }
{
    match state.sources.at(source.index()) {
        Source::Out => at,
        Source::In(standing) => {
            if is_at_processor(state, source) && standing.held.is_empty() {
                return at;
            }
            let at = put_label(buf, at, labels.source(app, source));
            put_resources(buf, at, labels, app, standing.held.as_slice())
        }
    }
}

// Each routine that is in, in order.
fn put_routines(buf: &mut [u8], from: usize, labels: &Labels, app: &App, state: &State) -> usize
    requires well { Well app.now state.now }
    requires labelled { labels.now ≡ label_texts app.now }
    requires room { from + MAX_ALL_ROUTINES + LABEL_ROOM ≤ length buf.old }
    ensures text { take result buf.new ≡ take from buf.old ++ routines_text app.now state.now }
    ensures most { result ≤ from + MAX_ALL_ROUTINES }
{
    let mut at = from;
    for source in 0..state.sources.len() {
        at = put_routine(buf, at, labels, app, state, SourceNo(source as u8));
    }
    at
}

// Whether nothing is shown of a routine: it isn't in, or it has the processor and holds nothing.
fn is_hidden(state: &State, source: SourceNo) -> bool
    requires { source.0 < length state.now.sources }
    ensures { (app : App) → result ≡ true → routine_text app state.now.processor (source.0, source_state state.now source.0) ≡ [] }
{
    match state.sources.at(source.index()) {
        Source::Out => true,
        Source::In(standing) => is_at_processor(state, source) && standing.held.is_empty(),
    }
}

// Whether no routine is shown, as in most lines.
fn are_hidden(state: &State) -> bool
    requires { (length state.now.sources) < 256 }
    ensures { (app : App) → result ≡ true → routines_text app state.now ≡ [] }
{
    for source in 0..state.sources.len() {
        if !is_hidden(state, SourceNo(source as u8)) {
            return false;
        }
    }
    true
}

// The same; where no routine has the processor none is in.
fn put_nest(buf: &mut [u8], at: usize, labels: &Labels, app: &App, state: &State) -> usize
    requires well { Well app.now state.now }
    requires labelled { labels.now ≡ label_texts app.now }
    requires room { at + MAX_ALL_ROUTINES + LABEL_ROOM ≤ length buf.old }
    ensures text { take result buf.new ≡ take at buf.old ++ routines_text app.now state.now }
    ensures most { result ≤ at + MAX_ALL_ROUTINES }
{
    if !state.processor.is_interrupted() {
        return at;
    }
    if are_hidden(state) {
        return at;
    }
    put_routines(buf, at, labels, app, state)
}

/// Puts line n of the trace, with its LF, at a place of a buffer, and answers the place behind it. What stood before the
/// place stays, and what stands behind the line has no meaning. It takes no memory.
pub fn put_line(
    buf: &mut [u8],
    at: usize,
    parts: &LineParts,
    app: &App,
    n: u64,
    state: &State,
    notes: &Notes,
) -> usize
    requires well { Well app.now state.now }
    requires labelled { parts.now.labels ≡ label_texts app.now }
    requires shown { parts.now.tasks ≡ tasks_text app.now state.now }
    requires room { at + LINE_MAX ≤ length buf.old }
    ensures line { take result buf.new ≡ take at buf.old ++ line_text app.now n (stepped state.now notes.now) ++ 10 ∷ [] }
    ensures most { result ≤ at + LINE_MAX }
{
    let at = parts.put_number(buf, at, n);
    let at = put_who(buf, at, parts.labels(), app, state);
    let at = parts.put_shown(buf, at);
    let at = put_nest(buf, at, parts.labels(), app, state);
    let at = put_notes(buf, at, app, notes);
    put_byte(buf, at, b'\n')
}

/// Writes line n of the trace, with its LF, at the front of a buffer, and answers its length. What stands behind it
/// in the buffer has no meaning. It takes no memory. Whoever writes many lines of one application keeps its parts,
/// and puts each by `put_line`.
pub fn write_line(app: &App, n: u64, state: &State, notes: &Notes, buf: &mut [u8]) -> usize
    requires well { Well app.now state.now }
    requires room { LINE_MAX ≤ length buf.old }
    ensures line { take result buf.new ≡ line_text app.now n (stepped state.now notes.now) ++ 10 ∷ [] }
    ensures most { result ≤ LINE_MAX }
{
    let mut parts = LineParts::of(app);
    parts.show(app, state);
    put_line(buf, 0, &parts, app, n, state, notes)
}
