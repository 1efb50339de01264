//! What a line of the trace shows of the tasks.
ghost use Rattle.std.specs.Prelude.{◌≡◌, ◌<◌, ◌≤◌, ℕ, length, true, false, [], IfSome, if◌then◌else◌};
ghost use Rattle.osek_values.specs.declared.status.Letter.TheVariants.{R, Y};
ghost use Rattle.osek_standard.specs.{TaskStates.{held}, States.{is_that_task, task_of}, Well.{Well}};
ghost use Rattle.trace_text.specs.declared.shown.Shown.{Shown as AShown};
ghost use Rattle.trace_text.specs.LineParts.{shown_before, shown_of as what_is_shown, shown_events, is_suspended_letter, with_letter, KeepsEvents};

use osek_standard::{Activity, App, Standing, State, Task, TaskState};
use osek_values::{Held, Letter, Mask, ResNo, TaskNo};

/// What a line shows of a task.
#[derive(Drop)]
pub(crate) struct Shown {
    pub letter: Letter,
    pub further: u8,
    pub events: Mask,
    pub inside: bool,
    pub stack: Held,
}

impl Default for Shown {
    fn default() -> Shown {
        Shown {
            letter: Letter::S,
            further: 0,
            events: Mask(0),
            inside: false,
            stack: Held::new(),
        }
    }
}

/// Which tasks may be shown otherwise than they are.
#[derive(Clone, Copy)]
pub enum Unshown {
    Nothing,
    /// At most these two, and the one that runs or is interrupted.
    Few(Option<TaskNo>, Option<TaskNo>),
    All,
}

/// What was shown of a task, and how many bytes that has.
#[derive(Drop)]
pub(crate) struct KeptTask {
    pub shown: Shown,
    pub size: usize,
}

impl Default for KeptTask {
    fn default() -> KeptTask {
        KeptTask {
            shown: Shown::default(),
            size: 0,
        }
    }
}

fn held_of(state: &TaskState) -> Held
    ensures { result ≡ held state.now }
{
    match &state.activity {
        Activity::Suspended | Activity::Waiting(_) => Held::new(),
        Activity::Live(standing) => standing.held.copy(),
    }
}

/// What a line shows of a task.
pub(crate) fn shown_of(state: &State, task: TaskNo) -> Shown
    requires { task.0 < length state.now.tasks }
    ensures { result ≡ what_is_shown state.now task.0 }
{
    let task_state = state.task(task);
    Shown {
        letter: state.letter(task),
        further: task_state.further(),
        events: task_state.events,
        inside: task_state.is_inside(),
        stack: held_of(task_state),
    }
}

fn are_same(stack: &[ResNo], other: &[ResNo]) -> bool
    ensures { result ≡ true → stack.now ≡ other.now }
{
    stack == other
}

// Most tasks hold nothing.
#[inline(always)]
fn holds_as(stack: &Held, other: &Held) -> bool
    ensures { result ≡ true → stack.now ≡ other.now }
{
    if stack.is_empty() {
        return other.is_empty();
    }
    are_same(stack.as_slice(), other.as_slice())
}

// Whether of a task a letter is shown, and beside it at most events.
fn is_bare(shown: &Shown) -> bool
    ensures { result ≡ true → shown.now ≡ record { letter = shown.now.letter; further = 0; events = shown.now.events; inside = false; stack = [] } }
{
    shown.further == 0 && !shown.inside && shown.stack.is_empty()
}

// Whether of a Live task this is shown, but for the letter and the events.
#[inline(always)]
fn is_live_as_shown(shown: &Shown, standing: &Standing) -> bool
    ensures { result ≡ true → shown.now ≡ record { letter = shown.now.letter; further = standing.now.further; events = shown.now.events; inside = standing.now.inside; stack = standing.now.held } }
{
    shown.inside == standing.inside
        && shown.further == standing.further
        && holds_as(&shown.stack, &standing.held)
}

// whether the task is the one that runs or is interrupted
fn live_letter(current: Option<TaskNo>, task: TaskNo) -> Letter
    ensures { result ≡ (if is_that_task current task.0 then R else Y) }
{
    if current == Some(task) {
        Letter::R
    } else {
        Letter::Y
    }
}

// The letter of a task, where all else that is shown of it is as it was.
#[inline(always)]
fn letter_beside(
    shown: &Shown,
    state: &State,
    current: Option<TaskNo>,
    task: TaskNo,
) -> Option<Letter>
    requires known { task.0 < length state.now.tasks }
    requires current { current ≡ task_of state.now.processor }
    ensures { IfSome result (λ l. what_is_shown state.now task.0 ≡ with_letter shown.now l) }
{
    let task_state = state.task(task);
    if shown.events != task_state.events {
        return None;
    }
    match &task_state.activity {
        Activity::Suspended => is_bare(shown).then_some(Letter::S),
        Activity::Waiting(_) => is_bare(shown).then_some(Letter::W),
        Activity::Live(standing) => {
            is_live_as_shown(shown, standing).then_some(live_letter(current, task))
        }
    }
}

fn is_suspended(letter: Letter) -> bool
    ensures { result ≡ is_suspended_letter letter }
{
    match letter {
        Letter::S => true,
        Letter::Y | Letter::R | Letter::W => false,
    }
}

// Whether the events of a task are shown with one letter as with another: a suspended task shows none.
fn keeps_events(task: &Task, old: Letter, new: Letter) -> bool
    ensures { (x : AShown) → x.letter ≡ old → result ≡ true → shown_events task.now (with_letter x new) ≡ shown_events task.now x }
{
    if task.own.is_empty() {
        return true;
    }
    if is_suspended(old) {
        is_suspended(new)
    } else {
        !is_suspended(new)
    }
}

/// The letter of a task, where nothing of its text changes but that. It may answer none where that is so.
#[inline(always)]
pub(crate) fn letter_in_place(
    shown: &Shown,
    app: &App,
    state: &State,
    current: Option<TaskNo>,
    task: TaskNo,
) -> Option<Letter>
    requires known { task.0 < length state.now.tasks }
    requires task { task.0 < length app.now.tasks }
    requires current { current ≡ task_of state.now.processor }
    ensures shown { IfSome result (λ l. what_is_shown state.now task.0 ≡ with_letter shown.now l) }
    ensures events { IfSome result (λ l. KeepsEvents app.now task.0 shown.now l) }
{
    let letter = letter_beside(shown, state, current, task)?;
    if letter == shown.letter {
        return Some(letter);
    }
    if keeps_events(app.task(task), shown.letter, letter) {
        return Some(letter);
    }
    None
}
