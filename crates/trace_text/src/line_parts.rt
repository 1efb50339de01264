//! What the lines of a trace are put by.
ghost use Rattle.std.specs.{Prelude.{◌≡◌, ◌<◌, ◌≤◌, ◌+◌, ◌-◌, ◌++◌, length, take, drop, slice_index_or, slice_set, decimal, IfSome}, List.{sum_by}};
ghost use Rattle.osek_standard.specs.{States.{task_of}, Well.{Well}};
ghost use Rattle.trace_text.specs.LineParts.{ArePartsOf, ShowsTask, ShowsOne, ShowsAll, ShowsBut, ShowsOthers, KeepsEvents, shown_of as what_is_shown, with_letter, shown_before, tasks_text, kept_place, kept_with_letter, not_shown};

use crate::labels::Labels;
use crate::shown::{KeptTask, Unshown, letter_in_place, shown_of};
use crate::trace_line::{MAX_ALL_TASKS, put_task, put_tasks};
use crate::trace_notes::state_mark;
use arrayvec::ArrayVec;
use osek_standard::{App, State};
use osek_values::limits::MAX_TASKS;
use osek_values::{Letter, TaskNo};
use std::marker::Model;
use text_pieces::{Count, LABEL_ROOM, MAX_DECIMAL, put, put_count, put_decimal, put_prefix};

const TASKS_ROOM: usize = MAX_ALL_TASKS + LABEL_ROOM;

// The sizes of copies.
const SHORT: usize = 64;

const MIDDLE: usize = 128;

/// What the lines of one application's trace are put by: its labels, and the text of its tasks as they were shown last,
/// since most events change nothing of it, and most others one task or two. It holds no memory.
#[derive(Drop)]
pub struct LineParts {
    labels: Labels,
    // What was shown of each task, or of none.
    kept: ArrayVec<KeptTask, MAX_TASKS>,
    // The text, and behind it bytes that have no meaning.
    tasks: [u8; TASKS_ROOM],
    size: usize,
    // Where a part of the text is made. Between calls it has no meaning.
    spare: [u8; TASKS_ROOM],
    // The number of a line, as it was put last: most lines have the next.
    number: Count,
}

// Puts a part of a text.
fn put_part(buf: &mut [u8], at: usize, text: &[u8], start: usize, end: usize) -> usize
    requires order { start ≤ end }
    requires within { end ≤ length text.now }
    requires room { at + (end - start) ≤ length buf.old }
    ensures text { take result buf.new ≡ take at buf.old ++ drop start (take end text.now) }
    ensures end { result ≡ at + (end - start) }
{
    put(buf, at, &text[start..end])
}

fn keep(kept: &mut ArrayVec<KeptTask, MAX_TASKS>, task: usize, to: KeptTask)
    requires { task < length kept.old.items }
    ensures { kept.new.items ≡ slice_set kept.old.items task to }
{
    kept.as_mut_slice()[task] = to;
}

fn keep_letter(kept: &mut ArrayVec<KeptTask, MAX_TASKS>, task: usize, letter: Letter)
    requires { task < length kept.old.items }
    ensures { kept.new.items ≡ slice_set kept.old.items task (kept_with_letter (slice_index_or kept.old.items task not_shown) letter) }
{
    kept.as_mut_slice()[task].shown.letter = letter;
}

// Where the text of a task begins.
fn place_of(kept: &[KeptTask], task: usize) -> usize
    requires within { task ≤ length kept.now }
    requires few { sum_by (λ k. k.size) kept.now ≤ MAX_ALL_TASKS }
    ensures { result ≡ kept_place kept.now task }
{
    let mut place = 0;
    for before in 0..task {
        place += kept[before].size;
    }
    place
}

impl Model for LineParts {
    ghost use Rattle.std.specs.{Prelude.{◌≡◌, ◌≤◌, take}, List.{sum_by}};
    ghost use Rattle.trace_text.specs.{LineParts.{LineTexts}, declared.trace_line.TheConstants.{MAX_ALL_TASKS}};

    ghost Value = { LineTexts };

    ghost view = { λ p. record { labels = p.labels; kept = p.kept.items; tasks = take p.size p.tasks } };

    ghost invariant = { λ p. (p.size ≤ MAX_ALL_TASKS) × (p.size ≡ sum_by (λ k. k.size) p.kept.items) };
}

impl LineParts {
    /// What the lines of an application's trace are put by. No tasks were shown yet.
    pub fn of(app: &App) -> LineParts
        ensures { ArePartsOf app.now result }
    {
        LineParts {
            labels: Labels::of(app),
            kept: ArrayVec::new(),
            tasks: [0; TASKS_ROOM],
            size: 0,
            spare: [0; TASKS_ROOM],
            number: Count::of(0),
        }
    }

    /// Makes the text of the tasks that of a state. It takes no memory.
    pub fn show(&mut self, app: &App, state: &State)
        requires well { Well app.now state.now }
        requires parts { ArePartsOf app.now self.old }
        ensures parts { ArePartsOf app.now self.new }
        ensures tasks { self.new.tasks ≡ tasks_text app.now state.now }
    {
        self.show_anew(app, state);
    }

    /// The same where it is known of which tasks the text may be another. It takes no memory.
    #[inline(always)]
    pub fn show_again(&mut self, app: &App, state: &State, unshown: Unshown)
        requires well { Well app.now state.now }
        requires parts { ArePartsOf app.now self.old }
        requires shown { ShowsBut app.now state.now unshown self.old.kept }
        ensures parts { ArePartsOf app.now self.new }
        ensures shown { ShowsAll app.now state.now self.new.kept }
        ensures tasks { self.new.tasks ≡ tasks_text app.now state.now }
    {
        match unshown {
            Unshown::Nothing => {}
            Unshown::Few(own, named) => self.show_few(app, state, own, named),
            Unshown::All => self.show_anew(app, state),
        }
    }

    // Makes the text of all tasks.
    fn show_anew(&mut self, app: &App, state: &State)
        requires well { Well app.now state.now }
        requires parts { ArePartsOf app.now self.old }
        ensures parts { ArePartsOf app.now self.new }
        ensures shown { ShowsAll app.now state.now self.new.kept }
        ensures tasks { self.new.tasks ≡ tasks_text app.now state.now }
    {
        self.kept = ArrayVec::new();
        self.size = put_tasks(&mut self.tasks, &mut self.kept, &self.labels, app, state);
    }

    // Makes the text of two tasks, and of the one that runs or is interrupted.
    fn show_few(&mut self, app: &App, state: &State, own: Option<TaskNo>, named: Option<TaskNo>)
        requires well { Well app.now state.now }
        requires parts { ArePartsOf app.now self.old }
        requires shown { ShowsOthers app.now state.now own named self.old.kept }
        ensures parts { ArePartsOf app.now self.new }
        ensures shown { ShowsAll app.now state.now self.new.kept }
    {
        let current = state.current();
        self.show_one(app, state, current, own);
        if current != own {
            self.show_one(app, state, current, current);
        }
        self.show_one(app, state, current, named);
    }

    // Makes the text of a task, if there is one.
    #[inline(always)]
    fn show_one(&mut self, app: &App, state: &State, current: Option<TaskNo>, task: Option<TaskNo>)
        requires well { Well app.now state.now }
        requires parts { ArePartsOf app.now self.old }
        requires whole { length self.old.kept ≡ length app.now.tasks }
        requires current { current ≡ task_of state.now.processor }
        requires known { IfSome task (λ t. t.0 < length app.now.tasks) }
        ensures parts { ArePartsOf app.now self.new }
        ensures shown { ShowsOne state.now task self.old.kept self.new.kept }
    {
        let Some(task) = task else {
            return;
        };
        let shown = &self.kept.as_slice()[task.index()].shown;
        match letter_in_place(shown, app, state, current, task) {
            Some(letter) => self.show_letter(app, task, letter),
            None => self.put_anew(app, state, task),
        }
    }

    // Makes the letter of a task another, where it is another and nothing else of its text changes.
    #[inline(always)]
    fn show_letter(&mut self, app: &App, task: TaskNo, letter: Letter)
        requires parts { ArePartsOf app.now self.old }
        requires whole { length self.old.kept ≡ length app.now.tasks }
        requires known { task.0 < length app.now.tasks }
        requires events { KeepsEvents app.now task.0 (shown_before self.old.kept task.0) letter }
        ensures parts { ArePartsOf app.now self.new }
        ensures shown { ShowsTask self.old.kept self.new.kept task.0 (with_letter (shown_before self.old.kept task.0) letter) }
    {
        if self.kept.as_slice()[task.index()].shown.letter != letter {
            self.put_letter(app, task, letter);
        }
    }

    // Puts the letter of a task into its text.
    #[inline(never)]
    fn put_letter(&mut self, app: &App, task: TaskNo, letter: Letter)
        requires parts { ArePartsOf app.now self.old }
        requires whole { length self.old.kept ≡ length app.now.tasks }
        requires known { task.0 < length app.now.tasks }
        requires events { KeepsEvents app.now task.0 (shown_before self.old.kept task.0) letter }
        ensures parts { ArePartsOf app.now self.new }
        ensures shown { ShowsTask self.old.kept self.new.kept task.0 (with_letter (shown_before self.old.kept task.0) letter) }
    {
        let at = place_of(self.kept.as_slice(), task.index());
        let place = at + app.task(task).name.as_bytes().len() + 2;
        self.tasks[place] = state_mark(letter)[1];
        keep_letter(&mut self.kept, task.index(), letter);
    }

    // Puts the text of a task anew, and behind it what stood behind it.
    #[inline(never)]
    fn put_anew(&mut self, app: &App, state: &State, task: TaskNo)
        requires well { Well app.now state.now }
        requires parts { ArePartsOf app.now self.old }
        requires whole { length self.old.kept ≡ length app.now.tasks }
        requires known { task.0 < length app.now.tasks }
        ensures parts { ArePartsOf app.now self.new }
        ensures shown { ShowsTask self.old.kept self.new.kept task.0 (what_is_shown state.now task.0) }
    {
        let at = place_of(self.kept.as_slice(), task.index());
        let behind = at + self.kept.as_slice()[task.index()].size;
        let size = put_task(&mut self.spare, 0, &self.labels, app, state, task);
        let end = put_part(&mut self.spare, size, &self.tasks, behind, self.size);
        self.size = put(&mut self.tasks, at, &self.spare[..end]);
        let kept = KeptTask {
            shown: shown_of(state, task),
            size,
        };
        keep(&mut self.kept, task.index(), kept);
    }

    /// Makes the digits of a line's number ready. A line has the number that it is put with, whether they are or not; it
    /// costs less where they are.
    pub fn count(&mut self, n: u64)
        ensures { self.new ≡ self.old }
    {
        self.number.set(n);
    }

    /// Puts the number of a line.
    pub(crate) fn put_number(&self, buf: &mut [u8], at: usize, n: u64) -> usize
        requires room { at + MAX_DECIMAL ≤ length buf.old }
        ensures text { take result buf.new ≡ take at buf.old ++ decimal n }
        ensures most { result ≤ at + MAX_DECIMAL }
    {
        if self.number.is(n) {
            put_count(buf, at, &self.number)
        } else {
            put_decimal(buf, at, n)
        }
    }

    pub(crate) fn labels(&self) -> &Labels
        ensures { result.now ≡ self.now.labels }
    {
        &self.labels
    }

    /// Puts the text of the tasks. A copy of constant size costs less than one of any size, and most texts are short.
    pub(crate) fn put_shown(&self, buf: &mut [u8], at: usize) -> usize
        requires room { at + TASKS_ROOM ≤ length buf.old }
        ensures text { take result buf.new ≡ take at buf.old ++ self.now.tasks }
        ensures most { result ≤ at + MAX_ALL_TASKS }
    {
        let size = self.size;
        if size <= SHORT {
            return put_prefix(buf, at, &self.tasks[..SHORT], size);
        }
        if size <= MIDDLE {
            return put_prefix(buf, at, &self.tasks[..MIDDLE], size);
        }
        put(buf, at, &self.tasks[..size])
    }
}
