//! The command `watch`: whether each point of a record may follow the one before it in a run of an application.
ghost use Rattle.std.specs.Prelude.{◌≡◌, ◌<◌, ◌≤◌, ◌+◌, [], true, length, None, Err, IfOk, IfErr, IfSome, OnOk};
ghost use Rattle.osek_io.specs.{Reads.{OnlyReads}, Sunk.{sunk}};
ghost use Rattle.osek_standard.specs.Points.{IsPoint};
ghost use Rattle.trace_text.specs.{Feeds.{no_bytes}, PointWords.{read_point_line}};
ghost use Rattle.command_runs.specs.{Inputs.{OfFile}, Outside.{outside, told}, Playing.{PlayAnswers}, Telling.{TellsText}};
ghost use Rattle.commands.specs.Watching.{WatchAnswers, alarm_line, quiet_line};
ghost use Rattle.commands.specs.WatchedLines.{AnswersFed, AnswersPoint, AnswersRecord, AnswersWatch, IsLeastWatch, end_of_watch, watched_line};

use crate::compiling::compile;
use crate::fitting::least_table;
use command_runs::{Input, Stop, judge_length, put_three, put_two, read_on};
use flow_watch::{Alarm, Watch, read_point};
use itoa::Buffer;
use osek_io::{PutError, Shelf, Sink};
use osek_standard::App;
use osek_values::Memory;
use osek_values::limits::{MAX_EVENT_LINE, MAX_RECORD};
use std::alloc::Global;
use trace_text::{FaultyPoint, Feed, FeedStep, MAX_POINT, put_point};

/// A watch at work on the lines of a record.
#[derive(Drop)]
struct Watching {
    watch: Watch,
    /// The number of the next line.
    line: u32,
    // points are no more than lines
    ghost few: { watch.seen < line },
}

impl Watching {
    /// Sees what the next line of the record says. It answers the first alarm, once it comes.
    fn see_line(&mut self, line: &[u8]) -> Result<Option<Alarm>, Stop>
        requires none { self.old.watch.alarm ≡ None }
        requires fits { self.old.line ≤ MAX_RECORD }
        ensures app { self.new.watch.app ≡ self.old.watch.app }
        ensures next { self.new.line ≡ self.old.line + 1 }
        ensures alarm { IfOk result (λ a. a ≡ self.new.watch.alarm) }
        ensures point { IfOk result (λ a. IfSome a (λ a. IsPoint self.old.watch.app a.point)) }
        ensures line { AnswersPoint (λ more. watched_line self.old.watch self.old.line more (read_point_line self.old.watch.app line.now)) self.new.watch result }
    {
        let number = self.line;
        self.line += 1;
        match read_point(self.watch.app(), line) {
            Ok(None) => Ok(None),
            Ok(Some(point)) => Ok(self.watch.see(point)),
            Err(rule) => Err(Stop::Record(FaultyPoint { line: number, rule })),
        }
    }

    /// Sees the lines that come out of a feed, up to the first alarm.
    fn see_ahead(&mut self, feed: &mut Feed) -> Result<Option<Alarm>, Stop>
        requires none { self.old.watch.alarm ≡ None }
        requires fits { self.old.line + length feed.old.ahead ≤ MAX_RECORD + 1 }
        ensures app { self.new.watch.app ≡ self.old.watch.app }
        ensures alarm { IfOk result (λ a. a ≡ self.new.watch.alarm) }
        ensures point { IfOk result (λ a. IfSome a (λ a. IsPoint self.old.watch.app a.point)) }

        ensures fits { OnOk result (self.new.line + length feed.new.ahead ≤ self.old.line + length feed.old.ahead) }
        ensures finished { feed.new.finished ≡ feed.old.finished }
        ensures waits { IfOk result (λ a. a ≡ None → length feed.new.ahead ≤ MAX_EVENT_LINE) }
        ensures ended { IfOk result (λ a. a ≡ None → feed.new.finished ≡ true → feed.new.ahead ≡ []) }

        ensures lines { AnswersFed feed.old feed.new self.old.line self.new.line self.old.watch self.new.watch result }
    {
        'lines: while let FeedStep::Line = feed.next() {
            let alarm = self.see_line(feed.line())?;
            if alarm.is_some() {
                return Ok(alarm);
            }
        }
        Ok(None)
    }

    /// Sees the lines of a record as it is read, up to the first alarm.
    fn see_record<F: Shelf>(
        &mut self,
        shelf: &mut F,
        points: &str,
        feed: &mut Feed,
    ) -> Result<Option<Alarm>, Stop>
        requires none { self.old.watch.alarm ≡ None }
        requires first { self.old.line ≡ 1 }
        requires empty { feed.old ≡ no_bytes }
        requires text { OfFile (F.contents shelf.old) points.now (λ t. length t ≤ MAX_RECORD) }
        ensures app { self.new.watch.app ≡ self.old.watch.app }
        ensures point { IfOk result (λ a. IfSome a (λ a. IsPoint self.old.watch.app a.point)) }
        ensures answer { AnswersRecord (told F.Shelf shelf.old) (told F.Shelf shelf.new) points.now self.old.watch self.new.watch result }
        ensures same { OnlyReads F.Shelf shelf.old shelf.new }
    {
        let mut taken = 0;
        'pieces: loop {
            let count = read_on(shelf, Input::Record, points, taken, feed)?;
            let alarm = self.see_ahead(feed)?;
            if alarm.is_some() || count == 0 {
                return Ok(alarm);
            }
            taken += count;
        }
    }
}

/// Prints the line of an alarm.
fn print_alarm<O: Sink>(out: &mut O, app: &App, alarm: Alarm) -> Result<(), PutError>
    requires { IsPoint app.now alarm.point }
    ensures { TellsText (sunk O.Sink out.old) (sunk O.Sink out.new) (alarm_line app.now alarm) result }
{
    let mut digits = Buffer::new();
    put_three(out, b"alarm ", digits.format(alarm.place).as_bytes(), b" ")?;
    let mut point = [0u8; MAX_POINT];
    let size = put_point(&mut point, 0, app, alarm.point);
    put_two(out, &point[..size], b"\n")
}

/// Prints the line of so many points without an alarm.
fn print_quiet<O: Sink>(out: &mut O, seen: u64) -> Result<(), PutError>
    ensures { TellsText (sunk O.Sink out.old) (sunk O.Sink out.new) (quiet_line seen) result }
{
    let mut digits = Buffer::new();
    put_three(out, b"quiet ", digits.format(seen).as_bytes(), b"\n")
}

/// Prints how a watch ended, and nothing where it stopped.
fn print_end<O: Sink>(
    out: &mut O,
    watch: &Watch,
    end: Result<Option<Alarm>, Stop>,
) -> Result<(), Stop>
    requires known { IfOk end (λ a. IfSome a (λ a. IsPoint watch.now.app a.point)) }
    ensures end { PlayAnswers (sunk O.Sink out.old) (sunk O.Sink out.new) (end_of_watch watch.now end) result }
    ensures stop { IfErr end (λ s. (result ≡ Err s) × (sunk O.Sink out.new ≡ sunk O.Sink out.old)) }
{
    match end {
        Ok(None) => match print_quiet(out, watch.seen()) {
            Ok(()) => Ok(()),
            Err(PutError::Write) => Err(Stop::Unprinted),
        },
        Ok(Some(alarm)) => match print_alarm(out, watch.app(), alarm) {
            Ok(()) => Err(Stop::Alarmed),
            Err(PutError::Write) => Err(Stop::Unprinted),
        },
        Err(stop) => Err(stop),
    }
}

/// A watch over the least table of an application, which saw nothing yet.
fn watch_of(alloc: Global, app: App) -> Result<Watch, Memory>
    ensures { IfOk result (IsLeastWatch app) }
{
    let least = least_table(alloc, &app)?;
    let watch = Watch::with(alloc, app, &least.table, least.exits.as_slice());
    drop(least);
    watch
}

/// Watches a record beside its application. All memory is taken before its first line is read.
fn watch_beside<F: Shelf, O: Sink>(
    alloc: Global,
    shelf: &mut F,
    out: &mut O,
    app: App,
    points: &str,
) -> Result<(), Stop>
    requires text { OfFile (F.contents shelf.old) points.now (λ t. length t ≤ MAX_RECORD) }
    ensures answer { AnswersWatch (outside F.Shelf O.Sink shelf.old out.old) (outside F.Shelf O.Sink shelf.new out.new) points.now app result }
    ensures same { OnlyReads F.Shelf shelf.old shelf.new }
{
    let Ok(watch) = watch_of(alloc, app) else {
        return Err(Stop::Memory);
    };
    let Ok(mut feed) = Feed::new(alloc) else {
        drop(watch);
        return Err(Stop::Memory);
    };
    let mut watching = Watching { watch, line: 1 };
    let end = watching.see_record(shelf, points, &mut feed);
    let printed = print_end(out, &watching.watch, end);
    drop(watching);
    printed
}

/// Prints of a record of points that each may follow the one before it by the least table of the application of the two texts, or the first that
/// may not. Lines behind that one aren't read.
pub fn watch<F: Shelf, O: Sink>(
    alloc: Global,
    shelf: &mut F,
    out: &mut O,
    oil: &str,
    code: &str,
    points: &str,
) -> Result<(), Stop>
    ensures answer { WatchAnswers (outside F.Shelf O.Sink shelf.old out.old) (outside F.Shelf O.Sink shelf.new out.new) oil.now code.now points.now result }
    ensures same { OnlyReads F.Shelf shelf.old shelf.new }
{
    let app = match compile(alloc, shelf, oil, code) {
        Ok(app) => app,
        Err(stop) => return Err(stop),
    };
    match judge_length(shelf, Input::Record, points) {
        Ok(()) => watch_beside(alloc, shelf, out, app, points),
        Err(stop) => {
            drop(app);
            Err(stop)
        }
    }
}
