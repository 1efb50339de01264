//! An image at work: each line of an event text as it is read, and the line that is printed of it.
ghost use Rattle.std.specs.Prelude.{◌≡◌, ◌≤◌, ◌+◌, ◌++◌, ◌∷◌, [], ℕ, List, length, true, false, if◌then◌else◌, Some, None, OnOk, OnErr, IfErr, Err};
ghost use Rattle.osek_standard.specs.{Apps.{IsDeclared}, Dispatch.{Stepped as AStep, stepped}};
ghost use Rattle.osek_io.specs.{Counts.{Rose}, Reads.{OnlyReads}, Stored.{WritesProperPrefix}, Sunk.{sunk, Writes}};
ghost use Rattle.image_model.specs.{ImageStep.{image_step}, ImageTrace.{trap_line}};
ghost use Rattle.command_runs.specs.Inputs.{OfFile};
ghost use Rattle.command_runs.specs.Playing.{played, plays, plays_fed, played_line, printing, line_of, point_line, given, MayFollow, HasNoEnd, PlaysOn, HeldAnswers, HeldReadAnswers, ReadAnswers, AnswersEvent, AnswersLine};
ghost use Rattle.trace_text.specs.{EventWords.{read_line}, EventText.{numbered_lines}, Feeds.{no_bytes}, LineParts.{ArePartsOf, ShowsBut, ShowsBut-prop, tasks_text}};
ghost use Rattle.command_runs.specs.declared.{showing.Showing.TheVariants.{Trace}, stop.Stop.TheVariants.{Trapped, Unprinted}};

use crate::inputs::read_on;
use crate::record_line::RecordLine;
use crate::running::Run;
use crate::showing::Showing;
use crate::stop::{Input, Stop};
use crate::tell::put_three;
use crate::trace_line::TraceLine;
use image_run::Machine;
use itoa::Buffer;
use osek_io::{PutBuffer, PutError, Shelf, Sink};
use osek_values::limits::{MAX_EVENT_LINE, MAX_EVENT_TEXT};
use osek_values::{Event, HookSet, Notes, Steps};
use std::sync::ledger::Ledger;
use trace_text::{FaultyLine, Feed, FeedStep, LineParts, Unshown, read_event};

/// Which event and which line of its text come next, each by its number.
#[derive(Clone, Copy)]
pub struct Place {
    pub event: u64,
    pub line: u32,
}

/// A machine at work, and what its lines are printed by.
#[derive(Drop)]
pub struct Play<L: Ledger> {
    pub machine: Machine,
    pub parts: LineParts,
    /// Which tasks of the state the parts may show otherwise than they are.
    pub unshown: Unshown,
    /// What is held back of what is printed.
    pub buffer: PutBuffer,
    pub place: Place,
    /// How often the machine compared priorities.
    pub scans: Steps<L>,
    ghost of_app: { ArePartsOf machine.image.app parts },
    ghost shown: { ShowsBut machine.image.app machine.state unshown parts.kept } by { ShowsBut-prop machine.image.app machine.state unshown parts.kept },
    // events are no more than lines
    ghost few: { place.event ≤ place.line },
}

impl<L: Ledger> Play<L> {
    /// Makes the parts show the tasks of the state that they may show otherwise. It is a call of its own, since most events
    /// leave none.
    #[inline(never)]
    fn show_again(&mut self)
        ensures machine { self.new.machine ≡ self.old.machine }
        ensures place { self.new.place ≡ self.old.place }
        ensures buffer { self.new.buffer ≡ self.old.buffer }
        ensures shown { self.new.parts.tasks ≡ tasks_text self.old.machine.image.app self.old.machine.state }
    {
        self.parts
            .show_again(self.machine.app(), self.machine.state(), self.unshown);
        self.unshown = Unshown::Nothing;
    }

    /// Makes the parts show the tasks of the state.
    #[inline(always)]
    fn show_tasks(&mut self)
        ensures machine { self.new.machine ≡ self.old.machine }
        ensures place { self.new.place ≡ self.old.place }
        ensures buffer { self.new.buffer ≡ self.old.buffer }
        ensures shown { self.new.parts.tasks ≡ tasks_text self.old.machine.image.app self.old.machine.state }
    {
        match self.unshown {
            Unshown::Nothing => {}
            Unshown::Few(_, _) | Unshown::All => self.show_again(),
        }
    }

    /// Prints the line of the trace that has the number of the next event, or holds it back, where the parts show the tasks.
    #[inline(always)]
    fn print_shown<O: Sink>(&mut self, out: &mut O, notes: &Notes) -> Result<(), Stop>
        requires shown { self.old.parts.tasks ≡ tasks_text self.old.machine.image.app self.old.machine.state }
        ensures machine { self.new.machine ≡ self.old.machine }
        ensures place { self.new.place ≡ self.old.place }
        ensures line { HeldAnswers (given (sunk O.Sink out.old) self.old.buffer) (given (sunk O.Sink out.new) self.new.buffer) (played (line_of Trace self.old.machine.image self.old.place.event (stepped self.old.machine.state notes.now)) (Ok tt)) result }
    {
        self.parts.count(self.place.event);
        let line = TraceLine {
            parts: &self.parts,
            machine: &self.machine,
            number: self.place.event,
            notes,
        };
        match self.buffer.put_piece(out, &line) {
            Ok(()) => Ok(()),
            Err(PutError::Write) => Err(Stop::Unprinted),
        }
    }

    /// Prints the line of the trace that has the number of the next event, or holds it back.
    #[inline(always)]
    fn print_step<O: Sink>(&mut self, out: &mut O, notes: &Notes) -> Result<(), Stop>
        ensures machine { self.new.machine ≡ self.old.machine }
        ensures place { self.new.place ≡ self.old.place }
        ensures line { HeldAnswers (given (sunk O.Sink out.old) self.old.buffer) (given (sunk O.Sink out.new) self.new.buffer) (played (line_of Trace self.old.machine.image self.old.place.event (stepped self.old.machine.state notes.now)) (Ok tt)) result }
    {
        self.show_tasks();
        self.print_shown(out, notes)
    }

    /// Prints the point of the state, or holds it back.
    #[inline(always)]
    fn print_point<O: Sink>(&mut self, out: &mut O) -> Result<(), Stop>
        ensures machine { self.new.machine ≡ self.old.machine }
        ensures place { self.new.place ≡ self.old.place }
        ensures line { HeldAnswers (given (sunk O.Sink out.old) self.old.buffer) (given (sunk O.Sink out.new) self.new.buffer) (played (point_line self.old.machine.image self.old.machine.state) (Ok tt)) result }
    {
        let line = RecordLine {
            machine: &self.machine,
        };
        match self.buffer.put_piece(out, &line) {
            Ok(()) => Ok(()),
            Err(PutError::Write) => Err(Stop::Unprinted),
        }
    }

    /// Prints what is shown after a step, as that of the next event, or holds it back.
    #[inline(always)]
    fn print_line<O: Sink>(
        &mut self,
        out: &mut O,
        showing: Showing,
        notes: &Notes,
    ) -> Result<(), Stop>
        ensures machine { self.new.machine ≡ self.old.machine }
        ensures place { self.new.place ≡ self.old.place }
        ensures line { HeldAnswers (given (sunk O.Sink out.old) self.old.buffer) (given (sunk O.Sink out.new) self.new.buffer) (played (line_of showing self.old.machine.image self.old.place.event (stepped self.old.machine.state notes.now)) (Ok tt)) result }
    {
        match showing {
            Showing::Trace => self.print_step(out, notes),
            Showing::Points => self.print_point(out),
        }
    }

    /// Prints what is held back.
    fn print_held<O: Sink>(&mut self, out: &mut O) -> Result<(), Stop>
        ensures machine { self.new.machine ≡ self.old.machine }
        ensures place { self.new.place ≡ self.old.place }
        ensures ok { OnOk result (Writes (sunk O.Sink out.old) (sunk O.Sink out.new) self.old.buffer) }
        ensures prefix { OnErr result (WritesProperPrefix (O.written out.old) (O.written out.new) self.old.buffer) }
        ensures nothing_held { self.new.buffer ≡ [] }
        ensures cause { OnErr result (Rose (O.faults out.old) (O.faults out.new)) }
        ensures error { OnErr result (result ≡ Err Unprinted) }
    {
        match self.buffer.flush(out) {
            Ok(()) => Ok(()),
            Err(PutError::Write) => Err(Stop::Unprinted),
        }
    }

    /// Prints the line of a trap at the next event, behind what is held back.
    fn print_trap<O: Sink>(&mut self, out: &mut O) -> Result<(), Stop>
        ensures machine { self.new.machine ≡ self.old.machine }
        ensures line { HeldAnswers (given (sunk O.Sink out.old) self.old.buffer) (given (sunk O.Sink out.new) self.new.buffer) (played (trap_line self.old.place.event) (Err Trapped)) result }
    {
        self.print_held(out)?;
        let mut digits = Buffer::new();
        match put_three(
            out,
            b"trap ",
            digits.format(self.place.event).as_bytes(),
            b"\n",
        ) {
            Ok(()) => Err(Stop::Trapped),
            Err(PutError::Write) => Err(Stop::Unprinted),
        }
    }

    /// Notes which tasks the parts may show otherwise than they are after this event. It is a call of its own, so that where
    /// the processor stands is looked up once.
    #[inline(never)]
    fn foresee(&mut self, event: Event)
        requires declared { IsDeclared self.old.machine.image.app event }
        ensures machine { self.new.machine ≡ self.old.machine }
        ensures place { self.new.place ≡ self.old.place }
        ensures buffer { self.new.buffer ≡ self.old.buffer }
        ensures step { (r : AStep) → image_step self.old.machine.image self.old.machine.state event ≡ Some r → ShowsBut self.old.machine.image.app r.state self.new.unshown self.new.parts.kept }
    {
        match self.unshown {
            Unshown::Nothing => {
                if !self.machine.is_quiet(event) {
                    self.unshown = Unshown::Few(
                        self.machine.state().current(),
                        self.machine.named(),
                    );
                }
            }
            Unshown::Few(_, _) => self.unshown = Unshown::All,
            Unshown::All => {}
        }
    }

    /// A step of the machine, and whether it is no trap.
    #[inline(always)]
    fn step(&mut self, event: Event, notes: &mut Notes) -> bool
        requires declared { IsDeclared self.old.machine.image.app event }
        requires running { self.old.machine.trapped ≡ false }
        ensures image { self.new.machine.image ≡ self.old.machine.image }
        ensures running { result ≡ true → self.new.machine.trapped ≡ false }
        ensures place { self.new.place ≡ self.old.place }
        ensures buffer { self.new.buffer ≡ self.old.buffer }
        ensures step { image_step self.old.machine.image self.old.machine.state event ≡ (if result then Some (stepped self.new.machine.state notes.new) else None) }
    {
        self.foresee(event);
        self.machine.step_into(event, &mut self.scans, notes)
    }

    /// Plays one event: a step of the machine, and its line.
    #[inline(always)]
    fn play_event<O: Sink>(
        &mut self,
        out: &mut O,
        showing: Showing,
        event: Event,
    ) -> Result<(), Stop>
        requires declared { IsDeclared self.old.machine.image.app event }
        requires running { self.old.machine.trapped ≡ false }
        ensures image { self.new.machine.image ≡ self.old.machine.image }
        ensures running { OnOk result (self.new.machine.trapped ≡ false) }
        ensures place { OnOk result (self.new.place ≡ self.old.place) }
        ensures event { AnswersEvent (given (sunk O.Sink out.old) self.old.buffer) (given (sunk O.Sink out.new) self.new.buffer) showing self.old.machine.image self.old.place.event self.new.machine.state (image_step self.old.machine.image self.old.machine.state event) result }
    {
        let mut notes = Notes {
            status: None,
            value: None,
            hooks: HookSet::none(),
        };
        if self.step(event, &mut notes) {
            self.print_line(out, showing, &notes)
        } else {
            self.print_trap(out)
        }
    }

    /// Plays the next line of the event text: none or one event.
    #[inline(always)]
    fn play_line<O: Sink>(&mut self, out: &mut O, showing: Showing, line: &[u8]) -> Result<(), Stop>
        requires running { self.old.machine.trapped ≡ false }
        requires fits { self.old.place.line ≤ MAX_EVENT_TEXT }
        ensures image { self.new.machine.image ≡ self.old.machine.image }
        ensures running { OnOk result (self.new.machine.trapped ≡ false) }
        ensures next { OnOk result (self.new.place.line ≡ self.old.place.line + 1) }
        ensures line { AnswersLine (given (sunk O.Sink out.old) self.old.buffer) (given (sunk O.Sink out.new) self.new.buffer) (λ more. played_line showing self.old.machine.image self.old.place.event self.old.machine.state self.old.place.line more (read_line self.old.machine.image.app line.now)) self.new.place.event self.new.machine.state result }
    {
        match read_event(self.machine.app(), line) {
            Ok(None) => {
                self.place.line += 1;
                Ok(())
            }
            Ok(Some(event)) => {
                self.play_event(out, showing, event)?;
                self.place.event += 1;
                self.place.line += 1;
                Ok(())
            }
            Err(rule) => Err(Stop::Events(FaultyLine {
                line: self.place.line,
                rule,
            })),
        }
    }

    /// Plays the lines that come out of a feed.
    fn play_ahead<O: Sink>(
        &mut self,
        out: &mut O,
        showing: Showing,
        feed: &mut Feed,
    ) -> Result<(), Stop>
        requires running { self.old.machine.trapped ≡ false }
        requires fits { self.old.place.line + length feed.old.ahead ≤ MAX_EVENT_TEXT + 1 }
        ensures image { self.new.machine.image ≡ self.old.machine.image }
        ensures running { OnOk result (self.new.machine.trapped ≡ false) }

        ensures fits { OnOk result (self.new.place.line + length feed.new.ahead ≤ self.old.place.line + length feed.old.ahead) }
        ensures finished { feed.new.finished ≡ feed.old.finished }
        ensures waits { OnOk result (length feed.new.ahead ≤ MAX_EVENT_LINE) }
        ensures ended { OnOk result (feed.new.finished ≡ true → feed.new.ahead ≡ []) }
        ensures no_more { OnOk result (HasNoEnd feed.new.ahead) }

        ensures plays { OnOk result (PlaysOn (given (sunk O.Sink out.old) self.old.buffer) (given (sunk O.Sink out.new) self.new.buffer) showing self.old.machine.image feed.old feed.new self.old.place.line self.old.place.event self.old.machine.state self.new.place.line self.new.place.event self.new.machine.state) }
        ensures stops { IfErr result (λ e. (rest : List ℕ) → MayFollow feed.old rest → HeldAnswers (given (sunk O.Sink out.old) self.old.buffer) (given (sunk O.Sink out.new) self.new.buffer) (plays_fed showing self.old.machine.image feed.old rest self.old.place.line self.old.place.event self.old.machine.state) (Err e)) }
    {
        'lines: while let FeedStep::Line = feed.next() {
            self.play_line(out, showing, feed.line())?;
        }
        Ok(())
    }

    /// Plays the lines of an event text as it is read.
    fn play_text<F: Shelf, O: Sink>(
        &mut self,
        out: &mut O,
        shelf: &mut F,
        run: &Run<'_>,
        feed: &mut Feed,
    ) -> Result<(), Stop>
        requires running { self.old.machine.trapped ≡ false }
        requires first { self.old.place ≡ record { event = 1; line = 1 } }
        requires empty { feed.old ≡ no_bytes }
        requires text { OfFile (F.contents shelf.old) run.now.events.now (λ t. length t ≤ MAX_EVENT_TEXT) }
        ensures answer { HeldReadAnswers (F.contents shelf.old) run.now.events.now (F.read_faults shelf.old run.now.events.now) (F.read_faults shelf.new run.now.events.now) (given (sunk O.Sink out.old) self.old.buffer) (given (sunk O.Sink out.new) self.new.buffer) (λ t. plays run.now.showing self.old.machine.image (numbered_lines t) 1 self.old.machine.state) result }
        ensures same { OnlyReads F.Shelf shelf.old shelf.new }
    {
        let mut taken = 0;
        'pieces: loop {
            // No line is held back while the text is waited for.
            self.print_held(out)?;
            let count = read_on(shelf, Input::Events, run.events, taken, feed)?;
            self.play_ahead(out, run.showing, feed)?;
            if count == 0 {
                return Ok(());
            }
            taken += count;
        }
    }

    /// Plays a machine that has just started, from line 0 on: the start's line, and what the event text brings as it is
    /// read.
    fn play<F: Shelf, O: Sink>(
        &mut self,
        notes: &Notes,
        out: &mut O,
        shelf: &mut F,
        run: &Run<'_>,
        feed: &mut Feed,
    ) -> Result<(), Stop>
        requires running { self.old.machine.trapped ≡ false }
        requires start { self.old.place ≡ record { event = 0; line = 0 } }
        requires empty { feed.old ≡ no_bytes }
        requires text { OfFile (F.contents shelf.old) run.now.events.now (λ t. length t ≤ MAX_EVENT_TEXT) }
        ensures answer { HeldReadAnswers (F.contents shelf.old) run.now.events.now (F.read_faults shelf.old run.now.events.now) (F.read_faults shelf.new run.now.events.now) (given (sunk O.Sink out.old) self.old.buffer) (given (sunk O.Sink out.new) self.new.buffer) (λ t. printing (line_of run.now.showing self.old.machine.image 0 (stepped self.old.machine.state notes.now)) (plays run.now.showing self.old.machine.image (numbered_lines t) 1 self.old.machine.state)) result }
        ensures same { OnlyReads F.Shelf shelf.old shelf.new }
    {
        self.print_line(out, run.showing, notes)?;
        self.place = Place { event: 1, line: 1 };
        self.play_text(out, shelf, run, feed)
    }

    /// Prints what is shown of a machine that has just started, all of it.
    pub fn print_trace<F: Shelf, O: Sink>(
        &mut self,
        notes: &Notes,
        out: &mut O,
        shelf: &mut F,
        run: &Run<'_>,
        feed: &mut Feed,
    ) -> Result<(), Stop>
        requires running { self.old.machine.trapped ≡ false }
        requires start { self.old.place ≡ record { event = 0; line = 0 } }
        requires nothing_held { self.old.buffer ≡ [] }
        requires empty { feed.old ≡ no_bytes }
        requires text { OfFile (F.contents shelf.old) run.now.events.now (λ t. length t ≤ MAX_EVENT_TEXT) }
        ensures answer { ReadAnswers (F.contents shelf.old) run.now.events.now (F.read_faults shelf.old run.now.events.now) (F.read_faults shelf.new run.now.events.now) (sunk O.Sink out.old) (sunk O.Sink out.new) (λ t. printing (line_of run.now.showing self.old.machine.image 0 (stepped self.old.machine.state notes.now)) (plays run.now.showing self.old.machine.image (numbered_lines t) 1 self.old.machine.state)) result }
        ensures same { OnlyReads F.Shelf shelf.old shelf.new }
    {
        let played = self.play(notes, out, shelf, run, feed);
        self.print_held(out)?;
        played
    }
}
