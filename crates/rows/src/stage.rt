//! Rows that are carried out over files in memory.
use crate::change::changed;
use crate::command_line::command_line;
use crate::files::Files;
use crate::row::{Act, Change, Fault, Row, Side, Wanted, What};
use crate::seen::{Seen, count_of_lines};
use crate::wrong::Wrong;
use commands::osekfit;
use osek_io::{MemShelf, MemSink, Shelf};
use std::alloc::Global;

/// Room for what a run prints.
const OUT_ROOM: usize = 1_048_576;

/// Room for what a run tells.
const ERR_ROOM: usize = 4_096;

/// The calls of a side that fail in a turn.
fn fails_in(alloc: Global, faults: &[Fault], side: Side, turn: u64) -> Result<Vec<u64>, Wrong> {
    let mut calls = Vec::new(alloc);
    for fault in faults {
        if fault.side == side {
            calls.push(fault.first.saturating_add(turn).min(fault.last))?;
        }
    }
    Ok(calls)
}

/// The last turn: they begin at 0, and there is one for each call that a fault names.
fn last_turn(faults: &[Fault]) -> u64 {
    let mut turn = 0u64;
    for fault in faults {
        turn = turn.max(fault.last.saturating_sub(fault.first));
    }
    turn
}

/// A sink with the calls that fail in a turn.
fn sink(alloc: Global, wanted: &Wanted, side: Side, turn: u64) -> Result<MemSink, Wrong> {
    let room = if side == Side::Out {
        OUT_ROOM
    } else {
        ERR_ROOM
    };
    let fails = fails_in(alloc, wanted.faults.as_slice(), side, turn)?;
    let mut sink = MemSink::new(alloc, fails, room)?;
    if wanted.by_bytes {
        sink.limit(1);
    }
    Ok(sink)
}

/// A row's files, and those that lie beside the rows.
#[derive(Drop)]
pub struct Stage<'a, 'd, F> {
    alloc: Global,
    data: &'d mut F,
    files: Files<'a>,
}

impl<'a, 'd, F: Shelf> Stage<'a, 'd, F> {
    /// A stage without files.
    pub fn new(alloc: Global, data: &'d mut F) -> Stage<'a, 'd, F> {
        Stage {
            alloc,
            data,
            files: Files::new(alloc),
        }
    }

    /// A shelf with the files that the words name, and the calls that fail in a turn.
    fn shelf(&self, words: &[&str], wanted: &Wanted, turn: u64) -> Result<MemShelf, Wrong> {
        let fails = fails_in(self.alloc, wanted.faults.as_slice(), Side::Shelf, turn)?;
        let mut shelf = MemShelf::new(self.alloc, fails);
        self.files.place_on(&mut shelf, words)?;
        if wanted.by_bytes {
            shelf.limit(1);
        }
        Ok(shelf)
    }

    /// What is printed stands under the names that are wanted.
    fn keep(&mut self, out: &[u8], wanted: &Wanted<'a>) -> Result<(), Wrong> {
        for fact in &wanted.facts {
            if let What::Keep(name) = fact.what {
                self.files.put(name, Vec::from_slice(self.alloc, out)?)?;
            }
        }
        Ok(())
    }

    /// One turn of a run. The last one's files stand for what comes behind.
    fn run_turn(
        &mut self,
        words: &[&'a str],
        wanted: &Wanted<'a>,
        turn: u64,
        is_last: bool,
    ) -> Result<(), Wrong> {
        let alloc = self.alloc;
        let line = command_line(alloc, words)?;
        let mut shelf = self.shelf(words, wanted, turn)?;
        let mut out = sink(alloc, wanted, Side::Out, turn)?;
        let mut err = sink(alloc, wanted, Side::Err, turn)?;
        let status = osekfit(alloc, &line, &mut shelf, &mut out, &mut err);
        let seen = Seen {
            status,
            out: out.bytes(),
            err: err.bytes(),
            shelf: &shelf,
            files: &self.files,
        };
        seen.meets(alloc, self.data, wanted)?;
        if is_last {
            self.files.take_from(alloc, &shelf, words)?;
            self.keep(out.bytes(), wanted)?;
        }
        Ok(())
    }

    /// A run, in as many turns as the calls that fail ask for. Each turn begins with the same files.
    fn run(&mut self, words: &[&'a str], wanted: &Wanted<'a>) -> Result<(), Wrong> {
        let last = last_turn(wanted.faults.as_slice());
        for turn in 0..=last {
            self.run_turn(words, wanted, turn, turn == last)?;
        }
        Ok(())
    }

    fn change(&mut self, change: &Change<'a>) -> Result<(), Wrong> {
        let bytes = self.files.bytes(change.from);
        let bytes = changed(self.alloc, self.data, bytes, change)?;
        self.files.put(change.to, bytes)
    }

    /// How many lines a file has.
    fn lines_in(&self, name: &str) -> u64 {
        match self.files.bytes(name) {
            Some(bytes) => count_of_lines(bytes) as u64,
            None => 0,
        }
    }

    fn are_same(&self, name: &str, other: &str) -> bool {
        self.files.bytes(name) == self.files.bytes(other)
    }

    /// `certify` stores the image that `build` stored, and a table of which `check` says yes.
    fn certify(&mut self, line: u64) -> Result<(), Wrong> {
        let alloc = self.alloc;
        let silent = Wanted::new(alloc, line);
        self.run(&["certify", "a.oil", "a.c", "b.img", "a.tab"], &silent)?;
        let yes = Wanted::printing(alloc, line, "yes")?;
        self.run(&["check", "b.img", "a.tab"], &yes)?;
        if self.are_same("a.img", "b.img") {
            Ok(())
        } else {
            Err(Wrong::Line(line))
        }
    }

    /// What `record` prints has a point for each line of the trace, and `watch` says that it is quiet.
    fn watch(&mut self, mode: &'a str, line: u64) -> Result<(), Wrong> {
        let alloc = self.alloc;
        let count = self.lines_in("a.trace");
        let points = Wanted::keeping(alloc, line, "a.record", count)?;
        self.run(&["record", "a.img", mode, "e"], &points)?;
        let verdict = Wanted::keeping(alloc, line, "a.verdict", 1)?;
        self.run(&["watch", "a.oil", "a.c", "a.record"], &verdict)?;
        let quiet = format!(in alloc; "quiet {count}\n")?;
        if self.files.bytes("a.verdict") == Some(quiet.as_bytes()) {
            Ok(())
        } else {
            Err(Wrong::Line(line))
        }
    }

    /// The image that is built, and the texts themselves, give what is wanted; the image is certified, and its record is quiet.
    fn play(&mut self, mode: &'a str, wanted: &Wanted<'a>) -> Result<(), Wrong> {
        let silent = Wanted::new(self.alloc, wanted.line);
        self.run(&["build", "a.oil", "a.c", "a.img"], &silent)?;
        self.run(&["trace", "a.oil", "a.c", mode, "e"], wanted)?;
        self.run(&["replay", "a.img", mode, "e"], wanted)?;
        self.certify(wanted.line)?;
        self.watch(mode, wanted.line)
    }

    fn act(&mut self, act: &Act<'a>) -> Result<(), Wrong> {
        match act {
            Act::File(name, text) => {
                let bytes = text.bytes(self.alloc, self.data)?;
                self.files.put(name, bytes)
            }
            Act::Change(change) => self.change(change),
            Act::Run(words, wanted) => self.run(words.as_slice(), wanted),
            Act::Play(mode, wanted) => self.play(mode, wanted),
        }
    }
}

/// Whether each act of a row does what it says, over a stage of its own. `data` has the files that lie beside the rows.
pub fn row_holds<F: Shelf>(alloc: Global, data: &mut F, row: &Row) -> Result<(), Wrong> {
    let mut stage = Stage::new(alloc, data);
    for act in &row.acts {
        stage.act(act)?;
    }
    Ok(())
}
