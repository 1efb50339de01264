//! The worked rows of osekfit: texts that say what each command prints and stores, carried out over files in memory.
//!
//! The program is given the names of the files of rows. It prints the rows that don't hold, and how many do.
#![tactic(auto)]

mod change;
mod command_line;
mod entry;
mod files;
mod memory;
mod row;
mod row_text;
mod seen;
mod stage;
mod text;
mod wanted_text;
mod wrong;

use command_words::words_given;
use entry::entries;
use memory::want_of_memory_is_told;
use osek_io::{FileShelf, Shelf, load};
use row::Row;
use row_text::rows;
use stage::row_holds;
use std::alloc::Global;
use std::process::ExitCode;
use wrong::Wrong;

/// The most bytes of a file of rows.
const MAX_ROWS: u64 = 4_194_304;

/// How many rows hold, and how many rows, or whole files, don't.
#[derive(Clone, Copy)]
struct Tally {
    held: u64,
    wrong: u64,
}

/// Tells where something is wrong. What can't be printed is missed by who reads it.
fn tell<P: Print>(rt: &P, file: &str, what: &str, wrong: Wrong) {
    let _ = match wrong {
        Wrong::Line(line) => println!(rt; "{file}:{line}: {what}"),
        Wrong::Memory => println!(rt; "{file}: memory: {what}"),
    };
}

/// The same tally with a row more.
fn counted(tally: Tally, holds: bool) -> Tally {
    if holds {
        Tally {
            held: tally.held.saturating_add(1),
            ..tally
        }
    } else {
        Tally {
            wrong: tally.wrong.saturating_add(1),
            ..tally
        }
    }
}

/// Carries out the rows of a file.
fn judge_rows<P: Print, F: Shelf>(
    rt: &P,
    alloc: Global,
    data: &mut F,
    file: &str,
    rows: &[Row],
) -> Tally {
    let mut tally = Tally { held: 0, wrong: 0 };
    for row in rows {
        let answer = row_holds(alloc, data, row);
        if let Err(wrong) = answer {
            tell(rt, file, row.name, wrong);
        }
        tally = counted(tally, answer.is_ok());
    }
    tally
}

/// The same of the rows of a text.
fn judge_text<P: Print, F: Shelf>(
    rt: &P,
    alloc: Global,
    data: &mut F,
    file: &str,
    bytes: &[u8],
) -> Result<Tally, Wrong> {
    let Ok(text) = str::from_utf8(bytes) else {
        return Err(Wrong::Line(0));
    };
    let rows = rows(alloc, entries(alloc, text)?)?;
    Ok(judge_rows(rt, alloc, data, file, rows.as_slice()))
}

/// The same of a file. Where it isn't read or understood, none of its rows is carried out.
fn judge_file<P: Print, F: Shelf>(rt: &P, alloc: Global, data: &mut F, file: &str) -> Tally {
    let answer = match load(alloc, data, file, MAX_ROWS) {
        Ok(bytes) => judge_text(rt, alloc, data, file, bytes.as_slice()),
        Err(_) => Err(Wrong::Line(0)),
    };
    match answer {
        Ok(tally) => tally,
        Err(wrong) => {
            tell(rt, file, "not understood", wrong);
            Tally { held: 0, wrong: 1 }
        }
    }
}

/// The same of all files.
fn judge<P: Print, F: Shelf>(rt: &P, alloc: Global, data: &mut F, files: &[String]) -> Tally {
    let mut all = Tally { held: 0, wrong: 0 };
    for file in files {
        let tally = judge_file(rt, alloc, data, file);
        all = Tally {
            held: all.held.saturating_add(tally.held),
            wrong: all.wrong.saturating_add(tally.wrong),
        };
    }
    all
}

fn main(rt: HostRuntime) -> ExitCode {
    want_of_memory_is_told();
    let Ok(words) = words_given(rt.alloc(), &rt) else {
        return ExitCode::from(1);
    };
    let mut data = FileShelf::new(&rt);
    let files = words.get(1..).unwrap_or(&[]);
    let tally = judge(&rt, rt.alloc(), &mut data, files);
    let said = println!(rt; "{} rows hold", tally.held);
    if said.is_ok() && tally.wrong == 0 {
        ExitCode::SUCCESS
    } else {
        ExitCode::from(1)
    }
}
