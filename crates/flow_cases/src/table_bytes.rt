//! The bytes of a worked application's least table, and what bytes that differ from them are refused for.
ghost use Rattle.std.specs.Prelude.{◌≡◌, ◌<◌};

use front_end::{TextError, read_app, read_system};
use osek_standard::App;
use osek_values::{Memory, Steps};
use state_flow::solve;
use std::alloc::Global;
use std::marker::Brand;
use std::sync::ledger::{Blank, Ledger};
use std::test::*;
use table_codec::{TableError, TableRule, WriteFault, read_table, write_table};

const OIL: &[u8] =
    b"CPU c { OS os; TASK T1 { PRIORITY = 1; AUTOSTART = TRUE; }; TASK T2 { PRIORITY = 2; }; };";

const CODE: &[u8] =
    b"TASK(T1) { ActivateTask(T2); TerminateTask(); } TASK(T2) { TerminateTask(); }";

/// Written down from the format, point by point: halted, idle, and b0 to b4.
const TABLE: [u8; 75] = [
    79, 83, 69, 75, 84, 65, 66, 2, 0, 1, 0, 0, 0, 1, 0, 0, 0, 0, 1, 0, 1, 0, 0, 0, 1, 1, 0, 0, 0,
    0, 0, 0, 0, 0, 1, 0, 1, 0, 0, 0, 1, 1, 0, 1, 0, 0, 0, 0, 0, 0, 1, 0, 0, 1, 0, 0, 0, 1, 1, 0, 1,
    0, 0, 0, 0, 0, 0, 1, 1, 0, 3, 0, 0, 0, 0,
];

fn the_app(alloc: Global) -> Result<App, TextError> {
    let system = read_system(alloc, OIL)?;
    read_app(alloc, system, CODE)
}

/// The bytes of an application's least table.
pub fn least_bytes<L: Ledger>(alloc: Global, app: &App, blank: Blank) -> Result<Vec<u8>, WriteFault>
    requires name { blank.name ≡ L.name }
    requires parts { blank.parts ≡ L.parts }
    requires some { 0 < L.parts }
{
    let mut steps = Steps::<L>::of(blank);
    let table = solve(alloc, app, &mut steps)?;
    write_table(alloc, app, &table)
}

/// Why bytes are refused; nothing where they are read, and what is written again is the same.
pub fn refusal(alloc: Global, app: &App, bytes: &[u8]) -> Option<TableError> {
    match read_table(alloc, app, bytes) {
        Err(error) => Some(error),
        Ok(table) => match write_table(alloc, app, &table) {
            Ok(again) => {
                if again.as_slice() == bytes {
                    None
                } else {
                    Some(TableError::Memory)
                }
            }
            Err(_) => Some(TableError::Memory),
        },
    }
}

/// How many bytes that differ in one place have their first fault by each rule, and how many are tables.
#[derive(Clone, Copy, PartialEq, Eq)]
struct Counts {
    k1: u32,
    k2: u32,
    k3: u32,
    k4: u32,
    k5: u32,
    tables: u32,
}

fn counted(counts: Counts, refusal: Option<TableError>) -> Counts {
    match refusal {
        None => Counts {
            tables: counts.tables.saturating_add(1),
            ..counts
        },
        Some(TableError::Memory) => counts,
        Some(TableError::Fault(fault)) => match fault.rule {
            TableRule::K1 => Counts {
                k1: counts.k1.saturating_add(1),
                ..counts
            },
            TableRule::K2 => Counts {
                k2: counts.k2.saturating_add(1),
                ..counts
            },
            TableRule::K3 => Counts {
                k3: counts.k3.saturating_add(1),
                ..counts
            },
            TableRule::K4 => Counts {
                k4: counts.k4.saturating_add(1),
                ..counts
            },
            TableRule::K5 => Counts {
                k5: counts.k5.saturating_add(1),
                ..counts
            },
            TableRule::K6 => counts,
        },
    }
}

fn differing(alloc: Global, app: &App) -> Counts {
    let mut counts = Counts {
        k1: 0,
        k2: 0,
        k3: 0,
        k4: 0,
        k5: 0,
        tables: 0,
    };
    for place in 0..TABLE.len() {
        for bits in [1, 128, 255] {
            let mut bytes = TABLE;
            bytes[place] = bytes[place] ^ bits;
            counts = counted(counts, refusal(alloc, app, &bytes));
        }
    }
    counts
}

#[test]
fn the_least_table_has_these_bytes(rt: HostRuntime) {
    let app = the_app(rt.alloc()).expect(&rt, "memory");
    let bytes = least_bytes::<Brand>(rt.alloc(), &app, Blank::new(1)).expect(&rt, "memory");
    assert!(rt; bytes.as_slice() == TABLE.as_slice());
    assert!(rt; refusal(rt.alloc(), &app, &TABLE) == None);
}

#[test]
fn tables_that_differ_in_a_byte_have_these_faults(rt: HostRuntime) {
    let app = the_app(rt.alloc()).expect(&rt, "memory");
    let wanted = Counts {
        k1: 2,
        k2: 24,
        k3: 162,
        k4: 34,
        k5: 2,
        tables: 1,
    };
    assert!(rt; differing(rt.alloc(), &app) == wanted);
}
