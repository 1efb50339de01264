//! The least table of a worked application, point by point: what each component can be there.
ghost use Rattle.std.specs.Prelude.{◌≡◌, ◌<◌};

use abstract_state::{LiveVal, PartValue, PlainEntry, Point, SourceVal, Val, ValueSet};
use front_end::{TextError, read_app, read_system};
use numbered_sets::{Table, plain};
use osek_standard::App;
use osek_values::{Memory, Steps};
use state_flow::solve;
use std::alloc::Global;
use std::marker::Brand;
use std::sync::ledger::{Blank, Ledger};
use std::test::*;

// ---- a table as text

// l0: Live at block 0; l0*2: with two further activations; l0+G: inside its INTERNAL resource; l0+R1: and it holds resource 1; w4: it waits at block
// 4; i5+R1: a routine is in at block 5, and holds resource 1; -: suspended, idle, not set or out; +: armed or set
fn push_value(alloc: Global, value: &PartValue, text: &mut String) -> Result<(), Memory> {
    match value {
        PartValue::OfTask(Val::Suspended) => text.push_str("-")?,
        PartValue::OfTask(Val::Live(live)) => push_live(alloc, live, text)?,
        PartValue::OfTask(Val::Waiting(block)) => {
            text.push_str(format!(in alloc; "w{}", block.0)?.as_str())?
        }
        PartValue::OfEvent(is_set) => text.push_str(if *is_set { "+" } else { "-" })?,
        PartValue::OfAlarm(is_armed) => text.push_str(if *is_armed { "+" } else { "-" })?,
        PartValue::OfSource(SourceVal::Out) => text.push_str("-")?,
        PartValue::OfSource(SourceVal::In(routine)) => {
            text.push_str(format!(in alloc; "i{}", routine.block.0)?.as_str())?;
            for resource in routine.held.as_slice() {
                text.push_str(format!(in alloc; "+R{}", resource.0)?.as_str())?;
            }
        }
    }
    Ok(())
}

fn push_live(alloc: Global, live: &LiveVal, text: &mut String) -> Result<(), Memory> {
    text.push_str(format!(in alloc; "l{}", live.block.0)?.as_str())?;
    if live.further > 0 {
        text.push_str(format!(in alloc; "*{}", live.further)?.as_str())?;
    }
    if live.inside {
        text.push_str("+G")?;
    }
    for resource in live.held.as_slice() {
        text.push_str(format!(in alloc; "+R{}", resource.0)?.as_str())?;
    }
    Ok(())
}

fn push_set(alloc: Global, set: &ValueSet, text: &mut String) -> Result<(), Memory> {
    for value in set.members.as_slice() {
        text.push_str(" ")?;
        push_value(alloc, value, text)?;
    }
    text.push_str(";")?;
    Ok(())
}

fn push_point(alloc: Global, point: Point, text: &mut String) -> Result<(), Memory> {
    match point {
        Point::Halted => text.push_str("halted:")?,
        Point::Idle => text.push_str("idle:")?,
        Point::Task(block) => text.push_str(format!(in alloc; "b{}:", block.0)?.as_str())?,
        Point::Routine { block, over: None } => {
            text.push_str(format!(in alloc; "b{} over none:", block.0)?.as_str())?
        }
        Point::Routine {
            block,
            over: Some(task),
        } => text.push_str(format!(in alloc; "b{} over t{}:", block.0, task.0)?.as_str())?,
    }
    Ok(())
}

// a line for each row: the point, and the values of each component
fn push_row(
    alloc: Global,
    point: Point,
    entry: &PlainEntry,
    text: &mut String,
) -> Result<(), Memory> {
    push_point(alloc, point, text)?;
    for set in entry.sets.as_slice() {
        push_set(alloc, set, text)?;
    }
    text.push_str("\n")?;
    Ok(())
}

fn text_of(alloc: Global, table: &Table) -> Result<String, Memory> {
    let mut text = String::new(alloc);
    let numbered = table.numbered_rows(alloc)?;
    for row in numbered.rows.as_slice() {
        let entry = plain(alloc, &numbered.pool, &row.entry)?;
        push_row(alloc, row.point, &entry, &mut text)?;
    }
    Ok(text)
}

fn text_by<L: Ledger>(alloc: Global, app: &App, blank: Blank) -> Result<String, Memory>
    requires name { blank.name ≡ L.name }
    requires parts { blank.parts ≡ L.parts }
    requires some { 0 < L.parts }
{
    let mut steps = Steps::<L>::of(blank);
    let table = solve(alloc, app, &mut steps)?;
    let text = text_of(alloc, &table);
    drop(table);
    text
}

fn least_table(alloc: Global, oil: &[u8], code: &[u8]) -> Result<String, TextError> {
    let system = read_system(alloc, oil)?;
    match read_app(alloc, system, code) {
        Ok(app) => {
            let text = text_by::<Brand>(alloc, &app, Blank::new(1));
            drop(app);
            Ok(text?)
        }
        Err(error) => Err(error),
    }
}

fn is_least_table(alloc: Global, oil: &[u8], code: &[u8], wanted: &str) -> bool {
    match least_table(alloc, oil, code) {
        Ok(text) => text.as_str() == wanted,
        Err(_) => false,
    }
}

// ---- worked applications, whose tables follow from the kernel's rules state by state

#[test]
fn activation_preempts(rt: HostRuntime) {
    let oil =
        b"CPU c { OS os; TASK T1 { PRIORITY = 1; AUTOSTART = TRUE; }; TASK T2 { PRIORITY = 2; }; };";
    let code = b"TASK(T1) { ActivateTask(T2); TerminateTask(); } TASK(T2) { TerminateTask(); }";
    let wanted = "\
        idle: -; -;\n\
        b0: l0; -;\n\
        b1: l1; -;\n\
        b3: l1; l3;\n\
    ";
    assert!(rt; is_least_table(rt.alloc(), oil, code, wanted));
}
