//! What is said of the images that are tailored to worked applications, and of their general images, with the least tables,
//! and the bytes of these tables.
ghost use Rattle.std.specs.Prelude.{◌≡◌, ◌<◌, IfOk};
ghost use Rattle.abstract_state.specs.Written.{IsWritten};

use crate::table_bytes::{least_bytes, refusal};
use call_tailor::tailor;
use flow_check::{Verdict, check};
use front_end::{TextError, read_app, read_system};
use image_model::{Image, general};
use numbered_sets::Table;
use osek_standard::App;
use osek_values::{Memory, Steps};
use state_flow::solve;
use std::alloc::Global;
use std::marker::Brand;
use std::sync::ledger::{Blank, Ledger};
use std::test::*;

/// Two texts of an application.
struct Case {
    oil: &'static [u8],
    code: &'static [u8],
}

/// A preemption, and a routine over another.
const CASES: [Case; 2] = [
    Case {
        oil: b"CPU c { OS os; TASK T1 { PRIORITY = 1; AUTOSTART = TRUE; }; TASK T2 { PRIORITY = 2; }; };",
        code: b"TASK(T1) { ActivateTask(T2); TerminateTask(); } TASK(T2) { TerminateTask(); }",
    },
    Case {
        oil: b"CPU c { OS os; RESOURCE R; TASK T1 { PRIORITY = 1; AUTOSTART = TRUE; RESOURCE = R; }; TASK T2 { PRIORITY = 2; }; ISR I1 { CATEGORY = 2; PRIORITY = 1; RESOURCE = R; }; ISR I2 { CATEGORY = 2; PRIORITY = 2; }; };",
        code: b"TASK(T1) { GetResource(R); ReleaseResource(R); TerminateTask(); } TASK(T2) { TerminateTask(); } ISR(I1) { GetResource(R); ReleaseResource(R); } ISR(I2) { ActivateTask(T2); }",
    },
];

/// The two images of an application.
#[derive(Clone, Copy, PartialEq, Eq)]
enum Kind {
    Tailored,
    General,
}

fn read(alloc: Global, case: &Case) -> Result<App, TextError> {
    let system = read_system(alloc, case.oil)?;
    read_app(alloc, system, case.code)
}

/// The image of an application by its table, or the general one.
fn image_of(alloc: Global, app: App, table: &Table, kind: Kind) -> Result<Image, Memory>
    requires written { IsWritten app table.now }
    ensures { IfOk result (λ image. image.app ≡ app) }
{
    match kind {
        Kind::Tailored => tailor(alloc, app, table),
        Kind::General => general(alloc, app),
    }
}

/// What is said with the least table of an application.
fn said_by<L: Ledger>(alloc: Global, app: App, kind: Kind, blank: Blank) -> Result<Verdict, Memory>
    requires name { blank.name ≡ L.name }
    requires parts { blank.parts ≡ L.parts }
    requires some { 0 < L.parts }
{
    let mut steps = Steps::<L>::of(blank);
    let table = solve(alloc, &app, &mut steps)?;
    let image = image_of(alloc, app, &table, kind)?;
    let said = check(alloc, &image, &table)?;
    drop(image);
    drop(table);
    Ok(said)
}

fn said_of(alloc: Global, case: &Case, kind: Kind) -> Result<Verdict, TextError> {
    let app = read(alloc, case)?;
    Ok(said_by::<Brand>(alloc, app, kind, Blank::new(1))?)
}

/// The number of the first case of which something else is said than yes, and that.
fn first_denied(alloc: Global, kind: Kind) -> Option<(usize, Result<Verdict, TextError>)> {
    for (number, case) in CASES.iter().enumerate() {
        let said = said_of(alloc, case, kind);
        if said != Ok(Verdict::Yes) {
            return Some((number, said));
        }
    }
    None
}

/// Whether the least table of an application is read, and is written again as it was.
fn is_written_again(alloc: Global, case: &Case) -> Result<bool, TextError> {
    let app = read(alloc, case)?;
    Ok(match least_bytes::<Brand>(alloc, &app, Blank::new(1)) {
        Ok(bytes) => refusal(alloc, &app, &bytes).is_none(),
        Err(_) => false,
    })
}

/// The number of the first case of whose table this doesn't hold.
fn first_not_written_again(alloc: Global) -> Option<usize> {
    for (number, case) in CASES.iter().enumerate() {
        if is_written_again(alloc, case) != Ok(true) {
            return Some(number);
        }
    }
    None
}

#[test]
fn what_is_tailored_fits(rt: HostRuntime) {
    assert!(rt; first_denied(rt.alloc(), Kind::Tailored) == None);
}

#[test]
fn general_images_fit(rt: HostRuntime) {
    assert!(rt; first_denied(rt.alloc(), Kind::General) == None);
}

#[test]
fn least_tables_are_read_and_written_again(rt: HostRuntime) {
    assert!(rt; first_not_written_again(rt.alloc()) == None);
}
