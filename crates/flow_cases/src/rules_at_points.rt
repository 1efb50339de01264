//! The rules of a point over an entry of one state.
ghost use Rattle.std.specs.Prelude.{◌≡◌, ◌<◌, IfOk};
ghost use Rattle.osek_standard.specs.Well.{Well};
ghost use Rattle.abstract_state.specs.{Domains.{domains as domains_of_entry}, Regular.{IsRegular}};
ghost use Rattle.point_exits.specs.Rows.{IsProperRow};

use abstract_state::{Domain, PlainEntry, TableRow};
use flow_model::{Decision, Rule};
use flow_rules::{apply, rules};
use front_end::{TextError, read_app, read_system};
use generic_kernel::{Ready, start, step};
use numbered_sets::{Pool, numbered};
use osek_standard::{App, State};
use osek_values::{Event, Memory, ModeNo, Steps, TaskNo};
use point_exits::row_of;
use std::alloc::Global;
use std::marker::Brand;
use std::sync::ledger::{Blank, Ledger};
use std::test::*;

/// Two tasks of which the lower one takes a resource of both, activates the higher one and gives the resource back.
const OIL: &[u8] = b"CPU c { OS os; RESOURCE Res; \
TASK T1 { PRIORITY = 1; AUTOSTART = TRUE; RESOURCE = Res; }; TASK T2 { PRIORITY = 2; RESOURCE = Res; }; };";

const CODE: &[u8] = b"\
TASK(T1) { GetResource(Res); ActivateTask(T2); ReleaseResource(Res); TerminateTask(); }\n\
TASK(T2) { TerminateTask(); }\n";

/// Two runs.
fn run_twice<L: Ledger>(app: &App, state: &mut State, blank: Blank)
    requires name { blank.name ≡ L.name }
    requires parts { blank.parts ≡ L.parts }
    requires some { 0 < L.parts }
    requires well { Well app.now state.old }
    requires regular { IsRegular app.now state.old }
    ensures well { Well app.now state.new }
    ensures regular { IsRegular app.now state.new }
{
    let mut scans = Steps::<L>::of(blank);
    let mut ready = Ready::of(app, state);
    step(app, state, &mut ready, Event::Run(false), &mut scans);
    step(app, state, &mut ready, Event::Run(false), &mut scans);
}

/// The row of the state after two runs.
fn row_after_two_runs(alloc: Global, app: &App) -> Result<TableRow, Memory>
    ensures { IfOk result (IsProperRow app.now) }
{
    let (mut state, _notes) = start(alloc, app, ModeNo(0))?;
    run_twice::<Brand>(app, &mut state, Blank::new(1));
    let row = row_of(alloc, app, &state);
    drop(state);
    row
}

/// What the rules of a row come to: that some has a result, and that each that has one gives the processor to the second
/// task.
#[derive(Clone, Copy, PartialEq, Eq)]
struct Summary {
    some: bool,
    all_dispatch: bool,
}

impl Summary {
    /// A rule that has a result.
    fn take(&mut self, rule: &Rule) {
        self.some = true;
        if rule.decision != Some(Decision::To(Some(TaskNo(1)))) {
            self.all_dispatch = false;
        }
    }
}

fn outcomes(alloc: Global, app: &App, row: &TableRow) -> Result<Summary, Memory>
    requires { IsProperRow app.now row.now }
{
    let mut outcomes = Summary {
        some: false,
        all_dispatch: true,
    };
    let domains = domains(alloc, &row.entry)?;
    let mut pool = Pool::new(alloc, domains.as_slice())?;
    let entry = numbered(alloc, &mut pool, &row.entry)?;
    let found = rules(alloc, app, row.point, &pool, &entry)?;
    for rule in found.as_slice() {
        let new = apply(alloc, rule, &mut pool, &entry)?;
        if new.is_some() {
            outcomes.take(rule);
        }
    }
    Ok(outcomes)
}

fn domains(alloc: Global, entry: &PlainEntry) -> Result<Vec<Domain>, Memory>
    ensures { IfOk result (λ all. all.items ≡ domains_of_entry entry.now) }
{
    let mut all = Vec::new(alloc);
    for set in entry.sets.as_slice() {
        all.push(set.domain)?;
    }
    Ok(all)
}

/// What the rules come to where the lower task is about to give the resource back and the higher one waits for it.
fn outcomes_by_texts(alloc: Global) -> Result<Summary, TextError> {
    let system = read_system(alloc, OIL)?;
    match read_app(alloc, system, CODE) {
        Ok(app) => {
            let row = row_after_two_runs(alloc, &app)?;
            let outcomes = outcomes(alloc, &app, &row);
            drop(row);
            drop(app);
            Ok(outcomes?)
        }
        Err(error) => Err(error),
    }
}

#[test]
fn where_a_ceiling_falls_every_rule_dispatches_the_higher_task(rt: HostRuntime) {
    let wanted = Summary {
        some: true,
        all_dispatch: true,
    };
    assert!(rt; outcomes_by_texts(rt.alloc()) == Ok(wanted));
}
