//! The least table, by numbered entries: each point that is reached is evaluated until no entry grows.
ghost use Rattle.std.specs.Prelude.{◌≡◌, ◌+◌, ◌*◌, ◌<◌, ◌≤◌, ℕ, length, IfOk, OnOk};
ghost use Rattle.osek_standard.specs.Counts.{points, height};
ghost use Rattle.abstract_state.specs.{Domains.{HasMasks, domains as domains_of_entry, domains_of}, Tables.{Least, sets_of, value_count}, Written.{IsWritten}};
ghost use Rattle.numbered_sets.specs.Pools.{pool_domains, IsLonger};
ghost use Rattle.table_rows.specs.BareExits.{AreKnownExits};
ghost use Rattle.state_flow.specs.{Cells.{IsWaitingCell}, Progress.{Progress}, PlainCells.{plain_cells, AreCellsOf}, Numbering.{AreNumberedCells, HasProgress}};

use crate::cells::Cells;
use crate::evaluation::turn;
use crate::numbered_cells::{put_in, rows};
use abstract_state::{Domain, LiveVal, PartValue, PlainEntry, Val, masks_are_few};
use numbered_sets::{NumberedEntry, Pool, Table, numbered};
use osek_standard::App;
use osek_values::{BlockNo, Held, Memory, ModeNo, Seq, Steps};
use point_exits::{Numbering, start_row};
use std::alloc::Global;
use std::sync::ledger::Ledger;
use table_rows::PointExits;

/// The least table, and the exits of those of its points that were evaluated last with all their values, in the order of the
/// points.
#[derive(Drop)]
pub struct Explored {
    pub table: Table,
    pub exits: Seq<PointExits>,
}

/// The least table: the starts are in it, each step from a state in it leads to one in it, and every such table contains
/// it. A step is counted for each evaluation of a point.
pub fn solve<L: Ledger>(alloc: Global, app: &App, steps: &mut Steps<L>) -> Result<Table, Memory>
    ensures written { IfOk result (IsWritten app.now) }
    ensures least { IfOk result (λ table. Least app.now (sets_of table)) }
    ensures values { IfOk result (λ table. value_count table ≤ points app.now * height app.now) }
    // each row was evaluated at least once, and again at most as often as values came in
    ensures each_once { IfOk result (λ table. steps.old + length table.rows ≤ steps.new) }
    ensures few { IfOk result (λ table. steps.new ≤ steps.old + points app.now + value_count table) }
    ensures rise { steps.old ≤ steps.new }
{
    let explored = explore(alloc, app, steps)?;
    Ok(explored.table)
}

/// The least table with the exits that are known of its points, so that they needn't be evaluated again. A step is counted for
/// each evaluation of a point.
pub fn explore<L: Ledger>(
    alloc: Global,
    app: &App,
    steps: &mut Steps<L>,
) -> Result<Explored, Memory>
    ensures written { IfOk result (λ x. IsWritten app.now x.table) }
    ensures least { IfOk result (λ x. Least app.now (sets_of x.table)) }
    ensures values { IfOk result (λ x. value_count x.table ≤ points app.now * height app.now) }
    // each row was evaluated at least once, and again at most as often as values came in
    ensures each_once { IfOk result (λ x. steps.old + length x.table.rows ≤ steps.new) }
    ensures few { IfOk result (λ x. steps.new ≤ steps.old + points app.now + value_count x.table) }
    ensures rise { steps.old ≤ steps.new }
    ensures exits { IfOk result (λ x. AreKnownExits app.now x.table.rows x.exits) }
{
    masks_are_few(app);
    let mut pool = pool_of(alloc, app)?;
    let mut cells = started(alloc, app, &mut pool)?;
    let mut numbering = Numbering::new(alloc, app, pool)?;
    while let Some(place) = cells.next() {
        steps.tick();
        turn(alloc, &mut numbering, &mut cells, place)?;
    }
    let known = rows(alloc, cells)?;
    Ok(Explored {
        table: Table::of(numbering.pool, known.rows),
        exits: known.exits,
    })
}

/// A pool for the application's components. The values of a task that holds nothing have the first numbers: they stand in most
/// entries, and a set takes the memory of its highest number.
fn pool_of(alloc: Global, app: &App) -> Result<Pool, Memory>
    ensures { IfOk result (λ pool. pool_domains pool ≡ domains_of app.now) }
{
    let domains = component_domains(alloc, app)?;
    let mut pool = Pool::new(alloc, domains.as_slice())?;
    for component in 0..domains.len() {
        number_free(&mut pool, component)?;
    }
    Ok(pool)
}

// numbers the values with which a task stands at each of its blocks, outside, and has nothing else, where the component is a task
fn number_free(pool: &mut Pool, component: usize) -> Result<(), Memory>
    requires { component < length pool.old }
    ensures { OnOk result (IsLonger pool.old pool.new) }
{
    let Domain::Task {
        first,
        count,
        activation,
        ..
    } = pool.domain(component)
    else {
        return Ok(());
    };
    // a task that took no activation would never be Live
    if activation == 0 {
        return Ok(());
    }
    for block in first.0..first.0.saturating_add(count) {
        let live = Val::Live(LiveVal {
            block: BlockNo(block),
            further: 0,
            inside: false,
            held: Held::new(),
        });
        pool.number(component, PartValue::OfTask(live))?;
    }
    Ok(())
}

/// What the values of each of the application's components are values of.
fn component_domains(alloc: Global, app: &App) -> Result<Vec<Domain>, Memory>
    ensures { IfOk result (λ all. all.items ≡ domains_of app.now) }
{
    let row = start_row(alloc, app, ModeNo(0))?;
    let domains = domains(alloc, &row.entry)?;
    Ok(domains)
}

fn domains(alloc: Global, entry: &PlainEntry) -> Result<Vec<Domain>, Memory>
    ensures { IfOk result (λ all. all.items ≡ domains_of_entry entry.now) }
{
    let mut all = Vec::new(alloc);
    for set in entry.sets.as_slice() {
        all.push(set.domain)?;
    }
    Ok(all)
}

/// The points of the starts, which wait.
fn started(alloc: Global, app: &App, pool: &mut Pool) -> Result<Cells<NumberedEntry>, Memory>
    requires { pool_domains pool.old ≡ domains_of app.now }
    ensures pool { OnOk result (IsLonger pool.old pool.new) }
    ensures progress { IfOk result (λ cells. HasProgress app.now pool.new cells.list.items 0) }
{
    let mut cells = Cells::new(alloc);
    for mode in 0..app.modes.len() {
        let row = start_row(alloc, app, ModeNo(mode as u8))?;
        let entry = numbered(alloc, pool, &row.entry)?;
        put_in(alloc, app, pool, &mut cells, row.point, &entry)?;
    }
    Ok(cells)
}
