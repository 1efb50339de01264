//! The outcomes and the statuses at the sites, over the rows of a table.
ghost use Rattle.std.specs.{Prelude.{◌≡◌, ◌++◌, ◌∷◌, [], ◌<◌, List, length, slice_index_or, None, IfOk, IfSome, IfNone}, Bool.{OnFalse}};
ghost use Rattle.osek_standard.specs.{Apps.{is_site}, Points.{StandsAt}};
ghost use Rattle.osek_values.specs.declared.numbers.BlockNo.{BlockNo};
ghost use Rattle.abstract_state.specs.Written.{IsWritten};
ghost use Rattle.table_rows.specs.{declared.bare.BareExit.{BareExit}, BareExits.{AreKnownExits}};
ghost use Rattle.flow_check.specs.Outcomes.{AreOfExits, AreFound, IsFoundBeside, first_found};

use crate::found::Findings;
use abstract_state::Point;
use image_model::is_site;
use numbered_sets::Table;
use osek_standard::App;
use osek_values::{BlockNo, Memory, Seq};
use std::alloc::Global;
use table_rows::{BareExit, PointExits, RowFold, fold_rows};

/// What is found at each block that is a site, over the rows of a table. The exits that are known of points needn't be found
/// again.
pub fn findings(
    alloc: Global,
    app: &App,
    table: &Table,
    known: &[PointExits],
) -> Result<Seq<Option<Findings>>, Memory>
    requires written { IsWritten app.now table.now }
    requires known { AreKnownExits app.now table.now.rows known.now }
    ensures { IfOk result (AreFound app.now table.now.rows) }
{
    let sites = no_findings(alloc, app)?;
    let mut made = FoundInRows { sites };
    fold_rows(alloc, app, table, known, &mut made)?;
    Ok(made.sites)
}

// what is found at each block over some rows
#[derive(Drop)]
struct FoundInRows {
    sites: Seq<Option<Findings>>,
}

impl RowFold for FoundInRows {
    ghost use Rattle.flow_check.specs.Outcomes.{AreFound};

    ghost is_of = { λ app rows made. AreFound app rows made.sites };

    fn asks_for(&self, _app: &App, point: Point) -> bool {
        is_at_site(point, &self.sites)
    }

    fn add(
        &mut self,
        _alloc: Global,
        _app: &App,
        point: Point,
        exits: &[BareExit],
    ) -> Result<(), Memory> {
        add_exits(point, exits, &mut self.sites);
        Ok(())
    }
}

/// Nothing is found yet at any site.
pub(crate) fn no_findings(alloc: Global, app: &App) -> Result<Seq<Option<Findings>>, Memory>
    ensures { IfOk result (AreFound app.now []) }
{
    let mut sites = Seq::new(alloc);
    for block in 0..app.blocks.len() {
        sites.push(no_finding(app, BlockNo(block as u16)))?;
    }
    Ok(sites)
}

fn no_finding(app: &App, block: BlockNo) -> Option<Findings>
    requires { block.0 < length app.now.blocks }
    ensures { result ≡ first_found app.now block.0 }
{
    if is_site(app.tasks.as_slice(), block.0, app.block(block).kind) {
        Some(Findings::none())
    } else {
        None
    }
}

fn is_at_site(point: Point, sites: &Seq<Option<Findings>>) -> bool
    requires { (b : BlockNo) → StandsAt point b → b.0 < length sites.now }
    ensures { OnFalse result ((b : BlockNo) → StandsAt point b → slice_index_or sites.now b.0 None ≡ None) }
{
    match block_of(point) {
        None => false,
        Some(block) => sites.at(block.index()).is_some(),
    }
}

/// Adds what the exits of a row show, where its point stands at a site.
pub(crate) fn add_exits(point: Point, exits: &[BareExit], sites: &mut Seq<Option<Findings>>)
    requires { (b : BlockNo) → StandsAt point b → b.0 < length sites.old }
    ensures { IsFoundBeside point exits.now sites.old sites.new }
{
    match block_of(point) {
        None => {}
        Some(block) => match *sites.at(block.index()) {
            None => {}
            Some(before) => {
                let more = found_in(exits);
                sites.put(block.index(), Some(before.join(more)));
            }
        },
    }
}

fn block_of(point: Point) -> Option<BlockNo>
    ensures some { IfSome result (StandsAt point) }
    ensures none { IfNone result ((b : BlockNo) → StandsAt point b → ⊥) }
{
    match point {
        Point::Halted | Point::Idle => None,
        Point::Task(block) => Some(block),
        Point::Routine { block, .. } => Some(block),
    }
}

// what exits tell
fn found_in(exits: &[BareExit]) -> Findings
    ensures { AreOfExits exits.now result }
{
    let mut found = Findings::none();
    for exit in exits {
        found = with_exit(found, exit);
    }
    found
}

// What was found, and what an exit tells. The begin of a routine tells nothing.
fn with_exit(found: Findings, exit: &BareExit) -> Findings
    ensures { (done : List BareExit) → AreOfExits done found → AreOfExits (done ++ exit.now ∷ []) result }
{
    match exit.decision {
        None => found,
        Some(decision) => {
            if found.tells(decision, exit.status) {
                return found;
            }
            found.join(Findings::one(decision, exit.status))
        }
    }
}
