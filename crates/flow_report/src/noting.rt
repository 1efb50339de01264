//! The hooks that run.
ghost use Rattle.std.specs.Prelude.{◌≡◌, ◌⊎◌, ◌<◌, length, IfOk};
ghost use Rattle.osek_values.specs.Hooks.{hook_set};
ghost use Rattle.osek_standard.specs.{Points.{IsPoint}, Effects.{is_error as is_error_of}, Outcomes.{Did}};
ghost use Rattle.abstract_state.specs.{Tables.{sets_of}, Written.{IsWritten}};
ghost use Rattle.flow_model.specs.Scheduling.{outcome_of_decision};
ghost use Rattle.table_rows.specs.BareExits.{AreKnownExits};
ghost use Rattle.flow_report.specs.Noting.{AreHooks, NotesAtStart, NotesInRows, NotesInTable, NotesByExit, due_hooks, exit_hooks};
ghost use Rattle.flow_report.specs.Noting.{shuts_down as shuts_down_at, over_some as over_some_at, dispatch_hooks_at};

use abstract_state::Point;
use flow_model::Decision;
use generic_kernel::start;
use numbered_sets::Table;
use osek_standard::{App, Call, Kind};
use osek_values::{HookSet, Memory, ModeNo, Status};
use std::alloc::Global;
use table_rows::{BareExit, PointExits, RowFold, fold_rows};

/// The hooks that the start in some mode notes, or some step from a state in a table.
pub fn hooks_noted(
    alloc: Global,
    app: &App,
    table: &Table,
    known: &[PointExits],
) -> Result<HookSet, Memory>
    requires written { IsWritten app.now table.now }
    requires known { AreKnownExits app.now table.now.rows known.now }
    ensures { IfOk result (AreHooks (λ h. NotesAtStart app.now h (length app.now.modes) ⊎ NotesInTable app.now h (sets_of table.now))) }
{
    let at_start = hooks_of_starts(alloc, app)?;
    let of_steps = hooks_of_rows(alloc, app, table, known)?;
    Ok(at_start.with(of_steps))
}

// the hooks of the starts
fn hooks_of_starts(alloc: Global, app: &App) -> Result<HookSet, Memory>
    ensures { IfOk result (AreHooks (λ h. NotesAtStart app.now h (length app.now.modes))) }
{
    let mut hooks = HookSet::none();
    for mode in 0..app.modes.len() {
        let (_state, notes) = start(alloc, app, ModeNo(mode as u8))?;
        hooks = hooks.with(notes.hooks);
    }
    Ok(hooks)
}

// the hooks of the steps from the states of a table
fn hooks_of_rows(
    alloc: Global,
    app: &App,
    table: &Table,
    known: &[PointExits],
) -> Result<HookSet, Memory>
    requires written { IsWritten app.now table.now }
    requires known { AreKnownExits app.now table.now.rows known.now }
    ensures { IfOk result (AreHooks (λ h. NotesInRows app.now h table.now.rows)) }
{
    let hooks = HookSet::none();
    let mut made = HooksOfRows { hooks };
    fold_rows(alloc, app, table, known, &mut made)?;
    Ok(made.hooks)
}

// the hooks of the steps from the states of some rows
#[derive(Drop)]
struct HooksOfRows {
    hooks: HookSet,
}

impl RowFold for HooksOfRows {
    ghost use Rattle.flow_report.specs.Noting.{AreHooks, NotesInRows};

    ghost is_of = { λ app rows made. AreHooks (λ h. NotesInRows app h rows) made.hooks };

    fn add(
        &mut self,
        _alloc: Global,
        app: &App,
        point: Point,
        exits: &[BareExit],
    ) -> Result<(), Memory> {
        let of_row = hooks_of_exits(app, point, exits);
        self.hooks = self.hooks.with(of_row);
        Ok(())
    }
}

// the hooks of the exits of a point
fn hooks_of_exits(app: &App, point: Point, exits: &[BareExit]) -> HookSet
    requires { IsPoint app.now point }
    ensures { AreHooks (NotesByExit app.now point exits.now) result }
{
    let mut hooks = HookSet::none();
    for exit in exits {
        hooks = hooks.with(hooks_of_exit(app, point, exit));
    }
    hooks
}

// the hooks of an exit of a point
fn hooks_of_exit(app: &App, point: Point, exit: &BareExit) -> HookSet
    requires { IsPoint app.now point }
    ensures { result ≡ exit_hooks app.now point exit.now }
{
    match exit.decision {
        None => HookSet::none(),
        Some(decision) => app
            .hooks
            .among(hooks_due(app, point, decision, exit.status)),
    }
}

// the hooks that are due at an instruction
fn hooks_due(app: &App, point: Point, decision: Decision, status: Option<Status>) -> HookSet
    requires { IsPoint app.now point }
    ensures { result ≡ hook_set (due_hooks app.now point (Did (outcome_of_decision decision) status)) }
{
    let error = HookSet::ERROR.when(is_error(status));
    let shutdown = HookSet::SHUTDOWN.when(shuts_down(app, point));
    error
        .with(shutdown)
        .with(hooks_of_dispatch(point, decision))
}

// whether a status is an error
fn is_error(status: Option<Status>) -> bool
    ensures { result ≡ is_error_of status }
{
    match status {
        None | Some(Status::Ok) => false,
        Some(_) => true,
    }
}

// whether the instruction at a point is ShutdownOS
fn shuts_down(app: &App, point: Point) -> bool
    requires { IsPoint app.now point }
    ensures { result ≡ shuts_down_at app.now point }
{
    match point {
        Point::Halted | Point::Idle => false,
        Point::Task(block) | Point::Routine { block, .. } => {
            matches!(app.block(block).kind, Kind::Call(Call::ShutdownOs))
        }
    }
}

// a task had the processor, or was interrupted
fn over_some(point: Point) -> bool
    ensures { result ≡ over_some_at point }
{
    match point {
        Point::Halted | Point::Idle | Point::Routine { over: None, .. } => false,
        Point::Task(_) | Point::Routine { over: Some(_), .. } => true,
    }
}

fn hooks_of_dispatch(point: Point, decision: Decision) -> HookSet
    ensures { result ≡ hook_set (dispatch_hooks_at point (outcome_of_decision decision)) }
{
    match decision {
        Decision::Keep => HookSet::none(),
        Decision::To(task) => {
            let post_task = HookSet::POST_TASK.when(over_some(point));
            post_task.with(HookSet::PRE_TASK.when(task.is_some()))
        }
    }
}
