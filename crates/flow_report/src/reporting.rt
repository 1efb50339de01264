//! The findings of a table.
ghost use Rattle.std.specs.Prelude.{◌≡◌, ◌↔◌, ◌<◌, ◌&&◌, ◌==◌, not, Contains, IfOk, OnOk};
ghost use Rattle.table_rows.specs.BareExits.{AreKnownExits};
ghost use Rattle.abstract_state.specs.{Tables.{sets_of}, Written.{IsWritten}};
ghost use Rattle.osek_standard.specs.TraceText.{has_hook as has_hook_of};
ghost use Rattle.flow_report.specs.{Findings.{IsHook, Holds}, FindingOrder.{AreAscending, hook_place, rank_at}, Progress.{AreListed}};
ghost use Rattle.flow_report.specs.declared.finding.Finding.{Finding};

use crate::finding::Finding;
use crate::finding_list::push_if;
use crate::noting::hooks_noted;
use crate::reached::Reached;
use numbered_sets::Table;
use osek_standard::App;
use osek_values::{HookSet, Memory};
use std::alloc::Global;
use table_rows::PointExits;

/// What can't happen by a table of the application, in order.
pub fn report(alloc: Global, app: &App, table: &Table) -> Result<Vec<Finding>, Memory>
    requires { IsWritten app.now table.now }
    ensures exact { IfOk result (λ findings. (f : Finding) → Contains findings.items f ↔ Holds app.now (sets_of table.now) f) }
    ensures order { IfOk result (λ findings. AreAscending findings.items) }
{
    report_with(alloc, app, table, &[])
}

/// The same, where exits are known of points, so that these needn't be evaluated again.
pub fn report_with(
    alloc: Global,
    app: &App,
    table: &Table,
    known: &[PointExits],
) -> Result<Vec<Finding>, Memory>
    requires written { IsWritten app.now table.now }
    requires known { AreKnownExits app.now table.now.rows known.now }
    ensures exact { IfOk result (λ findings. (f : Finding) → Contains findings.items f ↔ Holds app.now (sets_of table.now) f) }
    ensures order { IfOk result (λ findings. AreAscending findings.items) }
{
    let mut findings = Vec::new(alloc);
    let numbered = table.numbered_rows(alloc)?;
    let reached = Reached {
        app,
        pool: &numbered.pool,
        rows: numbered.rows.as_slice(),
    };
    reached.push_suspended(&mut findings)?;
    reached.push_unarmed(&mut findings)?;
    reached.push_unset(&mut findings)?;
    push_silent(alloc, app, table, known, &mut findings)?;
    reached.push_free(&mut findings)?;
    reached.push_dead(&mut findings)?;
    Ok(findings)
}

// adds the hooks that never run
fn push_silent(
    alloc: Global,
    app: &App,
    table: &Table,
    known: &[PointExits],
    findings: &mut Vec<Finding>,
) -> Result<(), Memory>
    requires written { IsWritten app.now table.now }
    requires known { AreKnownExits app.now table.now.rows known.now }
    requires listed { AreListed app.now (sets_of table.now) (rank_at 3 0 0) findings.old.items }
    ensures { OnOk result (AreListed app.now (sets_of table.now) (rank_at 4 0 0) findings.new.items) }
{
    if has_none(app.hooks) {
        return Ok(());
    }
    let noted = hooks_noted(alloc, app, table, known)?;
    for place in 0..5 {
        let hook = hook_at(place);
        let holds = is_silent(app.hooks, noted, hook);
        push_if(holds, Finding::Silent(hook), findings)?;
    }
    Ok(())
}

fn has_none(hooks: HookSet) -> bool
    ensures { result ≡ (hooks.0 == 0) }
{
    hooks.0 == 0
}

// The hook at a place of their order.
fn hook_at(place: usize) -> HookSet
    requires { place < 5 }
    ensures hook { IsHook result.0 }
    ensures place { hook_place result.0 ≡ place }
{
    match place {
        0 => HookSet::ERROR,
        1 => HookSet::STARTUP,
        2 => HookSet::SHUTDOWN,
        3 => HookSet::POST_TASK,
        _ => HookSet::PRE_TASK,
    }
}

// whether a hook is wanted and isn't noted
fn is_silent(wanted: HookSet, noted: HookSet, hook: HookSet) -> bool
    ensures { result ≡ (has_hook_of wanted hook.0 && not (has_hook_of noted hook.0)) }
{
    has_hook(wanted, hook) && !has_hook(noted, hook)
}

fn has_hook(hooks: HookSet, hook: HookSet) -> bool
    ensures { result ≡ has_hook_of hooks hook.0 }
{
    hooks.among(hook) != HookSet::none()
}
