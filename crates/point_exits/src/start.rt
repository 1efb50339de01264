//! The rows of the starts, and of a state.
ghost use Rattle.std.specs.Prelude.{◌≡◌, ◌<◌, length, IfOk};
ghost use Rattle.osek_standard.specs.{Points.{point_of, point_of as point_of_state}, Kernel.{start as start_of}, Well.{Well}};
ghost use Rattle.numbered_sets.specs.PlainTables.{row_at};
ghost use Rattle.point_exits.specs.{Starts.{entry_of, IsStartRow, HasPart, single as single_set, entry_of as entry_of_state}, Rows.{IsProperRow}};
ghost use Rattle.abstract_state.specs.Components.{source_value as value_of_source, part_of};
ghost use Rattle.abstract_state.specs.Regular.{IsRegular};

use abstract_state::{
    Component, Domain, LiveVal, PartValue, PlainEntry, RoutineVal, SourceVal, TableRow, Val,
    ValueSet, components, domain_of, masks_are_few,
};
use generic_kernel::{point_of, start};
use osek_standard::{Activity, AlarmState, App, Source, State};
use osek_values::{Memory, ModeNo, Seq};
use std::alloc::Global;

/// The row of the start in a mode.
pub fn start_row(alloc: Global, app: &App, mode: ModeNo) -> Result<TableRow, Memory>
    requires { mode.0 < length app.now.modes }
    ensures row { IfOk result (λ row. row ≡ row_at (point_of (start_of app.now mode).state) (entry_of app.now (start_of app.now mode).state)) }
    ensures start { IfOk result (IsStartRow app.now mode) }
{
    let (state, _notes) = start(alloc, app, mode)?;
    row_of(alloc, app, &state)
}

/// The row that has one state alone: the state's point, and an entry with the value of each of its components.
pub fn row_of(alloc: Global, app: &App, state: &State) -> Result<TableRow, Memory>
    requires well { Well app.now state.now }
    requires regular { IsRegular app.now state.now }
    ensures row { IfOk result (λ row. row ≡ row_at (point_of_state state.now) (entry_of_state app.now state.now)) }
    ensures proper { IfOk result (IsProperRow app.now) }
{
    masks_are_few(app);
    Ok(TableRow {
        point: point_of(app, state),
        entry: entry_of(alloc, app, state)?,
    })
}

/// The entry that has one state alone.
fn entry_of(alloc: Global, app: &App, state: &State) -> Result<PlainEntry, Memory>
    requires { Well app.now state.now }
    ensures { IfOk result (λ entry. entry ≡ entry_of_state app.now state.now) }
{
    let components = components(alloc, app)?;
    let mut sets = Vec::new(alloc);
    for component in components.as_slice() {
        let domain = domain_of(app, *component);
        sets.push(single(alloc, domain, part(state, *component))?)?;
    }
    Ok(PlainEntry {
        sets: Seq::of(sets),
    })
}

/// The set of one value.
fn single(alloc: Global, domain: Domain, value: PartValue) -> Result<ValueSet, Memory>
    ensures { IfOk result (λ set. set ≡ single_set domain value) }
{
    let mut members = Seq::new(alloc);
    members.push(value)?;
    Ok(ValueSet { domain, members })
}

/// What a part of a state is.
fn part(state: &State, component: Component) -> PartValue
    requires { HasPart state.now component }
    ensures { result ≡ part_of state.now component }
{
    match component {
        Component::Task(task) => match &state.task(task).activity {
            Activity::Suspended => PartValue::OfTask(Val::Suspended),
            Activity::Live(standing) => PartValue::OfTask(Val::Live(LiveVal {
                block: standing.at.block,
                further: standing.further,
                inside: standing.inside,
                held: standing.held.copy(),
            })),
            Activity::Waiting(block) => PartValue::OfTask(Val::Waiting(*block)),
        },
        Component::Event { task, bit } => { PartValue::OfEvent(state.task(task).events.has(bit.0)) }
        Component::Alarm(alarm) => PartValue::OfAlarm(matches!(
            state.alarm(alarm),
            AlarmState::Armed { .. }
        )),
        Component::Source(source) => PartValue::OfSource(source_value(
            state.sources.at(source.index()),
        )),
    }
}

fn source_value(source: &Source) -> SourceVal
    ensures { result ≡ value_of_source source.now }
{
    match source {
        Source::Out => SourceVal::Out,
        Source::In(standing) => SourceVal::In(RoutineVal {
            block: standing.at.block,
            held: standing.held.copy(),
        }),
    }
}
