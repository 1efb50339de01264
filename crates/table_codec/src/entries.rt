//! Reading entries.
ghost use Rattle.std.specs.{Prelude.{◌≡◌, ◌++◌, ◌<◌, ◌≤◌, length, IfOk, IfErr, OnOk}, Bool.{OnTrue, OnFalse}};
ghost use Rattle.osek_values.specs.Answers.{Refuses};
ghost use Rattle.abstract_state.specs.Components.{components as components_of, component_count, IsComponent};
ghost use Rattle.abstract_state.specs.declared.table.{ValueSet.{ValueSet as AValueSet}, PlainEntry.{PlainEntry as APlainEntry}};
ghost use Rattle.table_codec.specs.{Faults.{IsEntryFault, IsSetFault}, Sets.{IsReadSet, IsReadEntry}, Kept.{BarsNoValue, IsKept, AreKept, AreKeptBySome, set_or, filled}};

use crate::fault::ReadError;
use crate::reader::{Reader, Spelled};
use crate::sets::set;
use crate::shape::is_free;
use abstract_state::{Component, PlainEntry, ValueSet, domain_of};
use osek_standard::{App, Point};
use osek_values::Seq;
use std::alloc::Global;

// Whether a component may have at a point the set that it had in the row before, and these bytes spell it again. They are taken then.
fn skips_kept(
    reader: &mut Reader,
    app: &App,
    point: Point,
    component: Component,
    kept: &Spelled,
) -> bool
    requires { IsComponent app.now component }
    ensures some { OnTrue result (0 < length kept.now) }
    ensures free { OnTrue result (BarsNoValue app.now point component) }
    ensures skipped { OnTrue result (reader.old ≡ kept.now ++ reader.new) }
    ensures same { OnFalse result (reader.new ≡ reader.old) }
{
    !kept.is_empty() && is_free(app, point, component) && reader.skip(kept)
}

// The set of a component at a point; it is empty where it is spelled as in the row before.
fn next_set<'a>(
    alloc: Global,
    reader: &mut Reader<'a>,
    app: &App,
    point: Point,
    component: Component,
    kept: &mut Spelled<'a>,
) -> Result<ValueSet, ReadError>
    requires { IsComponent app.now component }
    ensures ok { IfOk result (λ set. (before : AValueSet) → IsKept app.now component before kept.old → IsReadSet app.now point component reader.old reader.new (set_or before set)) }
    ensures kept { IfOk result (λ set. (before : AValueSet) → IsKept app.now component before kept.old → IsKept app.now component (set_or before set) kept.new) }
    ensures err { IfErr result (λ e. Refuses e (IsSetFault app.now point component reader.old)) }
{
    if skips_kept(reader, app, point, component, kept) {
        return Ok(ValueSet {
            domain: domain_of(app, component),
            members: Seq::new(alloc),
        });
    }
    let start = reader.all();
    let read = set(alloc, reader, app, point, component)?;
    *kept = reader.since(&start);
    Ok(read)
}

/// The entry of a point. A set is empty where it is spelled as in the row before.
pub(crate) fn entry<'a>(
    alloc: Global,
    reader: &mut Reader<'a>,
    app: &App,
    point: Point,
    components: &Seq<Component>,
    kept: &mut Seq<Spelled<'a>>,
) -> Result<PlainEntry, ReadError>
    requires components { components.now ≡ components_of app.now }
    requires many { length kept.old ≡ component_count app.now }
    requires kept { AreKeptBySome app.now kept.old }
    ensures many { OnOk result (length kept.new ≡ length kept.old) }
    ensures ok { IfOk result (λ entry. (before : APlainEntry) → AreKept app.now before kept.old → IsReadEntry app.now point reader.old reader.new (filled before entry)) }
    ensures kept { IfOk result (λ entry. (before : APlainEntry) → AreKept app.now before kept.old → AreKept app.now (filled before entry) kept.new) }
    ensures err { IfErr result (λ e. Refuses e (IsEntryFault app.now point reader.old)) }
{
    let room = Vec::with_capacity(alloc, components.len())?;
    let mut sets = Seq::of(room);
    for component in 0..components.len() {
        let spelled = kept.at_mut(component);
        let next = next_set(
            alloc,
            reader,
            app,
            point,
            *components.at(component),
            spelled,
        )?;
        sets.push(next)?;
    }
    Ok(PlainEntry { sets })
}
