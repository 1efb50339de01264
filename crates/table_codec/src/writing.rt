//! The bytes of a table.
ghost use Rattle.std.specs.{Prelude.{◌≡◌, ◌++◌, ◌∷◌, ◌^◌, ◌<◌, ◌≤◌, length, sum_by, All, IfOk, IfErr, OnOk}, List.{flat_map}};
ghost use Rattle.abstract_state.specs.{declared.value.{Val.TheVariants.{Live}, SourceVal.TheVariants.{In}, PartValue.TheVariants.{OfTask, OfSource}}, ValueOrder.{flag_field}, Written.{IsWritten}};
ghost use Rattle.table_codec.specs.{Ascending.{values_in}, Ranks.{values_ranked}};
ghost use Rattle.numbered_sets.specs.{SetLists.{set_of}, declared.table.NumberedRow.{NumberedRow as ARow}};
ghost use Rattle.osek_values.specs.declared.limits.TheConstants.{MAX_TABLE};
ghost use Rattle.table_codec.specs.declared.fault.WriteFault.TheVariants.{TooLong};
ghost use Rattle.table_codec.specs.Spelling.{spelling, resource_numbers, value_bytes, set_bytes, listed, flag_number as flag_number_of, sets_bytes};
ghost use Rattle.table_codec.specs.Writing.{PutsBytes, stack_size, CanBeWritten, IsWritable, AreWritable, AreOrdered, all_in, merged_bytes};

use crate::ascending::{NumberedValue, ascending};
use crate::fault::WriteFault;
use crate::points::points;
use crate::ranks::RankedValues;
use crate::reading::magic;
use abstract_state::{Component, LiveVal, PartValue, RoutineVal, SourceVal, Val, components};
use numbered_sets::{NumberedRow, NumberedSet, NumberedSets, Pool, Table};
use osek_standard::{App, Point};
use osek_values::limits::MAX_TABLE;
use osek_values::{Memory, ResNo, Seq};
use std::alloc::{AllocError, Global};

// what stands at a point without an entry, and before an entry
const ABSENT: u8 = 0;

const PRESENT: u8 = 1;

fn put_value(out: &mut Vec<u8>, value: &PartValue) -> Result<(), AllocError>
    requires { stack_size value.now < 2 ^ 8 }
    ensures { OnOk result (out.new.items ≡ out.old.items ++ value_bytes value.now) }
{
    match value {
        PartValue::OfTask(Val::Suspended) => {
            out.push(0)?;
            Ok(())
        }
        PartValue::OfTask(Val::Live(live)) => put_live(out, live),
        PartValue::OfTask(Val::Waiting(block)) => {
            out.push(2)?;
            out.extend_from_slice(&block.0.to_be_bytes())
        }
        PartValue::OfEvent(_) | PartValue::OfAlarm(_) => Ok(()),
        PartValue::OfSource(SourceVal::Out) => {
            out.push(0)?;
            Ok(())
        }
        PartValue::OfSource(SourceVal::In(routine)) => put_routine(out, routine),
    }
}

fn put_live(out: &mut Vec<u8>, live: &LiveVal) -> Result<(), AllocError>
    requires { length live.now.held < 2 ^ 8 }
    ensures { OnOk result (out.new.items ≡ out.old.items ++ value_bytes (OfTask (Live live.now))) }
{
    out.push(1)?;
    out.extend_from_slice(&live.block.0.to_be_bytes())?;
    out.push(live.further)?;
    out.push(flag_byte(live.inside))?;
    let held = live.held.as_slice();
    out.push(held.len() as u8)?;
    put_stack(out, held)
}

fn put_routine(out: &mut Vec<u8>, routine: &RoutineVal) -> Result<(), AllocError>
    requires { length routine.now.held < 2 ^ 8 }
    ensures { OnOk result (out.new.items ≡ out.old.items ++ value_bytes (OfSource (In routine.now))) }
{
    out.push(1)?;
    out.extend_from_slice(&routine.block.0.to_be_bytes())?;
    let held = routine.held.as_slice();
    out.push(held.len() as u8)?;
    put_stack(out, held)
}

fn flag_byte(inside: bool) -> u8
    ensures { result ≡ flag_field inside }
{
    if inside { 1 } else { 0 }
}

fn put_stack(out: &mut Vec<u8>, held: &[ResNo]) -> Result<(), AllocError>
    ensures { OnOk result (out.new.items ≡ out.old.items ++ resource_numbers held.now) }
{
    for resource in held {
        out.push(resource.0)?;
    }
    Ok(())
}

// the values of a task, behind their number
fn put_listed(
    alloc: Global,
    out: &mut Vec<u8>,
    values: &RankedValues,
    sets: &NumberedSets,
    component: usize,
) -> Result<(), WriteFault>
    requires known { component < length sets.now }
    requires values { All CanBeWritten (values_in (set_of sets.now component) values.now) }
    ensures { PutsBytes result out.old.items out.new.items (listed (values_in (set_of sets.now component) values.now)) }
{
    let found = values.ranks_in(alloc, sets, component)?;
    if found.count > MAX_TABLE {
        return Err(WriteFault::TooLong);
    }
    out.extend_from_slice(&(found.count as u32).to_be_bytes())?;
    put_values(out, values.as_slice(), &found.ranks)?;
    limited(out)
}

// whether the bytes are within the limit
fn limited(out: &Vec<u8>) -> Result<(), WriteFault>
    ensures within { OnOk result (length out.now.items ≤ MAX_TABLE) }
    ensures too_long { IfErr result (λ e. (e ≡ TooLong) × (MAX_TABLE < length out.now.items)) }
{
    if out.len() > MAX_TABLE {
        return Err(WriteFault::TooLong);
    }
    Ok(())
}

// the values with these ranks
fn put_values(
    out: &mut Vec<u8>,
    values: &[NumberedValue],
    ranks: &NumberedSet,
) -> Result<(), AllocError>
    requires { All CanBeWritten (values_ranked ranks.now values.now) }
    ensures { OnOk result (out.new.items ≡ out.old.items ++ flat_map value_bytes (values_ranked ranks.now values.now)) }
{
    let count = values.len();
    let mut rank = ranks.next(0, count);
    while rank < count {
        put_value(out, &values[rank].value)?;
        rank = ranks.next(rank + 1, count);
    }
    Ok(())
}

fn flag_number(value: &PartValue) -> u8
    ensures { result ≡ flag_number_of value.now }
{
    match value {
        PartValue::OfTask(_) | PartValue::OfSource(_) => 1,
        PartValue::OfEvent(set) | PartValue::OfAlarm(set) => if *set { 2 } else { 1 },
    }
}

// the number of a set of flags
fn flags(values: &[NumberedValue], sets: &NumberedSets, component: usize) -> u8
    requires { sum_by flag_number_of (values_in (set_of sets.now component) values.now) ≤ 3 }
    ensures { result ≡ sum_by flag_number_of (values_in (set_of sets.now component) values.now) }
{
    let mut flags = 0;
    for found in values {
        if sets.has(component, found.number) {
            flags += flag_number(&found.value);
        }
    }
    flags
}

fn put_set(
    alloc: Global,
    out: &mut Vec<u8>,
    values: &RankedValues,
    sets: &NumberedSets,
    place: usize,
    component: Component,
) -> Result<(), WriteFault>
    requires known { place < length sets.now }
    requires values { IsWritable component (values_in (set_of sets.now place) values.now) }
    ensures { PutsBytes result out.old.items out.new.items (set_bytes component (values_in (set_of sets.now place) values.now)) }
{
    match component {
        Component::Task(_) | Component::Source(_) => { put_listed(alloc, out, values, sets, place) }
        Component::Event { task: _, bit: _ } | Component::Alarm(_) => {
            out.push(flags(values.as_slice(), sets, place))?;
            Ok(())
        }
    }
}

fn put_entry(
    alloc: Global,
    out: &mut Vec<u8>,
    components: &Seq<Component>,
    values: &Seq<RankedValues>,
    sets: &NumberedSets,
) -> Result<(), WriteFault>
    requires size { length components.now ≤ length values.now }
    requires as_many { length components.now ≤ length sets.now }
    requires sets { AreWritable components.now (all_in sets.now values.now) }
    ensures { PutsBytes result out.old.items out.new.items (sets_bytes components.now (all_in sets.now values.now)) }
{
    for place in 0..components.len() {
        let component = *components.at(place);
        put_set(alloc, out, values.at(place), sets, place, component)?;
    }
    Ok(())
}

// whether a point has an entry, and the entry
fn put_row(
    alloc: Global,
    out: &mut Vec<u8>,
    components: &Seq<Component>,
    values: &Seq<RankedValues>,
    row: &NumberedRow,
) -> Result<(), WriteFault>
    requires size { length components.now ≤ length values.now }
    requires as_many { length components.now ≤ length row.now.entry.sets }
    requires sets { AreWritable components.now (all_in row.now.entry.sets values.now) }
    ensures { PutsBytes result out.old.items out.new.items (1 ∷ sets_bytes components.now (all_in row.now.entry.sets values.now)) }
{
    out.push(PRESENT)?;
    put_entry(alloc, out, components, values, &row.entry.sets)
}

// the rows of all points, of which each is the next one's or has none
fn put_rows(
    alloc: Global,
    out: &mut Vec<u8>,
    points: &Seq<Point>,
    components: &Seq<Component>,
    values: &Seq<RankedValues>,
    rows: &Seq<NumberedRow>,
) -> Result<(), WriteFault>
    requires size { 0 < length rows.now → length components.now ≤ length values.now }
    requires as_many { All (λ (row : ARow). length components.now ≤ length row.entry.sets) rows.now }
    requires sets { All (λ (row : ARow). AreWritable components.now (all_in row.entry.sets values.now)) rows.now }
    ensures { PutsBytes result out.old.items out.new.items (merged_bytes components.now values.now points.now rows.now) }
{
    let mut next = 0;
    for place in 0..points.len() {
        if next < rows.len() && rows.at(next).point.number() == points.at(place).number() {
            put_row(alloc, out, components, values, rows.at(next))?;
            next += 1;
        } else {
            out.push(ABSENT)?;
        }
    }
    Ok(())
}

// the values of each component, if there is a row
fn all_ascending(
    alloc: Global,
    pool: &Pool,
    components: usize,
    rows: usize,
) -> Result<Seq<RankedValues>, Memory>
    requires { 0 < rows → components ≤ length pool.now }
    ensures { IfOk result (λ values. 0 < rows → AreOrdered pool.now components values) }
{
    let mut values = Seq::new(alloc);
    if rows == 0 {
        return Ok(values);
    }
    for component in 0..components {
        values.push(ascending(alloc, pool, component)?)?;
    }
    Ok(values)
}

/// The bytes of a table, if they are within the limit.
pub fn write_table(alloc: Global, app: &App, table: &Table) -> Result<Vec<u8>, WriteFault>
    requires { IsWritten app.now table.now }
    ensures bytes { IfOk result (λ v. v.items ≡ spelling app.now table.now) }
    ensures within { IfOk result (λ v. length v.items ≤ MAX_TABLE) }
    ensures too_long { result ≡ Err TooLong → MAX_TABLE < length (spelling app.now table.now) }
{
    let numbered = table.numbered_rows(alloc)?;
    let components = components(alloc, app)?;
    let points = points(alloc, app)?;
    let values = all_ascending(alloc, &numbered.pool, components.len(), numbered.rows.len())?;
    let mut out = Vec::new(alloc);
    out.extend_from_slice(magic())?;
    put_rows(
        alloc,
        &mut out,
        &points,
        &components,
        &values,
        numbered.rows,
    )?;
    limited(&out)?;
    Ok(out)
}
