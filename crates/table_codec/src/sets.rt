//! Reading the set of a component.
ghost use Rattle.std.specs.Prelude.{◌≡◌, ◌↔◌, [], ◌∷◌, ◌++◌, ◌<◌, length, IsTrue, IfOk, IfErr};
ghost use Rattle.osek_values.specs.Answers.{Refuses};
ghost use Rattle.std.specs.Int.{to_be_bytes, w32};
ghost use Rattle.abstract_state.specs.declared.value.PartValue.TheVariants as part;
ghost use Rattle.abstract_state.specs.{ValueOrder.{IsAscending}, Components.{IsPart, IsComponent}};
ghost use Rattle.table_codec.specs.{Faults.{IsValueFault, IsNextFault, IsCountFault, IsListedFault, IsFlagsFault, IsSetFault}, Sets.{IsReadList, IsReadSet, IsNextValue, IsFlagNumber, flagged}};
ghost use Rattle.table_codec.specs.{Values.{IsReadValue}, ListedShapes.{IsListedShape, point_of, component_of}};

use crate::fault::{Fault, ReadError, TableRule};
use crate::listed_shape::ListedShape;
use crate::reader::{Reader, fault};
use crate::shape::Shape;
use crate::source_shape::SourceShape;
use crate::source_values::source_value;
use crate::values::value;
use abstract_state::{Component, Domain, PartValue, ValueSet, domain_of};
use osek_standard::{App, Point};
use osek_values::{Memory, Seq};
use std::alloc::Global;

/// The set of a component at a point.
pub(crate) fn set(
    alloc: Global,
    reader: &mut Reader,
    app: &App,
    point: Point,
    component: Component,
) -> Result<ValueSet, ReadError>
    requires { IsComponent app.now component }
    ensures ok { IfOk result (IsReadSet app.now point component reader.old reader.new) }
    ensures err { IfErr result (λ e. Refuses e (IsSetFault app.now point component reader.old)) }
{
    match component {
        Component::Task(task) => {
            let shape = ListedShape::Task(Shape::of(app, point, task));
            let members = listed(alloc, reader, app, &shape)?;
            Ok(ValueSet {
                domain: domain_of(app, component),
                members,
            })
        }
        Component::Event { task: _, bit: _ } => {
            let number = flags(reader)?;
            let members = events(alloc, number)?;
            Ok(ValueSet {
                domain: Domain::Event,
                members,
            })
        }
        Component::Alarm(_) => {
            let number = flags(reader)?;
            let members = alarms(alloc, number)?;
            Ok(ValueSet {
                domain: Domain::Alarm,
                members,
            })
        }
        Component::Source(source) => {
            let shape = ListedShape::Source(SourceShape::of(app, point, source));
            let members = listed(alloc, reader, app, &shape)?;
            Ok(ValueSet {
                domain: domain_of(app, component),
                members,
            })
        }
    }
}

// the values of a component, behind their number
fn listed(
    alloc: Global,
    reader: &mut Reader,
    app: &App,
    shape: &ListedShape,
) -> Result<Seq<PartValue>, ReadError>
    requires { IsListedShape app.now shape.now }
    ensures ok { IfOk result (IsReadList app.now (point_of shape.now) (component_of shape.now) reader.old reader.new) }
    ensures err { IfErr result (λ e. Refuses e (IsListedFault app.now (point_of shape.now) (component_of shape.now) reader.old)) }
{
    let count = count(reader)?;
    let mut values = Seq::new(alloc);
    for _ in 0..count {
        let next = next_value(reader, app, shape, &values)?;
        values.push(next)?;
    }
    Ok(values)
}

// how many values there are
fn count(reader: &mut Reader) -> Result<u32, Fault>
    ensures ok { IfOk result (λ n. (0 < n) × (reader.old ≡ to_be_bytes w32 n ++ reader.new)) }
    ensures err { IfErr result (IsCountFault reader.old) }
{
    let left = reader.left();
    let Some(count) = reader.number_32() else {
        return Err(fault(TableRule::K1, left));
    };
    if count == 0 {
        return Err(fault(TableRule::K3, left));
    }
    Ok(count)
}

// a value above those before it
fn next_value(
    reader: &mut Reader,
    app: &App,
    shape: &ListedShape,
    before: &Seq<PartValue>,
) -> Result<PartValue, Fault>
    requires shape { IsListedShape app.now shape.now }
    requires ascending { IsAscending before.now }
    ensures ok { IfOk result (IsNextValue app.now (point_of shape.now) (component_of shape.now) before.now reader.old reader.new) }
    ensures err { IfErr result (IsNextFault app.now (point_of shape.now) (component_of shape.now) before.now reader.old) }
{
    let left = reader.left();
    let next = listed_value(reader, app, shape)?;
    if !is_above(before, &next) {
        return Err(fault(TableRule::K4, left));
    }
    Ok(next)
}

// a value that a component can have, as its shape says
fn listed_value(reader: &mut Reader, app: &App, shape: &ListedShape) -> Result<PartValue, Fault>
    requires { IsListedShape app.now shape.now }
    ensures ok { IfOk result (IsReadValue app.now (point_of shape.now) (component_of shape.now) reader.old reader.new) }
    ensures err { IfErr result (IsValueFault app.now (point_of shape.now) (component_of shape.now) reader.old) }
{
    match shape {
        ListedShape::Task(shape) => value(reader, app, shape),
        ListedShape::Source(shape) => source_value(reader, app, shape),
    }
}

fn is_above(before: &Seq<PartValue>, value: &PartValue) -> bool
    requires { IsAscending before.now }
    ensures { IsTrue result ↔ IsAscending (before.now ++ value.now ∷ []) }
{
    let count = before.len();
    count == 0 || before.at(count - 1).order(value).is_lt()
}

// 1, 2 or 3
fn flags(reader: &mut Reader) -> Result<u8, Fault>
    ensures ok { IfOk result (λ n. IsFlagNumber n × (reader.old ≡ n ∷ reader.new)) }
    ensures err { IfErr result (IsFlagsFault reader.old) }
{
    let left = reader.left();
    let Some(number) = reader.byte() else {
        return Err(fault(TableRule::K1, left));
    };
    if number == 0 || number > 3 {
        return Err(fault(TableRule::K3, left));
    }
    Ok(number)
}

fn events(alloc: Global, number: u8) -> Result<Seq<PartValue>, Memory>
    requires { IsFlagNumber number }
    ensures { IfOk result (λ vs. vs ≡ flagged part.OfEvent number) }
{
    let mut values = Seq::of(Vec::with_capacity(alloc, 2)?);
    if number != 2 {
        values.push(PartValue::OfEvent(false))?;
    }
    if number != 1 {
        values.push(PartValue::OfEvent(true))?;
    }
    Ok(values)
}

fn alarms(alloc: Global, number: u8) -> Result<Seq<PartValue>, Memory>
    requires { IsFlagNumber number }
    ensures { IfOk result (λ vs. vs ≡ flagged part.OfAlarm number) }
{
    let mut values = Seq::of(Vec::with_capacity(alloc, 2)?);
    if number != 2 {
        values.push(PartValue::OfAlarm(false))?;
    }
    if number != 1 {
        values.push(PartValue::OfAlarm(true))?;
    }
    Ok(values)
}
