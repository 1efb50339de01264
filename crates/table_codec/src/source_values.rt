//! Reading a source's value.
ghost use Rattle.std.specs.Prelude.{◌≡◌, ◌↔◌, ◌∷◌, IsTrue, IfOk, IfErr};
ghost use Rattle.table_codec.specs.{Faults.{IsFieldFault, IsValueFault}, Values.{IsReadValue}, SourceShapes.{IsSourceShape, IsSourceTag, shaped_source}};

use crate::fault::{Fault, TableRule};
use crate::reader::{Reader, fault};
use crate::source_shape::SourceShape;
use crate::values::{at_most, block_among, stack};
use abstract_state::{PartValue, RoutineVal, SourceVal};
use osek_standard::App;

/// A value that a source can have, as its shape says.
pub(crate) fn source_value(
    reader: &mut Reader,
    app: &App,
    shape: &SourceShape,
) -> Result<PartValue, Fault>
    requires { IsSourceShape app.now shape.now }
    ensures ok { IfOk result (IsReadValue app.now shape.now.point (shaped_source shape.now) reader.old reader.new) }
    ensures err { IfErr result (IsValueFault app.now shape.now.point (shaped_source shape.now) reader.old) }
{
    match tag(reader, shape)? {
        0 => Ok(PartValue::OfSource(SourceVal::Out)),
        _ => routine(reader, app, shape),
    }
}

// whether a routine is in, as a number
fn tag(reader: &mut Reader, shape: &SourceShape) -> Result<u8, Fault>
    ensures ok { IfOk result (λ n. IsSourceTag shape.now n × (reader.old ≡ n ∷ reader.new)) }
    ensures err { IfErr result (IsFieldFault 0 (IsSourceTag shape.now) reader.old) }
{
    let left = reader.left();
    let Some(tag) = reader.byte() else {
        return Err(fault(TableRule::K1, left));
    };
    if may_be(shape, tag) {
        Ok(tag)
    } else {
        Err(fault(TableRule::K3, left))
    }
}

fn may_be(shape: &SourceShape, tag: u8) -> bool
    ensures { IsTrue result ↔ IsSourceTag shape.now tag }
{
    match tag {
        0 => shape.may_be_out,
        1 => shape.may_be_in,
        _ => false,
    }
}

// the value of a routine that is in, behind its tag
fn routine(reader: &mut Reader, app: &App, shape: &SourceShape) -> Result<PartValue, Fault>
    requires shape { IsSourceShape app.now shape.now }
    requires may { IsTrue shape.now.may_be_in }
    ensures ok { IfOk result (IsReadValue app.now shape.now.point (shaped_source shape.now) (1 ∷ reader.old) reader.new) }
    ensures err { IfErr result (IsValueFault app.now shape.now.point (shaped_source shape.now) (1 ∷ reader.old)) }
{
    let block = block_among(reader, shape.first, shape.count)?;
    let size = at_most(reader, shape.most)?;
    let held = stack(reader, app, size)?;
    Ok(PartValue::OfSource(SourceVal::In(RoutineVal { block, held })))
}
