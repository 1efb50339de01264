//! Reading a task's value.
ghost use Rattle.std.specs.{Prelude.{◌≡◌, ◌↔◌, [], ◌∷◌, ◌++◌, ◌<◌, ◌≤◌, not, length, IsTrue, IfOk, IfErr}, Int.{to_be_bytes, w16}};
ghost use Rattle.osek_standard.specs.{Counts.{takable_count as takable_in}, Validity.{IsAmong, is_internal}, Well.{IsStack, IsWaitingAt}};
ghost use Rattle.osek_values.specs.Numbers.{res_no};
ghost use Rattle.abstract_state.specs.ValueOrder.{flag_field};
ghost use Rattle.table_codec.specs.{Faults.{IsFieldFault, IsValueFault}, Shapes.{IsShape, IsFlag, shaped}, Values.{IsTag, IsReadValue, IsReadStack, IsStackFault}};

use crate::fault::{Fault, TableRule};
use crate::reader::{Reader, fault};
use crate::shape::{Shape, waits_at};
use abstract_state::{LiveVal, PartValue, Val};
use osek_standard::App;
use osek_values::{BlockNo, Held, ResNo, TaskNo};

/// A value that a task can have, as its shape says.
pub(crate) fn value(reader: &mut Reader, app: &App, shape: &Shape) -> Result<PartValue, Fault>
    requires { IsShape app.now shape.now }
    ensures ok { IfOk result (IsReadValue app.now shape.now.point (shaped shape.now) reader.old reader.new) }
    ensures err { IfErr result (IsValueFault app.now shape.now.point (shaped shape.now) reader.old) }
{
    match tag(reader, shape)? {
        0 => Ok(PartValue::OfTask(Val::Suspended)),
        1 => live(reader, app, shape),
        _ => waiting(reader, app, shape),
    }
}

// how a task stands, as a number
fn tag(reader: &mut Reader, shape: &Shape) -> Result<u8, Fault>
    ensures ok { IfOk result (λ n. IsTag shape.now n × (reader.old ≡ n ∷ reader.new)) }
    ensures err { IfErr result (IsFieldFault 0 (IsTag shape.now) reader.old) }
{
    let left = reader.left();
    let Some(tag) = reader.byte() else {
        return Err(fault(TableRule::K1, left));
    };
    if may_stand(shape, tag) {
        Ok(tag)
    } else {
        Err(fault(TableRule::K3, left))
    }
}

fn may_stand(shape: &Shape, tag: u8) -> bool
    ensures { IsTrue result ↔ IsTag shape.now tag }
{
    match tag {
        0 => shape.is_free,
        1 => true,
        2 => shape.waits,
        _ => false,
    }
}

// the value of a Live task, behind its tag
fn live(reader: &mut Reader, app: &App, shape: &Shape) -> Result<PartValue, Fault>
    requires { IsShape app.now shape.now }
    ensures ok { IfOk result (IsReadValue app.now shape.now.point (shaped shape.now) (1 ∷ reader.old) reader.new) }
    ensures err { IfErr result (IsValueFault app.now shape.now.point (shaped shape.now) (1 ∷ reader.old)) }
{
    let block = block_among(reader, shape.first, shape.count)?;
    let further = below(reader, shape.activation)?;
    let inside = flag(reader, shape)?;
    let size = at_most(reader, takable_count(app))?;
    let held = stack(reader, app, size)?;
    Ok(PartValue::OfTask(Val::Live(LiveVal {
        block,
        further,
        inside,
        held,
    })))
}

// the value of a waiting task, behind its tag
fn waiting(reader: &mut Reader, app: &App, shape: &Shape) -> Result<PartValue, Fault>
    requires shape { IsShape app.now shape.now }
    requires waits { IsTrue shape.now.waits }
    ensures ok { IfOk result (IsReadValue app.now shape.now.point (shaped shape.now) (2 ∷ reader.old) reader.new) }
    ensures err { IfErr result (IsValueFault app.now shape.now.point (shaped shape.now) (2 ∷ reader.old)) }
{
    let block = waiting_block(reader, app, shape.task)?;
    Ok(PartValue::OfTask(Val::Waiting(block)))
}

// a block at which a task may wait
fn waiting_block(reader: &mut Reader, app: &App, task: TaskNo) -> Result<BlockNo, Fault>
    requires { task.0 < length app.now.tasks }
    ensures ok { IfOk result (λ b. IsWaitingAt app.now task.0 b.0 × (reader.old ≡ to_be_bytes w16 b.0 ++ reader.new)) }
    ensures err { IfErr result (IsFieldFault 1 (IsWaitingAt app.now task.0) reader.old) }
{
    let left = reader.left();
    let Some(block) = reader.number_16() else {
        return Err(fault(TableRule::K1, left));
    };
    if waits_at(app, task, BlockNo(block)) {
        Ok(BlockNo(block))
    } else {
        Err(fault(TableRule::K3, left))
    }
}

// one of so many blocks from the first on
pub(crate) fn block_among(reader: &mut Reader, first: BlockNo, count: u16) -> Result<BlockNo, Fault>
    ensures ok { IfOk result (λ b. IsAmong b.0 first.0 count × (reader.old ≡ to_be_bytes w16 b.0 ++ reader.new)) }
    ensures err { IfErr result (IsFieldFault 1 (λ n. IsAmong n first.0 count) reader.old) }
{
    let left = reader.left();
    let Some(block) = reader.number_16() else {
        return Err(fault(TableRule::K1, left));
    };
    if block >= first.0 && (block as u32) < first.0 as u32 + count as u32 {
        Ok(BlockNo(block))
    } else {
        Err(fault(TableRule::K3, left))
    }
}

// a byte that is less than another
fn below(reader: &mut Reader, limit: u8) -> Result<u8, Fault>
    ensures ok { IfOk result (λ n. (n < limit) × (reader.old ≡ n ∷ reader.new)) }
    ensures err { IfErr result (IsFieldFault 2 (λ n. n < limit) reader.old) }
{
    let left = reader.left();
    let Some(number) = reader.byte() else {
        return Err(fault(TableRule::K1, left));
    };
    if number < limit {
        Ok(number)
    } else {
        Err(fault(TableRule::K3, left))
    }
}

// whether a Live task is inside
fn flag(reader: &mut Reader, shape: &Shape) -> Result<bool, Fault>
    ensures ok { IfOk result (λ b. IsFlag shape.now (flag_field b) × (reader.old ≡ flag_field b ∷ reader.new)) }
    ensures err { IfErr result (IsFieldFault 3 (IsFlag shape.now) reader.old) }
{
    let left = reader.left();
    let Some(number) = reader.byte() else {
        return Err(fault(TableRule::K1, left));
    };
    if may_be_flag(shape, number) {
        Ok(number == 1)
    } else {
        Err(fault(TableRule::K3, left))
    }
}

fn may_be_flag(shape: &Shape, number: u8) -> bool
    ensures { IsTrue result ↔ IsFlag shape.now number }
{
    match number {
        0 => shape.is_free || !shape.named,
        1 => shape.named,
        _ => false,
    }
}

// a byte that is no greater than another
pub(crate) fn at_most(reader: &mut Reader, most: u8) -> Result<u8, Fault>
    ensures ok { IfOk result (λ n. (n ≤ most) × (reader.old ≡ n ∷ reader.new)) }
    ensures err { IfErr result (IsFieldFault 2 (λ n. n ≤ most) reader.old) }
{
    let left = reader.left();
    let Some(number) = reader.byte() else {
        return Err(fault(TableRule::K1, left));
    };
    if number <= most {
        Ok(number)
    } else {
        Err(fault(TableRule::K3, left))
    }
}

// how many resources may stand on a stack
pub(crate) fn takable_count(app: &App) -> u8
    ensures { result ≡ takable_in app.now }
{
    let resources = app.resources.as_slice();
    resources
        .iter()
        .filter(|resource| !resource.internal)
        .count() as u8
}

// a stack of so many resources
pub(crate) fn stack(reader: &mut Reader, app: &App, size: u8) -> Result<Held, Fault>
    requires { size ≤ takable_in app.now }
    ensures ok { IfOk result (IsReadStack app.now size reader.old reader.new) }
    ensures err { IfErr result (IsStackFault app.now size reader.old) }
{
    let mut held = Held::new();
    for _ in 0..size {
        let next = resource(reader, app, &held)?;
        held.push(next);
    }
    Ok(held)
}

// one more resource of a stack
fn resource(reader: &mut Reader, app: &App, held: &Held) -> Result<ResNo, Fault>
    requires { IsStack app.now held.now }
    ensures ok { IfOk result (λ r. IsStack app.now (held.now ++ r ∷ []) × (reader.old ≡ r.0 ∷ reader.new)) }
    ensures err { IfErr result (IsFieldFault 5 (λ n. IsStack app.now (held.now ++ res_no n ∷ [])) reader.old) }
{
    let left = reader.left();
    let Some(number) = reader.byte() else {
        return Err(fault(TableRule::K1, left));
    };
    if is_takable(app, number) && !held.has(ResNo(number)) {
        Ok(ResNo(number))
    } else {
        Err(fault(TableRule::K3, left))
    }
}

// whether it is a resource that may stand on a stack
fn is_takable(app: &App, number: u8) -> bool
    ensures { IsTrue result ↔ ((number < length app.now.resources) × IsTrue (not (is_internal app.now.resources number))) }
{
    if (number as usize) < app.resources.len() {
        !app.resource(ResNo(number)).internal
    } else {
        false
    }
}
