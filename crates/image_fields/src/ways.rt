//! Reading where a block leads.
ghost use Rattle.std.specs.{Prelude.{◌≡◌, ◌+◌, ◌==◌, true, if◌then◌else◌}, List.{list_all}};
ghost use Rattle.osek_standard.specs.Validity.{is_within as is_among};
ghost use Rattle.image_fields.specs.{Reading.{Gives}, BlockReading.{where_has, task_range, isr_range, counter_range, is_way as may_lead_to, way_at, ways_at}};

use crate::fault::{ImageRule, ReadError};
use crate::parts::Tables;
use crate::reader::{Reader, fault};
use image_model::is_within;
use osek_standard::{Counter, Isr, Kind, Task};
use osek_values::BlockNo;

fn stays_in(has: bool, way: u16, first: BlockNo, count: u16) -> bool
    ensures { result ≡ (if has then is_among way (first.0, count) else true) }
{
    if has {
        is_within(way, first, count)
    } else {
        true
    }
}

fn stays_in_task(task: &Task, block: u16, way: u16) -> bool
    ensures { result ≡ where_has block (task_range task.now) (is_among way (task_range task.now)) }
{
    stays_in(
        is_within(block, task.first, task.count),
        way,
        task.first,
        task.count,
    )
}

fn stays_in_isr(isr: &Isr, block: u16, way: u16) -> bool
    ensures { result ≡ where_has block (isr_range isr.now) (is_among way (isr_range isr.now)) }
{
    stays_in(
        is_within(block, isr.first, isr.count),
        way,
        isr.first,
        isr.count,
    )
}

fn goes_on_in(counter: &Counter, block: u16, way: u16) -> bool
    ensures { result ≡ where_has block (counter_range counter.now) (way == block + 1) }
{
    if !is_within(block, counter.first, counter.count) {
        return true;
    }
    way as u32 == block as u32 + 1
}

fn stays_in_tasks(tasks: &[Task], block: u16, way: u16) -> bool
    ensures { result ≡ list_all (λ x. where_has block (task_range x) (is_among way (task_range x))) tasks.now }
{
    tasks.iter().all(|x| stays_in_task(x, block, way))
}

fn stays_in_isrs(isrs: &[Isr], block: u16, way: u16) -> bool
    ensures { result ≡ list_all (λ x. where_has block (isr_range x) (is_among way (isr_range x))) isrs.now }
{
    isrs.iter().all(|x| stays_in_isr(x, block, way))
}

fn goes_on_in_counters(counters: &[Counter], block: u16, way: u16) -> bool
    ensures { result ≡ list_all (λ x. where_has block (counter_range x) (way == block + 1)) counters.now }
{
    counters.iter().all(|x| goes_on_in(x, block, way))
}

/// Whether a block may lead there.
fn is_way(tables: &Tables, block: u16, way: u16) -> bool
    ensures { result ≡ may_lead_to tables.now block way }
{
    let in_task = stays_in_tasks(tables.tasks.as_slice(), block, way);
    let in_isr = stays_in_isrs(tables.isrs.as_slice(), block, way);
    let in_order = goes_on_in_counters(tables.counters.as_slice(), block, way);
    let in_code = in_task && in_isr;
    in_code && in_order
}

/// A block where a block leads, one of so many.
#[tactic(auto, unfolding(crate::specs::BlockReading::way_at))]
fn way(reader: &mut Reader, tables: &Tables, blocks: u16, block: u16) -> Result<u16, ReadError>
    ensures { Gives (λ x. x) result reader.new (way_at tables.now blocks block reader.old) }
{
    let left = reader.left();
    let way = reader.block_no(blocks)?;
    if !is_way(tables, block, way) {
        return Err(fault(ImageRule::I5, left));
    }
    Ok(way)
}

/// A kind with its other way, and the next block.
#[tactic(auto, unfolding(crate::specs::BlockReading::ways_at))]
pub(crate) fn ways(
    reader: &mut Reader,
    tables: &Tables,
    blocks: u16,
    block: u16,
    kind: Kind,
) -> Result<(Kind, u16), ReadError>
    ensures { Gives (λ x. x) result reader.new (ways_at tables.now blocks block kind reader.old) }
{
    match kind {
        Kind::TaskEnd | Kind::IsrEnd => Ok((kind, block)),
        Kind::Choice(_) => {
            let next = way(reader, tables, blocks, block)?;
            let other = way(reader, tables, blocks, block)?;
            Ok((Kind::Choice(BlockNo(other)), next))
        }
        _ => Ok((kind, way(reader, tables, blocks, block)?)),
    }
}
