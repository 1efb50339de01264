//! Reading the blocks of an owner.
ghost use Rattle.std.specs.{Prelude.{◌≡◌, ◌+◌, ◌&&◌, nat_lt, nat_le}, Int.{w16}, List.{list_any}};
ghost use Rattle.osek_standard.specs.Validity.{meet, owners};
ghost use Rattle.image_fields.specs.{Reading.{Gives, tested_at, count_at, range_at}, declared.fault.ImageRule.TheVariants.{I3}};

use crate::fault::{ImageRule, ReadError};
use crate::parts::Range;
use crate::reader::{Reader, fault};
use osek_standard::{Counter, Isr, Task};
use osek_values::BlockNo;

/// Whether two owners, each with so many blocks from a first one on, both have a block.
fn meets(first: BlockNo, count: u16, other: u16, other_count: u16) -> bool
    ensures { result ≡ meet (first.0, count) (other, other_count) }
{
    let begins_before = (first.0 as u32) < other as u32 + other_count as u32;
    begins_before && (other as u32) < first.0 as u32 + count as u32
}

fn meets_task(tasks: &[Task], first: u16, count: u16) -> bool
    ensures { result ≡ list_any (λ x. meet (x.first.0, x.count) (first, count)) tasks.now }
{
    tasks.iter().any(|x| meets(x.first, x.count, first, count))
}

fn meets_isr(isrs: &[Isr], first: u16, count: u16) -> bool
    ensures { result ≡ list_any (λ x. meet (x.first.0, x.count) (first, count)) isrs.now }
{
    isrs.iter().any(|x| meets(x.first, x.count, first, count))
}

fn meets_counter(counters: &[Counter], first: u16, count: u16) -> bool
    ensures { result ≡ list_any (λ x. meet (x.first.0, x.count) (first, count)) counters.now }
{
    counters
        .iter()
        .any(|x| meets(x.first, x.count, first, count))
}

/// Whether some owner has one of the blocks.
#[tactic(auto, using(crate::proofs::OwnerTests::any_of_owners))]
fn meets_owner(tasks: &[Task], isrs: &[Isr], counters: &[Counter], first: u16, count: u16) -> bool
    ensures { result ≡ list_any (λ o. meet o (first, count)) (owners tasks.now isrs.now counters.now) }
{
    let task = meets_task(tasks, first, count);
    let isr = meets_isr(isrs, first, count);
    let counter = meets_counter(counters, first, count);
    let routine = isr || counter;
    task || routine
}

/// How many blocks an owner has from its first on, all of them within the blocks.
#[tactic(auto, unfolding(crate::specs::Reading::tested_at))]
fn inner_count(reader: &mut Reader, blocks: u16, first: u16) -> Result<u16, ReadError>
    ensures { Gives (λ x. x) result reader.new (tested_at w16 (λ n. nat_lt 0 n && nat_le (first + n) blocks) I3 reader.old) }
{
    let left = reader.left();
    let count = reader.number_16()?;
    if count == 0 || first as u32 + count as u32 > blocks as u32 {
        return Err(fault(ImageRule::I3, left));
    }
    Ok(count)
}

/// How many blocks an owner has from its first on, none of which an earlier owner has.
#[tactic(auto, unfolding(crate::specs::Reading::count_at))]
fn own_count(
    reader: &mut Reader,
    blocks: u16,
    first: u16,
    tasks: &[Task],
    isrs: &[Isr],
    counters: &[Counter],
) -> Result<u16, ReadError>
    ensures { Gives (λ x. x) result reader.new (count_at blocks (owners tasks.now isrs.now counters.now) first reader.old) }
{
    let left = reader.left();
    let count = inner_count(reader, blocks, first)?;
    if meets_owner(tasks, isrs, counters, first, count) {
        return Err(fault(ImageRule::I5, left));
    }
    Ok(count)
}

/// The blocks of an owner.
#[tactic(auto, unfolding(crate::specs::Reading::range_at))]
pub(crate) fn range(
    reader: &mut Reader,
    blocks: u16,
    tasks: &[Task],
    isrs: &[Isr],
    counters: &[Counter],
) -> Result<Range, ReadError>
    ensures { Gives (λ x. x) result reader.new (range_at blocks (owners tasks.now isrs.now counters.now) reader.old) }
{
    let first = reader.block_no(blocks)?;
    let count = own_count(reader, blocks, first, tasks, isrs, counters)?;
    Ok(Range {
        first: BlockNo(first),
        count,
    })
}
