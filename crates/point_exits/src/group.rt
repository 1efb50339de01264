//! Exits that have all but the point, and for each the values of one component, in common; and the points where they end.
ghost use Rattle.std.specs.Prelude.{◌≡◌, ◌<◌, ◌∷◌, [], length, slice_index_or, IfOk, OnOk, IfSome};
ghost use Rattle.flow_model.specs.Runners.{component_of};
ghost use Rattle.flow_model.specs.declared.runner.Runner.TheVariants as runners;
ghost use Rattle.numbered_sets.specs.{Pools.{values_at}, Views.{AreNumbersOf}};
ghost use Rattle.block_sets.specs.AtBlocks.{AreBlockSets};
ghost use Rattle.point_exits.specs.{declared.group.NumberEnd.{NumberEnd}, Deciding.{AreBlocks, HaveNumbersOf, IsNumberPut}};
ghost use Rattle.point_exits.specs.declared.group.Ends.TheVariants as ends;

use abstract_state::{Domain, Point};
use block_sets::BlockSets;
use flow_model::{Decision, Runner};
use numbered_sets::{NumberedEntry, NumberedSet, Pool};
use osek_values::{Memory, Seq, Status, TaskNo};
use std::alloc::Global;

/// The numbers of a component's values with which a step ends at a point.
#[derive(Drop)]
pub struct NumberEnd {
    pub component: usize,
    pub numbers: NumberedSet,
    pub target: Point,
}

/// The points at which steps end.
#[derive(Drop)]
pub enum Ends {
    /// Each with all values.
    At(Seq<Point>),
    /// Each with some values of a component, and all of the others.
    With(Seq<NumberEnd>),
}

/// Exits of a point with these numbers. The decision is none where a routine begins.
#[derive(Drop)]
pub struct ExitGroup {
    pub decision: Option<Decision>,
    pub status: Option<Status>,
    pub entry: NumberedEntry,
    pub ends: Ends,
}

// an end at the point of a component's block, which stands in this row of its domain's blocks
#[derive(Clone, Copy)]
struct BlockEnd {
    component: usize,
    domain: Domain,
    target: Point,
    row: usize,
    // so many words its numbers may need past the first two
    words: usize,
}

// for so many ends room is made at once
const FEW: usize = 12;

/// One point, with all values.
pub fn at(alloc: Global, point: Point) -> Result<Ends, Memory>
    ensures { IfOk result (λ x. x ≡ ends.At (point ∷ [])) }
{
    let mut points = Seq::new(alloc);
    points.push(point)?;
    Ok(Ends::At(points))
}

/// The blocks of a task's values, each with those that stand there: by the sets of the blocks, where the task has many values.
pub fn at_task_blocks(
    alloc: Global,
    pool: &Pool,
    task: TaskNo,
    blocks: &BlockSets,
    entry: &NumberedEntry,
) -> Result<Ends, Memory>
    requires known { task.0 < length entry.now.sets }
    requires numbers { AreNumbersOf pool.now entry.now }
    requires blocks { AreBlockSets (values_at pool.now task.0) blocks.now.sets }
    ensures { IfOk result (AreBlocks pool.now entry.now (runners.Task task)) }
{
    let runner = Runner::Task(task);
    if blocks.sets.is_empty() {
        return at_blocks(alloc, pool, runner, entry);
    }
    let component = task.index();
    let count = pool.len(component);
    let mut left = entry.sets.set(alloc, component)?;
    let mut ends = Seq::new(alloc);
    let mut number = left.next(0, count);
    while number < count {
        let Some(place) = blocks.place_with(number) else {
            return at_blocks(alloc, pool, runner, entry);
        };
        let here = blocks.sets.at(place);
        let elsewhere = left.without(alloc, &here.numbers)?;
        let numbers = left.without(alloc, &elsewhere)?;
        ends.push(NumberEnd {
            component,
            numbers,
            target: runner.at(here.block),
        })?;
        left = elsewhere;
        number = left.next(number + 1, count);
    }
    Ok(Ends::With(ends))
}

/// The same of any runner's values, number by number; `places` tells by a block's row where its end stands.
pub fn at_blocks(
    alloc: Global,
    pool: &Pool,
    runner: Runner,
    entry: &NumberedEntry,
) -> Result<Ends, Memory>
    requires known { component_of runner < length entry.now.sets }
    requires numbers { AreNumbersOf pool.now entry.now }
    ensures { IfOk result (AreBlocks pool.now entry.now runner) }
{
    let component = runner.component().index();
    let domain = entry.sets.domain(component);
    let count = pool.len(component);
    // the first block of the task or the routine, and how many it has
    let (first, blocks) = match domain {
        Domain::Task { first, count, .. } | Domain::Source { first, count, .. } => {
            (first.index(), usize::from(count))
        }
        Domain::Event | Domain::Alarm => (0, 0),
    };
    let mut places = Vec::from_elem(alloc, 0, blocks)?;
    let mut ends = Vec::with_capacity(alloc, blocks.min(FEW))?;
    let words = entry.sets.words(component);
    let mut cursor = entry.sets.cursor(component, 0);
    let mut number = entry.sets.advance(component, &mut cursor, count);
    while number < count {
        let block = pool.block(component, number);
        let end = BlockEnd {
            component,
            domain,
            target: runner.at(block),
            row: block.index().saturating_sub(first),
            words,
        };
        put_number(alloc, end, number, places.as_mut_slice(), &mut ends)?;
        number = entry.sets.advance(component, &mut cursor, count);
    }
    Ok(Ends::With(Seq::of(ends)))
}

// puts a number to those with which a step ends at a point
fn put_number(
    alloc: Global,
    end: BlockEnd,
    number: usize,
    places: &mut [usize],
    ends: &mut Vec<NumberEnd>,
) -> Result<(), Memory>
    ensures some { OnOk result (HaveNumbersOf end.component end.domain ends.old.items → HaveNumbersOf end.component end.domain ends.new.items) }
    ensures put { OnOk result (IsNumberPut end.target number ends.old.items ends.new.items) }
{
    let target = end.target;
    let Some(place) = end_at(places, end.row, ends.as_slice(), target) else {
        if let Some(place) = places.get_mut(end.row) {
            *place = ends.len();
        }
        let mut numbers = NumberedSet::with_room(alloc, end.domain, end.words)?;
        numbers.put(number)?;
        ends.push(NumberEnd {
            component: end.component,
            numbers,
            target,
        })?;
        return Ok(());
    };
    ends[place].numbers.put(number)?;
    Ok(())
}

// The place of the end at a point, by the row of its block. What stands in `places` is looked up, so nothing rests on it.
fn end_at(places: &[usize], row: usize, ends: &[NumberEnd], target: Point) -> Option<usize>
    ensures { IfSome result (λ place. (place < length ends.now) × ((none : NumberEnd) → (slice_index_or ends.now place none).target ≡ target)) }
{
    let place = *places.get(row)?;
    if place < ends.len() && ends[place].target == target {
        return Some(place);
    }
    None
}
