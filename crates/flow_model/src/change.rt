//! What becomes of the values of components.
ghost use Rattle.std.specs.Prelude.{◌≡◌, ◌-◌, false, []};
ghost use Rattle.abstract_state.specs.declared.value.PartValue.TheVariants as part;
ghost use Rattle.abstract_state.specs.declared.value.Val.TheVariants as val;
ghost use Rattle.abstract_state.specs.declared.value.SourceVal.TheVariants as source_val;
ghost use Rattle.abstract_state.specs.Components.{live_val, routine_val};
ghost use Rattle.flow_model.specs.{Values.{released as released_of, one_further as one_further_of, with_top as with_top_of, without_top as without_top_of}, Tests.{value_after as value_after_of}};

use crate::release::Releases;
use abstract_state::{ComponentNo, LiveVal, PartValue, RoutineVal, SourceVal, Val};
use osek_values::limits::{MAX_ACTIVATIONS, MAX_RESOURCES};
use osek_values::{BlockNo, Held, Memory, ResNo};
use std::alloc::Global;

/// What becomes of a component's value.
#[derive(Drop)]
pub enum Update {
    /// It becomes this value.
    Set(PartValue),
    /// A Live task or a routine stands at this block, and holds what it held.
    Block(BlockNo),
    /// A Live task or a routine stands at the block, and holds the resource on top besides, unless it holds as many as there
    /// may be.
    Take { resource: ResNo, block: BlockNo },
    /// A Live task or a routine stands at the block, and has given back what was on top.
    Give { block: BlockNo },
    /// A Live task has one further activation more, unless it has as many as there may be.
    More,
    /// A Live task begins anew at this block for one of its further activations, outside and with nothing held.
    Again(BlockNo),
    /// A Live task stands at this block, and has given its INTERNAL resource back.
    Leave(BlockNo),
    /// A Live task has its INTERNAL resource.
    Inside,
    /// A task that waits at one of the blocks from which it is released is Live at the one behind, outside and with nothing held.
    Release(Releases),
}

/// What becomes of one component.
#[derive(Drop)]
pub struct Change {
    pub component: ComponentNo,
    pub update: Update,
}

impl Update {
    ghost use Rattle.std.specs.Prelude.{◌≡◌, IfOk};
    ghost use Rattle.flow_model.specs.Tests.{updated};

    /// What becomes of a value. It takes no memory.
    pub fn of(&self, value: &PartValue) -> PartValue
        ensures { result ≡ updated self.now value.now }
    {
        match (self, value) {
            (Update::Set(to), _) => to.copy(),
            (Update::Block(block), PartValue::OfTask(Val::Live(live))) => {
                standing(*block, live, live.held.copy())
            }
            (Update::Take { resource, block }, PartValue::OfTask(Val::Live(live))) => {
                standing(*block, live, with_top(&live.held, *resource))
            }
            (Update::Give { block }, PartValue::OfTask(Val::Live(live))) => {
                standing(*block, live, without_top(&live.held))
            }
            (Update::Block(block), PartValue::OfSource(SourceVal::In(routine))) => {
                routine_at(*block, routine.held.copy())
            }
            (Update::Take { resource, block }, PartValue::OfSource(SourceVal::In(routine))) =>
                routine_at(*block, with_top(&routine.held, *resource)),
            (Update::Give { block }, PartValue::OfSource(SourceVal::In(routine))) => {
                routine_at(*block, without_top(&routine.held))
            }
            (Update::More, PartValue::OfTask(Val::Live(live))) => with_one_further(live),
            (Update::Again(block), PartValue::OfTask(Val::Live(live))) => {
                begun(*block, one_less(live.further))
            }
            (Update::Leave(block), PartValue::OfTask(Val::Live(live))) => {
                flagged(*block, live, false)
            }
            (Update::Inside, PartValue::OfTask(Val::Live(live))) => flagged(live.block, live, true),
            (Update::Release(releases), PartValue::OfTask(Val::Waiting(block))) => {
                released(releases, *block)
            }
            _ => value.copy(),
        }
    }

    /// Another that is the same.
    pub fn copy(&self, alloc: Global) -> Result<Update, Memory>
        ensures { IfOk result (λ x. x ≡ self.now) }
    {
        match self {
            Update::Set(to) => Ok(Update::Set(to.copy())),
            Update::Block(block) => Ok(Update::Block(*block)),
            Update::Take { resource, block } => Ok(Update::Take {
                resource: *resource,
                block: *block,
            }),
            Update::Give { block } => Ok(Update::Give { block: *block }),
            Update::More => Ok(Update::More),
            Update::Again(block) => Ok(Update::Again(*block)),
            Update::Leave(block) => Ok(Update::Leave(*block)),
            Update::Inside => Ok(Update::Inside),
            Update::Release(releases) => {
                let copy = releases.copy(alloc)?;
                Ok(Update::Release(copy))
            }
        }
    }
}

impl Change {
    ghost use Rattle.std.specs.Prelude.{◌≡◌, IfOk};

    /// Another that is the same.
    pub fn copy(&self, alloc: Global) -> Result<Change, Memory>
        ensures { IfOk result (λ x. x ≡ self.now) }
    {
        let update = self.update.copy(alloc)?;
        Ok(Change {
            component: self.component,
            update,
        })
    }
}

// a Live task at another block, with another stack
fn standing(block: BlockNo, live: &LiveVal, held: Held) -> PartValue
    ensures { result ≡ part.OfTask (val.Live (live_val block live.now.further live.now.inside held)) }
{
    PartValue::OfTask(Val::Live(LiveVal {
        block,
        further: live.further,
        inside: live.inside,
        held,
    }))
}

// a routine at a block, with a stack
fn routine_at(block: BlockNo, held: Held) -> PartValue
    ensures { result ≡ part.OfSource (source_val.In (routine_val block held)) }
{
    PartValue::OfSource(SourceVal::In(RoutineVal { block, held }))
}

// a Live task with one further activation more
fn with_one_further(live: &LiveVal) -> PartValue
    ensures { result ≡ part.OfTask (val.Live (live_val live.now.block (one_further_of live.now.further) live.now.inside live.now.held)) }
{
    PartValue::OfTask(Val::Live(LiveVal {
        block: live.block,
        further: one_further(live.further),
        inside: live.inside,
        held: live.held.copy(),
    }))
}

fn one_further(further: u8) -> u8
    ensures { result ≡ one_further_of further }
{
    if (further as usize) < MAX_ACTIVATIONS {
        further + 1
    } else {
        further
    }
}

fn one_less(further: u8) -> u8
    ensures { result ≡ further - 1 }
{
    if further == 0 { 0 } else { further - 1 }
}

// a Live task that begins anew
fn begun(block: BlockNo, further: u8) -> PartValue
    ensures { result ≡ part.OfTask (val.Live (live_val block further false [])) }
{
    PartValue::OfTask(Val::Live(LiveVal {
        block,
        further,
        inside: false,
        held: Held::new(),
    }))
}

// a task that waits at a block, after it is released where it is
fn released(releases: &Releases, block: BlockNo) -> PartValue
    ensures { result ≡ part.OfTask (released_of releases.now (val.Waiting block)) }
{
    match releases.behind(block) {
        Some(next) => begun(next, 0),
        None => PartValue::OfTask(Val::Waiting(block)),
    }
}

// a Live task at a block, inside or not
fn flagged(block: BlockNo, live: &LiveVal, inside: bool) -> PartValue
    ensures { result ≡ part.OfTask (val.Live (live_val block live.now.further inside live.now.held)) }
{
    PartValue::OfTask(Val::Live(LiveVal {
        block,
        further: live.further,
        inside,
        held: live.held.copy(),
    }))
}

fn with_top(held: &Held, resource: ResNo) -> Held
    ensures { result ≡ with_top_of held.now resource }
{
    let mut stack = held.copy();
    if stack.as_slice().len() < MAX_RESOURCES {
        stack.push(resource);
    }
    stack
}

fn without_top(held: &Held) -> Held
    ensures { result ≡ without_top_of held.now }
{
    let mut stack = held.copy();
    stack.pop();
    stack
}

/// What becomes of a component's value: what the changes that name it say, one after another. It takes no memory.
pub fn value_after(changes: &[Change], component: usize, value: &PartValue) -> PartValue
    ensures { result ≡ value_after_of changes.now component value.now }
{
    let mut becoming = value.copy();
    for change in changes {
        if change.component.index() == component {
            becoming = change.update.of(&becoming);
        }
    }
    becoming
}
