//! Sets of numbers, one for each block.
ghost use Rattle.std.specs.Prelude.{◌≡◌, [], IfSome};

use abstract_state::Domain;
use numbered_sets::{NumberedSet, Pool};
use osek_values::{BlockNo, Memory, Seq};
use std::alloc::Global;

/// The numbers of the values that stand at a block.
#[derive(Drop)]
pub struct BlockSet {
    pub block: BlockNo,
    pub numbers: NumberedSet,
}

/// For each block where some value of a component stands the numbers of those that do, in the order of first use. Only those of
/// tasks with more than one activation and many values are kept: for others that costs more than it saves.
#[derive(Drop)]
pub struct BlockSets {
    pub domain: Domain,
    pub sets: Seq<BlockSet>,
    /// The number of the value that is put next. Nothing rests on it.
    pub next: usize,
}

// Of so few values the numbers stand in two words, and are as soon looked at one by one.
const FEW: usize = 128;

impl BlockSets {
    ghost use Rattle.std.specs.Prelude.{ℕ, List, IsTrue, ◌≡◌, ◌<◌, [], length, slice_index_or, IfSome, OnOk};
    ghost use Rattle.abstract_state.specs.declared.value.PartValue.{PartValue};
    ghost use Rattle.flow_model.specs.Values.{block_of_part};
    ghost use Rattle.numbered_sets.specs.{Numbers.{has_number}, Pools.{values_at, IsNumberOf}};
    ghost use Rattle.block_sets.specs.{declared.sets.BlockSet.{BlockSet}, AtBlocks.{AreBlockSets}};

    /// No value was seen yet.
    pub fn new(alloc: Global, domain: Domain) -> BlockSets
        ensures { result.sets ≡ [] }
    {
        BlockSets {
            domain,
            sets: Seq::new(alloc),
            next: 0,
        }
    }

    /// Puts the numbers of the values that came in since the last time, each to those at its block.
    pub fn renew(&mut self, alloc: Global, pool: &Pool, component: usize) -> Result<(), Memory>
        requires { component < length pool.now }
        ensures { AreBlockSets (values_at pool.now component) self.old.sets → AreBlockSets (values_at pool.now component) self.new.sets }
    {
        let activation = match self.domain {
            Domain::Task { activation, .. } => activation,
            _ => 1,
        };
        let count = pool.len(component);
        if activation <= 1 || count <= FEW {
            return Ok(());
        }
        for number in self.next..count {
            let block = pool.block(component, number);
            self.put(alloc, block, number)?;
            self.next = number + 1;
        }
        Ok(())
    }

    // puts the number of a value to those at its block
    fn put(&mut self, alloc: Global, block: BlockNo, number: usize) -> Result<(), Memory>
        ensures { (vs : List PartValue) (v : PartValue) → AreBlockSets vs self.old.sets → IsNumberOf vs v number → block_of_part v ≡ block → AreBlockSets vs self.new.sets }
    {
        for place in 0..self.sets.len() {
            if self.sets.at(place).block == block {
                let set = self.sets.at_mut(place);
                set.numbers.put(number)?;
                return Ok(());
            }
        }
        let mut numbers = NumberedSet::new(alloc, self.domain);
        numbers.put(number)?;
        self.sets.push(BlockSet { block, numbers })?;
        Ok(())
    }

    /// Where the set stands that has a number, if one has it.
    pub fn place_with(&self, number: usize) -> Option<usize>
        ensures known { IfSome result (λ place. place < length self.now.sets) }
        ensures has { IfSome result (λ place. (none : BlockSet) → IsTrue (has_number (slice_index_or self.now.sets place none).numbers number)) }
    {
        for place in 0..self.sets.len() {
            if self.sets.at(place).numbers.has(number) {
                return Some(place);
            }
        }
        None
    }
}
