//! Where tasks go on that are released from waiting.
ghost use Rattle.std.specs.{Prelude.{◌≡◌}, Bool.{OnTrue}};

use osek_values::{BlockNo, Memory, Seq};
use std::alloc::Global;

/// For each block of a task, from the first one on: where the task goes on if it waits there and is released. There is none
/// where it doesn't wait, or isn't released.
#[derive(Drop)]
pub struct Releases {
    pub first: BlockNo,
    pub next: Seq<Option<BlockNo>>,
}

impl Releases {
    ghost use Rattle.std.specs.{Prelude.{◌≡◌, IfOk}, Bool.{OnTrue}};
    ghost use Rattle.flow_model.specs.Values.{next_behind};

    /// Where the task goes on that waits at a block, if it is released.
    pub fn behind(&self, block: BlockNo) -> Option<BlockNo>
        ensures { result ≡ next_behind self.now block }
    {
        if block.0 < self.first.0 {
            return None;
        }
        let place = (block.0 - self.first.0) as usize;
        if place >= self.next.len() {
            return None;
        }
        *self.next.at(place)
    }

    /// Whether they are seen to be the same.
    pub fn is(&self, other: &Releases) -> bool
        ensures { OnTrue result (self.now ≡ other.now) }
    {
        self.first == other.first && are_same(self.next.as_slice(), other.next.as_slice())
    }

    /// Others that are the same.
    pub fn copy(&self, alloc: Global) -> Result<Releases, Memory>
        ensures { IfOk result (λ x. x ≡ self.now) }
    {
        let next = Vec::from_slice(alloc, self.next.as_slice())?;
        Ok(Releases {
            first: self.first,
            next: Seq::of(next),
        })
    }
}

// whether two lists have the same blocks
fn are_same(one: &[Option<BlockNo>], other: &[Option<BlockNo>]) -> bool
    ensures { OnTrue result (one.now ≡ other.now) }
{
    if one.len() != other.len() {
        return false;
    }
    for place in 0..one.len() {
        if one[place] != other[place] {
            return false;
        }
    }
    true
}
