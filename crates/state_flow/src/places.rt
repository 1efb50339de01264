//! Where points' cells stood when they were looked for last.

use osek_values::Memory;
use std::alloc::Global;
use std::marker::Model;

/// Places by the numbers of points, one for all numbers of a slot. Cells move as others come in, and another point may have the
/// slot, so a place is to be looked at: contracts say nothing of it.
#[derive(Drop)]
pub struct Places {
    known: Vec<u32>,
}

impl Model for Places {
    ghost use Rattle.std.specs.Prelude.{⊤};

    ghost Value = { ⊤ };

    ghost view = { λ places. tt };
}

// more than twice the points that large applications reach
const SLOTS: usize = 8192;

impl Places {
    /// No place is known.
    pub fn new(alloc: Global) -> Places {
        Places {
            known: Vec::new(alloc),
        }
    }

    /// The place that was noted last in a number's slot.
    pub fn last(&self, number: u32) -> usize {
        match self.known.get(number as usize % SLOTS) {
            Some(place) => *place as usize,
            None => 0,
        }
    }

    /// Notes the place of a number.
    pub fn note(&mut self, number: u32, place: usize) -> Result<(), Memory> {
        if self.known.is_empty() {
            let alloc = *self.known.allocator();
            self.known = Vec::from_elem(alloc, 0, SLOTS)?;
        }
        let Ok(place) = u32::try_from(place) else {
            return Ok(());
        };
        if let Some(slot) = self.known.get_mut(number as usize % SLOTS) {
            *slot = place;
        }
        Ok(())
    }
}
