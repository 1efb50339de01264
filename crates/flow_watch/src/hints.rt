//! Where edges were found.
use osek_standard::Point;
use osek_values::Memory;
use std::alloc::Global;

/// How many places are kept.
const HINTS: usize = 4096;

/// The places at which edges were found last, by a hash of their points. What stands at such a place may be another edge: who asks
/// looks there.
#[derive(Drop)]
pub(crate) struct Hints {
    places: Vec<usize>,
}

// Where the place of an edge is kept.
fn slot(from: Point, to: Point) -> usize {
    let mixed = from
        .number()
        .wrapping_mul(0x9E37_79B1)
        .wrapping_add(to.number())
        .wrapping_mul(0x85EB_CA6B);
    (mixed >> 20) as usize
}

impl Hints {
    /// No edge was found.
    pub(crate) fn new(alloc: Global) -> Result<Hints, Memory> {
        let places = vec![in alloc; 0usize; HINTS]?;
        Ok(Hints { places })
    }

    /// Where the edge from a point to another may stand.
    pub(crate) fn place(&self, from: Point, to: Point) -> usize {
        let slot = slot(from, to);
        if slot < self.places.len() {
            self.places[slot]
        } else {
            0
        }
    }

    /// The edge from a point to another was found at a place.
    pub(crate) fn note(&mut self, from: Point, to: Point, place: usize) {
        let slot = slot(from, to);
        if slot < self.places.len() {
            self.places[slot] = place;
        }
    }
}
