//! Which point is evaluated next. The least table is the same in each order, but a good order needs half the evaluations or less.

use osek_values::Memory;
use std::alloc::Global;
use std::collections::BinaryHeap;
use std::marker::Model;

/// How often a point was evaluated, how many of its values came in since, and how urgent it was when it was put on the agenda last.
/// Contracts say nothing of these: they tell only what is better done first.
#[derive(Drop)]
pub struct Growth {
    evaluations: u32,
    values: u64,
    noted: u32,
}

impl Model for Growth {
    ghost use Rattle.std.specs.Prelude.{⊤};

    ghost Value = { ⊤ };

    ghost view = { λ growth. tt };
}

/// A point that waited when it was put on the agenda. The more urgent is the greater. Of those that are about as urgent it is the
/// lower point: what a point leads to stands mostly above it.
#[derive(Clone, Copy, PartialEq, Eq, PartialOrd, Ord)]
pub struct Urgent {
    urgency: u32,
    // the more, the lower the point
    lowness: u32,
    // as often it had been evaluated
    evaluations: u32,
}

/// Points that waited, the most urgent first. Contracts say nothing of these either: cells tell what waits.
#[derive(Drop)]
pub struct Agenda {
    points: BinaryHeap<Urgent>,
}

impl Model for Agenda {
    ghost use Rattle.std.specs.Prelude.{⊤};

    ghost Value = { ⊤ };

    ghost view = { λ agenda. tt };
}

// more urgent than all that was evaluated
const NEW: u32 = u32::MAX;

// by it few values of what was evaluated often still count
const SCALE: u64 = 1024;

impl Growth {
    /// That of a point that was reached just now, and put on the agenda.
    pub fn new() -> Growth {
        Growth {
            evaluations: 0,
            values: 0,
            noted: NEW,
        }
    }

    /// So many values came in. It tells whether the point is to be put on the agenda for them.
    pub fn add(&mut self, values: u64) -> bool {
        self.values = self.values.saturating_add(values);
        let urgency = self.urgency();
        if urgency <= self.noted {
            return false;
        }
        self.noted = urgency;
        true
    }

    /// The point is evaluated.
    pub fn evaluate(&mut self) {
        self.evaluations = self.evaluations.saturating_add(1);
        self.values = 0;
        self.noted = 0;
    }

    /// The point, which has this number, as it is to be put on the agenda.
    pub fn urgent(&self, number: u32) -> Urgent {
        Urgent {
            urgency: self.urgency(),
            lowness: u32::MAX - number,
            evaluations: self.evaluations,
        }
    }

    // the more values came in, and the more rarely the point was evaluated
    fn urgency(&self) -> u32 {
        if self.evaluations == 0 {
            return NEW;
        }
        let often = self.evaluations as u64 + 1;
        in_sixteenths(self.values.saturating_mul(SCALE) / often.saturating_mul(often))
    }

    /// Whether the point wasn't evaluated since it was put on the agenda.
    pub fn is_as(&self, urgent: Urgent) -> bool {
        self.evaluations == urgent.evaluations
    }
}

impl Urgent {
    /// The point's number.
    pub fn number(self) -> u32 {
        u32::MAX - self.lowness
    }
}

impl Agenda {
    /// There is no point on it.
    pub fn new(alloc: Global) -> Agenda {
        Agenda {
            points: BinaryHeap::new(alloc),
        }
    }

    /// How many points are on it; one may be there several times.
    pub fn len(&self) -> usize {
        self.points.len()
    }

    /// Puts a point on it.
    pub fn push(&mut self, urgent: Urgent) -> Result<(), Memory> {
        self.points.push(urgent)?;
        Ok(())
    }

    /// Takes the most urgent point off.
    pub fn pop(&mut self) -> Option<Urgent> {
        self.points.pop()
    }
}

// A number's power of two, and how many sixteenths of it the number has: so few numbers are told apart, and each is more than 0.
fn in_sixteenths(number: u64) -> u32 {
    let power = 63u32.saturating_sub(number.leading_zeros());
    // below 32, since the first bit that is set becomes the fifth
    let sixteenths = (number >> power.saturating_sub(4)) % 32;
    power
        .saturating_mul(16)
        .saturating_add(sixteenths as u32 + 1)
}
