//! The objects of an application, each with what an image holds of it.
pub use oil_system::{Action, Alarm, Resource, Schedule};
use osek_values::{BlockNo, Mask, Name, ResNo};

/// A task. It has the `count` blocks from `first` on, and begins at `first`.
#[derive(Drop)]
pub struct Task {
    pub name: Name,
    /// Larger is higher, 0 the lowest.
    pub priority: u16,
    pub schedule: Schedule,
    /// Its own event bits; none for a basic task.
    pub own: Mask,
    /// Bit k is set where it is autostarted in mode k.
    pub autostart: u8,
    pub first: BlockNo,
    pub count: u16,
    /// How many activations it takes at a time: 1 to 255, and 1 for an extended task.
    pub activation: u8,
    /// The INTERNAL resource that it names.
    pub internal: Option<ResNo>,
}

/// A category 2 ISR, with its blocks.
#[derive(Drop)]
pub struct Isr {
    pub name: Name,
    pub first: BlockNo,
    pub count: u16,
    /// Larger is higher; tick routines have 0.
    pub priority: u8,
}

/// A counter, with the blocks of its tick routine.
#[derive(Drop)]
pub struct Counter {
    pub name: Name,
    /// MAXALLOWEDVALUE, in ticks.
    pub max: u32,
    /// MINCYCLE, in ticks.
    pub min_cycle: u32,
    pub first: BlockNo,
    pub count: u16,
}
