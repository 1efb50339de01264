//! What an OIL file declares: an application without the blocks of its code, and the names that only code refers to.

use crate::objects::{Alarm, Resource, Schedule};
use osek_values::{HookSet, Mask, Name, ResNo, Seq};

/// A TASK object.
#[derive(Drop)]
pub struct TaskObject {
    pub name: Name,
    /// Larger is higher, 0 the lowest.
    pub priority: u16,
    pub schedule: Schedule,
    /// The bits of the events that it names; none for a basic task.
    pub own: Mask,
    /// Bit k is set where it is autostarted in mode k.
    pub autostart: u8,
    /// ACTIVATION: how many activations it may have at once, the running one among them.
    pub activation: u8,
    /// The INTERNAL resource that it names, if it names one.
    pub internal: Option<ResNo>,
}

/// An ISR object of category 2.
#[derive(Drop)]
pub struct IsrObject {
    pub name: Name,
    /// Larger is higher, 0 the lowest.
    pub priority: u8,
    /// The names of the resources that it names.
    pub resources: Seq<Name>,
}

/// A COUNTER object.
#[derive(Drop)]
pub struct CounterObject {
    pub name: Name,
    /// MAXALLOWEDVALUE, in ticks.
    pub max: u32,
    /// TICKSPERBASE, which has no effect (this project's profile).
    pub ticks_per_base: u64,
    /// MINCYCLE, in ticks.
    pub min_cycle: u32,
}

/// An EVENT object.
#[derive(Drop)]
pub struct EventObject {
    pub name: Name,
    pub mask: Mask,
}

/// All that an OIL file declares. Objects stand in order of declaration, RES_SCHEDULER last among the resources, and
/// OSDEFAULTAPPMODE first among the modes.
#[derive(Drop)]
pub struct System {
    /// The hooks that the OS object sets TRUE.
    pub hooks: HookSet,
    pub tasks: Seq<TaskObject>,
    /// The category 2 ISRs.
    pub isrs: Seq<IsrObject>,
    /// The names of the category 1 ISRs, which have no code and no arrivals.
    pub category_1_isrs: Seq<Name>,
    pub counters: Seq<CounterObject>,
    pub alarms: Seq<Alarm>,
    pub resources: Seq<Resource>,
    pub modes: Seq<Name>,
    pub events: Seq<EventObject>,
}
