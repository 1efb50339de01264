//! The parts of a state that a table keeps, and what they can be.
ghost use Rattle.std.specs.{Prelude.{◌≡◌}, Cmp.Lexicographic.{slice_cmp}, Ordering.{nat_cmp}};
ghost use Rattle.abstract_state.specs.ValueOrder.{held_fields};

use osek_values::{AlarmNo, BlockNo, EventNo, Held, Mask, SourceNo, TaskNo};
use std::cmp::Ordering;

/// Where a Live task stands, but for the offset, and what it has.
#[derive(Drop)]
pub struct LiveVal {
    pub block: BlockNo,
    /// The activations that wait for it to end.
    pub further: u8,
    /// It has the INTERNAL resource that it names.
    pub inside: bool,
    pub held: Held,
}

/// What a table keeps of a task: its state, with the block at which it stands.
#[derive(Drop)]
pub enum Val {
    Suspended,
    /// Ready, running or interrupted.
    Live(LiveVal),
    /// It waits for events, at a WaitEvent block.
    Waiting(BlockNo),
}

/// Where a routine stands, but for the offset, and what it holds.
#[derive(Drop)]
pub struct RoutineVal {
    pub block: BlockNo,
    pub held: Held,
}

/// What a table keeps of an interrupt source.
#[derive(Drop)]
pub enum SourceVal {
    Out,
    /// Its routine began and hasn't ended.
    In(RoutineVal),
}

/// A part of a state: what a task does, whether an event of an extended task is set, whether an alarm is armed, or what
/// the routine of an interrupt source does.
#[derive(Clone, Copy)]
pub enum Component {
    Task(TaskNo),
    Event { task: TaskNo, bit: EventNo },
    Alarm(AlarmNo),
    Source(SourceNo),
}

/// The number of a component: the tasks come first, then each task's own events, then the alarms, then the sources.
#[derive(Clone, Copy)]
pub struct ComponentNo(pub u16);

impl ComponentNo {
    ghost use Rattle.std.specs.Prelude.{◌≡◌};

    /// The number as a place in an entry.
    pub fn index(self) -> usize
        ensures { result ≡ self.0 }
    {
        self.0 as usize
    }
}

/// What the values of a set are values of, which bounds how many there can be.
#[derive(Clone, Copy)]
pub enum Domain {
    /// A task with these blocks and so many activations, which can take these resources, and names an INTERNAL one or
    /// not.
    Task {
        first: BlockNo,
        count: u16,
        activation: u8,
        internal: bool,
        takable: Mask,
    },
    /// An event, set or not.
    Event,
    /// An alarm, armed or idle.
    Alarm,
    /// A source whose routine has these blocks, and can take these resources.
    Source {
        first: BlockNo,
        count: u16,
        takable: Mask,
    },
}

/// What a part of a state can be.
#[derive(Drop)]
pub enum PartValue {
    OfTask(Val),
    /// The event is set.
    OfEvent(bool),
    /// The alarm is armed.
    OfAlarm(bool),
    OfSource(SourceVal),
}

// by the number of resources, then by these
fn stack_order(held: &Held, kept: &Held) -> Ordering
    ensures { result ≡ slice_cmp nat_cmp (held_fields held.now) (held_fields kept.now) }
{
    let held = held.as_slice();
    let kept = kept.as_slice();
    held.len().cmp(&kept.len()).then(held.cmp(kept))
}

impl LiveVal {
    ghost use Rattle.std.specs.{Prelude.{◌≡◌}, Cmp.Lexicographic.{slice_cmp}, Ordering.{nat_cmp}};
    ghost use Rattle.abstract_state.specs.ValueOrder.{live_fields};

    /// By block, then by further activations, then by the flag, then by the number of resources, then by these.
    fn order(&self, other: &LiveVal) -> Ordering
        ensures { result ≡ slice_cmp nat_cmp (live_fields self.now) (live_fields other.now) }
    {
        let by_held = stack_order(&self.held, &other.held);
        let by_inside = self.inside.cmp(&other.inside).then(by_held);
        let by_further = self.further.cmp(&other.further).then(by_inside);
        self.block.0.cmp(&other.block.0).then(by_further)
    }
}

impl Val {
    ghost use Rattle.std.specs.{Prelude.{◌≡◌}, Cmp.Lexicographic.{slice_cmp}, Ordering.{nat_cmp}};
    ghost use Rattle.abstract_state.specs.ValueOrder.{val_fields};

    /// Another that is the same. It takes no memory.
    pub fn copy(&self) -> Val
        ensures { result ≡ self.now }
    {
        match self {
            Val::Suspended => Val::Suspended,
            Val::Live(live) => Val::Live(LiveVal {
                block: live.block,
                further: live.further,
                inside: live.inside,
                held: live.held.copy(),
            }),
            Val::Waiting(block) => Val::Waiting(*block),
        }
    }

    /// Suspended is before Live, and that before Waiting.
    pub fn order(&self, other: &Val) -> Ordering
        ensures { result ≡ slice_cmp nat_cmp (val_fields self.now) (val_fields other.now) }
    {
        match (self, other) {
            (Val::Suspended, Val::Suspended) => Ordering::Equal,
            (Val::Live(live), Val::Live(kept)) => live.order(kept),
            (Val::Waiting(block), Val::Waiting(at)) => block.0.cmp(&at.0),
            (Val::Suspended, Val::Live(_)) => Ordering::Less,
            (Val::Suspended, Val::Waiting(_)) => Ordering::Less,
            (Val::Live(_), Val::Waiting(_)) => Ordering::Less,
            (Val::Live(_), Val::Suspended) => Ordering::Greater,
            (Val::Waiting(_), Val::Suspended) => Ordering::Greater,
            (Val::Waiting(_), Val::Live(_)) => Ordering::Greater,
        }
    }
}

impl RoutineVal {
    ghost use Rattle.std.specs.{Prelude.{◌≡◌}, Cmp.Lexicographic.{slice_cmp}, Ordering.{nat_cmp}};
    ghost use Rattle.abstract_state.specs.ValueOrder.{routine_fields};

    /// By block, then by the number of resources, then by these.
    fn order(&self, other: &RoutineVal) -> Ordering
        ensures { result ≡ slice_cmp nat_cmp (routine_fields self.now) (routine_fields other.now) }
    {
        let by_held = stack_order(&self.held, &other.held);
        self.block.0.cmp(&other.block.0).then(by_held)
    }
}

impl SourceVal {
    ghost use Rattle.std.specs.{Prelude.{◌≡◌}, Cmp.Lexicographic.{slice_cmp}, Ordering.{nat_cmp}};
    ghost use Rattle.abstract_state.specs.ValueOrder.{source_fields};

    /// Another that is the same. It takes no memory.
    pub fn copy(&self) -> SourceVal
        ensures { result ≡ self.now }
    {
        match self {
            SourceVal::Out => SourceVal::Out,
            SourceVal::In(routine) => SourceVal::In(RoutineVal {
                block: routine.block,
                held: routine.held.copy(),
            }),
        }
    }

    /// Out is before In.
    pub fn order(&self, other: &SourceVal) -> Ordering
        ensures { result ≡ slice_cmp nat_cmp (source_fields self.now) (source_fields other.now) }
    {
        match (self, other) {
            (SourceVal::Out, SourceVal::Out) => Ordering::Equal,
            (SourceVal::In(routine), SourceVal::In(kept)) => routine.order(kept),
            (SourceVal::Out, SourceVal::In(_)) => Ordering::Less,
            (SourceVal::In(_), SourceVal::Out) => Ordering::Greater,
        }
    }
}

impl PartValue {
    ghost use Rattle.std.specs.Prelude.{◌≡◌};
    ghost use Rattle.abstract_state.specs.ValueOrder.{part_order, same_part};

    /// Another that is the same. It takes no memory.
    pub fn copy(&self) -> PartValue
        ensures { result ≡ self.now }
    {
        match self {
            PartValue::OfTask(val) => PartValue::OfTask(val.copy()),
            PartValue::OfEvent(set) => PartValue::OfEvent(*set),
            PartValue::OfAlarm(armed) => PartValue::OfAlarm(*armed),
            PartValue::OfSource(val) => PartValue::OfSource(val.copy()),
        }
    }

    /// An event that isn't set is before one that is, and an idle alarm before an armed one.
    pub fn order(&self, other: &PartValue) -> Ordering
        ensures { result ≡ part_order self.now other.now }
    {
        match (self, other) {
            (PartValue::OfTask(val), PartValue::OfTask(to)) => val.order(to),
            (PartValue::OfEvent(set), PartValue::OfEvent(to)) => set.cmp(to),
            (PartValue::OfAlarm(armed), PartValue::OfAlarm(to)) => armed.cmp(to),
            (PartValue::OfSource(val), PartValue::OfSource(to)) => val.order(to),
            (PartValue::OfTask(_), PartValue::OfEvent(_)) => Ordering::Less,
            (PartValue::OfTask(_), PartValue::OfAlarm(_)) => Ordering::Less,
            (PartValue::OfEvent(_), PartValue::OfAlarm(_)) => Ordering::Less,
            (PartValue::OfTask(_), PartValue::OfSource(_)) => Ordering::Less,
            (PartValue::OfEvent(_), PartValue::OfSource(_)) => Ordering::Less,
            (PartValue::OfAlarm(_), PartValue::OfSource(_)) => Ordering::Less,
            (PartValue::OfEvent(_), PartValue::OfTask(_)) => Ordering::Greater,
            (PartValue::OfAlarm(_), PartValue::OfTask(_)) => Ordering::Greater,
            (PartValue::OfAlarm(_), PartValue::OfEvent(_)) => Ordering::Greater,
            (PartValue::OfSource(_), PartValue::OfTask(_)) => Ordering::Greater,
            (PartValue::OfSource(_), PartValue::OfEvent(_)) => Ordering::Greater,
            (PartValue::OfSource(_), PartValue::OfAlarm(_)) => Ordering::Greater,
        }
    }

    /// Whether another is the same.
    pub fn is(&self, other: &PartValue) -> bool
        ensures { result ≡ same_part self.now other.now }
    {
        self.order(other).is_eq()
    }
}
