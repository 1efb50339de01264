//! The application and its state, the activation of a task, and the system that an OIL file declares: what crates above
//! find under one name.
#![tactic(auto)]

pub use activation::activate;
pub use oil_system::{CounterObject, EventObject, IsrObject, System, TaskObject};
pub use osek_standard::{
    Action, Activity, Alarm, AlarmState, App, Block, Call, Caller, Counter, Isr, Kind, Place,
    Point, Processor, Resource, Schedule, Source, Standing, State, Task, TaskState,
};
pub use osek_values::Lock;
