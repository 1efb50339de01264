//! What a reader must believe: an application, the state of the kernel, and every definition of the kernel over these
//! (in `specs/`), in the order and the words of ISO 17356-3.
#![tactic(auto)]

mod app;
mod block;
mod call;
mod counts;
pub mod laws;
mod objects;
mod point;
mod state;
mod task_state;

pub use app::App;
pub use block::{Block, Kind};
pub use call::{
    AlarmService, ArmService, Call, MaskService, PlainService, ResourceService, TaskService,
};
pub use objects::{Action, Alarm, Counter, Isr, Resource, Schedule, Task};
pub use point::Point;
pub use state::{AlarmState, Caller, Processor, RoutineStanding, Source, State};
pub use task_state::{Activity, Place, Standing, TaskState};
