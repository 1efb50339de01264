//! The kernel of ISO 17356-3 for one application: effects of instructions, the choice of the best task, dispatch,
//! interrupts, the start and one step.
#![tactic(auto)]

mod arrivals;
mod calls;
mod changes;
mod dispatch;
mod effects;
mod inside;
mod nests;
mod places;
mod queue;
mod ready;
mod replies;
mod services;
mod startup;
mod steps;

pub use arrivals::take_arrival;
pub use changes::named_here;
pub use dispatch::{conclude, switch_to};
pub use effects::{effect, silent_effect};
pub use inside::{keep, keep_ready, take_in_running};
pub use places::{here, point_of};
pub use ready::Ready;
pub use replies::Effect;
pub use startup::start;
pub use steps::{nothing, step, take_event};
