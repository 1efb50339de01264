//! Rules of the analysis of flow: which values of the components a step takes, what it makes of them, and what that says
//! of the steps of states (in `specs/`).
#![tactic(auto)]

mod case;
mod change;
mod going;
mod release;
mod rule;
mod runner;
mod test;

pub use case::{Asked, Decision, EffectCase, Leaving, OutcomeCase, Stay};
pub use change::{Change, Update, value_after};
pub use release::Releases;
pub use rule::Rule;
pub use runner::{Runner, routine_of, task_of};
pub use test::{Condition, Test};
