//! The cases of an effect, of which those that differ in one condition alone are told together.

use crate::waiting::Wait;
use flow_model::{Condition, EffectCase};
use osek_values::Seq;

/// Cases that differ in one condition alone: each has those of an effect, and one of these besides.
#[derive(Drop)]
pub struct Alternatives {
    pub effect: EffectCase,
    pub conditions: Seq<Condition>,
}

/// The cases of an effect.
#[derive(Drop)]
pub struct Effects {
    pub cases: Seq<EffectCase>,
    /// Further cases, if there are any.
    pub alternatives: Option<Alternatives>,
    /// The WaitEvent, if they are those of one of an extended task.
    pub wait: Option<Wait>,
}
