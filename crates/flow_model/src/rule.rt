//! A rule: a case of a whole step.

use crate::case::Decision;
use crate::change::Change;
use crate::test::Condition;
use abstract_state::Point;
use osek_values::{Seq, Status};

/// A case of a step that does something: the values of components that it takes, and what it does then. A component
/// passes where it passes each condition on it; the changes that name it say, one after another, what becomes of it, and
/// where none does it stays as it is.
#[derive(Drop)]
pub struct Rule {
    pub conditions: Seq<Condition>,
    pub changes: Seq<Change>,
    /// The point at which the step ends.
    pub target: Point,
    /// What the scheduler does after an instruction; none where a routine begins.
    pub decision: Option<Decision>,
    /// The status that is noted, if one is.
    pub status: Option<Status>,
}
