//! Where a step from a point may end.

use abstract_state::{PlainEntry, Point};
use flow_model::Decision;
use osek_values::Status;

/// An exit of a point: the point at which a step ends, the values that the components have then, what the scheduler decided
/// (nothing where a routine began), and the status that the step notes.
#[derive(Drop)]
pub struct Exit {
    pub target: Point,
    pub decision: Option<Decision>,
    pub status: Option<Status>,
    pub entry: PlainEntry,
}
