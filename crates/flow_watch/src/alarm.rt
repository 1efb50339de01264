//! Alarms.
use osek_standard::Point;

/// The first point of a record that may not come where it stands.
#[derive(Clone, Copy, PartialEq, Eq)]
pub struct Alarm {
    /// Counted in points, from 0.
    pub place: u64,
    /// The point before it; none where it stands first.
    pub before: Option<Point>,
    pub point: Point,
}
