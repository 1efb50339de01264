//! What is said of an image and a table.

use abstract_state::Point;
use osek_values::{BlockNo, ModeNo};

/// What `check` says: yes, or the least no, by its number and then by its place.
#[derive(Clone, Copy, PartialEq, Eq)]
pub enum Verdict {
    /// The table is inductive, and the image fits it.
    Yes,
    /// The start in this mode isn't in the table.
    N1(ModeNo),
    /// A step from a state in the table at this point leaves the table.
    N2(Point),
    /// The form of the site at this block doesn't fit the table.
    N3(BlockNo),
    /// What is known of the status at this block doesn't fit the table.
    N4(BlockNo),
}
