//! The row of a point.
ghost use Rattle.std.specs.Prelude.{◌≡◌, IfSome, IfNone};
ghost use Rattle.osek_standard.specs.Points.{point_number};
ghost use Rattle.table_rows.specs.{Order.{AscendBy}, Rows.{number_of}};
ghost use Rattle.flow_check.specs.Rows.{IsRowWith, HasNoRowWith};

use abstract_state::Point;
use numbered_sets::NumberedRow;
use table_rows::place_of;

/// The row of a point, if it has one.
pub(crate) fn row_at(rows: &[NumberedRow], point: Point) -> Option<&NumberedRow>
    requires { AscendBy number_of rows.now }
    ensures some { IfSome result (λ row. IsRowWith rows.now (point_number point) row.now) }
    ensures none { IfNone result (HasNoRowWith rows.now (point_number point)) }
{
    match place_of(rows, point.number()) {
        Ok(place) => Some(&rows[place]),
        Err(_gap) => None,
    }
}
