//! Lists in the order of their keys, in which a key is found by halving.
ghost use Rattle.std.specs.Prelude.{◌≡◌, ◌<◌, ℕ, IfOk, IfErr};
ghost use Rattle.table_rows.specs.Order.{AscendBy, IsPlaceBy, IsGapBy};

use numbered_sets::NumberedRow;
use osek_standard::Point;

/// What has a key, by which it is looked for.
pub trait Keyed {
    /// The key.
    ghost key: { Self → ℕ };

    /// The key.
    fn key(&self) -> u32
        ensures { result ≡ key self.now };
}

impl Keyed for Point {
    ghost use Rattle.osek_standard.specs.Points.{point_number};

    ghost key = { point_number };

    fn key(&self) -> u32 {
        self.number()
    }
}

impl Keyed for NumberedRow {
    ghost use Rattle.table_rows.specs.Rows.{number_of};

    ghost key = { number_of };

    fn key(&self) -> u32 {
        self.point.number()
    }
}

/// The place of the element with a key, or the one where it belongs.
pub fn place_of<X: Keyed>(xs: &[X], key: u32) -> Result<usize, usize>
    requires { AscendBy X.key xs.now }
    ensures place { IfOk result (IsPlaceBy X.key xs.now key) }
    ensures gap { IfErr result (IsGapBy X.key xs.now key) }
{
    let place = xs.partition_point(|x| x.key() < key);
    if place < xs.len() && xs[place].key() == key {
        Ok(place)
    } else {
        Err(place)
    }
}
