//! How many values a table has.
ghost use Rattle.std.specs.Prelude.{◌≡◌};
ghost use Rattle.abstract_state.specs.{Tables.{value_count}, Written.{IsWritten}};

use abstract_state::masks_are_few;
use numbered_sets::Table;
use osek_standard::App;

/// The number of values in all sets of all entries of a table of the application.
pub fn values(app: &App, table: &Table) -> u64
    requires { IsWritten app.now table.now }
    ensures { result ≡ value_count table.now }
{
    masks_are_few(app);
    table.values()
}
