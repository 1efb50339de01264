//! How many numbers entries have.
ghost use Rattle.std.specs.Prelude.{◌≡◌, ◌<◌, ◌^◌};
ghost use Rattle.numbered_sets.specs.{NumberedEntries.{entry_numbers}, Counts.{row_numbers}};

use crate::numbered_entry::NumberedEntry;
use crate::table::NumberedRow;

/// How many numbers the entries of rows have.
pub(crate) fn count_rows(rows: &[NumberedRow]) -> u64
    requires { row_numbers rows.now < 2 ^ 64 }
    ensures { result ≡ row_numbers rows.now }
{
    let mut found = 0;
    for row in rows {
        found += count_entry(&row.entry);
    }
    found
}

fn count_entry(entry: &NumberedEntry) -> u64
    requires { entry_numbers entry.now < 2 ^ 64 }
    ensures { result ≡ entry_numbers entry.now }
{
    let mut found = 0;
    for component in 0..entry.sets.len() {
        found += entry.sets.count(component);
    }
    found
}
