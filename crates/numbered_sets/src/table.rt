//! Tables of numbered entries, beside the pool that numbers their values.
ghost use Rattle.std.specs.Prelude.{◌≡◌};

use crate::counts::count_rows;
use crate::numbered_entry::NumberedEntry;
use crate::pool::Pool;
use abstract_state::Point;
use osek_values::{Memory, Seq};
use std::alloc::Global;
use std::marker::Model;

/// A point and its entry by number.
#[derive(Drop)]
pub struct NumberedRow {
    pub point: Point,
    pub entry: NumberedEntry,
}

/// The rows of a table, beside a pool of their own, which may grow.
#[derive(Drop)]
pub struct NumberedRows<'a> {
    pub rows: &'a Seq<NumberedRow>,
    pub pool: Pool,
}

/// An entry for some of the points, by number. Contracts see it as the plain table of its rows.
#[derive(Drop)]
pub struct Table {
    pool: Pool,
    rows: Seq<NumberedRow>,
}

impl Model for Table {
    ghost use Rattle.abstract_state.specs.declared.table.PlainTable.{PlainTable};

    ghost Value = { PlainTable };

    ghost use Rattle.numbered_sets.specs.PlainTables.{plain_table, AreRowsOf};

    ghost view = { λ t. plain_table t.pool t.rows };

    ghost invariant = { λ t. AreRowsOf t.pool t.rows };
}

impl Table {
    ghost use Rattle.std.specs.Prelude.{◌≡◌, ◌<◌, ◌^◌, length, IfOk};
    ghost use Rattle.abstract_state.specs.Tables.{value_count};
    ghost use Rattle.numbered_sets.specs.PlainTables.{plain_table, AreRowsOf, AreRowsFor};

    /// The table of rows whose numbers are those of a pool. It takes no memory.
    pub fn of(pool: Pool, rows: Seq<NumberedRow>) -> Table
        requires { AreRowsOf pool rows }
        ensures { result ≡ plain_table pool rows }
    {
        Table { pool, rows }
    }

    /// How many rows there are.
    pub fn len(&self) -> usize
        ensures { result ≡ length self.now.rows }
    {
        self.rows.len()
    }

    /// Its rows, beside a copy of its pool.
    pub fn numbered_rows(&self, alloc: Global) -> Result<NumberedRows<'_>, Memory>
        ensures { IfOk result (λ x. AreRowsFor self.now.rows x.pool x.rows.now) }
    {
        let pool = self.pool.copy(alloc)?;
        Ok(NumberedRows {
            rows: &self.rows,
            pool,
        })
    }

    /// The number of values in all sets of all entries.
    pub fn values(&self) -> u64
        requires { value_count self.now < 2 ^ 64 }
        ensures { result ≡ value_count self.now }
    {
        self.pool.are_values();
        count_rows(self.rows.as_slice())
    }
}
