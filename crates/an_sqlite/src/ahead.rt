ghost use Rattle.std.specs.Prelude.{◌≡◌, IfOk, OnErr};
ghost use Rattle.an_keep.specs.Cells.{is_behind};
ghost use Rattle.an_sqlite.specs.Ahead.{MayGive};

use crate::row::cell_of;
use an_keep::{Cell, KeepError};
use sqlite::Row;

/// Rows that were read ahead: those behind a table and a key, in their order and with none between.
#[derive(Drop)]
pub(crate) struct Ahead {
    tab: u8,
    key: u64,
    rows: Vec<Row>,
    /// How many of the rows were given.
    given: usize,
}

impl Ahead {
    /// The first rows behind this table and key.
    pub(crate) fn new(tab: u8, key: u64, rows: Vec<Row>) -> Ahead
        ensures { result ≡ record { tab = tab; key = key; rows = rows; given = 0 } }
    {
        Ahead {
            tab,
            key,
            rows,
            given: 0,
        }
    }

    /// The next cell, where what is left begins behind this table and key, and its first row is
    /// behind them too, which it isn't where a foreign table has two rows of one key.
    pub(crate) fn next_after(&mut self, tab: u8, key: u64) -> Result<Option<Cell>, KeepError>
        ensures given { IfOk result (MayGive tab key self.old self.new) }
        ensures kept { OnErr result (self.new ≡ self.old) }
    {
        if self.tab != tab || self.key != key {
            return Ok(None);
        }
        let Some(row) = self.rows.get(self.given) else {
            return Ok(None);
        };
        let cell = cell_of(row)?;
        if !is_behind(&cell, tab, key) {
            return Ok(None);
        }
        self.tab = cell.tab;
        self.key = cell.key;
        self.given = self.given.saturating_add(1);
        Ok(Some(cell))
    }
}

/// Whether the cell comes behind this table and key.
fn is_behind(cell: &Cell, tab: u8, key: u64) -> bool
    ensures { result ≡ is_behind tab key cell.now }
{
    tab < cell.tab || tab == cell.tab && key < cell.key
}
