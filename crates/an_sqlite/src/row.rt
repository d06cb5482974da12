ghost use Rattle.std.specs.Prelude.{◌<◌, ◌^◌, IfOk};
ghost use Rattle.an_sqlite.specs.Row.{Shows, ShowsKey, ShowsTable};

use crate::statements::refusal;
use an_base::Bytes;
use an_keep::{Cell, KeepError};
use sqlite::{Error, Row};

/// The cell of a row. A row that isn't one fails: its table is beyond 0 to 255, its key is
/// negative, or a value is of another kind, as in a table that somebody else made.
pub(crate) fn cell_of(row: &Row) -> Result<Cell, KeepError>
    ensures shows { IfOk result (Shows row.now) }
    ensures key { IfOk result (λ cell. cell.key < 2 ^ 63) }
{
    match cell_in(row) {
        Ok(cell) => Ok(cell),
        Err(error) => Err(refusal(error)),
    }
}

fn cell_in(row: &Row) -> Result<Cell, Error>
    ensures shows { IfOk result (Shows row.now) }
    ensures key { IfOk result (λ cell. cell.key < 2 ^ 63) }
{
    let tab = tab_in(row)?;
    let key = key_in(row)?;
    let val: Vec<u8> = row.get(2)?;
    Ok(Cell {
        tab,
        key,
        val: Bytes::from_vec(val),
    })
}

fn tab_in(row: &Row) -> Result<u8, Error>
    ensures { IfOk result (ShowsTable row.now) }
{
    let tab: u32 = row.get(0)?;
    match u8::try_from(tab) {
        Ok(tab) => Ok(tab),
        Err(_) => Err(Error::IntegralValueOutOfRange(0)),
    }
}

/// No row has a key above 2^63 - 1.
fn key_in(row: &Row) -> Result<u64, Error>
    ensures shows { IfOk result (ShowsKey row.now) }
    ensures fits { IfOk result (λ key. key < 2 ^ 63) }
{
    let key: i64 = row.get(1)?;
    match u64::try_from(key) {
        Ok(key) => Ok(key),
        Err(_) => Err(Error::IntegralValueOutOfRange(1)),
    }
}
