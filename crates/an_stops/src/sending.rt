//! Lines that are sent to a store, and the cells that it keeps.
use crate::lent::Lent;
use an_base::Bytes;
use an_keep::{Cell, KeepError, Keeper, MemKeeper};
use an_lines::import;
use an_shelf::Desk;
use an_sqlite::SqlKeeper;
use an_world::MemLink;
use sqlite::{Alter, Connection, MemStore};
use std::alloc::{AllocError, Global};
use std::str::from_utf8;

/// A keeper over a connection in memory.
pub type MemSqlKeeper = SqlKeeper<MemStore>;

/// How many bytes an import prints at most.
const PRINTED: usize = 1_000;

/// How many cells are shown at most.
const CELLS: usize = 64;

/// What an import of lines prints.
pub fn printed<K: Keeper>(
    alloc: Global,
    desk: &mut Desk<K>,
    lines: &str,
) -> Result<String, AllocError> {
    let input = Bytes::new(alloc, lines.as_bytes())?;
    let (cut, reads, writes) = (Vec::new(alloc), Vec::new(alloc), Vec::new(alloc));
    let mut link = MemLink::new(alloc, input, cut, reads, writes, PRINTED)?;
    import(alloc, &mut link, desk);
    String::from_str(alloc, from_utf8(link.written()).unwrap_or("?").trim_end())
}

/// How many of the lines, each sent by an import of its own, are accepted by a store over the
/// keeper, or None where it isn't opened.
pub fn accepted<K: Keeper>(
    alloc: Global,
    keeper: &mut K,
    lines: &str,
) -> Result<Option<usize>, AllocError> {
    match Desk::open(alloc, Lent { keeper }) {
        Ok(mut desk) => {
            let accepted = accepted_by(alloc, &mut desk, lines);
            // A store that gives its keeper back leaves nothing to drop.
            let Lent { keeper: _ } = desk.into_keeper();
            Ok(Some(accepted?))
        }
        Err(_unopened) => Ok(None),
    }
}

fn accepted_by<K: Keeper>(
    alloc: Global,
    desk: &mut Desk<K>,
    lines: &str,
) -> Result<usize, AllocError> {
    let mut accepted = 0usize;
    for line in lines.lines() {
        if printed(alloc, desk, line)?.as_str() == "accepted 1 repeated 0 old 0" {
            accepted = accepted.saturating_add(1);
        }
    }
    Ok(accepted)
}

/// The cells of a keeper in their order, and behind them `none`, or how a call of it failed.
pub fn cells<K: Keeper>(alloc: Global, keeper: &mut K) -> Result<String, AllocError> {
    let mut found = String::new(alloc);
    let mut next = keeper.first();
    for _ in 0..CELLS {
        found.push_str(shown(alloc, &next)?.as_str())?;
        match next {
            Ok(Some(cell)) => next = keeper.next_after(cell.tab, cell.key),
            _ => break,
        }
        found.push_str("; ")?;
    }
    Ok(found)
}

/// A cell, with its table, its key and its value.
pub fn shown(alloc: Global, cell: &Result<Option<Cell>, KeepError>) -> Result<String, AllocError> {
    match cell {
        Ok(Some(cell)) => {
            let val = from_utf8(cell.val.as_slice()).unwrap_or("?");
            format!(in alloc; "{} {} {val}", cell.tab, cell.key)
        }
        Ok(None) => String::from_str(alloc, "none"),
        Err(KeepError::Failed) => String::from_str(alloc, "failed"),
        Err(KeepError::Memory) => String::from_str(alloc, "memory"),
    }
}

/// The cells of a keeper in memory behind each of the lines, and before them.
pub fn states(alloc: Global, lines: &str) -> Result<Vec<String>, AllocError> {
    let mut keeper = MemKeeper::new(Vec::new(alloc), Vec::new(alloc));
    let mut states = Vec::new(alloc);
    states.push(cells(alloc, &mut keeper)?)?;
    for line in lines.lines() {
        let _ = accepted(alloc, &mut keeper, line)?;
        states.push(cells(alloc, &mut keeper)?)?;
    }
    Ok(states)
}

/// The cells of a keeper in memory after all of the lines.
pub fn due_cells(alloc: Global, lines: &str) -> Result<String, AllocError> {
    let states = states(alloc, lines)?;
    String::from_str(alloc, states.last().map_or("", |cells| cells.as_str()))
}

/// The keeper over which lines are imported again.
#[derive(Clone, Copy)]
pub enum Second {
    /// The one that the first store gave back.
    Same,
    /// Another one over its connection.
    Another,
}

/// What two imports of the lines print, the second over this keeper, and whether the cells behind
/// both are those of a keeper in memory.
pub fn import_twice(alloc: Global, lines: &str, second: Second) -> Result<String, AllocError> {
    let due = due_cells(alloc, lines)?;
    let due = due.as_str();
    let mut told = String::new(alloc);
    let keeper = SqlKeeper::adopt(Connection::open_in_memory(alloc)?);
    let Some(keeper) = import_over(alloc, keeper, lines, due, &mut told)? else {
        return Ok(told);
    };
    let Some(keeper) = second_keeper(keeper, second) else {
        return Ok(told);
    };
    told.push_str("; ")?;
    let _ = import_over(alloc, keeper, lines, due, &mut told)?;
    Ok(told)
}

fn second_keeper(keeper: MemSqlKeeper, second: Second) -> Option<MemSqlKeeper> {
    match second {
        Second::Same => Some(keeper),
        Second::Another => Some(SqlKeeper::adopt(keeper.into_connection()?)),
    }
}

/// Tells what an import over a keeper prints, and whether the cells after it are those that are
/// due, and gives the keeper back as the store does.
pub fn import_over<S: Alter + Drop>(
    alloc: Global,
    keeper: SqlKeeper<S>,
    lines: &str,
    due: &str,
    told: &mut String,
) -> Result<Option<SqlKeeper<S>>, AllocError> {
    match Desk::open(alloc, keeper) {
        Ok(mut desk) => {
            let printed = printed(alloc, &mut desk, lines);
            let mut keeper = desk.into_keeper();
            match tell_import(alloc, &mut keeper, printed, due, told) {
                Ok(()) => Ok(Some(keeper)),
                Err(error) => {
                    drop(keeper);
                    Err(error)
                }
            }
        }
        Err(_unopened) => {
            told.push_str("not opened")?;
            Ok(None)
        }
    }
}

fn tell_import<K: Keeper>(
    alloc: Global,
    keeper: &mut K,
    printed: Result<String, AllocError>,
    due: &str,
    told: &mut String,
) -> Result<(), AllocError> {
    told.push_str(printed?.as_str())?;
    if cells(alloc, keeper)?.as_str() == due {
        told.push_str(", the cells due")
    } else {
        told.push_str(", other cells")
    }
}
