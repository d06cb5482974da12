//! Rows on what is kept: the texts of rows, cells, and the lists of a state.
ghost use Rattle.std.specs.Prelude.{◌≤◌, IfOk, IsTrue};
ghost use Rattle.an_rows.specs.Changes.{is_settled};

use crate::numbers::number;
use crate::rows::{RowError, two_parts, two_words};
use crate::shown::written;
use an_keep::{Cell, Change};
use an_rows::{Format, cells_of, read_row, row_text};
use an_state::{Book, Entry, Row};
use std::alloc::{AllocError, Global};
use std::str::from_utf8;

/// The row that bytes are in a format, by its text as it is written today: `1 0 | {}`.
pub fn row(alloc: Global, format: Format, argument: &str) -> Result<String, RowError> {
    let (place, bytes) = two_parts(argument)?;
    let (tab, key) = two_words(place)?;
    match read_row(alloc, format, number(tab)?, number(key)?, bytes.as_bytes()) {
        Ok(row) => Ok(row_shown(alloc, &row)?),
        Err(error) => Ok(written(alloc, &error)?),
    }
}

fn row_shown(alloc: Global, row: &Row) -> Result<String, AllocError> {
    let text = row_text(alloc, Format::Second, row)?;
    String::from_str(alloc, from_utf8(text.as_slice()).unwrap_or("?"))
}

/// The table, the key and the value of a cell.
pub fn cell_shown(alloc: Global, cell: &Cell) -> Result<String, AllocError> {
    let val = from_utf8(cell.val.as_slice()).unwrap_or("?");
    format!(in alloc; "{} {} {val}", cell.tab, cell.key)
}

/// What a look at a state shows: how many rows a list has, as `length 1`, the text of the row at a
/// place of a list, as `row 1 0`, or which cells a row would change, as `changes 1 0 | {}`.
pub fn look_at(alloc: Global, book: &Book, argument: &str) -> Result<String, RowError> {
    let (kind, rest) = two_words(argument)?;
    match kind {
        "length" => length(alloc, book, rest),
        "row" => row_at(alloc, book, rest),
        "changes" => changes(alloc, book, rest),
        _ => Err(RowError::Form),
    }
}

fn length(alloc: Global, book: &Book, list: &str) -> Result<String, RowError> {
    let list = list_numbered(list)?;
    Ok(written(alloc, &book.length(list))?)
}

fn list_numbered(list: &str) -> Result<u8, RowError>
    ensures first { IfOk result (λ list. 1 ≤ list) }
    ensures last { IfOk result (λ list. list ≤ 4) }
{
    match list {
        "1" => Ok(1),
        "2" => Ok(2),
        "3" => Ok(3),
        "4" => Ok(4),
        _ => Err(RowError::Form),
    }
}

fn row_at(alloc: Global, book: &Book, place: &str) -> Result<String, RowError> {
    let (list, place) = two_words(place)?;
    let list = list_numbered(list)?;
    let place = number(place)?;
    if place < book.length(list) {
        Ok(row_shown(alloc, &book.row_at(list, place)?)?)
    } else {
        Err(RowError::Form)
    }
}

/// The cells that change where the row that bytes are is put, whatever its own key: `1 0 | {}`.
fn changes(alloc: Global, book: &Book, argument: &str) -> Result<String, RowError> {
    let (place, bytes) = two_parts(argument)?;
    let (tab, key) = two_words(place)?;
    match read_row(
        alloc,
        Format::Second,
        number(tab)?,
        number(key)?,
        bytes.as_bytes(),
    ) {
        Ok(row) => Ok(changes_shown(alloc, book, &Entry::Restored(row))?),
        Err(error) => Ok(written(alloc, &error)?),
    }
}

fn changes_shown(alloc: Global, book: &Book, entry: &Entry) -> Result<String, AllocError>
    requires { IsTrue (is_settled book.now.state entry.now) }
{
    let mut shown = String::new(alloc);
    for change in cells_of(alloc, entry, book)? {
        push_change(alloc, &mut shown, &change)?;
    }
    Ok(shown)
}

/// Adds what becomes of a cell; one that is taken away has no value.
fn push_change(alloc: Global, shown: &mut String, change: &Change) -> Result<(), AllocError> {
    let val = match &change.val {
        Some(val) => from_utf8(val.as_slice()).unwrap_or("?"),
        None => "",
    };
    let text = format!(in alloc; "{} {} {val}; ", change.tab, change.key)?;
    shown.push_str(text.as_str())
}
