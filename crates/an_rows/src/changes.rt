ghost use Rattle.std.specs.Prelude.{◌≡◌, ◌≤◌, ◌^◌, ◌++◌, [], ◌∷◌, length, map, unwrap_or};
ghost use Rattle.std.specs.Prelude.{IfOk, IsTrue};
ghost use Rattle.an_state.specs.Entries.{with_row, with_rows};
ghost use Rattle.an_state.specs.Tables.{length_of_list};
ghost use Rattle.an_rows.specs.Cells.{cell_of, cells, cells_from, first_cell};
ghost use Rattle.an_rows.specs.Changes.{all_but_first_stand, changes_of, is_settled, place_in, put};
ghost use Rattle.an_rows.specs.Changes.{row_changes, rows_of, with_format};
ghost use Rattle.an_rows.specs.Lent.{change_in, has_no_row};
ghost use Rattle.an_rows.specs.RowTree.{table_of};
ghost use Rattle.an_rows.specs.declared.format.Format.{Format};

use crate::format::{Format, format_text};
use crate::row::{activity_text, row_text};
use an_base::{Bytes, Shared, TryCopy};
use an_keep::Change;
use an_keyed::Keyed;
use an_state::{Activity, Book, Entry, ManifestRow, NoteRow, Object, ReaderRow, Row};
use std::alloc::{AllocError, Global};

/// What the cells change by an entry, the book having the state before it. Of the rows that it puts
/// at most the first may be new, as of those of every accepted write and of a restored row.
#[tactic(auto, unfolding(crate::specs::Changes::changes_of))]
pub fn cells_of(alloc: Global, entry: &Entry, book: &Book) -> Result<Vec<Change>, AllocError>
    requires settled { IsTrue (is_settled book.now.state entry.now) }
    ensures changes { IfOk result (λ changes. changes.items
        ≡ changes_of book.now.state entry.now) }
{
    let changes = changes_of_rows(alloc, entry, book)?;
    let changes = with_format(alloc, changes, book)?;
    Ok(changes)
}

/// The changes, and before them the first cell of all where there is no cell yet.
#[tactic(auto, using(crate::proofs::FormatLemmas::formats))]
fn with_format(alloc: Global, changes: Vec<Change>, book: &Book) -> Result<Vec<Change>, AllocError>
    ensures changes { IfOk result (λ v. v.items
        ≡ with_format (cells book.now.state) changes.items) }
{
    if changes.is_empty() || !has_no_row(book) {
        return Ok(changes);
    }
    let changes = behind_first_cell(alloc, changes)?;
    Ok(changes)
}

fn has_no_row(book: &Book) -> bool
    ensures { result ≡ has_no_row book.now.state }
{
    book.length(1) == 0 && book.length(2) == 0 && book.length(3) == 0 && book.length(4) == 0
}

fn behind_first_cell(alloc: Global, changes: Vec<Change>) -> Result<Vec<Change>, AllocError>
    ensures changes { IfOk result (λ v. v.items ≡ put (first_cell Format.Second) ∷ changes.items) }
{
    let first = first_change(alloc)?;
    let mut changes = changes;
    changes.insert(0, first)?;
    Ok(changes)
}

/// Puts the cell that says how the others are written.
#[tactic(auto, unfolding(crate::specs::Cells::first_cell))]
pub(crate) fn first_change(alloc: Global) -> Result<Change, AllocError>
    ensures change { IfOk result (λ change. change ≡ put (first_cell Format.Second)) }
{
    let text = Bytes::new(alloc, format_text(Format::Second).as_bytes())?;
    Ok(Change {
        tab: 0,
        key: 0,
        val: Some(text),
    })
}

/// The changes that put the rows of an entry, its activities included.
fn changes_of_rows(alloc: Global, entry: &Entry, book: &Book) -> Result<Vec<Change>, AllocError>
    requires settled { IsTrue (is_settled book.now.state entry.now) }
    ensures changes { IfOk result (λ v. v.items
        ≡ row_changes book.now.state (rows_of entry.now)) }
{
    match entry {
        Entry::Restored(row) => changes_of_restored(alloc, row, book),
        Entry::Done {
            rows,
            activities,
            ..
        } => changes_of_write(alloc, rows.as_slice(), activities.as_slice(), book),
    }
}

#[tactic(auto, using(crate::proofs::SettledLemmas::write_changes))]
fn changes_of_write(
    alloc: Global,
    rows: &[Row],
    activities: &[Shared<Activity>],
    book: &Book,
) -> Result<Vec<Change>, AllocError>
    requires settled { IsTrue (all_but_first_stand book.now.state rows.now) }
    ensures changes { IfOk result (λ v. v.items
        ≡ row_changes book.now.state (rows.now ++ map Row.Activity activities.now)) }
{
    let changes = changes_in_places(alloc, rows, book)?;
    let start = activities_before(rows, book);
    let changes = push_activities(alloc, changes, start, activities)?;
    Ok(changes)
}

fn changes_of_restored(alloc: Global, row: &Row, book: &Book) -> Result<Vec<Change>, AllocError>
    ensures changes { IfOk result (λ v. v.items ≡ row_changes book.now.state (row.now ∷ [])) }
{
    let change = change_of(alloc, row, book)?;
    let mut changes = Vec::new(alloc);
    changes.push(change)?;
    Ok(changes)
}

/// Puts each row in its place in the book's state.
fn changes_in_places(alloc: Global, rows: &[Row], book: &Book) -> Result<Vec<Change>, AllocError>
    ensures changes { IfOk result (λ v. v.items ≡ map (change_in book.now.state) rows.now) }
{
    let mut changes = Vec::new(alloc);
    for row in rows {
        let change = change_of(alloc, row, book)?;
        changes.push(change)?;
    }
    Ok(changes)
}

/// Puts a row in its place in the book's state.
fn change_of(alloc: Global, row: &Row, book: &Book) -> Result<Change, AllocError>
    ensures change { IfOk result (λ change. change ≡ change_in book.now.state row.now) }
{
    let key = place_in(row, book)?;
    let text = row_text(alloc, Format::Second, row)?;
    Ok(Change {
        tab: table_of(row),
        key,
        val: Some(text),
    })
}

/// The table that has a row's cell.
pub fn table_of(row: &Row) -> u8
    ensures table { result ≡ table_of row.now }
    ensures first { 1 ≤ result }
    ensures last { result ≤ 4 }
{
    match row {
        Row::Reader(_) => 1,
        Row::Manifest(_) => 2,
        Row::Note(_) => 3,
        Row::Activity(_) => 4,
    }
}

/// The place that a row gets in its list.
fn place_in(row: &Row, book: &Book) -> Result<u64, AllocError>
    ensures place { IfOk result (λ place. place ≡ place_in book.now.state row.now) }
{
    match row {
        Row::Reader(row) => reader_place(row, book),
        Row::Manifest(row) => manifest_place(row.get(), book),
        Row::Note(row) => Ok(note_place(row.get(), book)),
        Row::Activity(_) => Ok(book.length(4) as u64),
    }
}

#[tactic(auto, using(crate::proofs::PlaceLemmas::places))]
fn reader_place(row: &ReaderRow, book: &Book) -> Result<u64, AllocError>
    ensures place { IfOk result (λ place. place ≡ place_in book.now.state (Row.Reader row.now)) }
{
    let name = row.name().copy()?;
    Ok(place_or_end(1, book.place(&Object::Reader(name)), book))
}

#[tactic(auto, using(crate::proofs::PlaceLemmas::places))]
fn manifest_place(row: &ManifestRow, book: &Book) -> Result<u64, AllocError>
    ensures place { IfOk result (λ place. place ≡ place_in book.now.state (Row.Manifest row.now)) }
{
    let name = row.name().copy()?;
    Ok(place_or_end(2, book.place(&Object::Manifest(name)), book))
}

#[tactic(auto, using(crate::proofs::PlaceLemmas::places))]
fn note_place(row: &NoteRow, book: &Book) -> u64
    ensures place { result ≡ place_in book.now.state (Row.Note row.now) }
{
    place_or_end(3, book.note_place(row.owned_by(), row.name()), book)
}

/// The place of a row in its list, or the next place where there is none.
fn place_or_end(list: u8, place: Option<usize>, book: &Book) -> u64
    requires first { 1 ≤ list }
    requires last { list ≤ 4 }
    ensures place { result ≡ unwrap_or place (length_of_list book.now.state list) }
{
    match place {
        Some(place) => place as u64,
        None => book.length(list) as u64,
    }
}

/// How many activities stand before those of an entry. Of its rows only the first may be one.
#[tactic(auto, using(crate::proofs::PlaceLemmas::activities_behind))]
fn activities_before(rows: &[Row], book: &Book) -> u64
    requires settled { IsTrue (all_but_first_stand book.now.state rows.now) }
    ensures length { result ≡ length (with_rows rows.now book.now.state).activities }
    ensures bound { result ≤ 2 ^ 63 }
{
    match rows.first() {
        Some(row) => activities_with(row, book),
        None => book.activities().len() as u64,
    }
}

/// How many activities there are once the row is put.
fn activities_with(row: &Row, book: &Book) -> u64
    ensures length { result ≡ length (with_row book.now.state row.now).activities }
    ensures bound { result ≤ 2 ^ 63 }
{
    let before = book.activities().len() as u64;
    match row {
        Row::Activity(_) => before + 1,
        _ => before,
    }
}

/// Puts activities one behind the other, the first in the place `start`.
pub(crate) fn push_activities(
    alloc: Global,
    changes: Vec<Change>,
    start: u64,
    activities: &[Shared<Activity>],
) -> Result<Vec<Change>, AllocError>
    requires bound { start ≤ 2 ^ 63 }
    ensures changes { IfOk result (λ v. v.items
        ≡ changes.items ++ map put (cells_from Format.Second Row.Activity start activities.now)) }
{
    let mut changes = changes;
    let mut key = start;
    for activity in activities {
        let change = change_of_activity(alloc, key, activity.get())?;
        changes.push(change)?;
        key += 1;
    }
    Ok(changes)
}

fn change_of_activity(alloc: Global, key: u64, activity: &Activity) -> Result<Change, AllocError>
    ensures change { IfOk result
        (λ change. change ≡ put (cell_of Format.Second key (Row.Activity activity.now))) }
{
    let text = activity_text(alloc, activity)?;
    Ok(Change {
        tab: 4,
        key,
        val: Some(text),
    })
}
