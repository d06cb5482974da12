//! The row of a cell, put after those of a look.
ghost use Rattle.std.specs.Prelude.{◌≡◌, ◌+◌, ◌<◌, ◌≤◌, ◌^◌, bytes_eq, IfErr, IfOk, IsTrue};
ghost use Rattle.std.specs.Prelude.{OnOk, Ok};
ghost use Rattle.std.specs.List.{list_any};
ghost use Rattle.an_snapshot.specs.Fits.{fits};
ghost use Rattle.an_state.specs.Entries.{after};
ghost use Rattle.an_state.specs.Sound.{is_live_manifest, stands_on_live};
ghost use Rattle.an_state.specs.State.{live_readers, manifest_key, note_key, reader_key};
ghost use Rattle.an_rows.specs.Cells.{has_its_token, has_key, if_next, may_follow, row_behind};
ghost use Rattle.an_rows.specs.Cells.{rows_before};
ghost use Rattle.an_shelf.specs.Restoring.{IsDamage, Reads, RowFits, read_error, row_count};
ghost use Rattle.an_shelf.specs.Restoring.{state_behind};

use crate::error::OpenError;
use an_base::{Name, Text, TryCopy};
use an_keep::Cell;
use an_keyed::Keyed;
use an_policy::Caller;
use an_rows::{Format, RowError, read_row, table_of};
use an_snapshot::Snapshot;
use an_state::{Activity, Book, Entry, Look, ManifestRow, NoteRow, ReaderRow, Row};
use std::alloc::{AllocError, Global};

/// Puts the row of a cell after those of the look.
pub(crate) fn restore(
    alloc: Global,
    snapshot: &mut Snapshot,
    format: Format,
    cell: &Cell,
) -> Result<(), OpenError>
    requires few { row_count snapshot.old.state < 2 ^ 62 }
    requires fits { RowFits format snapshot.old.state cell.now }
    ensures row { OnOk result
        (state_behind format snapshot.old.state cell.now ≡ Ok snapshot.new.state) }
    ensures damaged { IfErr result (IsDamage (state_behind format snapshot.old.state cell.now)) }
    ensures one { OnOk result
        (row_count snapshot.new.state ≤ row_count snapshot.old.state + 1) }
{
    let row = row_behind(alloc, snapshot.book(), format, cell)?;
    show(snapshot, &Entry::Restored(row))?;
    Ok(())
}

/// Shows an entry that fits.
fn show(snapshot: &mut Snapshot, entry: &Entry) -> Result<(), AllocError>
    requires fits { IsTrue (fits snapshot.old.state entry.now) }
    ensures shown { OnOk result (snapshot.new.state ≡ after snapshot.old.state entry.now) }
{
    snapshot.apply(entry)?;
    Ok(())
}

/// The row of a cell, where it may stand behind those of the book.
fn row_behind(alloc: Global, book: &Book, format: Format, cell: &Cell) -> Result<Row, OpenError>
    requires few { row_count book.now.state < 2 ^ 62 }
    ensures row { Reads result (row_behind format book.now.state cell.now) }
{
    match read_row(alloc, format, cell.tab, cell.key, cell.val.as_slice()) {
        Ok(row) => if_next(book, cell, row),
        Err(error) => Err(read_error(cell, error)),
    }
}

/// A cell that can't be read is damaged, unless memory ran out.
fn read_error(cell: &Cell, error: RowError) -> OpenError
    ensures { result ≡ read_error cell.now error }
{
    match error {
        RowError::Memory => OpenError::Memory,
        _ => damage(cell),
    }
}

/// The cell is the one that is damaged.
pub(crate) fn damage(cell: &Cell) -> OpenError
    ensures { result ≡ OpenError.Damaged cell.now.tab cell.now.key }
{
    OpenError::Damaged {
        tab: cell.tab,
        key: cell.key,
    }
}

/// The row of a cell, where the cell has the next key of its table and the row may follow.
fn if_next(book: &Book, cell: &Cell, row: Row) -> Result<Row, OpenError>
    ensures { Reads result (if_next book.now.state cell.now row) }
{
    let follows = may_follow(book, &row)?;
    if cell.key == rows_before(book, &row) && follows {
        Ok(row)
    } else {
        Err(damage(cell))
    }
}

/// How many rows the row's list has.
fn rows_before(book: &Book, row: &Row) -> u64
    ensures { result ≡ rows_before book.now.state row.now }
{
    book.length(table_of(row)) as u64
}

/// Whether the row may stand behind those of the book.
fn may_follow(book: &Book, row: &Row) -> Result<bool, AllocError>
    ensures { IfOk result (λ follows. follows ≡ may_follow book.now.state row.now) }
{
    match row {
        Row::Reader(row) => Ok(!has_reader(book, row) && !has_its_token(book, row)?),
        Row::Manifest(row) => Ok(!has_manifest(book, row.get())),
        Row::Note(row) => {
            let row = row.get();
            Ok(!has_note(book, row) && stands_on_live(book, row))
        }
        Row::Activity(activity) => Ok(is_last(book, activity.get())),
    }
}

/// Whether a reader, live or deleted, has the row's name.
fn has_reader(book: &Book, row: &ReaderRow) -> bool
    ensures { result ≡ has_key reader_key row.now book.now.state.readers }
{
    match book.reader_row(row.name()) {
        Some(_) => true,
        None => false,
    }
}

/// Whether a manifest, live or deleted, has the row's name.
fn has_manifest(book: &Book, row: &ManifestRow) -> bool
    ensures { result ≡ has_key manifest_key row.now book.now.state.manifests }
{
    match book.manifest_row(row.name()) {
        Some(_) => true,
        None => false,
    }
}

/// Whether an annotation, live or deleted, has the row's owner and name.
fn has_note(book: &Book, row: &NoteRow) -> bool
    ensures { result ≡ has_key note_key row.now book.now.state.notes }
{
    match book.note_row(row.owned_by(), row.name()) {
        Some(_) => true,
        None => false,
    }
}

/// Whether a live reader has the row's token, while the row is live.
fn has_its_token(book: &Book, row: &ReaderRow) -> Result<bool, AllocError>
    ensures { IfOk result (λ taken. taken ≡ has_its_token book.now.state row.now) }
{
    match row.reader() {
        Some(reader) => is_taken(book, &reader.token),
        None => Ok(false),
    }
}

/// Whether a live reader has the token.
fn is_taken(book: &Book, token: &Text) -> Result<bool, AllocError>
    ensures { IfOk result (λ taken. taken
        ≡ list_any (λ other. bytes_eq other.token token.now) (live_readers book.now.state)) }
{
    let caller = Caller::Token(token.copy()?);
    match book.who(&caller) {
        Some(_) => Ok(true),
        None => Ok(false),
    }
}

/// Whether the annotation is deleted, or its manifest is live.
fn stands_on_live(book: &Book, row: &NoteRow) -> bool
    ensures { result ≡ stands_on_live book.now.state row.now }
{
    match row.live() {
        Some(live) => is_live_manifest(book, live.manifest),
        None => true,
    }
}

fn is_live_manifest(book: &Book, name: &Name) -> bool
    ensures { result ≡ is_live_manifest book.now.state name.now }
{
    match book.manifest_row(name) {
        Some(row) => row.is_live(),
        None => false,
    }
}

/// Whether the activity is no earlier than the last.
fn is_last(book: &Book, activity: &Activity) -> bool
    ensures { result ≡ may_follow book.now.state (Row.Activity activity.now) }
{
    match book.activities().last() {
        Some(last) => activity.at.seconds() >= last.get().at.seconds(),
        None => true,
    }
}
