ghost use Rattle.std.specs.Prelude.{◌≡◌, [], All, IfOk, IsTrue, OnOk};
ghost use Rattle.an_policy.specs.Classes.{Grows};
ghost use Rattle.an_state.specs.Entries.{with_row};
ghost use Rattle.an_state.specs.State.{empty, is_distinct, keys_are_distinct};
ghost use Rattle.an_state.specs.State.{manifest_key, note_key, reader_key};
ghost use Rattle.an_snapshot.specs.Changes.{IsChangeFiled, activities_in};

use crate::changes::{Changes, add_changes};
use crate::filing::{add_activities, file_all};
use an_base::{Shared, TryCopy};
use an_policy::Classes;
use an_state::{Activity, Book, Entry, ManifestRow, NoteRow, ReaderRow, Row};
use std::alloc::{AllocError, Global};

/// A copy of a book, which shares its rows.
pub(crate) fn copy_book(alloc: Global, book: &Book) -> Result<Book, AllocError>
    requires readers { IsTrue (keys_are_distinct reader_key book.now.state.readers) }
    requires distinct { IsTrue (is_distinct book.now.state) }
    ensures state { IfOk result (λ copy. copy.state ≡ book.now.state) }
{
    let mut copy = Book::new(alloc);
    match copy_rows(&mut copy, book) {
        Ok(()) => Ok(copy),
        Err(error) => {
            drop(copy);
            Err(error)
        }
    }
}

/// Puts all rows of a book into an empty one.
fn copy_rows(copy: &mut Book, book: &Book) -> Result<(), AllocError>
    requires readers { IsTrue (keys_are_distinct reader_key book.now.state.readers) }
    requires distinct { IsTrue (is_distinct book.now.state) }
    requires empty { copy.old.state ≡ empty }
    ensures state { OnOk result (copy.new.state ≡ book.now.state) }
{
    copy_readers(copy, book.readers())?;
    copy_manifests(copy, book.manifests())?;
    copy_notes(copy, book.notes())?;
    copy_activities(copy, book.activities())
}

fn copy_readers(copy: &mut Book, rows: &[ReaderRow]) -> Result<(), AllocError>
    requires distinct { IsTrue (keys_are_distinct reader_key rows.now) }
    requires none { copy.old.state.readers ≡ [] }
    ensures added { OnOk result
        (copy.new.state ≡ record copy.old.state { readers = rows.now }) }
{
    for row in rows {
        let row = row.copy()?;
        add(copy, Row::Reader(row))?;
    }
    Ok(())
}

fn copy_manifests(copy: &mut Book, rows: &[Shared<ManifestRow>]) -> Result<(), AllocError>
    requires distinct { IsTrue (keys_are_distinct manifest_key rows.now) }
    requires none { copy.old.state.manifests ≡ [] }
    ensures added { OnOk result
        (copy.new.state ≡ record copy.old.state { manifests = rows.now }) }
{
    for row in rows {
        let row = row.copy()?;
        add(copy, Row::Manifest(row))?;
    }
    Ok(())
}

fn copy_notes(copy: &mut Book, rows: &[Shared<NoteRow>]) -> Result<(), AllocError>
    requires distinct { IsTrue (keys_are_distinct note_key rows.now) }
    requires none { copy.old.state.notes ≡ [] }
    ensures added { OnOk result
        (copy.new.state ≡ record copy.old.state { notes = rows.now }) }
{
    for row in rows {
        let row = row.copy()?;
        add(copy, Row::Note(row))?;
    }
    Ok(())
}

fn copy_activities(copy: &mut Book, rows: &[Shared<Activity>]) -> Result<(), AllocError>
    requires none { copy.old.state.activities ≡ [] }
    ensures added { OnOk result
        (copy.new.state ≡ record copy.old.state { activities = rows.now }) }
{
    for row in rows {
        let row = row.copy()?;
        add(copy, Row::Activity(row))?;
    }
    Ok(())
}

/// Puts a row.
fn add(book: &mut Book, row: Row) -> Result<(), AllocError>
    ensures added { OnOk result (book.new.state ≡ with_row book.old.state row) }
{
    let entry = Entry::Restored(row);
    book.room(&entry)?;
    book.apply(entry);
    Ok(())
}

/// A copy of classes, in which each audience has its number.
pub(crate) fn copy_classes(alloc: Global, classes: &Classes) -> Result<Classes, AllocError>
    ensures classes { IfOk result (λ copy. copy ≡ classes.now) }
{
    let mut copy = Classes::new(alloc);
    for audience in classes.as_slice() {
        copy.add(audience)?;
    }
    Ok(copy)
}

/// The changes that these activities are, each with its pair.
pub(crate) fn copy_changes(
    alloc: Global,
    classes: &mut Classes,
    activities: &[Shared<Activity>],
) -> Result<Changes, AllocError>
    ensures grows { Grows classes.old classes.new }
    ensures activities { IfOk result (λ copy. activities_in copy.rows ≡ activities.now) }
    ensures filed { IfOk result
        (λ copy. All (IsChangeFiled classes.new copy.pairs) copy.rows) }
{
    let mut copied = Vec::with_capacity(alloc, activities.len())?;
    add_activities(&mut copied, activities)?;
    let mut changes = Changes::new(alloc);
    let added = file_all(alloc, classes, &mut changes, copied)?;
    changes.make_room(added.len())?;
    add_changes(&mut changes, added);
    Ok(changes)
}
