ghost use Rattle.std.specs.Prelude.{◌≡◌, IfOk, map};
ghost use Rattle.std.specs.List.{list_all};
ghost use Rattle.an_snapshot.specs.Over.{has_place, is_based, is_cleared, stand_over};

use crate::last_rows::LastRows;
use an_keyed::Keyed;
use an_listed::{Filed, Listed};
use an_state::{Book, ManifestRow, NoteRow};
use std::alloc::{AllocError, Global};

/// Whether live annotations still stand on live manifests with what is left of an entry's rows.
pub(crate) fn notes_keep_live_manifests(
    alloc: Global,
    book: &Book,
    listed: &Listed,
    left: &LastRows,
) -> Result<bool, AllocError>
    requires notes { map (λ filed. filed.note) listed.now.rows ≡ book.now.state.notes }
    ensures stand { IfOk result (λ stand. stand
        ≡ stand_over book.now.state left.now.manifests.rows left.now.notes.rows) }
{
    if are_based(book, left) {
        are_cleared(alloc, book, listed, left)
    } else {
        Ok(false)
    }
}

/// Whether the manifest of each annotation that is left is live then.
fn are_based(book: &Book, left: &LastRows) -> bool
    ensures { result
        ≡ list_all (is_based book.now.state left.now.manifests.rows) left.now.notes.rows }
{
    for row in left.notes.as_slice() {
        if !is_based(book, left, row.get()) {
            return false;
        }
    }
    true
}

fn is_based(book: &Book, left: &LastRows, row: &NoteRow) -> bool
    ensures { result ≡ is_based book.now.state left.now.manifests.rows row.now }
{
    match row.live() {
        Some(live) => match left.manifest(book, live.manifest) {
            Some(manifest) => manifest.is_live(),
            None => false,
        },
        None => true,
    }
}

/// Whether no manifest that is deleted leaves a live annotation.
fn are_cleared(
    alloc: Global,
    book: &Book,
    listed: &Listed,
    left: &LastRows,
) -> Result<bool, AllocError>
    requires notes { map (λ filed. filed.note) listed.now.rows ≡ book.now.state.notes }
    ensures { IfOk result (λ cleared. cleared
        ≡ list_all (is_cleared book.now.state left.now.notes.rows) left.now.manifests.rows) }
{
    for row in left.manifests.as_slice() {
        if !is_cleared(alloc, book, listed, left, row.get())? {
            return Ok(false);
        }
    }
    Ok(true)
}

fn is_cleared(
    alloc: Global,
    book: &Book,
    listed: &Listed,
    left: &LastRows,
    row: &ManifestRow,
) -> Result<bool, AllocError>
    requires notes { map (λ filed. filed.note) listed.now.rows ≡ book.now.state.notes }
    ensures { IfOk result (λ cleared. cleared
        ≡ is_cleared book.now.state left.now.notes.rows row.now) }
{
    if row.is_live() {
        return Ok(true);
    }
    let places = listed.on_manifest(alloc, row.name())?;
    Ok(have_places(left, listed.rows(), places.as_slice()))
}

/// Whether each annotation at these places is left.
fn have_places(left: &LastRows, rows: &[Filed], places: &[usize]) -> bool
    ensures { result ≡ list_all (has_place left.now.notes.rows rows.now) places.now }
{
    for place in places {
        if !has_place(left, rows, *place) {
            return false;
        }
    }
    true
}

fn has_place(left: &LastRows, rows: &[Filed], place: usize) -> bool
    ensures { result ≡ has_place left.now.notes.rows rows.now place }
{
    match rows.get(place) {
        Some(filed) => left.has_note(filed.note.get()),
        None => true,
    }
}
