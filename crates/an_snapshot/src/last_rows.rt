ghost use Rattle.std.specs.Prelude.{◌≡◌, [], IfOk, OnOk};
ghost use Rattle.std.specs.Option.{option_copied};
ghost use Rattle.an_keyed.specs.Rows.{put_row};
ghost use Rattle.an_state.specs.State.{manifest_key, note_key};
ghost use Rattle.an_state.specs.declared.entry.Row.TheVariants as kept;
ghost use Rattle.an_snapshot.specs.Over.{has_note, keeps_over, manifest_over};
ghost use Rattle.an_snapshot.specs.Over.{manifests_with, notes_with};
ghost use Rattle.an_snapshot.specs.Plan.{Leaves};

use an_base::{Name, Shared, TryCopy};
use an_keyed::{Keyed, Rows};
use an_policy::is_same_group;
use an_state::{Book, ManifestRow, NoteRow, Row};
use std::alloc::{AllocError, Global};

/// Of the manifests and annotations that an entry changes the last row of each.
#[derive(Drop)]
pub(crate) struct LastRows {
    pub manifests: Rows<Shared<ManifestRow>>,
    pub notes: Rows<Shared<NoteRow>>,
}

impl LastRows {
    fn new(alloc: Global) -> LastRows
        ensures manifests { result.manifests.rows ≡ [] }
        ensures notes { result.notes.rows ≡ [] }
    {
        LastRows {
            manifests: Rows::new(alloc),
            notes: Rows::new(alloc),
        }
    }

    /// The row of the manifest of this name: the one that is left, or else the book's.
    pub fn manifest<'a>(&'a self, book: &'a Book, name: &Name) -> Option<&'a ManifestRow>
        ensures row { option_copied result
            ≡ manifest_over book.now.state self.now.manifests.rows name.now }
    {
        match self.manifests.find(None, name) {
            Some(row) => Some(row.get()),
            None => book.manifest_row(name),
        }
    }

    /// Whether a row of the annotation is left.
    pub fn has_note(&self, row: &NoteRow) -> bool
        ensures has { result ≡ has_note self.now.notes.rows row.now }
    {
        self.notes.find(row.owner(), row.name()).is_some()
    }

    fn put_manifest(&mut self, row: &Shared<ManifestRow>) -> Result<(), AllocError>
        ensures manifests { OnOk result
            (self.new.manifests.rows ≡ put_row manifest_key row.now self.old.manifests.rows) }
        ensures notes { self.new.notes.rows ≡ self.old.notes.rows }
    {
        self.manifests.make_room(1)?;
        self.manifests.put(row.copy()?);
        Ok(())
    }

    fn put_note(&mut self, row: &Shared<NoteRow>) -> Result<(), AllocError>
        ensures manifests { self.new.manifests.rows ≡ self.old.manifests.rows }
        ensures notes { OnOk result
            (self.new.notes.rows ≡ put_row note_key row.now self.old.notes.rows) }
    {
        self.notes.make_room(1)?;
        self.notes.put(row.copy()?);
        Ok(())
    }

    fn put(&mut self, row: &Row) -> Result<(), AllocError>
        ensures manifests { OnOk result
            (self.new.manifests.rows ≡ manifests_with row.now self.old.manifests.rows) }
        ensures notes { OnOk result
            (self.new.notes.rows ≡ notes_with row.now self.old.notes.rows) }
    {
        match row {
            Row::Reader(_) => Ok(()),
            Row::Manifest(row) => self.put_manifest(row),
            Row::Note(row) => self.put_note(row),
            Row::Activity(_) => Ok(()),
        }
    }
}

/// What is left of these rows; none where a manifest's group changes.
pub(crate) fn left_of(
    alloc: Global,
    book: &Book,
    rows: &[Row],
) -> Result<Option<LastRows>, AllocError>
    ensures left { IfOk result (λ left. Leaves book.now.state rows.now left) }
{
    let mut left = LastRows::new(alloc);
    for row in rows {
        if !keeps_group(book, &left, row) {
            return Ok(None);
        }
        left.put(row)?;
    }
    Ok(Some(left))
}

/// Whether the row leaves a manifest its group.
fn keeps_group(book: &Book, left: &LastRows, row: &Row) -> bool
    ensures { result ≡ keeps_over book.now.state left.now.manifests.rows row.now }
{
    match row {
        Row::Reader(_) => true,
        Row::Manifest(row) => keeps_its_group(book, left, row.get()),
        Row::Note(_) => true,
        Row::Activity(_) => true,
    }
}

fn keeps_its_group(book: &Book, left: &LastRows, row: &ManifestRow) -> bool
    ensures { result ≡ keeps_over book.now.state left.now.manifests.rows (kept.Manifest row.now) }
{
    match left.manifest(book, row.name()) {
        Some(old) => is_same_group(old.group(), row.group()),
        None => true,
    }
}
