//! An object is deleted.
ghost use Rattle.std.specs.Prelude.{◌≡◌, [], ◌∷◌, ◌++◌, IfOk, None, map, option_and_then};
ghost use Rattle.std.specs.Prelude.{option_map, option_to_list};
ghost use Rattle.std.specs.Option.{option_copied};
ghost use Rattle.an_base.specs.Outcome.{Gives};
ghost use Rattle.an_policy.specs.Audience.{identity};
ghost use Rattle.an_state.specs.State.{manifest_row, note_row};
ghost use Rattle.an_machine.specs.Accepted.{buried, burial, deletion};
ghost use Rattle.an_state.specs.View.{audience_of_manifest};
ghost use Rattle.an_machine.specs.Accepted.{manifest_activity, manifest_deletion};
ghost use Rattle.an_machine.specs.Accepted.{manifest_tombstone, note_deletion, note_tombstone};
ghost use Rattle.an_machine.specs.Accepted.{notes_on, number_behind, reader_tombstone};
ghost use Rattle.an_machine.specs.Step.{judged};

use crate::asked::Asked;
use crate::changes::{
    audience_of_note, could_read_manifest, could_read_note, manifest_activity, note_activity,
};
use crate::command::Refused;
use crate::effect::{Effect, change, reader_change};
use crate::versions::{
    is_next_deletion, is_tombstone, manifest_standing, note_standing, reader_standing, unless_done,
};
use an_base::{List, Moment, Name, Shared, TryCopy, copy_both};
use an_keyed::Keyed;
use an_policy::Who;
use an_state::{Activity, Book, ManifestRow, NoteRow, Object, ReaderRow, Row, is_on};
use std::alloc::{AllocError, Global};

/// What a deletion changes; nothing where it was done already.
pub(crate) fn delete(
    alloc: Global,
    book: &Book,
    who: &Who<'_>,
    at: Moment,
    object: &Object,
    version: u32,
) -> Result<Option<Effect>, Refused>
    ensures { Gives (λ e. e) Refused.Memory result
        (judged book.now.state (Asked.Deletion object.now version)
        (deletion book.now.state (identity who.now) at version object.now)) }
{
    match object {
        Object::Reader(name) => delete_reader(alloc, book, who, at, name, version),
        Object::Manifest(name) => delete_manifest(alloc, book, who, at, name, version),
        Object::Note { owner, name } => { delete_note(alloc, book, who, at, owner, name, version) }
    }
}

// ---- readers

fn delete_reader(
    alloc: Global,
    book: &Book,
    who: &Who<'_>,
    at: Moment,
    name: &Name,
    version: u32,
) -> Result<Option<Effect>, Refused>
    ensures { Gives (λ e. e) Refused.Memory result
        (judged book.now.state (Asked.Deletion (Object.Reader name.now) version)
        (deletion book.now.state (identity who.now) at version (Object.Reader name.now))) }
{
    let standing = reader_standing(book.reader_row(name));
    if is_next_deletion(standing, version) {
        Ok(Some(reader_change(alloc, false, reader_tombstone(name, version)?)?))
    } else {
        unless_done(standing, version, is_tombstone(standing))
    }
}

fn reader_tombstone(name: &Name, version: u32) -> Result<ReaderRow, AllocError>
    ensures { IfOk result (λ row. row ≡ reader_tombstone name.now version) }
{
    Ok(ReaderRow {
        name: name.copy()?,
        version,
        reader: None,
    })
}

// ---- manifests

fn delete_manifest(
    alloc: Global,
    book: &Book,
    who: &Who<'_>,
    at: Moment,
    name: &Name,
    version: u32,
) -> Result<Option<Effect>, Refused>
    ensures { Gives (λ e. e) Refused.Memory result
        (judged book.now.state (Asked.Deletion (Object.Manifest name.now) version)
        (deletion book.now.state (identity who.now) at version (Object.Manifest name.now))) }
{
    let row = book.manifest_row(name);
    let standing = manifest_standing(row);
    if is_next_deletion(standing, version) {
        Ok(Some(manifest_deletion(alloc, book, who, at, row, name, version)?))
    } else {
        unless_done(standing, version, is_tombstone(standing))
    }
}

/// The annotations on a manifest are deleted before it.
fn manifest_deletion(
    alloc: Global,
    book: &Book,
    who: &Who<'_>,
    at: Moment,
    row: Option<&ManifestRow>,
    name: &Name,
    version: u32,
) -> Result<Effect, AllocError>
    ensures { IfOk result (λ effect. effect ≡ manifest_deletion book.now.state (identity who.now) at
        (option_copied row.entry) name.now version) }
{
    Ok(Effect {
        made: false,
        rows: buried_rows(alloc, book, row, name, version)?,
        activities: burials(alloc, book, who, at, row, name)?,
    })
}

/// The tombstones of the live annotations on a manifest, and then its own.
fn buried_rows(
    alloc: Global,
    book: &Book,
    row: Option<&ManifestRow>,
    name: &Name,
    version: u32,
) -> Result<List<Row>, AllocError>
    ensures { IfOk result (λ rows. rows
        ≡ map (λ r. Row.Note (buried r)) (notes_on book.now.state name.now)
        ++ option_to_list (option_map Row.Manifest
        (option_map (manifest_tombstone name.now version) (option_copied row.entry)))) }
{
    let mut rows = buried_notes(alloc, book, name)?;
    if let Some(row) = row {
        rows.push(Row::Manifest(manifest_tombstone(alloc, name, version, row)?))?;
    }
    Ok(List::from_vec(rows))
}

fn buried_notes(alloc: Global, book: &Book, manifest: &Name) -> Result<Vec<Row>, AllocError>
    ensures { IfOk result (λ rows. rows.items
        ≡ map (λ row. Row.Note (buried row)) (notes_on book.now.state manifest.now)) }
{
    let mut rows = Vec::new(alloc);
    for row in book.notes() {
        if is_on(row.get(), manifest) {
            rows.push(Row::Note(buried(alloc, row.get())?))?;
        }
    }
    Ok(rows)
}

/// The tombstone that an annotation leaves when its manifest is deleted.
fn buried(alloc: Global, row: &NoteRow) -> Result<Shared<NoteRow>, AllocError>
    ensures { IfOk result (λ r. r ≡ buried row.now) }
{
    note_tombstone(
        alloc,
        row.owned_by(),
        row.name(),
        number_behind(row.version()),
    )
}

fn number_behind(version: u32) -> u32
    ensures { result ≡ number_behind version }
{
    version.saturating_add(1)
}

/// The tombstone of a manifest keeps its group.
fn manifest_tombstone(
    alloc: Global,
    name: &Name,
    version: u32,
    row: &ManifestRow,
) -> Result<Shared<ManifestRow>, AllocError>
    ensures { IfOk result (λ r. r ≡ manifest_tombstone name.now version row.now) }
{
    let (name, group) = copy_both(name, row.group())?;
    Shared::new(
        alloc,
        ManifestRow {
            name,
            version,
            live: false,
            group,
            created: None,
            modified: None,
            tree: None,
        },
    )
}

/// The deletions of the annotations on a manifest, and then its own.
fn burials(
    alloc: Global,
    book: &Book,
    who: &Who<'_>,
    at: Moment,
    row: Option<&ManifestRow>,
    name: &Name,
) -> Result<List<Shared<Activity>>, AllocError>
    ensures { IfOk result (λ activities. activities
        ≡ map (burial book.now.state (identity who.now) at) (notes_on book.now.state name.now)
        ++ manifest_activity (identity who.now) at name.now
        (option_and_then audience_of_manifest (option_copied row.entry)) None ∷ []) }
{
    let mut activities = note_burials(alloc, book, who, at, name)?;
    let could = could_read_manifest(row)?;
    activities.push(manifest_activity(alloc, who, at, name, could, None)?)?;
    Ok(List::from_vec(activities))
}

fn note_burials(
    alloc: Global,
    book: &Book,
    who: &Who<'_>,
    at: Moment,
    manifest: &Name,
) -> Result<Vec<Shared<Activity>>, AllocError>
    ensures { IfOk result (λ activities. activities.items
        ≡ map (burial book.now.state (identity who.now) at)
        (notes_on book.now.state manifest.now)) }
{
    let mut activities = Vec::new(alloc);
    for row in book.notes() {
        if is_on(row.get(), manifest) {
            activities.push(burial(alloc, book, who, at, row.get())?)?;
        }
    }
    Ok(activities)
}

/// The deletion of an annotation with its manifest.
fn burial(
    alloc: Global,
    book: &Book,
    who: &Who<'_>,
    at: Moment,
    row: &NoteRow,
) -> Result<Shared<Activity>, AllocError>
    ensures { IfOk result
        (λ activity. activity ≡ burial book.now.state (identity who.now) at row.now) }
{
    let before = audience_of_note(book, row)?;
    note_activity(alloc, who, at, row.owned_by(), row.name(), before, None)
}

// ---- annotations

fn delete_note(
    alloc: Global,
    book: &Book,
    who: &Who<'_>,
    at: Moment,
    owner: &Name,
    name: &Name,
    version: u32,
) -> Result<Option<Effect>, Refused>
    ensures { Gives (λ e. e) Refused.Memory result
        (judged book.now.state (Asked.Deletion (Object.Note owner.now name.now) version)
        (deletion book.now.state (identity who.now) at version (Object.Note owner.now name.now))) }
{
    let row = book.note_row(owner, name);
    let standing = note_standing(row);
    if is_next_deletion(standing, version) {
        Ok(Some(note_deletion(alloc, book, who, at, row, owner, name, version)?))
    } else {
        unless_done(standing, version, is_tombstone(standing))
    }
}

fn note_deletion(
    alloc: Global,
    book: &Book,
    who: &Who<'_>,
    at: Moment,
    row: Option<&NoteRow>,
    owner: &Name,
    name: &Name,
    version: u32,
) -> Result<Effect, AllocError>
    ensures { IfOk result (λ effect. effect ≡ note_deletion book.now.state (identity who.now) at
        (option_copied row.entry) owner.now name.now version) }
{
    let could = could_read_note(book, row)?;
    let activity = note_activity(alloc, who, at, owner, name, could, None)?;
    let tombstone = note_tombstone(alloc, owner, name, version)?;
    change(alloc, false, Row::Note(tombstone), activity)
}

/// The tombstone of an annotation.
fn note_tombstone(
    alloc: Global,
    owner: &Name,
    name: &Name,
    version: u32,
) -> Result<Shared<NoteRow>, AllocError>
    ensures { IfOk result (λ row. row ≡ note_tombstone owner.now name.now version) }
{
    let (owner, name) = copy_both(owner, name)?;
    Shared::new(
        alloc,
        NoteRow {
            owner,
            name,
            version,
            live: false,
            manifest: None,
            group: None,
            creator: None,
            created: None,
            modified: None,
            tree: None,
        },
    )
}
