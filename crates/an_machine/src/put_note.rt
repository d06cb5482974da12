//! An annotation is put.
ghost use Rattle.std.specs.Prelude.{◌≡◌, IfOk, Some, option_and_then, option_map};
ghost use Rattle.std.specs.Option.{option_copied};
ghost use Rattle.an_base.specs.Outcome.{Gives, passes};
ghost use Rattle.an_policy.specs.Audience.{identity};
ghost use Rattle.an_state.specs.State.{manifest_row, note_row};
ghost use Rattle.an_machine.specs.Accepted.{creator_of, live_in, note_effect};
ghost use Rattle.an_state.specs.View.{audience_of_note};
ghost use Rattle.an_machine.specs.Accepted.{note_activity, note_made, put_note, user_of};
ghost use Rattle.an_machine.specs.Step.{judged};
ghost use Rattle.an_machine.specs.Versions.{holds_note};

use crate::asked::{Asked, NotePut};
use crate::changes::{audience_below, note_activity};
use crate::command::Refused;
use crate::effect::{Effect, change, moments};
use crate::versions::{is_behind, note_standing, unless_done};
use an_base::{Moment, Name, Shared, Text, TryCopy};
use an_keyed::Keyed;
use an_policy::{Audience, Who, is_same_inner, user_of};
use an_state::{Activity, Book, LiveNote, ManifestRow, NoteRow, Row, as_known};
use std::alloc::{AllocError, Global};

/// What a put of an annotation on this manifest changes; nothing where it was done already.
pub(crate) fn put_note(
    alloc: Global,
    book: &Book,
    who: &Who<'_>,
    at: Moment,
    manifest: Option<&ManifestRow>,
    put: NotePut,
) -> Result<Option<Effect>, Refused>
    requires manifest { option_copied manifest ≡ manifest_row book.now.state put.manifest }
    ensures { Gives (λ e. e) Refused.Memory result (judged book.now.state (Asked.Note put)
        (note_effect book.now.state (identity who.now) at
        (note_row book.now.state put.owner put.name) put)) }
{
    let before = book.note_row(&put.owner, &put.name);
    let standing = note_standing(before);
    if is_behind(standing, put.version) {
        Ok(Some(note_effect(alloc, book, who, at, before, manifest, put)?))
    } else {
        unless_done(standing, put.version, is_held(before, &put))
    }
}

/// Whether the row is live with what is put.
fn is_held(row: Option<&NoteRow>, put: &NotePut) -> bool
    ensures { result ≡ passes (holds_note put.now) (option_copied row.entry) }
{
    match row {
        Some(row) => match row.live() {
            Some(live) => {
                live.manifest == &put.manifest
                    && is_same_inner(live.group, &put.group)
                    && live.tree.text() == put.note.text()
            }
            None => false,
        },
        None => false,
    }
}

fn note_effect(
    alloc: Global,
    book: &Book,
    who: &Who<'_>,
    at: Moment,
    before: Option<&NoteRow>,
    manifest: Option<&ManifestRow>,
    put: NotePut,
) -> Result<Effect, AllocError>
    requires manifest { option_copied manifest ≡ manifest_row book.now.state put.manifest }
    ensures { IfOk result (λ effect. effect
        ≡ note_effect book.now.state (identity who.now) at (option_copied before.entry) put) }
{
    let put = with_kept_names(who, manifest, put)?;
    let put = with_kept_name(before, put)?;
    let activity = put_activity(alloc, book, who, at, before, manifest, &put)?;
    let row = new_row(alloc, who, at, before, put)?;
    change(alloc, !note_standing(before).live, Row::Note(row), activity)
}

/// The same put, whose names share the texts of the rows that stand: an owner's of the row of who
/// writes, and a manifest's of its own row.
fn with_kept_names(
    who: &Who<'_>,
    manifest: Option<&ManifestRow>,
    put: NotePut,
) -> Result<NotePut, AllocError>
    ensures { IfOk result (λ same. same ≡ put) }
{
    let NotePut {
        owner,
        name,
        version,
        manifest: on,
        group,
        note,
    } = put;
    let owner = as_known(writer(who), owner)?;
    let on = as_known(name_of_row(manifest), on)?;
    Ok(NotePut {
        owner,
        name,
        version,
        manifest: on,
        group,
        note,
    })
}

/// The same put, whose name shares the text of the row that it replaces, so that the changes of one
/// annotation have one text.
fn with_kept_name(before: Option<&NoteRow>, put: NotePut) -> Result<NotePut, AllocError>
    ensures { IfOk result (λ same. same ≡ put) }
{
    let NotePut {
        owner,
        name,
        version,
        manifest,
        group,
        note,
    } = put;
    let name = as_known(name_of_note(before), name)?;
    Ok(NotePut {
        owner,
        name,
        version,
        manifest,
        group,
        note,
    })
}

fn name_of_note(row: Option<&NoteRow>) -> Option<&Name> {
    match row {
        Some(row) => Some(row.name()),
        None => None,
    }
}

/// The name of who writes, where it is lent by a row.
fn writer<'a>(who: &'a Who<'_>) -> Option<&'a Name> {
    match who {
        Who::Anonymous => None,
        Who::Operator => None,
        Who::Signed(reader) => Some(&reader.name),
    }
}

fn name_of_row(manifest: Option<&ManifestRow>) -> Option<&Name> {
    match manifest {
        Some(row) => Some(row.name()),
        None => None,
    }
}

/// The change that a put of an annotation on this manifest is.
fn put_activity(
    alloc: Global,
    book: &Book,
    who: &Who<'_>,
    at: Moment,
    before: Option<&NoteRow>,
    manifest: Option<&ManifestRow>,
    put: &NotePut,
) -> Result<Shared<Activity>, AllocError>
    requires manifest { option_copied manifest ≡ manifest_row book.now.state put.now.manifest }
    ensures { IfOk result (λ activity. activity
        ≡ note_activity (identity who.now) at put.now.owner put.now.name
        (option_and_then (audience_of_note book.now.state) (option_copied before.entry))
        (option_map
        (λ m. record { outer = m.group; inner = put.now.group; owner = Some put.now.owner })
        (manifest_row book.now.state put.now.manifest))) }
{
    let could = could_read(book, before, manifest, &put.manifest)?;
    let can = audience_below(manifest, &put.owner, &put.group)?;
    note_activity(alloc, who, at, &put.owner, &put.name, could, can)
}

/// Who could read the annotation before it was put on this manifest.
fn could_read(
    book: &Book,
    before: Option<&NoteRow>,
    manifest: Option<&ManifestRow>,
    name: &Name,
) -> Result<Option<Audience>, AllocError>
    requires manifest { option_copied manifest ≡ manifest_row book.now.state name.now }
    ensures { IfOk result (λ audience. audience
        ≡ option_and_then (audience_of_note book.now.state) (option_copied before.entry)) }
{
    match before {
        Some(row) => match row.live() {
            Some(live) => {
                let left = manifest_left(book, live.manifest, manifest, name);
                audience_below(left, row.owned_by(), live.group)
            }
            None => Ok(None),
        },
        None => Ok(None),
    }
}

/// The row of the manifest that an annotation leaves: this one where it stays on it.
fn manifest_left<'a>(
    book: &'a Book,
    left: &Name,
    manifest: Option<&'a ManifestRow>,
    name: &Name,
) -> Option<&'a ManifestRow>
    requires manifest { option_copied manifest ≡ manifest_row book.now.state name.now }
    ensures { option_copied result ≡ manifest_row book.now.state left.now }
{
    if left == name {
        manifest
    } else {
        book.manifest_row(left)
    }
}

fn new_row(
    alloc: Global,
    who: &Who<'_>,
    at: Moment,
    before: Option<&NoteRow>,
    put: NotePut,
) -> Result<Shared<NoteRow>, AllocError>
    ensures { IfOk result
        (λ row. row ≡ put_note (identity who.now) at (option_copied before.entry) put) }
{
    let creator = creator_of(alloc, who, before)?;
    let (created, modified) = moments(at, made_before(before));
    Shared::new(
        alloc,
        NoteRow {
            owner: put.owner,
            name: put.name,
            version: put.version,
            live: true,
            manifest: Some(put.manifest),
            group: Some(put.group),
            creator: Some(creator),
            created: Some(created),
            modified,
            tree: Some(put.note),
        },
    )
}

/// A live annotation keeps its creator.
fn creator_of(
    alloc: Global,
    who: &Who<'_>,
    row: Option<&NoteRow>,
) -> Result<Shared<Text>, AllocError>
    ensures { IfOk result (λ creator. creator
        ≡ creator_of (identity who.now) (live_in (option_copied row.entry))) }
{
    match row {
        Some(row) => match row.live() {
            Some(before) => before.creator.copy(),
            None => writer_iri(alloc, who),
        },
        None => writer_iri(alloc, who),
    }
}

/// The IRI of who writes.
fn writer_iri(alloc: Global, who: &Who<'_>) -> Result<Shared<Text>, AllocError>
    ensures { IfOk result (λ user. user ≡ user_of (identity who.now)) }
{
    match who {
        Who::Anonymous => user_of(alloc, ""),
        Who::Operator => user_of(alloc, ""),
        Who::Signed(reader) => reader.user.copy(),
    }
}

/// When the live annotation was made.
fn made_before(row: Option<&NoteRow>) -> Option<Moment>
    ensures { result ≡ note_made (option_copied row.entry) }
{
    match row {
        Some(row) => match row.live() {
            Some(before) => Some(before.created),
            None => None,
        },
        None => None,
    }
}
