//! The changes that are told of, with who could read the object before and who can after.
ghost use Rattle.std.specs.Prelude.{◌≡◌, IfOk, Some, option_and_then, option_map};
ghost use Rattle.std.specs.Option.{option_copied};
ghost use Rattle.an_policy.specs.Audience.{identity};
ghost use Rattle.an_machine.specs.Accepted.{by_whom};
ghost use Rattle.an_state.specs.View.{audience_of_manifest, audience_of_note};
ghost use Rattle.an_machine.specs.Accepted.{manifest_activity, note_activity};

use an_base::{Moment, Name, Shared, TryCopy, copy_both};
use an_policy::{Audience, Inner, Who};
use an_state::{Activity, Book, ManifestRow, NoteRow};
use std::alloc::{AllocError, Global};

/// The name of who writes. The operator has none.
pub(crate) fn by_whom(who: &Who<'_>) -> Result<Option<Name>, AllocError>
    ensures { IfOk result (λ by. by ≡ by_whom (identity who.now)) }
{
    match who {
        Who::Anonymous => Ok(None),
        Who::Operator => Ok(None),
        Who::Signed(reader) => Ok(Some(reader.name.copy()?)),
    }
}

pub(crate) fn manifest_activity(
    alloc: Global,
    who: &Who<'_>,
    at: Moment,
    name: &Name,
    before: Option<Audience>,
    after: Option<Audience>,
) -> Result<Shared<Activity>, AllocError>
    ensures { IfOk result (λ activity. activity
        ≡ manifest_activity (identity who.now) at name.now before after) }
{
    let by = by_whom(who)?;
    let name = name.copy()?;
    Shared::new(
        alloc,
        Activity {
            at,
            by,
            owner: None,
            name,
            before,
            after,
        },
    )
}

pub(crate) fn note_activity(
    alloc: Global,
    who: &Who<'_>,
    at: Moment,
    owner: &Name,
    name: &Name,
    before: Option<Audience>,
    after: Option<Audience>,
) -> Result<Shared<Activity>, AllocError>
    ensures { IfOk result (λ activity. activity
        ≡ note_activity (identity who.now) at owner.now name.now before after) }
{
    let (owner, name) = copy_both(owner, name)?;
    let by = by_whom(who)?;
    Shared::new(
        alloc,
        Activity {
            at,
            by,
            owner: Some(owner),
            name,
            before,
            after,
        },
    )
}

/// Who may read the manifest, while it is live.
pub(crate) fn audience_of_manifest(row: &ManifestRow) -> Result<Option<Audience>, AllocError>
    ensures { IfOk result (λ audience. audience ≡ audience_of_manifest row.now) }
{
    if row.is_live() {
        let outer = row.group().copy()?;
        Ok(Some(Audience {
            outer,
            inner: Inner::Public,
            owner: None,
        }))
    } else {
        Ok(None)
    }
}

/// Who could read the manifest that had this row.
pub(crate) fn could_read_manifest(row: Option<&ManifestRow>) -> Result<Option<Audience>, AllocError>
    ensures { IfOk result (λ audience. audience
        ≡ option_and_then audience_of_manifest (option_copied row.entry)) }
{
    match row {
        Some(row) => audience_of_manifest(row),
        None => Ok(None),
    }
}

/// Who may read the annotation, while it is live.
pub(crate) fn audience_of_note(book: &Book, row: &NoteRow) -> Result<Option<Audience>, AllocError>
    ensures { IfOk result (λ audience. audience ≡ audience_of_note book.now.state row.now) }
{
    match row.live() {
        Some(live) => audience_below(book.manifest_row(live.manifest), row.owned_by(), live.group),
        None => Ok(None),
    }
}

/// Who may read an annotation of this owner in a group, below its manifest.
pub(crate) fn audience_below(
    manifest: Option<&ManifestRow>,
    owner: &Name,
    group: &Inner,
) -> Result<Option<Audience>, AllocError>
    ensures { IfOk result (λ audience. audience ≡ option_map
        (λ m. record { outer = m.group; inner = group.now; owner = Some owner.now })
        (option_copied manifest.entry)) }
{
    match manifest {
        Some(row) => Ok(Some(Audience {
            outer: row.group().copy()?,
            inner: group.copy()?,
            owner: Some(owner.copy()?),
        })),
        None => Ok(None),
    }
}

/// Who could read the annotation that had this row.
pub(crate) fn could_read_note(
    book: &Book,
    row: Option<&NoteRow>,
) -> Result<Option<Audience>, AllocError>
    ensures { IfOk result (λ audience. audience
        ≡ option_and_then (audience_of_note book.now.state) (option_copied row.entry)) }
{
    match row {
        Some(row) => audience_of_note(book, row),
        None => Ok(None),
    }
}
