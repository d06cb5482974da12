//! A manifest is put.
ghost use Rattle.std.specs.Prelude.{◌≡◌, not, IfOk, option_and_then};
ghost use Rattle.std.specs.Option.{option_copied};
ghost use Rattle.an_base.specs.Outcome.{Gives, passes};
ghost use Rattle.an_policy.specs.Audience.{identity};
ghost use Rattle.an_state.specs.State.{manifest_row};
ghost use Rattle.an_state.specs.View.{audience_of_manifest};
ghost use Rattle.an_machine.specs.Accepted.{manifest_activity, manifest_effect, manifest_made};
ghost use Rattle.an_machine.specs.Accepted.{put_manifest};
ghost use Rattle.an_machine.specs.Step.{judged};
ghost use Rattle.an_machine.specs.Versions.{holds_manifest};
ghost use Rattle.an_policy.specs.Group.{same_group};

use crate::asked::{Asked, ManifestPut};
use crate::changes::{audience_of_manifest, could_read_manifest, manifest_activity};
use crate::command::Refused;
use crate::effect::{Effect, change, moments};
use crate::versions::{is_behind, manifest_standing, unless_done};
use an_base::{Moment, Shared};
use an_keyed::Keyed;
use an_policy::{Group, Who, is_same_group};
use an_state::{Activity, Book, ManifestRow, Row};
use std::alloc::{AllocError, Global};

/// What a put of a manifest changes; nothing where it was done already.
pub(crate) fn put_manifest(
    alloc: Global,
    book: &Book,
    who: &Who<'_>,
    at: Moment,
    put: ManifestPut,
) -> Result<Option<Effect>, Refused>
    ensures { Gives (λ e. e) Refused.Memory result (judged book.now.state (Asked.Manifest put)
        (manifest_effect (identity who.now) at (manifest_row book.now.state put.name) put)) }
{
    let before = book.manifest_row(&put.name);
    if has_other_group(before, &put.group) {
        return Err(Refused::GroupFixed);
    }
    let standing = manifest_standing(before);
    if is_behind(standing, put.version) {
        Ok(Some(manifest_effect(alloc, who, at, before, put)?))
    } else {
        unless_done(standing, put.version, is_held(before, &put))
    }
}

fn has_other_group(row: Option<&ManifestRow>, group: &Group) -> bool
    ensures { result
        ≡ passes (λ r. not (same_group r.group group.now)) (option_copied row.entry) }
{
    match row {
        Some(row) => !is_same_group(row.group(), group),
        None => false,
    }
}

/// Whether the row is live with what is put.
fn is_held(row: Option<&ManifestRow>, put: &ManifestPut) -> bool
    ensures { result ≡ passes (holds_manifest put.now) (option_copied row.entry) }
{
    match row {
        Some(row) => match row.sheet() {
            Some(sheet) => sheet.text() == put.sheet.text(),
            None => false,
        },
        None => false,
    }
}

fn manifest_effect(
    alloc: Global,
    who: &Who<'_>,
    at: Moment,
    before: Option<&ManifestRow>,
    put: ManifestPut,
) -> Result<Effect, AllocError>
    ensures { IfOk result (λ effect. effect
        ≡ manifest_effect (identity who.now) at (option_copied before.entry) put) }
{
    let row = new_row(alloc, at, before, put)?;
    let activity = put_activity(alloc, who, at, before, row.get())?;
    change(
        alloc,
        !manifest_standing(before).live,
        Row::Manifest(row),
        activity,
    )
}

/// The change that a put of a manifest is, which then has this row.
fn put_activity(
    alloc: Global,
    who: &Who<'_>,
    at: Moment,
    before: Option<&ManifestRow>,
    row: &ManifestRow,
) -> Result<Shared<Activity>, AllocError>
    ensures { IfOk result (λ activity. activity
        ≡ manifest_activity (identity who.now) at row.now.name
        (option_and_then audience_of_manifest (option_copied before.entry))
        (audience_of_manifest row.now)) }
{
    let could = could_read_manifest(before)?;
    let can = audience_of_manifest(row)?;
    manifest_activity(alloc, who, at, row.name(), could, can)
}

fn new_row(
    alloc: Global,
    at: Moment,
    before: Option<&ManifestRow>,
    put: ManifestPut,
) -> Result<Shared<ManifestRow>, AllocError>
    ensures { IfOk result (λ row. row ≡ put_manifest at (option_copied before.entry) put) }
{
    let (created, modified) = moments(at, made_before(before));
    Shared::new(
        alloc,
        ManifestRow {
            name: put.name,
            version: put.version,
            live: true,
            group: put.group,
            created: Some(created),
            modified,
            tree: Some(put.sheet),
        },
    )
}

/// When the live manifest was made.
fn made_before(row: Option<&ManifestRow>) -> Option<Moment>
    ensures { result ≡ manifest_made (option_copied row.entry) }
{
    match row {
        Some(row) => row.created_at(),
        None => None,
    }
}
