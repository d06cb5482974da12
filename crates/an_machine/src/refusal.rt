//! Why a write is refused before its tree is read.
ghost use Rattle.std.specs.Prelude.{◌≡◌, [], ◌∷◌, IfOk, not, option_and_then};
ghost use Rattle.std.specs.List.{list_any};
ghost use Rattle.std.specs.Option.{option_copied};
ghost use Rattle.std.specs.Result.{result_err};
ghost use Rattle.an_base.specs.Outcome.{first_of, passes, when};
ghost use Rattle.an_policy.specs.Audience.{groups_of, identity, is_among};
ghost use Rattle.an_machine.specs.Asked.{manifest_under};
ghost use Rattle.an_state.specs.Commands.{object_of};
ghost use Rattle.an_state.specs.State.{manifest_row};
ghost use Rattle.an_machine.specs.Refusals.{is_anothers, is_outside, may_manage, may_write};
ghost use Rattle.an_machine.specs.Refusals.{is_hidden, only_reads, refusals_before};
ghost use Rattle.an_state.specs.View.{shows_manifest};

use crate::command::Refused;
use an_base::Name;
use an_policy::{Inner, Role, Who, is_member, is_named};
use an_state::{Book, Command, ManifestRow, Object, is_manifest_shown};

/// The first refusal before the tree of a command is read. Without one, the row of the manifest
/// that an annotation is put on.
pub(crate) fn permit<'a>(
    book: &'a Book,
    who: &Who<'_>,
    object: &Object,
    command: &Command,
) -> Result<Option<&'a ManifestRow>, Refused>
    requires object { object.now ≡ object_of command.now }
    ensures refused { result_err result
        ≡ first_of (refusals_before book.now.state (identity who.now) command.now) }
    ensures row { IfOk result (λ row. option_copied row
        ≡ option_and_then (manifest_row book.now.state) (manifest_under command.now)) }
{
    if !may_write(who, object) {
        return Err(Refused::NotWriter);
    }
    if is_anothers(who, object) {
        return Err(Refused::NotOwn);
    }
    match command {
        Command::PutNote {
            manifest,
            group,
            ..
        } => manifest_for_put(book, who, manifest, group),
        Command::DropNote { .. } => Ok(None),
        Command::PutReader { .. } | Command::DropReader { .. } => Ok(None),
        Command::PutManifest { .. } | Command::DropManifest { .. } => Ok(None),
    }
}

/// The row of the manifest that an annotation is put on, in a group.
fn manifest_for_put<'a>(
    book: &'a Book,
    who: &Who<'_>,
    manifest: &Name,
    group: &Inner,
) -> Result<Option<&'a ManifestRow>, Refused>
    ensures refused { result_err result ≡ first_of
        (when (is_hidden book.now.state (identity who.now) manifest.now) Refused.NoManifest
        ∷ when (is_outside (identity who.now) group.now) Refused.NotMember ∷ []) }
    ensures row { IfOk result
        (λ row. option_copied row ≡ manifest_row book.now.state manifest.now) }
{
    let row = book.manifest_row(manifest);
    if !is_shown_row(who, row) {
        return Err(Refused::NoManifest);
    }
    if is_outside(who, group) {
        return Err(Refused::NotMember);
    }
    Ok(row)
}

/// Whether the caller may write readers and manifests, or annotations.
fn may_write(who: &Who<'_>, object: &Object) -> bool
    ensures { result ≡ may_write (identity who.now) object.now }
{
    match object {
        Object::Reader(_) | Object::Manifest(_) => may_manage(who),
        Object::Note { .. } => !only_reads(who),
    }
}

/// Whether the caller may write readers and manifests.
fn may_manage(who: &Who<'_>) -> bool
    ensures { result ≡ may_manage (identity who.now) }
{
    match who {
        Who::Anonymous => false,
        Who::Operator => true,
        Who::Signed(reader) => matches!(reader.role, Role::Curator),
    }
}

/// Whether the caller is a reader who writes nothing.
fn only_reads(who: &Who<'_>) -> bool
    ensures { result ≡ only_reads (identity who.now) }
{
    match who {
        Who::Anonymous => false,
        Who::Operator => false,
        Who::Signed(reader) => matches!(reader.role, Role::Reader),
    }
}

/// Whether it is an annotation of somebody else.
fn is_anothers(who: &Who<'_>, object: &Object) -> bool
    ensures { result ≡ is_anothers (identity who.now) object.now }
{
    match object {
        Object::Reader(_) | Object::Manifest(_) => false,
        Object::Note { owner, .. } => !is_named(who, owner),
    }
}

/// Whether one of the groups is a named one that the caller is no member of.
fn is_outside(who: &Who<'_>, groups: &Inner) -> bool
    ensures { result ≡ is_outside (identity who.now) groups.now }
{
    match groups {
        Inner::Public => false,
        Inner::Private => false,
        Inner::Names(names) => lacks_one(who, names.as_slice()),
    }
}

/// Whether the caller is no member of one of the groups of these names.
fn lacks_one(who: &Who<'_>, names: &[Name]) -> bool
    ensures { result
        ≡ list_any (λ name. not (is_among (groups_of (identity who.now)) name)) names.now }
{
    names.iter().any(|name| !is_member(who, name))
}

/// Whether there is a live manifest that the caller may read.
fn is_shown_row(who: &Who<'_>, row: Option<&ManifestRow>) -> bool
    ensures { result ≡ passes (shows_manifest (identity who.now)) (option_copied row.entry) }
{
    match row {
        Some(row) => is_manifest_shown(who, row),
        None => false,
    }
}
