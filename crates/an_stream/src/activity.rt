ghost use Rattle.std.specs.Prelude.{◌≡◌, ◌++◌, codes, map, IfOk};
ghost use Rattle.serde_json.specs.View.{items_of};
ghost use Rattle.serde_json.specs.Written.{compact_text};
ghost use Rattle.an_base.specs.Write.{item_commas, item_text, member_text};
ghost use Rattle.an_iri.specs.Iris.{manifest_iri, note_iri};
ghost use Rattle.an_list.specs.Page.{thing};
ghost use Rattle.an_list.specs.PageText.{text_if};
ghost use Rattle.an_stream.specs.Activity.{activity, kind_text, thing_of};

use an_base::{Name, close_members, moment_text, push_comma, push_text_member};
use an_iri::{manifest_iri, note_iri};
use an_list::push_thing_member;
use an_policy::Kind;
use an_state::{Object, Seen};
use std::alloc::{AllocError, Global};

/// Writes activities as items, each behind a comma.
pub(crate) fn push_activities(
    alloc: Global,
    out: Vec<u8>,
    base: &str,
    activities: &[Seen],
) -> Result<Vec<u8>, AllocError>
    ensures text { IfOk result (λ v. v.items
        ≡ out.items ++ item_commas (items_of (map (activity base.now) activities.now))) }
{
    let mut out = out;
    for seen in activities {
        out = push_activity_item(alloc, out, base, seen)?;
    }
    Ok(out)
}

fn push_activity_item(
    alloc: Global,
    out: Vec<u8>,
    base: &str,
    seen: &Seen,
) -> Result<Vec<u8>, AllocError>
    ensures text { IfOk result
        (λ v. v.items ≡ out.items ++ item_text (activity base.now seen.now)) }
{
    let out = push_comma(out)?;
    let out = push_activity(alloc, out, base, seen)?;
    Ok(out)
}

/// Writes an activity.
fn push_activity(
    alloc: Global,
    out: Vec<u8>,
    base: &str,
    seen: &Seen,
) -> Result<Vec<u8>, AllocError>
    ensures text { IfOk result
        (λ v. v.items ≡ out.items ++ compact_text (activity base.now seen.now)) }
{
    let start = out.len();
    let moment = moment_text(alloc, seen.moment)?;
    let out = push_text_member(out, "endTime", moment.as_str())?;
    let out = push_object(alloc, out, base, &seen.object)?;
    let out = push_text_member(out, "type", kind_text(seen.kind))?;
    let out = close_members(out, start)?;
    Ok(out)
}

/// Writes what was changed.
fn push_object(
    alloc: Global,
    out: Vec<u8>,
    base: &str,
    object: &Object,
) -> Result<Vec<u8>, AllocError>
    ensures text { IfOk result
        (λ v. v.items ≡ out.items ++ text_if (codes "object") (thing_of base.now object.now)) }
{
    match object {
        Object::Reader(_) => Ok(out),
        Object::Manifest(name) => push_manifest(alloc, out, base, name),
        Object::Note { owner, name } => push_note(alloc, out, base, owner, name),
    }
}

fn push_manifest(
    alloc: Global,
    out: Vec<u8>,
    base: &str,
    name: &Name,
) -> Result<Vec<u8>, AllocError>
    ensures text { IfOk result (λ v. v.items ≡ out.items ++ member_text (codes "object")
        (thing (manifest_iri base.now name.now) (codes "Manifest"))) }
{
    let iri = manifest_iri(alloc, base, name.as_str())?;
    let out = push_thing_member(out, "object", iri.as_str(), "Manifest")?;
    Ok(out)
}

fn push_note(
    alloc: Global,
    out: Vec<u8>,
    base: &str,
    owner: &Name,
    name: &Name,
) -> Result<Vec<u8>, AllocError>
    ensures text { IfOk result (λ v. v.items ≡ out.items ++ member_text (codes "object")
        (thing (note_iri base.now owner.now name.now) (codes "Annotation"))) }
{
    let iri = note_iri(alloc, base, owner, name)?;
    let out = push_thing_member(out, "object", iri.as_str(), "Annotation")?;
    Ok(out)
}

/// The type of an activity.
fn kind_text(kind: Kind) -> &'static str
    ensures { result.now ≡ kind_text kind }
{
    match kind {
        Kind::Create => "Create",
        Kind::Update => "Update",
        Kind::Delete => "Delete",
    }
}
