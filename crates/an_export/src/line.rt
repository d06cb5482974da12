ghost use Rattle.std.specs.Prelude.{◌≡◌, ◌++◌, codes, string_bytes, IfOk};
ghost use Rattle.an_base.specs.Moment.{moment_text};
ghost use Rattle.an_policy.specs.Group.{group_text};
ghost use Rattle.an_policy.specs.Inner.{inner_text};
ghost use Rattle.an_state.specs.Live.{lent_note};
ghost use Rattle.an_export.specs.Export.{live_manifest_line, live_note_line, manifest_line};
ghost use Rattle.an_export.specs.Export.{note_line};

use an_base::{Moment, moment_text};
use an_keyed::Keyed;
use an_manifest::KeptSheet;
use an_policy::{group_text, inner_text};
use an_state::{LiveNote, ManifestRow, NoteRow};
use std::alloc::{AllocError, Global};

/// Writes the line of a manifest. Nothing where it was deleted.
#[tactic(auto, using(crate::proofs::LineLemmas::manifest_lines))]
pub(crate) fn push_manifest(out: Vec<u8>, row: &ManifestRow) -> Result<Vec<u8>, AllocError>
    ensures text { IfOk result (λ v. v.items ≡ out.items ++ manifest_line row.now) }
{
    match row.sheet() {
        Some(sheet) => match row.created_at() {
            Some(created) => push_live_manifest(out, row, created, sheet),
            None => Ok(out),
        },
        None => Ok(out),
    }
}

/// Writes the line of a manifest of which this is kept, and which was made at this moment.
fn push_live_manifest(
    out: Vec<u8>,
    row: &ManifestRow,
    created: Moment,
    sheet: &KeptSheet,
) -> Result<Vec<u8>, AllocError>
    ensures text { IfOk result (λ v. v.items ≡ out.items ++ live_manifest_line row.now
        (record { created = created; modified = None; tree = sheet.now })) }
{
    let head = manifest_head(*out.allocator(), row, created)?;
    let out = push_line(out, head.as_str(), sheet.text())?;
    Ok(out)
}

/// What stands before the tree of a manifest. No reader owns a manifest.
fn manifest_head(alloc: Global, row: &ManifestRow, created: Moment) -> Result<String, AllocError>
    ensures text { IfOk result (λ head. string_bytes head ≡ moment_text created
        ++ (codes " - PUT /manifests/" ++ (row.now.name
        ++ (codes "?version=1&group=" ++ (group_text row.now.group ++ codes " "))))) }
{
    let created = moment_text(alloc, created)?;
    let created = created.as_str();
    let name = row.name().as_str();
    let group = group_text(row.group());
    format!(in alloc; "{created} - PUT /manifests/{name}?version=1&group={group} ")
}

/// Writes the line of an annotation. Nothing where it was deleted.
pub(crate) fn push_note(out: Vec<u8>, row: &NoteRow) -> Result<Vec<u8>, AllocError>
    ensures text { IfOk result (λ v. v.items ≡ out.items ++ note_line row.now) }
{
    match row.live() {
        Some(live) => push_live_note(out, row, &live),
        None => Ok(out),
    }
}

fn push_live_note(out: Vec<u8>, row: &NoteRow, live: &LiveNote<'_>) -> Result<Vec<u8>, AllocError>
    ensures text { IfOk result
        (λ v. v.items ≡ out.items ++ live_note_line row.now (lent_note live.now)) }
{
    let head = note_head(*out.allocator(), row, live)?;
    let out = push_line(out, head.as_str(), live.tree.text())?;
    Ok(out)
}

/// What stands before the tree of an annotation.
fn note_head(alloc: Global, row: &NoteRow, live: &LiveNote<'_>) -> Result<String, AllocError>
    ensures text { IfOk result (λ head. string_bytes head ≡ moment_text live.now.created
        ++ (codes " " ++ (row.now.owner ++ (codes " PUT /annotations/" ++ (row.now.owner
        ++ (codes "/" ++ (row.now.name ++ (codes "?version=1&manifest=" ++ (live.now.manifest.now
        ++ (codes "&group=" ++ (inner_text live.now.group.now ++ codes " "))))))))))) }
{
    let created = moment_text(alloc, live.created)?;
    let created = created.as_str();
    let owner = row.owned_by().as_str();
    let name = row.name().as_str();
    let manifest = live.manifest.as_str();
    let groups = inner_text(alloc, live.group)?;
    let group = groups.as_str();
    format!(in alloc;
        "{created} {owner} PUT /annotations/{owner}/{name}\
         ?version=1&manifest={manifest}&group={group} "
    )
}

/// Writes a line that begins so, with this text of a tree.
fn push_line(out: Vec<u8>, head: &str, tree: &[u8]) -> Result<Vec<u8>, AllocError>
    ensures text { IfOk result
        (λ v. v.items ≡ out.items ++ (head.now ++ (tree.now ++ codes "\n"))) }
{
    let mut out = out;
    out.extend_from_slice(head.as_bytes())?;
    out.extend_from_slice(tree)?;
    out.push(b'\n')?;
    Ok(out)
}
