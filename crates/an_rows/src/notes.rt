ghost use Rattle.std.specs.Prelude.{◌≡◌, ◌++◌, codes, option_map, IfOk, IsTrue, true};
ghost use Rattle.std.specs.Option.{ok_or};
ghost use Rattle.std.specs.Result.{result_ok};
ghost use Rattle.serde_json.specs.View.{view};
ghost use Rattle.an_base.specs.Outcome.{Gives};
ghost use Rattle.an_base.specs.Tree.{is_tree};
ghost use Rattle.an_base.specs.Write.{commas};
ghost use Rattle.an_state.specs.Live.{lent_note};
ghost use Rattle.an_model.specs.Note.{note_of};
ghost use Rattle.an_rows.specs.Format.{inner_in, inner_name};
ghost use Rattle.an_rows.specs.Lent.{note_read};
ghost use Rattle.an_rows.specs.RowRead.{live_note_on, live_note_in, live_note_named};
ghost use Rattle.an_rows.specs.RowRead.{note_tombstone_named, note_named, note_row_in};
ghost use Rattle.an_rows.specs.RowTree.{given, moment_tree, flag_member, text_member, note_members};
ghost use Rattle.an_rows.specs.RowTree.{live_note_members, live_note_ending};
ghost use Rattle.an_rows.specs.RowTree.{note_tombstone_members};

use crate::fields::{
    creator_in, flag_in, moment_in, name_in, tombstone_version_in, tree_in, version_in,
};
use crate::format::Format;
use crate::inner::{inner_in, push_inner};
use crate::members::{push_flag, push_modified, push_moment, push_tree, push_version};
use crate::refusal::RowError;
use an_base::{Moment, Name, Shared, Text, push_text_member};
use an_keyed::Keyed;
use an_model::{KeptNote, NoteError};
use an_policy::Inner;
use an_state::{LiveNote, NoteRow};
use serde_json::Value;
use std::alloc::{AllocError, Global};

/// Writes the members of an annotation's row, each behind a comma.
pub(crate) fn push_note(
    alloc: Global,
    format: Format,
    out: Vec<u8>,
    row: &NoteRow,
) -> Result<Vec<u8>, AllocError>
    ensures text { IfOk result (λ v. v.items
        ≡ out.items ++ commas (note_members format row.now)) }
{
    match row.live() {
        Some(live) => push_live(alloc, format, out, row, &live),
        None => push_tombstone(out, row),
    }
}

#[tactic(auto, using(crate::proofs::PartLemmas::parts), unfolding(crate::specs::RowTree::live_note_members))]
fn push_live(
    alloc: Global,
    format: Format,
    out: Vec<u8>,
    row: &NoteRow,
    live: &LiveNote<'_>,
) -> Result<Vec<u8>, AllocError>
    ensures text { IfOk result (λ v. v.items
        ≡ out.items ++ commas (live_note_members format row.now (lent_note live.now))) }
{
    let out = push_moment(out, "created", live.created)?;
    let out = push_text_member(out, "creator", live.creator.get().as_str())?;
    let out = push_inner(alloc, format, out, inner_name(format), live.group)?;
    let out = push_from_flag(out, row, live)?;
    Ok(out)
}

#[tactic(auto, using(crate::proofs::PartLemmas::parts))]
fn push_from_flag(out: Vec<u8>, row: &NoteRow, live: &LiveNote<'_>) -> Result<Vec<u8>, AllocError>
    ensures text { IfOk result (λ v. v.items ≡ out.items
        ++ commas (flag_member true
        (text_member (codes "manifest") live.now.manifest.now
        (given (codes "modified") (option_map moment_tree live.now.modified)
        (text_member (codes "name") row.now.name
        (live_note_ending row.now (lent_note live.now))))))) }
{
    let out = push_flag(out, true)?;
    let out = push_text_member(out, "manifest", live.manifest.as_str())?;
    let out = push_from_modified(out, row, live)?;
    Ok(out)
}

#[tactic(auto, using(crate::proofs::PartLemmas::parts))]
fn push_from_modified(
    out: Vec<u8>,
    row: &NoteRow,
    live: &LiveNote<'_>,
) -> Result<Vec<u8>, AllocError>
    ensures text { IfOk result (λ v. v.items ≡ out.items
        ++ commas (given (codes "modified") (option_map moment_tree live.now.modified)
        (text_member (codes "name") row.now.name
        (live_note_ending row.now (lent_note live.now))))) }
{
    let out = push_modified(out, live.modified)?;
    let out = push_named_ending(out, row, live)?;
    Ok(out)
}

#[tactic(auto, using(crate::proofs::PartLemmas::parts))]
fn push_named_ending(
    out: Vec<u8>,
    row: &NoteRow,
    live: &LiveNote<'_>,
) -> Result<Vec<u8>, AllocError>
    ensures text { IfOk result (λ v. v.items ≡ out.items
        ++ commas (text_member (codes "name") row.now.name
        (live_note_ending row.now (lent_note live.now)))) }
{
    let out = push_text_member(out, "name", row.name().as_str())?;
    let out = push_ending(out, row, live)?;
    Ok(out)
}

#[tactic(auto, using(crate::proofs::PartLemmas::parts), unfolding(crate::specs::RowTree::live_note_ending))]
fn push_ending(out: Vec<u8>, row: &NoteRow, live: &LiveNote<'_>) -> Result<Vec<u8>, AllocError>
    ensures text { IfOk result (λ v. v.items
        ≡ out.items ++ commas (live_note_ending row.now (lent_note live.now))) }
{
    let out = push_text_member(out, "owner", row.owned_by().as_str())?;
    let out = push_tree(out, live.tree.text())?;
    let out = push_version(out, row.version())?;
    Ok(out)
}

#[tactic(auto, using(crate::proofs::PartLemmas::parts), unfolding(crate::specs::RowTree::note_tombstone_members))]
fn push_tombstone(out: Vec<u8>, row: &NoteRow) -> Result<Vec<u8>, AllocError>
    ensures text { IfOk result
        (λ v. v.items ≡ out.items ++ commas (note_tombstone_members row.now)) }
{
    let out = push_flag(out, false)?;
    let out = push_text_member(out, "name", row.name().as_str())?;
    let out = push_text_member(out, "owner", row.owned_by().as_str())?;
    let out = push_version(out, row.version())?;
    Ok(out)
}

/// The member that says the inner groups.
fn inner_name(format: Format) -> &'static str
    ensures { result.now ≡ inner_name format }
{
    match format {
        Format::First => "group",
        Format::Second => "groups",
    }
}

/// What was read of a live annotation.
#[derive(Drop)]
pub(crate) struct ReadNote {
    pub(crate) manifest: Name,
    pub(crate) group: Inner,
    pub(crate) creator: Shared<Text>,
    pub(crate) created: Moment,
    pub(crate) modified: Option<Moment>,
    pub(crate) tree: KeptNote,
}

/// The annotation's row that a value says.
#[tactic(auto, unfolding(crate::specs::RowRead::note_row_in))]
pub(crate) fn note_row_in(alloc: Global, format: Format, tree: &Value) -> Result<NoteRow, RowError>
    ensures row { Gives (λ r. r) RowError.Memory result (note_row_in format (view tree.now)) }
{
    let owner = name_in(alloc, tree, "owner")?;
    let name = name_in(alloc, tree, "name")?;
    let live = flag_in(tree).ok_or(RowError::Bytes)?;
    note_named(alloc, format, tree, owner, name, live)
}

fn note_named(
    alloc: Global,
    format: Format,
    tree: &Value,
    owner: Name,
    name: Name,
    live: bool,
) -> Result<NoteRow, RowError>
    ensures row { Gives (λ r. r) RowError.Memory result
        (note_named format owner name live (view tree.now)) }
{
    if live {
        live_note_named(alloc, format, tree, owner, name)
    } else {
        note_tombstone_named(tree, owner, name)
    }
}

#[tactic(auto, unfolding(crate::specs::RowRead::note_tombstone_named))]
fn note_tombstone_named(tree: &Value, owner: Name, name: Name) -> Result<NoteRow, RowError>
    ensures row { Gives (λ r. r) RowError.Memory result
        (note_tombstone_named owner name (view tree.now)) }
{
    let version = tombstone_version_in(tree).ok_or(RowError::Bytes)?;
    Ok(tombstone(owner, name, version))
}

fn tombstone(owner: Name, name: Name, version: u32) -> NoteRow
    ensures row { result ≡ record { owner = owner; name = name; version = version; live = None } }
{
    NoteRow {
        owner,
        name,
        version,
        live: false,
        manifest: None,
        group: None,
        creator: None,
        created: None,
        modified: None,
        tree: None,
    }
}

#[tactic(auto, unfolding(crate::specs::RowRead::live_note_named))]
fn live_note_named(
    alloc: Global,
    format: Format,
    tree: &Value,
    owner: Name,
    name: Name,
) -> Result<NoteRow, RowError>
    ensures row { Gives (λ r. r) RowError.Memory result
        (live_note_named format owner name (view tree.now)) }
{
    let version = version_in(tree).ok_or(RowError::Bytes)?;
    let live = live_note_in(alloc, format, tree)?;
    Ok(live_row(owner, name, version, live))
}

pub(crate) fn live_row(owner: Name, name: Name, version: u32, live: ReadNote) -> NoteRow
    ensures row { result ≡ record {
      owner = owner;
      name = name;
      version = version;
      live = Some (note_read live);
    } }
{
    let ReadNote {
        manifest,
        group,
        creator,
        created,
        modified,
        tree,
    } = live;
    NoteRow {
        owner,
        name,
        version,
        live: true,
        manifest: Some(manifest),
        group: Some(group),
        creator: Some(creator),
        created: Some(created),
        modified,
        tree: Some(tree),
    }
}

#[tactic(auto, unfolding(crate::specs::RowRead::live_note_in))]
fn live_note_in(alloc: Global, format: Format, tree: &Value) -> Result<ReadNote, RowError>
    ensures live { Gives note_read RowError.Memory result (live_note_in format (view tree.now)) }
{
    let manifest = name_in(alloc, tree, "manifest")?;
    let group = groups_in(alloc, format, tree)?;
    let creator = creator_in(alloc, tree)?;
    live_note_on(alloc, tree, manifest, group, creator)
}

/// The inner groups that the row's member for them says.
fn groups_in(alloc: Global, format: Format, tree: &Value) -> Result<Inner, RowError>
    ensures inner { Gives (λ i. i) RowError.Memory result
        (ok_or (inner_in format (inner_name format) (view tree.now)) RowError.Bytes) }
{
    inner_in(alloc, format, tree, inner_name(format))
}

#[tactic(auto, unfolding(crate::specs::RowRead::live_note_on))]
fn live_note_on(
    alloc: Global,
    tree: &Value,
    manifest: Name,
    group: Inner,
    creator: Shared<Text>,
) -> Result<ReadNote, RowError>
    ensures live { Gives note_read RowError.Memory result
        (live_note_on manifest group creator (view tree.now)) }
{
    let created = moment_in(tree, "created").ok_or(RowError::Bytes)?;
    let value = tree_in(tree).ok_or(RowError::Bytes)?;
    let note = note_of(alloc, value)?;
    Ok(ReadNote {
        manifest,
        group,
        creator,
        created,
        modified: moment_in(tree, "modified"),
        tree: note,
    })
}

/// What is kept of the annotation that a tree is.
pub(crate) fn note_of(alloc: Global, tree: &Value) -> Result<KeptNote, RowError>
    requires tree { IsTrue (is_tree (view tree.now)) }
    ensures note { Gives (λ n. n) RowError.Memory result
        (ok_or (result_ok (note_of (view tree.now))) RowError.Bytes) }
{
    match KeptNote::read(alloc, tree) {
        Ok(kept) => Ok(kept),
        Err(NoteError::Memory) => Err(RowError::Memory),
        Err(_) => Err(RowError::Bytes),
    }
}
