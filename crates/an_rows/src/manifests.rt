ghost use Rattle.std.specs.Prelude.{◌≡◌, ◌++◌, codes, option_map, IfOk, IsTrue};
ghost use Rattle.std.specs.Option.{ok_or};
ghost use Rattle.std.specs.Result.{result_ok};
ghost use Rattle.serde_json.specs.Data.{member};
ghost use Rattle.serde_json.specs.View.{view};
ghost use Rattle.an_base.specs.Outcome.{Gives};
ghost use Rattle.an_base.specs.Tree.{is_tree};
ghost use Rattle.an_base.specs.Write.{commas};
ghost use Rattle.an_manifest.specs.Manifest.{manifest_of};
ghost use Rattle.an_rows.specs.Lent.{lent_manifest, manifest_read};
ghost use Rattle.an_rows.specs.RowRead.{live_manifest_in, manifest_if_live, manifest_named};
ghost use Rattle.an_rows.specs.RowRead.{manifest_row_in};
ghost use Rattle.an_rows.specs.RowTree.{given, moment_tree, text_member, version_member};
ghost use Rattle.an_rows.specs.RowTree.{manifest_members, live_manifest_members};
ghost use Rattle.an_rows.specs.RowTree.{manifest_tombstone_members};

use crate::fields::{flag_in, manifest_group_in, moment_in, name_in, tree_in, version_in};
use crate::members::{push_flag, push_group, push_modified, push_moment, push_tree, push_version};
use crate::refusal::RowError;
use an_base::{Moment, Name, push_text_member};
use an_keyed::Keyed;
use an_manifest::{KeptSheet, SheetError, read_manifest};
use an_policy::Group;
use an_state::ManifestRow;
use serde_json::Value;
use std::alloc::{AllocError, Global};

/// What is kept of a live manifest.
#[derive(Clone, Copy)]
pub(crate) struct LiveManifest<'a> {
    pub(crate) created: Moment,
    pub(crate) modified: Option<Moment>,
    pub(crate) tree: &'a KeptSheet,
}

fn live_part(row: &ManifestRow) -> Option<LiveManifest<'_>>
    ensures { option_map lent_manifest result ≡ row.now.live }
{
    let created = row.created?;
    let tree = row.tree.as_ref()?;
    Some(LiveManifest {
        created,
        modified: row.modified,
        tree,
    })
}

/// Writes the members of a manifest's row, each behind a comma.
pub(crate) fn push_manifest(out: Vec<u8>, row: &ManifestRow) -> Result<Vec<u8>, AllocError>
    ensures text { IfOk result (λ v. v.items ≡ out.items ++ commas (manifest_members row.now)) }
{
    match live_part(row) {
        Some(live) => push_live(out, row, &live),
        None => push_tombstone(out, row),
    }
}

#[tactic(auto, using(crate::proofs::PartLemmas::parts), unfolding(crate::specs::RowTree::live_manifest_members))]
fn push_live(
    out: Vec<u8>,
    row: &ManifestRow,
    live: &LiveManifest<'_>,
) -> Result<Vec<u8>, AllocError>
    ensures text { IfOk result (λ v. v.items
        ≡ out.items ++ commas (live_manifest_members row.now (lent_manifest live.now))) }
{
    let out = push_moment(out, "created", live.created)?;
    let out = push_group(out, "group", row.group())?;
    let out = push_flag(out, true)?;
    let out = push_from_modified(out, row, live)?;
    Ok(out)
}

#[tactic(auto, using(crate::proofs::PartLemmas::parts))]
fn push_from_modified(
    out: Vec<u8>,
    row: &ManifestRow,
    live: &LiveManifest<'_>,
) -> Result<Vec<u8>, AllocError>
    ensures text { IfOk result (λ v. v.items ≡ out.items
        ++ commas (given (codes "modified") (option_map moment_tree live.now.modified)
        (text_member (codes "name") row.now.name
        (member (codes "tree") live.now.tree.now (version_member row.now.version))))) }
{
    let out = push_modified(out, live.modified)?;
    let out = push_named_tree(out, row, live.tree)?;
    Ok(out)
}

#[tactic(auto, using(crate::proofs::PartLemmas::parts))]
fn push_named_tree(out: Vec<u8>, row: &ManifestRow, tree: &KeptSheet) -> Result<Vec<u8>, AllocError>
    ensures text { IfOk result (λ v. v.items ≡ out.items
        ++ commas (text_member (codes "name") row.now.name
        (member (codes "tree") tree.now (version_member row.now.version)))) }
{
    let out = push_text_member(out, "name", row.name().as_str())?;
    let out = push_tree(out, tree.text())?;
    let out = push_version(out, row.version())?;
    Ok(out)
}

#[tactic(auto, using(crate::proofs::PartLemmas::parts), unfolding(crate::specs::RowTree::manifest_tombstone_members))]
fn push_tombstone(out: Vec<u8>, row: &ManifestRow) -> Result<Vec<u8>, AllocError>
    ensures text { IfOk result
        (λ v. v.items ≡ out.items ++ commas (manifest_tombstone_members row.now)) }
{
    let out = push_group(out, "group", row.group())?;
    let out = push_flag(out, false)?;
    let out = push_text_member(out, "name", row.name().as_str())?;
    let out = push_version(out, row.version())?;
    Ok(out)
}

/// What was read of a live manifest.
#[derive(Drop)]
pub(crate) struct ReadManifest {
    pub(crate) created: Moment,
    pub(crate) modified: Option<Moment>,
    pub(crate) tree: KeptSheet,
}

/// The manifest's row that a value says.
#[tactic(auto, unfolding(crate::specs::RowRead::manifest_row_in))]
pub(crate) fn manifest_row_in(alloc: Global, tree: &Value) -> Result<ManifestRow, RowError>
    ensures row { Gives (λ r. r) RowError.Memory result (manifest_row_in (view tree.now)) }
{
    let name = name_in(alloc, tree, "name")?;
    let version = version_in(tree).ok_or(RowError::Bytes)?;
    manifest_named(alloc, tree, name, version)
}

#[tactic(auto, unfolding(crate::specs::RowRead::manifest_named))]
fn manifest_named(
    alloc: Global,
    tree: &Value,
    name: Name,
    version: u32,
) -> Result<ManifestRow, RowError>
    ensures row { Gives (λ r. r) RowError.Memory result
        (manifest_named name version (view tree.now)) }
{
    let group = manifest_group_in(alloc, tree)?;
    let flag = flag_in(tree).ok_or(RowError::Bytes)?;
    let live = manifest_if_live(alloc, tree, flag)?;
    Ok(row_with(name, version, group, live))
}

fn row_with(name: Name, version: u32, group: Group, live: Option<ReadManifest>) -> ManifestRow
    ensures row { result ≡ record {
      name = name;
      version = version;
      group = group;
      live = option_map manifest_read live;
    } }
{
    match live {
        Some(live) => live_row(name, version, group, live),
        None => ManifestRow {
            name,
            version,
            live: false,
            group,
            created: None,
            modified: None,
            tree: None,
        },
    }
}

fn live_row(name: Name, version: u32, group: Group, live: ReadManifest) -> ManifestRow
    ensures row { result ≡ record {
      name = name;
      version = version;
      group = group;
      live = Some (manifest_read live);
    } }
{
    let ReadManifest {
        created,
        modified,
        tree,
    } = live;
    ManifestRow {
        name,
        version,
        live: true,
        group,
        created: Some(created),
        modified,
        tree: Some(tree),
    }
}

fn manifest_if_live(
    alloc: Global,
    tree: &Value,
    live: bool,
) -> Result<Option<ReadManifest>, RowError>
    ensures live { Gives (option_map manifest_read) RowError.Memory result
        (manifest_if_live live (view tree.now)) }
{
    if live {
        let live = live_manifest_in(alloc, tree)?;
        Ok(Some(live))
    } else {
        Ok(None)
    }
}

#[tactic(auto, unfolding(crate::specs::RowRead::live_manifest_in))]
fn live_manifest_in(alloc: Global, tree: &Value) -> Result<ReadManifest, RowError>
    ensures live { Gives manifest_read RowError.Memory result (live_manifest_in (view tree.now)) }
{
    let created = moment_in(tree, "created").ok_or(RowError::Bytes)?;
    let value = tree_in(tree).ok_or(RowError::Bytes)?;
    let sheet = sheet_of(alloc, value)?;
    Ok(ReadManifest {
        created,
        modified: moment_in(tree, "modified"),
        tree: sheet,
    })
}

/// What is kept of the manifest that a tree is.
fn sheet_of(alloc: Global, tree: &Value) -> Result<KeptSheet, RowError>
    requires tree { IsTrue (is_tree (view tree.now)) }
    ensures sheet { Gives (λ s. s) RowError.Memory result
        (ok_or (result_ok (manifest_of (view tree.now))) RowError.Bytes) }
{
    match read_manifest(alloc, tree) {
        Ok(sheet) => match KeptSheet::keep(alloc, &sheet) {
            Ok(kept) => Ok(kept),
            Err(_) => Err(RowError::Memory),
        },
        Err(SheetError::Memory) => Err(RowError::Memory),
        Err(_) => Err(RowError::Bytes),
    }
}
