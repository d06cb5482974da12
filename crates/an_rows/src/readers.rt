ghost use Rattle.std.specs.Prelude.{◌≡◌, ◌++◌, codes, IfOk};
ghost use Rattle.std.specs.Option.{ok_or};
ghost use Rattle.std.specs.Result.{result_ok};
ghost use Rattle.serde_json.specs.View.{view};
ghost use Rattle.an_base.specs.Outcome.{Gives};
ghost use Rattle.an_base.specs.Write.{commas};
ghost use Rattle.an_policy.specs.Reader.{reader_of};
ghost use Rattle.an_rows.specs.RowRead.{live_reader_in, reader_named, reader_row_in};
ghost use Rattle.an_rows.specs.RowTree.{role_text, text_member, version_member, reader_members};
ghost use Rattle.an_rows.specs.RowTree.{live_reader_members, reader_tombstone_members};

use crate::fields::{flag_in, name_in, version_in};
use crate::members::{push_flag, push_groups, push_version};
use crate::refusal::RowError;
use an_base::{Name, TryCopy, push_text_member};
use an_keyed::Keyed;
use an_policy::{Reader, ReaderError, Role, read_reader};
use an_state::ReaderRow;
use serde_json::Value;
use std::alloc::{AllocError, Global};

/// Writes the members of a reader's row, each behind a comma.
pub(crate) fn push_reader(
    alloc: Global,
    out: Vec<u8>,
    row: &ReaderRow,
) -> Result<Vec<u8>, AllocError>
    ensures text { IfOk result (λ v. v.items ≡ out.items ++ commas (reader_members row.now)) }
{
    match row.reader() {
        Some(reader) => push_live(alloc, out, row, reader),
        None => push_tombstone(out, row),
    }
}

#[tactic(auto, using(crate::proofs::PartLemmas::parts), unfolding(crate::specs::RowTree::live_reader_members))]
fn push_live(
    alloc: Global,
    out: Vec<u8>,
    row: &ReaderRow,
    reader: &Reader,
) -> Result<Vec<u8>, AllocError>
    ensures text { IfOk result
        (λ v. v.items ≡ out.items ++ commas (live_reader_members row.now reader.now)) }
{
    let out = push_groups(alloc, out, reader.groups.as_slice())?;
    let out = push_flag(out, true)?;
    let out = push_text_member(out, "name", row.name().as_str())?;
    let out = push_signature(out, row, reader)?;
    Ok(out)
}

/// Writes what stands behind the name of a live reader.
#[tactic(auto, using(crate::proofs::PartLemmas::parts))]
fn push_signature(out: Vec<u8>, row: &ReaderRow, reader: &Reader) -> Result<Vec<u8>, AllocError>
    ensures text { IfOk result (λ v. v.items ≡ out.items
        ++ commas (text_member (codes "role") (role_text reader.now.role)
        (text_member (codes "token") reader.now.token
        (text_member (codes "user") reader.now.user
        (version_member row.now.version))))) }
{
    let out = push_text_member(out, "role", role_text(reader.role))?;
    let out = push_text_member(out, "token", reader.token.as_str())?;
    let out = push_text_member(out, "user", reader.user.get().as_str())?;
    let out = push_version(out, row.version())?;
    Ok(out)
}

#[tactic(auto, using(crate::proofs::PartLemmas::parts), unfolding(crate::specs::RowTree::reader_tombstone_members))]
fn push_tombstone(out: Vec<u8>, row: &ReaderRow) -> Result<Vec<u8>, AllocError>
    ensures text { IfOk result
        (λ v. v.items ≡ out.items ++ commas (reader_tombstone_members row.now)) }
{
    let out = push_flag(out, false)?;
    let out = push_text_member(out, "name", row.name().as_str())?;
    let out = push_version(out, row.version())?;
    Ok(out)
}

fn role_text(role: Role) -> &'static str
    ensures { result.now ≡ role_text role }
{
    match role {
        Role::Reader => "reader",
        Role::Writer => "writer",
        Role::Curator => "curator",
    }
}

/// The reader's row that a value says.
#[tactic(auto, unfolding(crate::specs::RowRead::reader_row_in))]
pub(crate) fn reader_row_in(alloc: Global, tree: &Value) -> Result<ReaderRow, RowError>
    ensures row { Gives (λ r. r) RowError.Memory result (reader_row_in (view tree.now)) }
{
    let name = name_in(alloc, tree, "name")?;
    let version = version_in(tree).ok_or(RowError::Bytes)?;
    let live = flag_in(tree).ok_or(RowError::Bytes)?;
    reader_named(alloc, tree, name, version, live)
}

fn reader_named(
    alloc: Global,
    tree: &Value,
    name: Name,
    version: u32,
    live: bool,
) -> Result<ReaderRow, RowError>
    ensures row { Gives (λ r. r) RowError.Memory result
        (reader_named name version live (view tree.now)) }
{
    if live {
        live_reader_in(alloc, tree, name, version)
    } else {
        Ok(ReaderRow {
            name,
            version,
            reader: None,
        })
    }
}

fn live_reader_in(
    alloc: Global,
    tree: &Value,
    name: Name,
    version: u32,
) -> Result<ReaderRow, RowError>
    ensures row { Gives (λ r. r) RowError.Memory result
        (live_reader_in name version (view tree.now)) }
{
    let reader = reader_in(alloc, tree, &name, version)?;
    Ok(ReaderRow {
        name,
        version,
        reader: Some(reader),
    })
}

fn reader_in(alloc: Global, tree: &Value, name: &Name, version: u32) -> Result<Reader, RowError>
    ensures reader { Gives (λ r. r) RowError.Memory result
        (ok_or (result_ok (reader_of (view tree.now) name.now version)) RowError.Bytes) }
    ensures named { IfOk result (λ r. r.name ≡ name.now) }
    ensures numbered { IfOk result (λ r. r.version ≡ version) }
{
    let Ok(name) = name.copy() else {
        return Err(RowError::Memory);
    };
    match read_reader(alloc, tree, name, version) {
        Ok(reader) => Ok(reader),
        Err(ReaderError::Memory) => Err(RowError::Memory),
        Err(_) => Err(RowError::Bytes),
    }
}
