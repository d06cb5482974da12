ghost use Rattle.std.specs.Prelude.{◌≡◌, ◌++◌, codes, option_map, IfOk};
ghost use Rattle.std.specs.Option.{option_copied};
ghost use Rattle.serde_json.specs.Data.{Data, array, boolean, no_members, string};
ghost use Rattle.serde_json.specs.Written.{compact_text};
ghost use Rattle.an_base.specs.Write.{member_text, commas, item_text, item_commas};
ghost use Rattle.an_policy.specs.Group.{group_text};
ghost use Rattle.an_rows.specs.RowTree.{given, moment_tree, text_items, version_member};

use an_base::{
    Moment, Name, push_array_member, push_comma, push_name, push_number_member, push_text,
    push_text_member,
};
use an_policy::{Group, group_text};
use std::alloc::{AllocError, Global};
use std::io::Write;

/// Writes whether a row is live, behind a comma.
pub(crate) fn push_flag(out: Vec<u8>, live: bool) -> Result<Vec<u8>, AllocError>
    ensures text { IfOk result
        (λ v. v.items ≡ out.items ++ member_text (codes "live") (boolean live)) }
{
    let out = push_name(out, "live")?;
    let out = push_boolean(out, live)?;
    Ok(out)
}

fn push_boolean(out: Vec<u8>, flag: bool) -> Result<Vec<u8>, AllocError>
    ensures text { IfOk result (λ v. v.items ≡ out.items ++ compact_text (boolean flag)) }
{
    let mut out = out;
    if flag {
        out.extend_from_slice(b"true")?;
        return Ok(out);
    }
    out.extend_from_slice(b"false")?;
    Ok(out)
}

/// Writes the last member of a row but an activity, behind a comma.
pub(crate) fn push_version(out: Vec<u8>, version: u32) -> Result<Vec<u8>, AllocError>
    ensures text { IfOk result (λ v. v.items ≡ out.items ++ commas (version_member version)) }
{
    let out = push_number_member(out, "version", u64::from(version))?;
    Ok(out)
}

/// Writes a moment as the number of its seconds, behind a comma.
pub(crate) fn push_moment(out: Vec<u8>, name: &str, moment: Moment) -> Result<Vec<u8>, AllocError>
    ensures text { IfOk result
        (λ v. v.items ≡ out.items ++ member_text name.now (moment_tree moment)) }
{
    let out = push_name(out, name)?;
    let out = push_seconds(out, moment.seconds())?;
    Ok(out)
}

#[tactic(auto, using(crate::proofs::PartLemmas::seconds_text))]
fn push_seconds(out: Vec<u8>, seconds: i64) -> Result<Vec<u8>, AllocError>
    ensures text { IfOk result (λ v. v.items ≡ out.items ++ compact_text (moment_tree seconds)) }
{
    let mut out = out;
    match write!(out, "{seconds}") {
        Ok(()) => Ok(out),
        Err(_) => Err(AllocError),
    }
}

/// Writes when something was changed, behind a comma; nothing where it wasn't.
pub(crate) fn push_modified(out: Vec<u8>, modified: Option<Moment>) -> Result<Vec<u8>, AllocError>
    ensures text { IfOk result (λ v. v.items ≡ out.items
        ++ commas (given (codes "modified") (option_map moment_tree modified) no_members)) }
{
    match modified {
        Some(moment) => {
            let out = push_moment(out, "modified", moment)?;
            Ok(out)
        }
        None => Ok(out),
    }
}

/// Writes the owner, behind a comma; nothing where there is none.
pub(crate) fn push_owner(out: Vec<u8>, owner: Option<&Name>) -> Result<Vec<u8>, AllocError>
    ensures text { IfOk result (λ v. v.items ≡ out.items
        ++ commas (given (codes "owner") (option_map string (option_copied owner.entry))
        no_members)) }
{
    match owner {
        Some(owner) => {
            let out = push_text_member(out, "owner", owner.as_str())?;
            Ok(out)
        }
        None => Ok(out),
    }
}

/// Writes a tree whose text this is, behind a comma.
pub(crate) fn push_tree(out: Vec<u8>, text: &[u8]) -> Result<Vec<u8>, AllocError>
    ensures text { (tree : Data) → text.now ≡ compact_text tree → IfOk result
        (λ v. v.items ≡ out.items ++ member_text (codes "tree") tree) }
{
    let mut out = push_name(out, "tree")?;
    out.extend_from_slice(text)?;
    Ok(out)
}

/// Writes a group, behind a comma.
pub(crate) fn push_group(out: Vec<u8>, name: &str, group: &Group) -> Result<Vec<u8>, AllocError>
    ensures text { IfOk result
        (λ v. v.items ≡ out.items ++ member_text name.now (string (group_text group.now))) }
{
    let out = push_text_member(out, name, group_text(group))?;
    Ok(out)
}

/// Writes the groups that a reader is in, behind a comma.
pub(crate) fn push_groups(
    alloc: Global,
    out: Vec<u8>,
    groups: &[Name],
) -> Result<Vec<u8>, AllocError>
    ensures text { IfOk result
        (λ v. v.items ≡ out.items ++ member_text (codes "groups") (array (text_items groups.now))) }
{
    let items = name_items(alloc, groups)?;
    let out = push_array_member(out, "groups", items.as_slice())?;
    Ok(out)
}

/// Names as items of an array, each behind a comma.
fn name_items(alloc: Global, names: &[Name]) -> Result<Vec<u8>, AllocError>
    ensures text { IfOk result (λ v. v.items ≡ item_commas (text_items names.now)) }
{
    let mut out = Vec::new(alloc);
    for name in names {
        out = push_item(out, name.as_str())?;
    }
    Ok(out)
}

/// Writes a text as an item of an array, behind a comma.
pub(crate) fn push_item(out: Vec<u8>, text: &str) -> Result<Vec<u8>, AllocError>
    ensures text { IfOk result (λ v. v.items ≡ out.items ++ item_text (string text.now)) }
{
    let out = push_comma(out)?;
    let out = push_text(out, text)?;
    Ok(out)
}
