ghost use Rattle.std.specs.Option.{option_copied};
ghost use Rattle.std.specs.Prelude.{◌≡◌, ◌++◌, bytes_eq, codes, option_map, IfOk};
ghost use Rattle.serde_json.specs.Data.{member, no_members, string};
ghost use Rattle.serde_json.specs.Find.{get};
ghost use Rattle.serde_json.specs.View.{view};
ghost use Rattle.an_base.specs.Outcome.{Gives, passes};
ghost use Rattle.an_base.specs.Write.{commas, member_text};
ghost use Rattle.an_policy.specs.Group.{group_text};
ghost use Rattle.an_rows.specs.Format.{inner_tree};
ghost use Rattle.an_rows.specs.RowRead.{if_audience, audience_of, audience_if, audience_with};
ghost use Rattle.an_rows.specs.RowRead.{if_seen};
ghost use Rattle.an_rows.specs.RowRead.{activity_on, activity_in};
ghost use Rattle.an_rows.specs.RowTree.{given, moment_tree, text_member, audience_tree, by_text};
ghost use Rattle.an_rows.specs.RowTree.{activity_members};
ghost use Rattle.an_rows.specs.Valid.{is_public, is_inner, is_valid_audience};

use crate::fields::{group_in, is_manifest_group, known_name_if, moment_in, name_if, name_in};
use crate::format::Format;
use crate::inner::{inner_in, push_inner};
use crate::members::{push_group, push_moment, push_owner};
use crate::refusal::RowError;
use an_base::{Moment, Name, close_members, push_name, push_text_member};
use an_policy::{Audience, Inner, typed_inner};
use an_state::Activity;
use serde_json::Value;
use std::alloc::{AllocError, Global};

/// Writes the members of an activity, each behind a comma.
#[tactic(auto, using(crate::proofs::PartLemmas::parts), unfolding(crate::specs::RowTree::activity_members))]
pub(crate) fn push_activity(
    alloc: Global,
    format: Format,
    out: Vec<u8>,
    activity: &Activity,
) -> Result<Vec<u8>, AllocError>
    ensures text { IfOk result (λ v. v.items ≡ out.items
        ++ commas (activity_members format activity.now)) }
{
    let out = push_audience(alloc, format, out, "after", activity.after.as_ref())?;
    let out = push_from_moment(alloc, format, out, activity)?;
    Ok(out)
}

#[tactic(auto, using(crate::proofs::PartLemmas::parts))]
fn push_from_moment(
    alloc: Global,
    format: Format,
    out: Vec<u8>,
    activity: &Activity,
) -> Result<Vec<u8>, AllocError>
    ensures text { IfOk result (λ v. v.items ≡ out.items
        ++ commas (member (codes "at") (moment_tree activity.now.at)
        (given (codes "before") (option_map (audience_tree format) activity.now.before)
        (text_member (codes "by") (by_text activity.now.by)
        (text_member (codes "name") activity.now.name
        (given (codes "owner") (option_map string activity.now.owner) no_members)))))) }
{
    let out = push_moment(out, "at", activity.at)?;
    let out = push_from_before(alloc, format, out, activity)?;
    Ok(out)
}

#[tactic(auto, using(crate::proofs::PartLemmas::parts))]
fn push_from_before(
    alloc: Global,
    format: Format,
    out: Vec<u8>,
    activity: &Activity,
) -> Result<Vec<u8>, AllocError>
    ensures text { IfOk result (λ v. v.items ≡ out.items
        ++ commas (given (codes "before") (option_map (audience_tree format) activity.now.before)
        (text_member (codes "by") (by_text activity.now.by)
        (text_member (codes "name") activity.now.name
        (given (codes "owner") (option_map string activity.now.owner) no_members))))) }
{
    let out = push_audience(alloc, format, out, "before", activity.before.as_ref())?;
    let out = push_names(out, activity)?;
    Ok(out)
}

/// Writes who did it, and what was changed.
#[tactic(auto, using(crate::proofs::PartLemmas::parts))]
fn push_names(out: Vec<u8>, activity: &Activity) -> Result<Vec<u8>, AllocError>
    ensures text { IfOk result (λ v. v.items ≡ out.items
        ++ commas (text_member (codes "by") (by_text activity.now.by)
        (text_member (codes "name") activity.now.name
        (given (codes "owner") (option_map string activity.now.owner) no_members)))) }
{
    let out = push_text_member(out, "by", by_text(activity.by.as_ref()))?;
    let out = push_text_member(out, "name", activity.name.as_str())?;
    let out = push_owner(out, activity.owner.as_ref())?;
    Ok(out)
}

fn by_text(by: Option<&Name>) -> &str
    ensures { result.now ≡ by_text (option_copied by.entry) }
{
    match by {
        Some(name) => name.as_str(),
        None => "-",
    }
}

/// Writes an audience, behind a comma; nothing where there is none.
fn push_audience(
    alloc: Global,
    format: Format,
    out: Vec<u8>,
    name: &str,
    audience: Option<&Audience>,
) -> Result<Vec<u8>, AllocError>
    ensures text { IfOk result (λ v. v.items ≡ out.items
        ++ commas (given name.now (option_map (audience_tree format) (option_copied audience.entry))
        no_members)) }
{
    match audience {
        Some(audience) => {
            let out = push_one(alloc, format, out, name, audience)?;
            Ok(out)
        }
        None => Ok(out),
    }
}

fn push_one(
    alloc: Global,
    format: Format,
    out: Vec<u8>,
    name: &str,
    audience: &Audience,
) -> Result<Vec<u8>, AllocError>
    ensures text { IfOk result
        (λ v. v.items ≡ out.items ++ member_text name.now (audience_tree format audience.now)) }
{
    let out = push_name(out, name)?;
    let start = out.len();
    let out = push_groups(alloc, format, out, audience)?;
    let out = close_members(out, start)?;
    Ok(out)
}

#[tactic(auto, using(crate::proofs::PartLemmas::parts))]
fn push_groups(
    alloc: Global,
    format: Format,
    out: Vec<u8>,
    audience: &Audience,
) -> Result<Vec<u8>, AllocError>
    ensures text { IfOk result (λ v. v.items ≡ out.items
        ++ commas (member (codes "inner") (inner_tree format audience.now.inner)
        (text_member (codes "outer") (group_text audience.now.outer)
        (given (codes "owner") (option_map string audience.now.owner) no_members)))) }
{
    let out = push_inner(alloc, format, out, "inner", &audience.inner)?;
    let out = push_group(out, "outer", &audience.outer)?;
    let out = push_owner(out, audience.owner.as_ref())?;
    Ok(out)
}

/// The activity that a value says.
#[tactic(auto, unfolding(crate::specs::RowRead::activity_in))]
pub(crate) fn activity_in(alloc: Global, format: Format, tree: &Value) -> Result<Activity, RowError>
    ensures activity { Gives (λ a. a) RowError.Memory result
        (activity_in format (view tree.now)) }
{
    let at = moment_in(tree, "at").ok_or(RowError::Bytes)?;
    let name = name_in(alloc, tree, "name")?;
    let owner = name_if(alloc, tree, "owner")?;
    activity_on(alloc, format, tree, at, owner, name)
}

/// The activity on what has this owner, if any, and this name.
#[tactic(auto, unfolding(crate::specs::RowRead::activity_on))]
fn activity_on(
    alloc: Global,
    format: Format,
    tree: &Value,
    at: Moment,
    owner: Option<Name>,
    name: Name,
) -> Result<Activity, RowError>
    ensures activity { Gives (λ a. a) RowError.Memory result
        (activity_on format at owner name (view tree.now)) }
{
    let before = audience_if(alloc, format, owner.as_ref(), tree.get("before"))?;
    let after = audience_if(alloc, format, owner.as_ref(), tree.get("after"))?;
    let by = known_name_if(alloc, tree, "by", owner.as_ref())?;
    if_seen(Activity {
        at,
        by,
        owner,
        name,
        before,
        after,
    })
}

/// The activity, where somebody could read the object before or can after.
fn if_seen(activity: Activity) -> Result<Activity, RowError>
    ensures { Gives (λ a. a) RowError.Memory result (if_seen activity) }
{
    if activity.before.is_some() || activity.after.is_some() {
        Ok(activity)
    } else {
        Err(RowError::Bytes)
    }
}

fn audience_if(
    alloc: Global,
    format: Format,
    owner: Option<&Name>,
    tree: Option<&Value>,
) -> Result<Option<Audience>, RowError>
    ensures { Gives (λ a. a) RowError.Memory result
        (audience_if format (option_copied owner.entry) (option_map (λ v. view v.now) tree.entry)) }
{
    match tree {
        Some(tree) => {
            let audience = audience_of(alloc, format, owner, tree)?;
            Ok(Some(audience))
        }
        None => Ok(None),
    }
}

#[tactic(auto, unfolding(crate::specs::RowRead::audience_of))]
fn audience_of(
    alloc: Global,
    format: Format,
    owner: Option<&Name>,
    tree: &Value,
) -> Result<Audience, RowError>
    ensures { Gives (λ a. a) RowError.Memory result
        (audience_of format (option_copied owner.entry) (view tree.now)) }
{
    let inner = inner_in(alloc, format, tree, "inner")?;
    audience_with(alloc, owner, tree, inner)
}

/// The audience that a value is whose inner groups are read.
#[tactic(auto, unfolding(crate::specs::RowRead::audience_with))]
fn audience_with(
    alloc: Global,
    owner: Option<&Name>,
    tree: &Value,
    inner: Inner,
) -> Result<Audience, RowError>
    ensures { Gives (λ a. a) RowError.Memory result
        (audience_with (option_copied owner.entry) inner (view tree.now)) }
{
    let outer = group_in(alloc, tree, "outer")?;
    let its_owner = known_name_if(alloc, tree, "owner", owner)?;
    if_audience(
        owner,
        Audience {
            outer,
            inner,
            owner: its_owner,
        },
    )
}

/// The audience, where what has this owner can have it.
fn if_audience(owner: Option<&Name>, audience: Audience) -> Result<Audience, RowError>
    ensures { Gives (λ a. a) RowError.Memory result
        (if_audience (option_copied owner.entry) audience) }
{
    if is_valid_audience(owner, &audience) {
        Ok(audience)
    } else {
        Err(RowError::Bytes)
    }
}

#[tactic(auto, unfolding(crate::specs::Valid::is_valid_audience))]
pub(crate) fn is_valid_audience(owner: Option<&Name>, audience: &Audience) -> bool
    ensures { result ≡ is_valid_audience (option_copied owner.entry) audience.now }
{
    is_manifest_group(&audience.outer) && is_inner(owner, audience)
}

fn is_inner(owner: Option<&Name>, audience: &Audience) -> bool
    ensures { result ≡ is_inner (option_copied owner.entry) audience.now }
{
    match owner {
        None => is_public(&audience.inner) && audience.owner.is_none(),
        Some(owner) => {
            typed_inner(&audience.inner);
            is_owned_by(audience.owner.as_ref(), owner)
        }
    }
}

fn is_public(inner: &Inner) -> bool
    ensures { result ≡ is_public inner.now }
{
    matches!(inner, Inner::Public)
}

fn is_owned_by(owner: Option<&Name>, name: &Name) -> bool
    ensures { result ≡ passes (λ its. bytes_eq its name.now) (option_copied owner.entry) }
{
    match owner {
        Some(owner) => owner == name,
        None => false,
    }
}
