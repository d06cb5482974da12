ghost use Rattle.std.specs.Prelude.{◌≡◌, ◌&&◌, option_map, option_and_then};
ghost use Rattle.std.specs.Prelude.{IfErr, IfOk, IfSome, IsTrue};
ghost use Rattle.std.specs.Option.{ok_or};
ghost use Rattle.serde_json.specs.Find.{as_number, as_i64, get};
ghost use Rattle.serde_json.specs.View.{view};
ghost use Rattle.an_base.specs.Moment.{is_moment};
ghost use Rattle.an_base.specs.Name.{is_name};
ghost use Rattle.an_base.specs.Outcome.{Gives, only_if};
ghost use Rattle.an_base.specs.Tree.{is_tree};
ghost use Rattle.an_state.specs.Commands.{is_number};
ghost use Rattle.an_policy.specs.Audience.{is_group_name};
ghost use Rattle.an_policy.specs.Group.{group_named};
ghost use Rattle.an_policy.specs.Reader.{is_user};
ghost use Rattle.an_rows.specs.RowRead.{name_in, flag_in, number_in, version_in};
ghost use Rattle.an_rows.specs.RowRead.{tombstone_version_in, moment_in, group_in};
ghost use Rattle.an_rows.specs.RowRead.{manifest_group_in, creator_in, tree_in};
ghost use Rattle.an_rows.specs.Valid.{is_manifest_group, is_tombstone_number};

use crate::refusal::RowError;
use an_base::{Moment, Name, NameError, Shared, Text, is_tree, text_in};
use an_policy::{Group, group_named, is_user, user_of};
use an_state::as_known;
use serde_json::Value;
use std::alloc::Global;

/// The name that a member is. Its only error is want of memory.
pub(crate) fn name_if(alloc: Global, tree: &Value, member: &str) -> Result<Option<Name>, RowError>
    ensures name { IfOk result (λ name. name ≡ name_in member.now (view tree.now)) }
    ensures memory { IfErr result (λ e. e ≡ RowError.Memory) }
{
    match text_in(tree, member) {
        Some(text) => name_of(alloc, text),
        None => Ok(None),
    }
}

/// The same, in the text of a name that is known where the member is that name.
pub(crate) fn known_name_if(
    alloc: Global,
    tree: &Value,
    member: &str,
    known: Option<&Name>,
) -> Result<Option<Name>, RowError>
    ensures name { IfOk result (λ name. name ≡ name_in member.now (view tree.now)) }
    ensures memory { IfErr result (λ e. e ≡ RowError.Memory) }
{
    match name_if(alloc, tree, member)? {
        Some(name) => match as_known(known, name) {
            Ok(name) => Ok(Some(name)),
            Err(_) => Err(RowError::Memory),
        },
        None => Ok(None),
    }
}

fn name_of(alloc: Global, text: &str) -> Result<Option<Name>, RowError>
    ensures name { IfOk result (λ name. name ≡ only_if is_name text.now) }
    ensures memory { IfErr result (λ e. e ≡ RowError.Memory) }
{
    match Name::new(alloc, text) {
        Ok(name) => Ok(Some(name)),
        Err(NameError::Memory) => Err(RowError::Memory),
        Err(_) => Ok(None),
    }
}

/// The name that a member has to be.
pub(crate) fn name_in(alloc: Global, tree: &Value, member: &str) -> Result<Name, RowError>
    ensures name { Gives (λ n. n) RowError.Memory result
        (ok_or (name_in member.now (view tree.now)) RowError.Bytes) }
{
    let name = name_if(alloc, tree, member)?;
    name.ok_or(RowError::Bytes)
}

/// Whether a row is live. Takes no memory.
pub(crate) fn flag_in(tree: &Value) -> Option<bool>
    ensures flag { result ≡ flag_in (view tree.now) }
{
    match tree.get("live") {
        Some(value) => value.as_bool(),
        None => None,
    }
}

fn number_in(tree: &Value) -> Option<u64>
    ensures { result ≡ number_in (view tree.now) }
{
    match tree.get("version") {
        Some(value) => value.as_u64(),
        None => None,
    }
}

/// The version of a row. Takes no memory.
pub(crate) fn version_in(tree: &Value) -> Option<u32>
    ensures version { result ≡ version_in (view tree.now) }
{
    match number_in(tree) {
        Some(number) => version_of(number),
        None => None,
    }
}

#[tactic(auto, unfolding(an_state::specs::Commands::is_number))]
fn version_of(number: u64) -> Option<u32>
    ensures { result ≡ only_if is_number number }
{
    if 1 <= number && number < 1_000_000_000 {
        Some(number as u32)
    } else {
        None
    }
}

/// The version of an annotation's tombstone. Takes no memory.
pub(crate) fn tombstone_version_in(tree: &Value) -> Option<u32>
    ensures version { result ≡ tombstone_version_in (view tree.now) }
{
    match number_in(tree) {
        Some(number) => tombstone_version_of(number),
        None => None,
    }
}

#[tactic(auto, unfolding(crate::specs::Valid::is_tombstone_number))]
fn tombstone_version_of(number: u64) -> Option<u32>
    ensures { result ≡ only_if is_tombstone_number number }
{
    if 1 <= number && number <= 1_000_000_000 {
        Some(number as u32)
    } else {
        None
    }
}

/// The moment whose seconds a member is. Takes no memory.
pub(crate) fn moment_in(tree: &Value, member: &str) -> Option<Moment>
    ensures moment { result ≡ moment_in member.now (view tree.now) }
{
    match seconds_in(tree, member) {
        Some(seconds) => moment_of(seconds),
        None => None,
    }
}

fn seconds_in(tree: &Value, member: &str) -> Option<i64>
    ensures { result
        ≡ option_and_then as_i64 (option_and_then as_number (get member.now (view tree.now))) }
{
    match tree.get(member) {
        Some(value) => value.as_i64(),
        None => None,
    }
}

pub(crate) fn moment_of(seconds: i64) -> Option<Moment>
    ensures { result ≡ only_if is_moment seconds }
{
    Moment::new(seconds)
}

/// The group that a member has to be.
pub(crate) fn group_in(alloc: Global, tree: &Value, member: &str) -> Result<Group, RowError>
    ensures group { Gives (λ g. g) RowError.Memory result
        (ok_or (group_in member.now (view tree.now)) RowError.Bytes) }
{
    match text_in(tree, member) {
        Some(text) => group_of(alloc, text),
        None => Err(RowError::Bytes),
    }
}

pub(crate) fn group_of(alloc: Global, text: &str) -> Result<Group, RowError>
    ensures group { Gives (λ g. g) RowError.Memory result
        (ok_or (group_named text.now) RowError.Bytes) }
{
    match group_named(alloc, text) {
        Ok(group) => group.ok_or(RowError::Bytes),
        Err(_) => Err(RowError::Memory),
    }
}

/// The group that the member `group` of a manifest's row has to be.
pub(crate) fn manifest_group_in(alloc: Global, tree: &Value) -> Result<Group, RowError>
    ensures group { Gives (λ g. g) RowError.Memory result
        (ok_or (manifest_group_in (view tree.now)) RowError.Bytes) }
{
    let group = group_in(alloc, tree, "group")?;
    if is_manifest_group(&group) {
        Ok(group)
    } else {
        Err(RowError::Bytes)
    }
}

/// Whether a manifest can be in the group. Takes no memory.
pub(crate) fn is_manifest_group(group: &Group) -> bool
    ensures is { result ≡ is_manifest_group group.now }
{
    match group {
        Group::Public => true,
        Group::Private => false,
        Group::Named(name) => is_group_name(name),
    }
}

fn is_group_name(name: &Name) -> bool
    ensures { result ≡ is_group_name name.now }
{
    let text = name.as_str();
    text != "public" && text != "private"
}

/// Who wrote an annotation.
pub(crate) fn creator_in(alloc: Global, tree: &Value) -> Result<Shared<Text>, RowError>
    ensures creator { Gives (λ t. t) RowError.Memory result
        (ok_or (creator_in (view tree.now)) RowError.Bytes) }
{
    match text_in(tree, "creator") {
        Some(text) => creator_of(alloc, text),
        None => Err(RowError::Bytes),
    }
}

pub(crate) fn creator_of(alloc: Global, text: &str) -> Result<Shared<Text>, RowError>
    ensures { Gives (λ t. t) RowError.Memory result
        (ok_or (only_if is_user text.now) RowError.Bytes) }
{
    if !is_user(text) {
        return Err(RowError::Bytes);
    }
    match user_of(alloc, text) {
        Ok(user) => Ok(user),
        Err(_) => Err(RowError::Memory),
    }
}

/// The tree in a row. Takes no memory.
pub(crate) fn tree_in(tree: &Value) -> Option<&Value>
    ensures value { option_map (λ v. view v.now) result ≡ tree_in (view tree.now) }
    ensures tree { IfSome result (λ v. IsTrue (is_tree (view v.now))) }
{
    match tree.get("tree") {
        Some(value) => if is_tree(value) { Some(value) } else { None },
        None => None,
    }
}
