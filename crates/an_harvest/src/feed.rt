ghost use Rattle.std.specs.Prelude.{◌≡◌, codes, option_map, option_and_then, map, None, Some};
ghost use Rattle.std.specs.Prelude.{if◌then◌else◌, length, ◌+◌, ◌==◌, ◌&&◌};
ghost use Rattle.std.specs.List.{list_all};
ghost use Rattle.serde_json.specs.View.{view};
ghost use Rattle.an_base.specs.Member.{text_in};
ghost use Rattle.an_harvest.specs.Feed.{number_in, items_in, id_in, kind_told, manifest_told};
ghost use Rattle.an_harvest.specs.Feed.{kind_in, manifest_in, has_moment, is_activity};
ghost use Rattle.an_harvest.specs.Feed.{page_items, place_of};
ghost use Rattle.an_harvest.specs.Feed.{target_in, change_of};
ghost use Rattle.an_harvest.specs.Live.{leaving};
ghost use Rattle.an_policy.specs.Seen.{is_deletion};

use an_base::{after_front, moment_of, text_in};
use an_policy::Kind;
use serde_json::Value;

// ---- members

/// The whole number that a member is.
pub(crate) fn number_in(tree: &Value, name: &str) -> Option<u64>
    ensures number { result ≡ number_in name.now (view tree.now) }
{
    match tree.get(name) {
        Some(value) => value.as_u64(),
        None => None,
    }
}

/// The items of the array that a member is.
#[tactic(auto, using(an_base::proofs::ItemLemmas::listing))]
pub(crate) fn items_in<'a>(tree: &'a Value, name: &str) -> Option<&'a [Value]>
    ensures items { option_map (λ items. map view items.now) result
        ≡ items_in name.now (view tree.now) }
{
    match tree.get(name) {
        Some(value) => match value.as_array() {
            Some(items) => Some(items.as_slice()),
            None => None,
        },
        None => None,
    }
}

/// The IRI of the thing that a member is.
pub(crate) fn id_in<'a>(tree: &'a Value, name: &str) -> Option<&'a str>
    ensures id { option_map (λ id. id.now) result ≡ id_in name.now (view tree.now) }
{
    match tree.get(name) {
        Some(thing) => text_in(thing, "id"),
        None => None,
    }
}

// ---- activities

fn kind_told(text: &str) -> Option<Kind>
    ensures { result ≡ kind_told text.now }
{
    if text == "Create" {
        Some(Kind::Create)
    } else if text == "Update" {
        Some(Kind::Update)
    } else if text == "Delete" {
        Some(Kind::Delete)
    } else {
        None
    }
}

fn manifest_told(text: &str) -> Option<bool>
    ensures { result ≡ manifest_told text.now }
{
    if text == "Manifest" {
        Some(true)
    } else if text == "Annotation" {
        Some(false)
    } else {
        None
    }
}

/// What kind of a change an activity reports.
pub(crate) fn kind_in(tree: &Value) -> Option<Kind>
    ensures kind { result ≡ kind_in (view tree.now) }
{
    match text_in(tree, "type") {
        Some(text) => kind_told(text),
        None => None,
    }
}

/// Whether an activity is of a manifest, where it is of an annotation or a manifest.
pub(crate) fn manifest_in(tree: &Value) -> Option<bool>
    ensures manifest { result ≡ manifest_in (view tree.now) }
{
    match tree.get("object") {
        Some(thing) => type_of_thing(thing),
        None => None,
    }
}

fn type_of_thing(thing: &Value) -> Option<bool>
    ensures { result ≡ option_and_then manifest_told (text_in (codes "type") (view thing.now)) }
{
    match text_in(thing, "type") {
        Some(text) => manifest_told(text),
        None => None,
    }
}

pub(crate) fn has_moment(tree: &Value) -> bool
    ensures has { result ≡ has_moment (view tree.now) }
{
    match text_in(tree, "endTime") {
        Some(text) => moment_of(text).is_ok(),
        None => false,
    }
}

/// What the change leaves that an activity reports, and the object that it is of, where the item is
/// an activity.
pub(crate) fn change_in<'a>(tree: &'a Value) -> Option<(&'a str, Option<bool>)>
    ensures change { option_map (λ change. (change.0.now, change.1)) result
        ≡ option_map leaving (change_of (view tree.now)) }
{
    if !has_moment(tree) {
        return None;
    }
    match id_in(tree, "object") {
        Some(id) => match left_in(tree) {
            Some(left) => Some((id, left)),
            None => None,
        },
        None => None,
    }
}

fn left_in(tree: &Value) -> Option<Option<bool>>
    ensures { result ≡ option_and_then (λ manifest. option_map
        (λ kind. if is_deletion kind then None else Some manifest) (kind_in (view tree.now)))
        (manifest_in (view tree.now)) }
{
    match manifest_in(tree) {
        Some(manifest) => match kind_in(tree) {
            Some(kind) => Some(left_by(manifest, kind)),
            None => None,
        },
        None => None,
    }
}

fn left_by(manifest: bool, kind: Kind) -> Option<bool>
    ensures { result ≡ if is_deletion kind then None else Some manifest }
{
    match kind {
        Kind::Create => Some(manifest),
        Kind::Update => Some(manifest),
        Kind::Delete => None,
    }
}

/// Whether an item is an activity.
#[tactic(auto, using(crate::proofs::FeedLemmas::leaves))]
pub(crate) fn is_activity(tree: &Value) -> bool
    ensures is { result ≡ is_activity (view tree.now) }
{
    change_in(tree).is_some()
}

pub(crate) fn are_activities(items: &[Value]) -> bool
    ensures { result ≡ list_all is_activity (map view items.now) }
{
    for item in items {
        if !is_activity(item) {
            return false;
        }
    }
    true
}

// ---- the stream and its pages

/// The target that the id of a member names.
pub(crate) fn target_in<'a>(base: &str, tree: &'a Value, name: &str) -> Option<&'a str>
    ensures target { option_map (λ target. target.now) result
        ≡ target_in base.now name.now (view tree.now) }
{
    match id_in(tree, name) {
        Some(id) => after_front(base, id),
        None => None,
    }
}

/// The items of a page.
pub(crate) fn page_items(tree: &Value) -> &[Value]
    ensures items { map view result.now ≡ page_items (view tree.now) }
    ensures count { length result.now ≡ length (page_items (view tree.now)) }
{
    match items_in(tree, "orderedItems") {
        Some(items) => items,
        None => &[],
    }
}

/// Where a page of activities starts that ends at this place.
pub(crate) fn place_in(end: u64, tree: &Value) -> Option<u64>
    ensures place { result ≡ place_of end (view tree.now) }
{
    match number_in(tree, "startIndex") {
        Some(start) => match items_in(tree, "orderedItems") {
            Some(items) => place_with(start, end, items),
            None => None,
        },
        None => None,
    }
}

fn place_with(start: u64, end: u64, items: &[Value]) -> Option<u64>
    ensures { result ≡ if list_all is_activity (map view items.now)
        && (start + length (map view items.now) == end) then Some start else None }
{
    if are_activities(items) && ends_at(start, items.len(), end) {
        Some(start)
    } else {
        None
    }
}

fn ends_at(start: u64, count: usize, end: u64) -> bool
    ensures { result ≡ (start + count == end) }
{
    start <= end && end - start == count as u64
}
