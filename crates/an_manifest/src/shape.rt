ghost use Rattle.std.specs.Prelude.{◌≡◌, codes, not, position};
ghost use Rattle.serde_json.specs.Find.{get, as_array, as_object};
ghost use Rattle.serde_json.specs.View.{view, items_view, members_view};
ghost use Rattle.an_base.specs.Outcome.{passes};
ghost use Rattle.an_manifest.specs.Shape.{has_some_text, has_size, are_texts, are_text_lists};
ghost use Rattle.an_manifest.specs.Shape.{is_language_map, is_canvas};
ghost use Rattle.an_manifest.specs.Manifest.{is_version_2, canvases_in};

use an_base::{has_type, member_count, text_in};
use serde_json::{Map, Value};

/// Whether the tree has a member that manifests of version 2 have.
pub(crate) fn is_version_2(tree: &Value) -> bool
    ensures { result ≡ is_version_2 (view tree.now) }
{
    tree.get("@type").is_some() || tree.get("sequences").is_some()
}

pub(crate) fn has_label(tree: &Value) -> bool
    ensures { result ≡ passes is_language_map (get (codes "label") (view tree.now)) }
{
    match tree.get("label") {
        Some(label) => is_language_map(label),
        None => false,
    }
}

/// The items of a manifest; none where there is no array of them.
pub(crate) fn canvases_in(tree: &Value) -> &[Value]
    ensures { items_view result.now ≡ canvases_in (view tree.now) }
{
    match tree.get("items") {
        Some(items) => match items.as_array() {
            Some(items) => items.as_slice(),
            None => &[],
        },
        None => &[],
    }
}

/// Where the first item stands that is no canvas, from 0.
pub(crate) fn bad_canvas(items: &[Value]) -> Option<usize>
    ensures { result ≡ position (λ v. not (is_canvas (view v))) items.now }
{
    items.iter().position(|item| !is_canvas(item))
}

#[tactic(auto, unfolding(crate::specs::Shape::is_canvas))]
fn is_canvas(tree: &Value) -> bool
    ensures { result ≡ is_canvas (view tree.now) }
{
    has_type(tree, "Canvas")
        && has_some_text(tree, "id")
        && has_size(tree, "height")
        && has_size(tree, "width")
}

#[tactic(auto, unfolding(crate::specs::Shape::is_language_map))]
fn is_language_map(tree: &Value) -> bool
    ensures { result ≡ is_language_map (view tree.now) }
{
    member_count(tree) > 0 && has_text_lists(tree)
}

fn has_text_lists(tree: &Value) -> bool
    ensures { result ≡ passes are_text_lists (as_object (view tree.now)) }
{
    match tree.as_object() {
        Some(members) => are_text_lists(members),
        None => false,
    }
}

fn are_text_lists(members: &Map<String, Value>) -> bool
    ensures { result ≡ are_text_lists (members_view members.now.entries) }
{
    for (_, tree) in members.iter() {
        if !is_text_list(tree) {
            return false;
        }
    }
    true
}

fn is_text_list(tree: &Value) -> bool
    ensures { result ≡ passes are_texts (as_array (view tree.now)) }
{
    match tree.as_array() {
        Some(items) => are_texts(items.as_slice()),
        None => false,
    }
}

fn are_texts(items: &[Value]) -> bool
    ensures { result ≡ are_texts (items_view items.now) }
{
    for item in items {
        if !item.is_string() {
            return false;
        }
    }
    true
}

fn has_some_text(tree: &Value, name: &str) -> bool
    ensures { result ≡ has_some_text name.now (view tree.now) }
{
    match text_in(tree, name) {
        Some(found) => found.len() > 0,
        None => false,
    }
}

fn has_size(tree: &Value, name: &str) -> bool
    ensures { result ≡ has_size name.now (view tree.now) }
{
    match tree.get(name) {
        Some(value) => match value.as_u64() {
            Some(n) => 0 < n && n < 1 << 32,
            None => false,
        },
        None => false,
    }
}
