ghost use Rattle.std.specs.Prelude.{◌≡◌, bytes_eq, option_map};
ghost use Rattle.serde_json.specs.Find.{as_str};
ghost use Rattle.serde_json.specs.View.{view, items_view};
ghost use Rattle.an_base.specs.Items.{trees_in};
ghost use Rattle.an_base.specs.Outcome.{passes};
ghost use Rattle.an_base.specs.Member.{text_in, member_count, has_item, has_type};

use crate::tree::one_or_many;
use serde_json::Value;

/// The text that a member of an object is.
pub fn text_in<'a>(tree: &'a Value, name: &str) -> Option<&'a str>
    ensures text { option_map (λ s. s.now) result ≡ text_in name.now (view tree.now) }
{
    match tree.get(name) {
        Some(value) => value.as_str(),
        None => None,
    }
}

/// What a member holds that may be absent, one value or an array of values: no values where it is
/// absent. Takes no memory.
pub fn trees_in<'a>(tree: &'a Value, name: &str) -> &'a [Value]
    ensures trees { items_view result.now ≡ trees_in name.now (view tree.now) }
{
    match tree.get(name) {
        Some(value) => one_or_many(value),
        None => &[],
    }
}

/// How many members an object has. What is no object has none.
pub fn member_count(tree: &Value) -> usize
    ensures count { result ≡ member_count (view tree.now) }
{
    match tree.as_object() {
        Some(members) => members.len(),
        None => 0,
    }
}

/// Whether the member `type` is this name, or an array that has it.
pub fn has_type(tree: &Value, name: &str) -> bool
    ensures is { result ≡ has_type name.now (view tree.now) }
{
    match tree.get("type") {
        Some(types) => has_item(one_or_many(types), name),
        None => false,
    }
}

/// Whether one of the items is this text.
pub fn has_item(items: &[Value], text: &str) -> bool
    ensures is { result ≡ has_item text.now (items_view items.now) }
{
    for item in items {
        if is_text(item, text) {
            return true;
        }
    }
    false
}

fn is_text(tree: &Value, text: &str) -> bool
    ensures { result ≡ passes (λ found. bytes_eq found text.now) (as_str (view tree.now)) }
{
    match tree.as_str() {
        Some(found) => found == text,
        None => false,
    }
}
