ghost use Rattle.std.specs.Prelude.{◌≡◌, [], unwrap_or, option_map};
ghost use Rattle.std.specs.Result.{result_map_both};
ghost use Rattle.serde_json.specs.View.{view, items_view};
ghost use Rattle.an_selectors.specs.Selector.{types_in, optional_text_in, number_in, fragment_of};
ghost use Rattle.an_selectors.specs.Selector.{quote_of, position_of, selector_of_types};
ghost use Rattle.an_selectors.specs.Selector.{selector_of};
ghost use Rattle.an_selectors.specs.Lent.{owned};

use crate::selector::SelectorError;
use an_base::{has_item, one_or_many, text_in};
use serde_json::Value;

/// What a selector says, lent by its tree.
#[derive(Drop)]
pub(crate) enum Lent<'a> {
    Fragment {
        value: &'a str,
        conforms: Option<&'a str>,
    },
    Quote {
        exact: &'a str,
        prefix: &'a str,
        suffix: &'a str,
    },
    Position {
        start: u32,
        end: u32,
    },
    Other,
}

/// What a tree says of a selector, or why it describes none.
pub(crate) fn lent_in(tree: &Value) -> Result<Lent<'_>, SelectorError>
    ensures { result_map_both owned (λ e. e) result ≡ selector_of (view tree.now) }
{
    if tree.is_string() {
        return Ok(Lent::Other);
    }
    match types_in(tree) {
        Some(types) => lent_of_types(types, tree),
        None => Err(SelectorError::WrongType),
    }
}

fn lent_of_types<'a>(types: &[Value], tree: &'a Value) -> Result<Lent<'a>, SelectorError>
    ensures { result_map_both owned (λ e. e) result
        ≡ selector_of_types (items_view types.now) (view tree.now) }
{
    if has_item(types, "FragmentSelector") {
        return fragment_in(tree);
    }
    if has_item(types, "TextQuoteSelector") {
        return quote_in(tree);
    }
    if has_item(types, "TextPositionSelector") {
        return position_in(tree);
    }
    Ok(Lent::Other)
}

fn fragment_in(tree: &Value) -> Result<Lent<'_>, SelectorError>
    ensures { result_map_both owned (λ e. e) result ≡ fragment_of (view tree.now) }
{
    let value = text_in(tree, "value").ok_or(SelectorError::Value)?;
    let conforms = optional_text_in(tree, "conformsTo").ok_or(SelectorError::Value)?;
    Ok(Lent::Fragment { value, conforms })
}

fn quote_in(tree: &Value) -> Result<Lent<'_>, SelectorError>
    ensures { result_map_both owned (λ e. e) result ≡ quote_of (view tree.now) }
{
    let exact = text_in(tree, "exact").ok_or(SelectorError::Value)?;
    let prefix = text_or_empty_in(tree, "prefix").ok_or(SelectorError::Value)?;
    let suffix = text_or_empty_in(tree, "suffix").ok_or(SelectorError::Value)?;
    Ok(Lent::Quote {
        exact,
        prefix,
        suffix,
    })
}

fn position_in(tree: &Value) -> Result<Lent<'_>, SelectorError>
    ensures { result_map_both owned (λ e. e) result ≡ position_of (view tree.now) }
{
    let start = number_in(tree, "start").ok_or(SelectorError::Value)?;
    let end = number_in(tree, "end").ok_or(SelectorError::Value)?;
    if end < start {
        return Err(SelectorError::Order);
    }
    Ok(Lent::Position { start, end })
}

/// The types that an object says, where it says any.
fn types_in(tree: &Value) -> Option<&[Value]>
    ensures { option_map (λ s. items_view s.now) result ≡ types_in (view tree.now) }
{
    match tree.get("type") {
        Some(value) => if value.is_string() || value.is_array() {
            Some(one_or_many(value))
        } else {
            None
        },
        None => None,
    }
}

/// The text that a member is, if the member is there; none where it is no text.
fn optional_text_in<'a>(tree: &'a Value, name: &str) -> Option<Option<&'a str>>
    ensures { option_map (λ o. option_map (λ s. s.now) o) result
        ≡ optional_text_in name.now (view tree.now) }
{
    match tree.get(name) {
        Some(value) => match value.as_str() {
            Some(text) => Some(Some(text)),
            None => None,
        },
        None => Some(None),
    }
}

/// The same, with the empty text where the member isn't there.
fn text_or_empty_in<'a>(tree: &'a Value, name: &str) -> Option<&'a str>
    ensures { option_map (λ s. s.now) result
        ≡ option_map (λ o. unwrap_or o []) (optional_text_in name.now (view tree.now)) }
{
    match tree.get(name) {
        Some(value) => value.as_str(),
        None => Some(""),
    }
}

fn number_in(tree: &Value, name: &str) -> Option<u32>
    ensures { result ≡ number_in name.now (view tree.now) }
{
    match tree.get(name) {
        Some(value) => match value.as_u64() {
            Some(n) => if n < 1 << 32 { Some(n as u32) } else { None },
            None => None,
        },
        None => None,
    }
}
