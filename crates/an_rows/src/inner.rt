ghost use Rattle.std.specs.Prelude.{◌≡◌, ◌++◌, ◌∷◌, [], map, option_and_then, option_map, IfErr, IfOk};
ghost use Rattle.std.specs.Option.{ok_or};
ghost use Rattle.serde_json.specs.View.{items_view, view};
ghost use Rattle.an_base.specs.Outcome.{Gives};
ghost use Rattle.an_base.specs.Write.{item_commas, member_text};
ghost use Rattle.an_policy.specs.Inner.{inner_of};
ghost use Rattle.an_rows.specs.Format.{group_texts, inner_in, inner_tree, text_items};
ghost use Rattle.an_rows.specs.Format.{texts_from, texts_of};

use crate::format::Format;
use crate::members::push_item;
use crate::refusal::RowError;
use an_base::{push_array_member, push_text_member};
use an_policy::{Inner, inner_of, inner_text, inner_texts};
use serde_json::Value;
use std::alloc::{AllocError, Global};

/// The inner groups that a member has to be, as the format writes them.
pub(crate) fn inner_in(
    alloc: Global,
    format: Format,
    tree: &Value,
    member: &str,
) -> Result<Inner, RowError>
    ensures inner { Gives (λ i. i) RowError.Memory result
        (ok_or (inner_in format member.now (view tree.now)) RowError.Bytes) }
{
    match inner_if(alloc, format, tree, member) {
        Ok(inner) => inner.ok_or(RowError::Bytes),
        Err(_) => Err(RowError::Memory),
    }
}

/// The inner groups that a member is, where it is such.
fn inner_if(
    alloc: Global,
    format: Format,
    tree: &Value,
    member: &str,
) -> Result<Option<Inner>, AllocError>
    ensures { IfOk result (λ inner. inner ≡ inner_in format member.now (view tree.now)) }
{
    match tree.get(member) {
        Some(value) => inner_value(alloc, format, value),
        None => Ok(None),
    }
}

fn inner_value(alloc: Global, format: Format, value: &Value) -> Result<Option<Inner>, AllocError>
    ensures { IfOk result (λ inner. inner
        ≡ option_and_then inner_of (group_texts format (view value.now))) }
{
    match group_texts(alloc, format, value)? {
        Some(texts) => inner_of(alloc, texts.as_slice()),
        None => Ok(None),
    }
}

fn group_texts(
    alloc: Global,
    format: Format,
    value: &Value,
) -> Result<Option<Vec<&str>>, AllocError>
    ensures { IfOk result (λ texts. option_map (λ v. map (λ t. t.now) v.items) texts
        ≡ group_texts format (view value.now)) }
{
    match format {
        Format::First => one_text(alloc, value.as_str()),
        Format::Second => array_texts(alloc, value),
    }
}

fn one_text(alloc: Global, text: Option<&str>) -> Result<Option<Vec<&str>>, AllocError>
    ensures { IfOk result (λ texts. option_map (λ v. map (λ t. t.now) v.items) texts
        ≡ option_map (λ t. t.now ∷ []) text.entry) }
{
    match text {
        Some(text) => {
            let mut texts = Vec::new(alloc);
            texts.push(text)?;
            Ok(Some(texts))
        }
        None => Ok(None),
    }
}

fn array_texts(alloc: Global, value: &Value) -> Result<Option<Vec<&str>>, AllocError>
    ensures { IfOk result (λ texts. option_map (λ v. map (λ t. t.now) v.items) texts
        ≡ group_texts Format.Second (view value.now)) }
{
    match value.as_array() {
        Some(items) => item_texts(alloc, items.as_slice()),
        None => Ok(None),
    }
}

#[tactic(auto, using(crate::proofs::InnerLemmas::read_texts))]
fn item_texts(alloc: Global, items: &[Value]) -> Result<Option<Vec<&str>>, AllocError>
    ensures { IfOk result (λ texts. option_map (λ v. map (λ t. t.now) v.items) texts
        ≡ texts_of (items_view items.now)) }
{
    let texts = texts_from(alloc, items)?;
    Ok(texts)
}

fn texts_from(alloc: Global, items: &[Value]) -> Result<Option<Vec<&str>>, AllocError>
    ensures { IfOk result (λ texts. option_map (λ v. map (λ t. t.now) v.items) texts
        ≡ texts_from [] (items_view items.now)) }
{
    let mut texts = Vec::new(alloc);
    for item in items {
        match item.as_str() {
            Some(text) => texts.push(text)?,
            None => return Ok(None),
        }
    }
    Ok(Some(texts))
}

/// Writes the inner groups in this format as a member, behind a comma.
pub(crate) fn push_inner(
    alloc: Global,
    format: Format,
    out: Vec<u8>,
    name: &str,
    inner: &Inner,
) -> Result<Vec<u8>, AllocError>
    ensures text { IfOk result (λ v. v.items
        ≡ out.items ++ member_text name.now (inner_tree format inner.now)) }
{
    match format {
        Format::First => push_one(alloc, out, name, inner),
        Format::Second => push_all(alloc, out, name, inner),
    }
}

fn push_one(alloc: Global, out: Vec<u8>, name: &str, inner: &Inner) -> Result<Vec<u8>, AllocError>
    ensures { IfOk result (λ v. v.items
        ≡ out.items ++ member_text name.now (inner_tree Format.First inner.now)) }
{
    let text = inner_text(alloc, inner)?;
    let out = push_text_member(out, name, text.as_str())?;
    Ok(out)
}

fn push_all(alloc: Global, out: Vec<u8>, name: &str, inner: &Inner) -> Result<Vec<u8>, AllocError>
    ensures { IfOk result (λ v. v.items
        ≡ out.items ++ member_text name.now (inner_tree Format.Second inner.now)) }
{
    let texts = inner_texts(alloc, inner)?;
    let items = items_of(alloc, texts.as_slice())?;
    let out = push_array_member(out, name, items.as_slice())?;
    Ok(out)
}

/// Texts as items of an array, each behind a comma.
fn items_of(alloc: Global, texts: &[&str]) -> Result<Vec<u8>, AllocError>
    ensures { IfOk result (λ v. v.items ≡ item_commas (text_items (map (λ t. t.now) texts.now))) }
{
    let mut out = Vec::new(alloc);
    for text in texts {
        out = push_item(out, text)?;
    }
    Ok(out)
}
