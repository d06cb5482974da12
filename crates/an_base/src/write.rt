ghost use Rattle.std.specs.Prelude.{◌≡◌, ◌≤◌, List, ℕ, ◌++◌, false, drop, length, take, vec_len};
ghost use Rattle.std.specs.Prelude.{IfOk};
ghost use Rattle.std.specs.List.{list_all};
ghost use Rattle.json.specs.Run.{is_plain};
ghost use Rattle.serde_json.specs.Data.{Data, Items, Members, array, number, object, string};
ghost use Rattle.serde_json.specs.Data.{unsigned};
ghost use Rattle.serde_json.specs.View.{view, members_view};
ghost use Rattle.serde_json.specs.Written.{has_float, members_have_float, compact_text};
ghost use Rattle.an_base.specs.Cut.{below, above};
ghost use Rattle.an_base.specs.Write.{name_text, member_text, commas, item_text, item_commas};
ghost use Rattle.an_base.specs.Write.{behind, in_brackets};

use json::Writer;
use serde_json::{Map, Value};
use std::alloc::{AllocError, Global};
use std::io::Write;

/// The most that a `Writer` of json fills with zeros behind what it is given. Below that it fills
/// as much as is written already, and each `Writer` does so anew.
const MOST_AHEAD: usize = 16 * 1024;

/// Writes a text as a JSON string (RFC 8259, section 7).
#[tactic(auto, using(crate::proofs::WriteLemmas::plain_quoted))]
pub fn push_text(out: Vec<u8>, text: &str) -> Result<Vec<u8>, AllocError>
    ensures text { IfOk result (λ v. v.items ≡ out.items ++ compact_text (string text.now)) }
{
    if !all_plain(text.as_bytes()) {
        return push_escaped(out, text);
    }
    let mut out = out;
    out.push(b'"')?;
    out.extend_from_slice(text.as_bytes())?;
    out.push(b'"')?;
    Ok(out)
}

/// Whether a text stands in a JSON string as it is. The loop does not stop at a byte that does not,
/// so that the compiler takes many bytes at a time.
fn all_plain(text: &[u8]) -> bool
    ensures plain { result ≡ list_all is_plain text.now }
{
    let mut plain = true;
    for &byte in text {
        plain &= is_plain(byte);
    }
    plain
}

fn is_plain(byte: u8) -> bool
    ensures plain { result ≡ is_plain byte }
{
    !matches!(byte, b'"' | b'\\' | 0..0x20)
}

/// Writes a text that has escapes. Where a `Writer` would fill more behind `out` than the text is
/// long, it is written apart, in room for some escapes, and copied.
fn push_escaped(out: Vec<u8>, text: &str) -> Result<Vec<u8>, AllocError>
    ensures text { IfOk result (λ v. v.items ≡ out.items ++ compact_text (string text.now)) }
{
    if text.len() >= out.len().min(MOST_AHEAD) {
        return push_by_writer(out, text);
    }
    let room = Vec::with_capacity(*out.allocator(), text.len() + text.len() / 8 + 16)?;
    let apart = push_by_writer(room, text)?;
    let mut out = out;
    out.extend_from_slice(apart.as_slice())?;
    Ok(out)
}

fn push_by_writer(out: Vec<u8>, text: &str) -> Result<Vec<u8>, AllocError>
    ensures text { IfOk result (λ v. v.items ≡ out.items ++ compact_text (string text.now)) }
{
    let mut writer = Writer::new(out);
    writer.string(text)?;
    Ok(writer.into_inner())
}

/// Writes a number in decimal.
pub fn push_number(out: Vec<u8>, n: u64) -> Result<Vec<u8>, AllocError>
    ensures text { IfOk result (λ v. v.items ≡ out.items ++ compact_text (number (unsigned n))) }
{
    let mut out = out;
    match write!(out, "{n}") {
        Ok(()) => Ok(out),
        Err(_) => Err(AllocError),
    }
}

/// Writes a value that has no float.
pub fn push_value(alloc: Global, out: Vec<u8>, value: &Value) -> Result<Vec<u8>, AllocError>
    requires whole { has_float (view value.now) ≡ false }
    ensures text { IfOk result (λ v. v.items ≡ out.items ++ compact_text (view value.now)) }
{
    let mut out = out;
    let text = value.to_vec(alloc)?;
    out.extend_from_slice(text.as_slice())?;
    Ok(out)
}

/// Writes the name of a member, behind a comma. What is written next is its value.
pub fn push_name(out: Vec<u8>, name: &str) -> Result<Vec<u8>, AllocError>
    ensures text { IfOk result (λ v. v.items ≡ out.items ++ name_text name.now) }
{
    let mut out = out;
    out.push(b',')?;
    let mut out = push_text(out, name)?;
    out.push(b':')?;
    Ok(out)
}

/// Writes a member that is a text, behind a comma.
pub fn push_text_member(out: Vec<u8>, name: &str, text: &str) -> Result<Vec<u8>, AllocError>
    ensures text { IfOk result
        (λ v. v.items ≡ out.items ++ member_text name.now (string text.now)) }
{
    let out = push_name(out, name)?;
    let out = push_text(out, text)?;
    Ok(out)
}

/// Writes a member that is a number, behind a comma.
pub fn push_number_member(out: Vec<u8>, name: &str, n: u64) -> Result<Vec<u8>, AllocError>
    ensures text { IfOk result
        (λ v. v.items ≡ out.items ++ member_text name.now (number (unsigned n))) }
{
    let out = push_name(out, name)?;
    let out = push_number(out, n)?;
    Ok(out)
}

/// Writes a member, behind a comma.
pub fn push_value_member(
    alloc: Global,
    out: Vec<u8>,
    name: &str,
    value: &Value,
) -> Result<Vec<u8>, AllocError>
    requires whole { has_float (view value.now) ≡ false }
    ensures text { IfOk result
        (λ v. v.items ≡ out.items ++ member_text name.now (view value.now)) }
{
    let out = push_name(out, name)?;
    let out = push_value(alloc, out, value)?;
    Ok(out)
}

/// Writes a member that is an array of items that are written, each behind a comma.
pub fn push_array_member(out: Vec<u8>, name: &str, items: &[u8]) -> Result<Vec<u8>, AllocError>
    ensures text { (list : Items) → items.now ≡ item_commas list → IfOk result
        (λ v. v.items ≡ out.items ++ member_text name.now (array list)) }
{
    let mut out = push_name(out, name)?;
    let start = out.len();
    out.extend_from_slice(items)?;
    let out = close_items(out, start)?;
    Ok(out)
}

/// Writes the comma before an item. What is written next is the item.
pub fn push_comma(out: Vec<u8>) -> Result<Vec<u8>, AllocError>
    ensures text { (value : Data) → IfOk result
        (λ v. v.items ++ compact_text value ≡ out.items ++ item_text value) }
{
    let mut out = out;
    out.push(b',')?;
    Ok(out)
}

/// Makes an object of the members that were written from `start` on, each behind a comma.
pub fn close_members(out: Vec<u8>, start: usize) -> Result<Vec<u8>, AllocError>
    requires start { start ≤ vec_len out }
    ensures text { (before : List ℕ) (members : Members) → out.items ≡ before ++ commas members
        → start ≡ length before
        → IfOk result (λ v. v.items ≡ before ++ compact_text (object members)) }
    ensures grows { IfOk result (λ v. start ≤ vec_len v) }
{
    let out = close(out, start, b'{', b'}')?;
    Ok(out)
}

/// Makes an array of the items that were written from `start` on, each behind a comma.
pub fn close_items(out: Vec<u8>, start: usize) -> Result<Vec<u8>, AllocError>
    requires start { start ≤ vec_len out }
    ensures text { (before : List ℕ) (items : Items) → out.items ≡ before ++ item_commas items
        → start ≡ length before
        → IfOk result (λ v. v.items ≡ before ++ compact_text (array items)) }
    ensures grows { IfOk result (λ v. start ≤ vec_len v) }
{
    let out = close(out, start, b'[', b']')?;
    Ok(out)
}

fn close(out: Vec<u8>, start: usize, left: u8, right: u8) -> Result<Vec<u8>, AllocError>
    requires start { start ≤ vec_len out }
    ensures text { IfOk result (λ v. v.items
        ≡ take start out.items ++ in_brackets left right (drop start out.items)) }
    ensures grows { IfOk result (λ v. start ≤ vec_len v) }
{
    let mut out = put_bracket(out, start, left)?;
    out.push(right)?;
    Ok(out)
}

/// Writes a bracket in place of the first comma from `start` on.
#[tactic(auto, using(crate::proofs::WriteLemmas::opening))]
fn put_bracket(out: Vec<u8>, start: usize, left: u8) -> Result<Vec<u8>, AllocError>
    requires start { start ≤ vec_len out }
    ensures text { IfOk result (λ v. v.items
        ≡ take start out.items ++ behind left (drop start out.items)) }
    ensures grows { IfOk result (λ v. start ≤ vec_len v) }
{
    let mut out = out;
    if start < out.len() {
        out[start] = left;
        return Ok(out);
    }
    out.push(left)?;
    Ok(out)
}

/// Writes the members whose names stand before `high` and not before `low`, each behind a comma.
pub fn push_members(
    alloc: Global,
    out: Vec<u8>,
    members: &Map<String, Value>,
    low: &str,
    high: &str,
) -> Result<Vec<u8>, AllocError>
    requires whole { members_have_float (members_view members.now.entries) ≡ false }
    ensures text { IfOk result (λ v. v.items
        ≡ out.items ++ commas (below high.now (above low.now (members_view members.now.entries)))) }
{
    let mut out = out;
    for (name, value) in members.iter() {
        if name.as_str() >= low && name.as_str() < high {
            out = push_value_member(alloc, out, name, value)?;
        }
    }
    Ok(out)
}

/// Writes the members whose names do not stand before `low`, each behind a comma.
pub fn push_members_above(
    alloc: Global,
    out: Vec<u8>,
    members: &Map<String, Value>,
    low: &str,
) -> Result<Vec<u8>, AllocError>
    requires whole { members_have_float (members_view members.now.entries) ≡ false }
    ensures text { IfOk result (λ v. v.items
        ≡ out.items ++ commas (above low.now (members_view members.now.entries))) }
{
    let mut out = out;
    for (name, value) in members.iter() {
        if name.as_str() >= low {
            out = push_value_member(alloc, out, name, value)?;
        }
    }
    Ok(out)
}
