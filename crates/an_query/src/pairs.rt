ghost use Rattle.std.specs.Prelude.{◌≡◌, IfOk, map};
ghost use Rattle.std.specs.Option.{option_copied};
ghost use Rattle.std.specs.Str.{is_utf8};
ghost use Rattle.form_urlencoded.specs.Form.{plus_to_space};
ghost use Rattle.an_base.specs.Outcome.{only_if};
ghost use Rattle.an_query.specs.Pairs.{escaped_text, form_text, decoded_pair, pairs_of};

use an_base::{List, Text};
use form_urlencoded::raw_pairs;
use percent_encoding::percent_decode;
use std::alloc::{AllocError, Global};
use std::str;

/// A name and a value of a query, decoded.
#[derive(Debug, Drop)]
pub struct Pair {
    pub name: Text,
    pub value: Text,
}

/// The pairs of a query (URL Standard, section 5.1), in their order. A part without `=` is a name
/// with an empty value, and an empty part is no pair. There are none where a name or a value isn't
/// UTF-8 once it is decoded.
#[tactic(auto, using(crate::proofs::PairLemmas::pairs_left))]
pub fn query_pairs(alloc: Global, query: &str) -> Result<Option<List<Pair>>, AllocError>
    ensures pairs { IfOk result (λ pairs. pairs ≡ pairs_of query.now) }
{
    let mut pairs = Vec::new(alloc);
    for (name, value) in raw_pairs(query.as_bytes()) {
        match decoded_pair(alloc, name, value)? {
            Some(pair) => pairs.push(pair)?,
            None => return Ok(None),
        }
    }
    Ok(Some(List::from_vec(pairs)))
}

fn decoded_pair(alloc: Global, name: &[u8], value: &[u8]) -> Result<Option<Pair>, AllocError>
    ensures { IfOk result (λ pair. pair ≡ decoded_pair (name.now, value.now)) }
{
    match form_text(alloc, name)? {
        Some(name) => match form_text(alloc, value)? {
            Some(value) => Ok(Some(Pair { name, value })),
            None => Ok(None),
        },
        None => Ok(None),
    }
}

fn form_text(alloc: Global, raw: &[u8]) -> Result<Option<Text>, AllocError>
    ensures { IfOk result (λ text. text ≡ form_text raw.now) }
{
    let spaced = with_spaces(alloc, raw)?;
    escaped_text(alloc, spaced.as_slice())
}

/// A `+` stands for a space.
fn with_spaces(alloc: Global, raw: &[u8]) -> Result<Vec<u8>, AllocError>
    ensures { IfOk result (λ v. v.items ≡ map plus_to_space raw.now) }
{
    raw.iter()
        .map(|&b| if b == b'+' { b' ' } else { b })
        .collect(alloc)
}

/// The text that bytes stand for by their escapes (RFC 3986, section 2.1); none where that isn't
/// UTF-8.
pub fn escaped_text(alloc: Global, raw: &[u8]) -> Result<Option<Text>, AllocError>
    ensures text { IfOk result (λ text. text ≡ escaped_text raw.now) }
{
    let mut bytes = Vec::new(alloc);
    percent_decode(raw).append_to(&mut bytes)?;
    match text_of(bytes.as_slice()) {
        Some(text) => Ok(Some(Text::new(alloc, text)?)),
        None => Ok(None),
    }
}

/// The text that bytes are, if they are UTF-8. Takes no memory.
pub fn text_of(bytes: &[u8]) -> Option<&str>
    ensures text { option_copied result ≡ only_if is_utf8 bytes.now }
{
    match str::from_utf8(bytes) {
        Ok(text) => Some(text),
        Err(_) => None,
    }
}
