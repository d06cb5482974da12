//! What the fields of a head say of its request. Each function takes the values of the fields of
//! one name, in their order.
ghost use Rattle.std.specs.Prelude.{◌≡◌, ◌≤◌, map, length, IsTrue, IfOk, option_map, codes};
ghost use Rattle.an_http.specs.Fields.{body_limit, length_within, no_length, body_length};
ghost use Rattle.an_http.specs.Fields.{token_of, signed_by, auth_of, begins, says, any_says};
ghost use Rattle.an_http.specs.Fields.{prefer_of, closes};

use crate::head::text_of;
use crate::method::Method;
use crate::request::Auth;
use an_base::{Prefer, Text, is_token};
use an_code::Code;
use an_message::{is_same_name, read_length};
use std::alloc::{AllocError, Global};

/// How many bytes a body may have.
pub(crate) const BODY_LIMIT: u64 = 1_048_576;

/// Which letters are the same: those of the same case, or of any case of ASCII.
#[derive(Clone, Copy)]
pub(crate) enum Case {
    Exact,
    Any,
}

/// How many bytes the body has, or the refusal by Content-Length.
pub(crate) fn body_length(method: Option<Method>, values: &[&[u8]]) -> Result<usize, Code>
    ensures body { result ≡ body_length method (map (λ value. value.now) values.now) }
    ensures within { IfOk result (λ length. length ≤ body_limit) }
{
    match values {
        [] => no_length(method),
        [value] => length_within(read_length(value)),
        [_, _, ..] => Err(Code::Length),
    }
}

fn no_length(method: Option<Method>) -> Result<usize, Code>
    ensures body { result ≡ no_length method }
    ensures within { IfOk result (λ length. length ≤ body_limit) }
{
    match method {
        Some(Method::Put) => Err(Code::LengthRequired),
        _ => Ok(0),
    }
}

fn length_within(length: Option<u64>) -> Result<usize, Code>
    ensures body { result ≡ length_within length }
    ensures within { IfOk result (λ length. length ≤ body_limit) }
{
    match length {
        Some(length) => if length > BODY_LIMIT {
            Err(Code::Large)
        } else {
            Ok(length as usize)
        },
        None => Err(Code::Length),
    }
}

/// Who signs, by Authorization.
pub(crate) fn auth_of(alloc: Global, values: &[&[u8]]) -> Result<Auth, AllocError>
    ensures auth { IfOk result (λ auth. auth ≡ auth_of (map (λ value. value.now) values.now)) }
{
    match values {
        [] => Ok(Auth::Absent),
        [value] => signed_by(alloc, token_of(value)),
        [_, _, ..] => Ok(Auth::Other),
    }
}

fn signed_by(alloc: Global, token: Option<&str>) -> Result<Auth, AllocError>
    ensures auth { IfOk result (λ auth. auth ≡ signed_by (option_map (λ t. t.now) token.entry)) }
{
    match token {
        Some(token) => match Text::new(alloc, token) {
            Ok(token) => Ok(Auth::Bearer(token)),
            Err(error) => Err(error),
        },
        None => Ok(Auth::Other),
    }
}

#[tactic(auto, using(crate::proofs::NameLemmas::signs_text))]
/// The token behind `Bearer` and one space.
fn token_of(value: &[u8]) -> Option<&str>
    ensures { option_map (λ t. t.now) result ≡ token_of value.now }
{
    if !names_bearer(value) {
        return None;
    }
    let token = &value[7..];
    if !is_token(token) {
        return None;
    }
    Some(text_of(token))
}

fn names_bearer(value: &[u8]) -> bool
    ensures long { IsTrue result → 7 ≤ length value.now }
    ensures scheme { result ≡ begins Case.Any (codes "Bearer ") value.now }
{
    begins(Case::Any, b"Bearer ", value)
}

/// What Prefer asks of a container.
pub(crate) fn prefer_of(values: &[&[u8]]) -> Prefer
    ensures { result ≡ prefer_of (map (λ value. value.now) values.now) }
{
    let minimal = any_says(
        Case::Exact,
        b"http://www.w3.org/ns/ldp#PreferMinimalContainer",
        values,
    );
    let iris = any_says(
        Case::Exact,
        b"http://www.w3.org/ns/oa#PreferContainedIRIs",
        values,
    );
    let descriptions = any_says(
        Case::Exact,
        b"http://www.w3.org/ns/oa#PreferContainedDescriptions",
        values,
    );
    Prefer {
        minimal,
        iris: iris && !descriptions,
    }
}

/// Whether the connection closes, by the minor version and Connection.
pub(crate) fn closes(minor: u8, values: &[&[u8]]) -> bool
    ensures { result ≡ closes minor (map (λ value. value.now) values.now) }
{
    minor == 0 || any_says(Case::Any, b"close", values)
}

/// Whether one of the values says the word.
fn any_says(case: Case, word: &[u8], values: &[&[u8]]) -> bool
    ensures { result ≡ any_says case word.now (map (λ value. value.now) values.now) }
{
    for value in values {
        if says(case, word, value) {
            return true;
        }
    }
    false
}

/// Whether the word stands somewhere in the bytes.
fn says(case: Case, word: &[u8], bytes: &[u8]) -> bool
    ensures { result ≡ says case word.now bytes.now }
{
    for at in 0..bytes.len() {
        if begins(case, word, &bytes[at..]) {
            return true;
        }
    }
    false
}

fn begins(case: Case, word: &[u8], bytes: &[u8]) -> bool
    ensures { result ≡ begins case word.now bytes.now }
{
    match case {
        Case::Exact => bytes.starts_with(word),
        Case::Any => is_same_name(&bytes[..word.len().min(bytes.len())], word),
    }
}
