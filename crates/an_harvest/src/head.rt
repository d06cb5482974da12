ghost use Rattle.std.specs.Prelude.{◌≡◌, ◌≤◌, codes, map, IfOk, IfSome, option_and_then};
ghost use Rattle.an_message.specs.Framing.{values_of};
ghost use Rattle.an_harvest.specs.Reply.{ReadsHead, Plans, body_length, body_limit, length_in};
ghost use Rattle.an_harvest.specs.Reply.{length_within, plan_of};

use an_message::{read_length, values_in};
use httparse::Status;
use httparse::spans::{EMPTY_HEADER_SPAN, HeaderSpan, ResponseSpans, parse_response};
use std::alloc::{AllocError, Global};
use std::marker::Model;

/// How many fields a head may have.
const FIELD_LIMIT: usize = 64;

/// How many bytes a body may have.
const BODY_LIMIT: u64 = 16_777_216;

/// What a head says of its reply: its status, and how many bytes its body has.
#[derive(Clone, Copy, Debug)]
pub(crate) struct Plan {
    pub(crate) status: u16,
    pub(crate) length: usize,
}

/// The head of a reply, where it was read. Contracts see what it says.
#[derive(Drop)]
struct ParsedHead<'a> {
    text: &'a [u8],
    found: ResponseSpans,
    fields: [HeaderSpan; FIELD_LIMIT],
}

impl<'a> Model for ParsedHead<'a> {
    ghost use Rattle.std.specs.Prelude.{◌≡◌, take, map, length};
    ghost use Rattle.httparse.specs.Spans.{IsResponseWithin, header_bytes};
    ghost use Rattle.an_harvest.specs.Reply.{Head};

    ghost Value = { Head };

    ghost view = { λ h. record {
      status = h.found.code;
      fields = map (header_bytes h.text.now) (take h.found.headers h.fields);
    } };

    ghost invariant = { λ h. IsResponseWithin h.text.now h.fields h.found
        × (h.found.len ≡ length h.text.now) };
}

/// What these bytes say as a head, where they are the head of a reply to their last one.
pub(crate) fn read_plan(alloc: Global, text: &[u8]) -> Result<Option<Plan>, AllocError>
    ensures plan { IfOk result (λ plan. Plans text.now plan) }
    ensures within { IfOk result (λ plan. IfSome plan (λ plan. plan.length ≤ body_limit)) }
{
    match read_head(text) {
        Some(head) => plan_of(alloc, &head),
        None => Ok(None),
    }
}

/// The head that these bytes are to their last one, with no more fields than a head may have.
fn read_head(text: &[u8]) -> Option<ParsedHead<'_>>
    ensures head { ReadsHead text.now result }
{
    let mut fields = [EMPTY_HEADER_SPAN; FIELD_LIMIT];
    match parse_response(text, &mut fields) {
        Ok(Status::Complete(found)) => {
            if found.len == text.len() {
                Some(ParsedHead {
                    text,
                    found,
                    fields,
                })
            } else {
                None
            }
        }
        _ => None,
    }
}

impl<'a> ParsedHead<'a> {
    fn status(&self) -> u16
        ensures status { result ≡ self.now.status }
    {
        self.found.code
    }

    /// The values of the fields of this name, in their order.
    fn values_of(&self, alloc: Global, name: &[u8]) -> Result<Vec<&'a [u8]>, AllocError>
        ensures values { IfOk result
            (λ v. map (λ value. value.now) v.items ≡ values_of name.now self.now.fields) }
    {
        values_in(alloc, self.text, &self.fields[..self.found.headers], name)
    }
}

fn plan_of(alloc: Global, head: &ParsedHead<'_>) -> Result<Option<Plan>, AllocError>
    ensures plan { IfOk result (λ plan. plan ≡ plan_of head.now) }
    ensures within { IfOk result (λ plan. IfSome plan (λ plan. plan.length ≤ body_limit)) }
{
    match body_length(alloc, head) {
        Ok(Some(length)) => Ok(Some(Plan {
            status: head.status(),
            length,
        })),
        Ok(None) => Ok(None),
        Err(error) => Err(error),
    }
}

/// How many bytes the body has.
fn body_length(alloc: Global, head: &ParsedHead<'_>) -> Result<Option<usize>, AllocError>
    ensures body { IfOk result (λ length. length ≡ body_length head.now) }
    ensures within { IfOk result (λ length. IfSome length (λ n. n ≤ body_limit)) }
{
    if head.status() == 204 {
        return Ok(Some(0));
    }
    let lengths = head.values_of(alloc, b"Content-Length")?;
    Ok(length_in(lengths.as_slice()))
}

fn length_in(values: &[&[u8]]) -> Option<usize>
    ensures length { result ≡ length_in (map (λ value. value.now) values.now) }
    ensures within { IfSome result (λ n. n ≤ body_limit) }
{
    match values {
        [] => None,
        [value] => length_within(read_length(value)),
        [_, _, ..] => None,
    }
}

fn length_within(length: Option<u64>) -> Option<usize>
    ensures length { result ≡ length_within length }
    ensures within { IfSome result (λ n. n ≤ body_limit) }
{
    match length {
        Some(length) => if length <= BODY_LIMIT {
            Some(length as usize)
        } else {
            None
        },
        None => None,
    }
}
