ghost use Rattle.std.specs.Prelude.{◌≡◌, map, IsTrue, IfOk};
ghost use Rattle.std.specs.Str.{is_utf8};
ghost use Rattle.an_message.specs.Framing.{values_of};
ghost use Rattle.an_http.specs.Head.{ReadsHead};

use crate::method::{Method, method_of};
use an_message::values_in;
use httparse::Status;
use httparse::spans::{EMPTY_HEADER_SPAN, HeaderSpan, RequestSpans, parse_request};
use std::alloc::{AllocError, Global};
use std::marker::Model;

/// How many fields a head may have.
const FIELD_LIMIT: usize = 64;

/// The head of a request, where it was read. Contracts see what it says.
#[derive(Drop)]
pub(crate) struct ParsedHead<'a> {
    text: &'a [u8],
    found: RequestSpans,
    fields: [HeaderSpan; FIELD_LIMIT],
}

impl<'a> Model for ParsedHead<'a> {
    ghost use Rattle.std.specs.Prelude.{◌≡◌, take, map, length, IsTrue};
    ghost use Rattle.std.specs.Str.{is_utf8};
    ghost use Rattle.httparse.specs.Spans.{IsRequestWithin, span_bytes, header_bytes};
    ghost use Rattle.an_http.specs.Head.{Head};
    ghost use Rattle.an_http.specs.Method.{method_of};

    ghost Value = { Head };

    ghost view = { λ h. record {
      method = method_of (span_bytes h.text.now h.found.method);
      target = span_bytes h.text.now h.found.path;
      minor = h.found.version;
      fields = map (header_bytes h.text.now) (take h.found.headers h.fields);
    } };

    ghost invariant = { λ h. IsRequestWithin h.text.now h.fields h.found
        × (h.found.len ≡ length h.text.now)
        × IsTrue (is_utf8 (span_bytes h.text.now h.found.method))
        × IsTrue (is_utf8 (span_bytes h.text.now h.found.path)) };
}

/// The head that these bytes are to their last one, with no more fields than a head may have.
pub(crate) fn read_head(text: &[u8]) -> Option<ParsedHead<'_>>
    ensures head { ReadsHead text.now result }
{
    let mut fields = [EMPTY_HEADER_SPAN; FIELD_LIMIT];
    match parse_request(text, &mut fields) {
        Ok(Status::Complete(found)) => {
            if found.len == text.len() {
                Some(ParsedHead {
                    text,
                    found,
                    fields,
                })
            } else {
                None
            }
        }
        _ => None,
    }
}

impl<'a> ParsedHead<'a> {
    pub(crate) fn method(&self) -> Option<Method>
        ensures method { result ≡ self.now.method }
    {
        method_of(text_of(self.found.method.of(self.text)))
    }

    pub(crate) fn target(&self) -> &'a str
        ensures target { result.now ≡ self.now.target }
    {
        text_of(self.found.path.of(self.text))
    }

    /// The minor version of HTTP/1.
    pub(crate) fn minor(&self) -> u8
        ensures minor { result ≡ self.now.minor }
    {
        self.found.version
    }

    /// The values of the fields of this name, in their order.
    pub(crate) fn values_of(&self, alloc: Global, name: &[u8]) -> Result<Vec<&'a [u8]>, AllocError>
        ensures values { IfOk result
            (λ v. map (λ value. value.now) v.items ≡ values_of name.now self.now.fields) }
    {
        values_in(alloc, self.text, &self.fields[..self.found.headers], name)
    }
}

/// The text that these bytes are.
pub(crate) fn text_of(bytes: &[u8]) -> &str
    requires { IsTrue (is_utf8 bytes.now) }
    ensures { result.now ≡ bytes.now }
{
    match std::str::from_utf8(bytes) {
        Ok(text) => text,
        Err(_) => unreachable!(),
    }
}
