ghost use Rattle.std.specs.Prelude.{◌≡◌, ◌++◌, IfOk};
ghost use Rattle.an_http.specs.Replies.{methods_of, status_line, preflight_of, preflight_lines};
ghost use Rattle.an_http.specs.Replies.{allow_line, close_line, is_empty, length_line, type_line};
ghost use Rattle.an_http.specs.Replies.{extra_lines, first_lines, last_lines};

use crate::status::Status;
use an_base::{Bytes, push_number};
use std::alloc::AllocError;

/// The methods of a route, which a reply tells.
#[derive(Clone, Copy, Debug, PartialEq, Eq)]
pub enum Allow {
    /// There is no route.
    Absent,
    Full,
    ReadOnly,
    WriteOnly,
}

/// What a body is.
#[derive(Clone, Copy, Debug, PartialEq, Eq)]
pub enum Media {
    /// An annotation, a container or a page of one, of the W3C.
    Annotation,
    /// A manifest or a canvas's page, of IIIF Presentation 3.
    Manifest,
    /// Of IIIF Content Search 2.
    Search,
    /// Of IIIF Change Discovery 1.
    Changes,
    /// Plain JSON: the answer to a write, or a refusal.
    Json,
    /// There is none.
    Absent,
}

/// Further fields of a reply.
#[derive(Clone, Copy, Debug, PartialEq, Eq)]
pub enum Extra {
    Absent,
    /// It is an LDP resource.
    Resource,
    /// It is an LDP container, whose constraints are those of the Web Annotation Protocol.
    Container,
    /// A token is asked for.
    Bearer,
    /// What another origin may send.
    Preflight,
}

/// A reply, before it is written.
#[derive(Debug, Drop, PartialEq, Eq)]
pub struct Reply {
    pub status: Status,
    pub allow: Allow,
    pub media: Media,
    pub extra: Extra,
    pub body: Bytes,
}

/// Writes the lines up to `Allow`.
pub(crate) fn push_first_lines(out: Vec<u8>, reply: &Reply) -> Result<Vec<u8>, AllocError>
    ensures lines { IfOk result (λ v. v.items ≡ out.items ++ first_lines reply.now) }
{
    let out = push_status(out, reply.status)?;
    let out = push_preflight(out, reply.extra, reply.allow)?;
    let out = push(out, "Access-Control-Allow-Origin: *\r\n")?;
    let out = push(out, allow_line(reply.allow))?;
    Ok(out)
}

/// Writes the lines behind them, and the empty line that ends the head.
pub(crate) fn push_last_lines(
    out: Vec<u8>,
    reply: &Reply,
    close: bool,
) -> Result<Vec<u8>, AllocError>
    ensures lines { IfOk result (λ v. v.items ≡ out.items ++ last_lines reply.now close) }
{
    let out = push(out, close_line(close))?;
    let out = push_length(out, is_empty(reply.status), reply.body.as_slice().len())?;
    let out = push(out, type_line(reply.media))?;
    let out = push(out, extra_lines(reply.extra))?;
    let out = push(out, "\r\n")?;
    Ok(out)
}

fn push(out: Vec<u8>, text: &str) -> Result<Vec<u8>, AllocError>
    ensures { IfOk result (λ v. v.items ≡ out.items ++ text.now) }
{
    let mut out = out;
    out.extend_from_slice(text.as_bytes())?;
    Ok(out)
}

fn push_status(out: Vec<u8>, status: Status) -> Result<Vec<u8>, AllocError>
    ensures line { IfOk result (λ v. v.items ≡ out.items ++ status_line status) }
{
    let out = push(out, "HTTP/1.1 ")?;
    let out = push_number(out, u64::from(status.number()))?;
    let out = push(out, " ")?;
    let out = push(out, status.phrase())?;
    let out = push(out, "\r\n")?;
    Ok(out)
}

fn methods_of(allow: Allow) -> &'static str
    ensures { result.now ≡ methods_of allow }
{
    match allow {
        Allow::Absent => "",
        Allow::Full => "GET, HEAD, OPTIONS, PUT, DELETE",
        Allow::ReadOnly => "GET, HEAD, OPTIONS",
        Allow::WriteOnly => "OPTIONS, PUT, DELETE",
    }
}

fn push_preflight(out: Vec<u8>, extra: Extra, allow: Allow) -> Result<Vec<u8>, AllocError>
    ensures lines { IfOk result (λ v. v.items ≡ out.items ++ preflight_lines extra allow) }
{
    match extra {
        Extra::Preflight => push_preflight_of(out, methods_of(allow)),
        Extra::Absent => Ok(out),
        Extra::Resource => Ok(out),
        Extra::Container => Ok(out),
        Extra::Bearer => Ok(out),
    }
}

fn push_preflight_of(out: Vec<u8>, methods: &str) -> Result<Vec<u8>, AllocError>
    ensures lines { IfOk result (λ v. v.items ≡ out.items ++ preflight_of methods.now) }
{
    let out = push(
        out,
        "Access-Control-Allow-Headers: Authorization, Content-Type, Prefer\r\n",
    )?;
    let out = push(out, "Access-Control-Allow-Methods: ")?;
    let out = push(out, methods)?;
    let out = push(out, "\r\n")?;
    Ok(out)
}

fn allow_line(allow: Allow) -> &'static str
    ensures { result.now ≡ allow_line allow }
{
    match allow {
        Allow::Absent => "",
        Allow::Full => "Allow: GET, HEAD, OPTIONS, PUT, DELETE\r\n",
        Allow::ReadOnly => "Allow: GET, HEAD, OPTIONS\r\n",
        Allow::WriteOnly => "Allow: OPTIONS, PUT, DELETE\r\n",
    }
}

fn close_line(close: bool) -> &'static str
    ensures { result.now ≡ close_line close }
{
    if close { "Connection: close\r\n" } else { "" }
}

/// Whether replies of this status have no content.
pub(crate) fn is_empty(status: Status) -> bool
    ensures { result ≡ is_empty status }
{
    matches!(status, Status::NoContent)
}

fn push_length(out: Vec<u8>, is_empty: bool, count: usize) -> Result<Vec<u8>, AllocError>
    ensures line { IfOk result (λ v. v.items ≡ out.items ++ length_line is_empty count) }
{
    if is_empty {
        return Ok(out);
    }
    let out = push(out, "Content-Length: ")?;
    let out = push_number(out, count as u64)?;
    let out = push(out, "\r\n")?;
    Ok(out)
}

fn type_line(media: Media) -> &'static str
    ensures { result.now ≡ type_line media }
{
    match media {
        Media::Annotation => {
            "Content-Type: application/ld+json; profile=\"http://www.w3.org/ns/anno.jsonld\"\r\n"
        }
        Media::Manifest => {
            "Content-Type: application/ld+json; \
             profile=\"http://iiif.io/api/presentation/3/context.json\"\r\n"
        }
        Media::Search => {
            "Content-Type: application/ld+json; \
             profile=\"http://iiif.io/api/search/2/context.json\"\r\n"
        }
        Media::Changes => {
            "Content-Type: application/ld+json; \
             profile=\"http://iiif.io/api/discovery/1/context.json\"\r\n"
        }
        Media::Json => "Content-Type: application/json\r\n",
        Media::Absent => "",
    }
}

fn extra_lines(extra: Extra) -> &'static str
    ensures { result.now ≡ extra_lines extra }
{
    match extra {
        Extra::Resource => "Link: <http://www.w3.org/ns/ldp#Resource>; rel=\"type\"\r\n",
        Extra::Container => {
            "Link: <http://www.w3.org/ns/ldp#BasicContainer>; rel=\"type\"\r\n\
             Link: <http://www.w3.org/TR/annotation-protocol/>; \
             rel=\"http://www.w3.org/ns/ldp#constrainedBy\"\r\n"
        }
        Extra::Bearer => "WWW-Authenticate: Bearer\r\n",
        Extra::Preflight => "",
        Extra::Absent => "",
    }
}
