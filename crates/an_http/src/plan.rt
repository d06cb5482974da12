ghost use Rattle.std.specs.Prelude.{◌≡◌, ◌≤◌, length, take, codes, IfOk};
ghost use Rattle.an_message.specs.Framing.{values_of};
ghost use Rattle.an_http.specs.Fields.{body_limit, auth_of, prefer_of, closes};
ghost use Rattle.an_http.specs.Requests.{Plans, body_of, plan_with, plan_of, request_of};

use crate::fields::{auth_of, body_length, closes, prefer_of};
use crate::head::{ParsedHead, read_head};
use crate::method::Method;
use crate::request::{Auth, Request};
use an_base::{Bytes, Prefer, Text};
use an_code::Code;
use std::alloc::{AllocError, Global};

/// What a head says of its request, the body aside. It is kept while the body comes, since the head
/// borrows the bytes that are held.
#[derive(Debug, Drop)]
pub(crate) struct Plan {
    pub(crate) method: Option<Method>,
    pub(crate) target: Text,
    pub(crate) auth: Auth,
    pub(crate) prefer: Prefer,
    pub(crate) close: bool,
    /// How many bytes the body has.
    pub(crate) length: usize,
}

/// What these bytes say as a head, or the first refusal.
pub(crate) fn read_plan(alloc: Global, text: &[u8]) -> Result<Result<Plan, Code>, AllocError>
    ensures plan { IfOk result (λ plan. Plans text.now plan) }
    ensures within { IfOk result (λ plan. IfOk plan (λ plan. plan.length ≤ body_limit)) }
{
    match read_head(text) {
        Some(head) => plan_of(alloc, &head),
        None => Ok(Err(Code::Head)),
    }
}

/// What a head says of its request, the body aside, or the first refusal of the head.
fn plan_of(alloc: Global, head: &ParsedHead<'_>) -> Result<Result<Plan, Code>, AllocError>
    ensures plan { IfOk result (λ plan. plan ≡ plan_of head.now) }
    ensures within { IfOk result (λ plan. IfOk plan (λ plan. plan.length ≤ body_limit)) }
{
    match body_of(alloc, head)? {
        Ok(body) => Ok(Ok(plan_with(alloc, head, body)?)),
        Err(refusal) => Ok(Err(refusal)),
    }
}

/// How many bytes the body has, or the first refusal of the head.
fn body_of(alloc: Global, head: &ParsedHead<'_>) -> Result<Result<usize, Code>, AllocError>
    ensures body { IfOk result (λ body. body ≡ body_of head.now) }
    ensures within { IfOk result (λ body. IfOk body (λ length. length ≤ body_limit)) }
{
    let codings = head.values_of(alloc, b"Transfer-Encoding")?;
    if !codings.as_slice().is_empty() {
        return Ok(Err(Code::Transfer));
    }
    let lengths = head.values_of(alloc, b"Content-Length")?;
    Ok(body_length(head.method(), lengths.as_slice()))
}

/// What a head says of a request with so long a body.
fn plan_with(alloc: Global, head: &ParsedHead<'_>, length: usize) -> Result<Plan, AllocError>
    ensures plan { IfOk result (λ plan. plan ≡ plan_with head.now length) }
{
    Ok(Plan {
        method: head.method(),
        target: Text::new(alloc, head.target())?,
        auth: auth_by(alloc, head)?,
        prefer: prefer_by(alloc, head)?,
        close: closes_by(alloc, head)?,
        length,
    })
}

fn auth_by(alloc: Global, head: &ParsedHead<'_>) -> Result<Auth, AllocError>
    ensures auth { IfOk result
        (λ auth. auth ≡ auth_of (values_of (codes "Authorization") head.now.fields)) }
{
    let values = head.values_of(alloc, b"Authorization")?;
    auth_of(alloc, values.as_slice())
}

fn prefer_by(alloc: Global, head: &ParsedHead<'_>) -> Result<Prefer, AllocError>
    ensures prefer { IfOk result
        (λ prefer. prefer ≡ prefer_of (values_of (codes "Prefer") head.now.fields)) }
{
    let values = head.values_of(alloc, b"Prefer")?;
    Ok(prefer_of(values.as_slice()))
}

fn closes_by(alloc: Global, head: &ParsedHead<'_>) -> Result<bool, AllocError>
    ensures close { IfOk result
        (λ b. b ≡ closes head.now.minor (values_of (codes "Connection") head.now.fields)) }
{
    let values = head.values_of(alloc, b"Connection")?;
    Ok(closes(head.minor(), values.as_slice()))
}

impl Plan {
    /// The request, whose body is the first bytes of these.
    pub(crate) fn with_body(self, alloc: Global, bytes: &[u8]) -> Result<Request, AllocError>
        requires { self.length ≤ length bytes.now }
        ensures request { IfOk result (λ r. r ≡ request_of self (take self.length bytes.now)) }
    {
        let body = Bytes::new(alloc, &bytes[..self.length])?;
        Ok(Request {
            method: self.method,
            target: self.target,
            auth: self.auth,
            prefer: self.prefer,
            close: self.close,
            body,
        })
    }
}
