ghost use Rattle.std.specs.Prelude.{◌≡◌, ◌++◌, codes, IfOk, string_bytes};
ghost use Rattle.an_http.specs.Errors.{member_of, body_with, error_body, challenge, refusal_reply};

use crate::reply::{Allow, Extra, Media, Reply};
use crate::status::{Status, status_of};
use an_base::Bytes;
use an_code::{Code, Parameter};
use std::alloc::{AllocError, Global};

/// What the body of a refusal tells beside its code.
#[derive(Clone, Copy, Debug, PartialEq, Eq)]
pub(crate) enum Member {
    Absent,
    /// The place of what is malformed, from 0.
    At(usize),
    /// The number that the object has.
    Current(u32),
    /// The parameter that comes twice.
    Name(Parameter),
    /// How many pages there are.
    Pages(usize),
}

/// The reply that tells a refusal, at a route with these methods.
pub fn refusal_reply(alloc: Global, allow: Allow, refusal: Code) -> Result<Reply, AllocError>
    ensures reply { IfOk result (λ reply. reply ≡ refusal_reply allow refusal) }
{
    let status = status_of(refusal);
    let body = error_body(alloc, refusal)?;
    Ok(Reply {
        status,
        allow,
        media: Media::Json,
        extra: challenge(status),
        body,
    })
}

/// A token is asked for with 401.
fn challenge(status: Status) -> Extra
    ensures { result ≡ challenge status }
{
    match status {
        Status::Unauthorized => Extra::Bearer,
        _ => Extra::Absent,
    }
}

fn member_of(code: Code) -> Member
    ensures { result ≡ member_of code }
{
    match code {
        Code::NoteTarget { at } => Member::At(at),
        Code::NoteBody { at } => Member::At(at),
        Code::NoteMotivation { at } => Member::At(at),
        Code::NoteSelector { at } => Member::At(at),
        Code::ManifestCanvas { at } => Member::At(at),
        Code::Version { current } => Member::Current(current),
        Code::Manifests { at } => Member::At(at),
        Code::Date { at } => Member::At(at),
        Code::Twice { name } => Member::Name(name),
        Code::NoPage { pages } => Member::Pages(pages),
        _ => Member::Absent,
    }
}

/// The body of the reply that tells a refusal: its code, and what is told beside it.
pub fn error_body(alloc: Global, code: Code) -> Result<Bytes, AllocError>
    ensures body { IfOk result (λ body. body ≡ error_body code) }
{
    let text = body_with(alloc, code.text(), member_of(code))?;
    Ok(Bytes::from_vec(text.into_bytes()))
}

fn body_with(alloc: Global, code: &str, member: Member) -> Result<String, AllocError>
    ensures { IfOk result (λ text. string_bytes text ≡ body_with code.now member) }
{
    match member {
        Member::Absent => format!(in alloc; "{{\"error\":\"{code}\"}}"),
        Member::At(at) => format!(in alloc; "{{\"at\":{at},\"error\":\"{code}\"}}"),
        Member::Current(current) => {
            format!(in alloc; "{{\"current\":{current},\"error\":\"{code}\"}}")
        }
        Member::Name(name) => body_naming(alloc, code, name.text()),
        Member::Pages(pages) => format!(in alloc; "{{\"error\":\"{code}\",\"pages\":{pages}}}"),
    }
}

fn body_naming(alloc: Global, code: &str, name: &str) -> Result<String, AllocError>
    ensures { IfOk result (λ text. string_bytes text
        ≡ codes "{\"error\":\"" ++ (code.now ++ (codes "\",\"name\":\"" ++ (name.now
        ++ codes "\"}")))) }
{
    format!(in alloc; "{{\"error\":\"{code}\",\"name\":\"{name}\"}}")
}
