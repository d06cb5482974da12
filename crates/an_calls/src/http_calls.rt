//! Rows on requests of HTTP, and on the reply for want of memory. In their texts `\r` and `\n`
//! stand for the two signs that end a line.
use crate::rows::RowError;
use an_base::Bytes;
use an_http::{Auth, Buffer, LinkError, Next, Request, next_request, put_memory_reply};
use an_world::{MemLink, SureLink};
use std::alloc::{AllocError, Global};
use std::str::from_utf8;

/// How many requests a row takes at most.
const REQUESTS: usize = 4;

/// The requests that an input begins with, and what ends them: `GET /a HTTP/1.1\r\n\r\n`.
pub fn requests(alloc: Global, argument: &str) -> Result<String, RowError> {
    let input = with_line_ends(alloc, argument)?;
    taken(alloc, input.as_str().as_bytes())
}

/// The text with both signs in place of what stands for them.
pub fn with_line_ends(alloc: Global, text: &str) -> Result<String, AllocError> {
    let returned = text.replace(alloc, "\\r", "\r")?;
    returned.as_str().replace(alloc, "\\n", "\n")
}

fn taken(alloc: Global, input: &[u8]) -> Result<String, RowError> {
    let mut link = SureLink::new(Bytes::new(alloc, input)?, Vec::new(alloc));
    let mut buffer = Buffer::new(alloc);
    taken_from(alloc, &mut link, &mut buffer)
}

fn taken_from(alloc: Global, link: &mut SureLink, buffer: &mut Buffer) -> Result<String, RowError> {
    let mut found = String::new(alloc);
    for _ in 0..REQUESTS {
        let next = next(alloc, link, buffer)?;
        add_next(&mut found, &next)?;
        if !matches!(next, Next::Request(_)) {
            break;
        }
    }
    Ok(found)
}

fn next(alloc: Global, link: &mut SureLink, buffer: &mut Buffer) -> Result<Next, RowError> {
    match next_request(alloc, link, buffer) {
        Ok(next) => Ok(next),
        Err(LinkError::ReadFault) => Err(RowError::Form),
        Err(LinkError::Memory) => Err(RowError::Memory),
    }
}

fn add_next(found: &mut String, next: &Next) -> Result<(), AllocError> {
    match next {
        Next::Request(request) => add_request(found, request),
        Next::Bad { status, code } => write!(found, "{} {}", status.number(), code.text()),
        Next::End => write!(found, "end"),
    }
}

/// The method and the target, and what else the request says.
fn add_request(found: &mut String, request: &Request) -> Result<(), AllocError> {
    let method = match request.method {
        Some(method) => method.text(),
        None => "another",
    };
    write!(found, "{method} {}", request.target.as_str())?;
    add_auth(found, &request.auth)?;
    add_flag(found, request.prefer.minimal, "minimal")?;
    add_flag(found, request.prefer.iris, "iris")?;
    add_flag(found, request.close, "close")?;
    add_body(found, request.body.as_slice())
}

fn add_auth(found: &mut String, auth: &Auth) -> Result<(), AllocError> {
    match auth {
        Auth::Absent => Ok(()),
        Auth::Bearer(token) => write!(found, ", token {}", token.as_str()),
        Auth::Other => write!(found, ", signed otherwise"),
    }
}

fn add_flag(found: &mut String, is_set: bool, name: &str) -> Result<(), AllocError> {
    if is_set {
        write!(found, ", {name}")?;
    }
    Ok(())
}

fn add_body(found: &mut String, body: &[u8]) -> Result<(), AllocError> {
    if !body.is_empty() {
        write!(found, ", body {}", from_utf8(body).unwrap_or("?"))?;
    }
    write!(found, "; ")
}

/// The reply for want of memory.
pub fn memory_reply(alloc: Global) -> Result<String, RowError> {
    let mut link = link_with_room(alloc)?;
    match put_memory_reply(&mut link) {
        Ok(()) => Ok(with_escapes(alloc, link.written())?),
        Err(_) => Err(RowError::Form),
    }
}

fn link_with_room(alloc: Global) -> Result<MemLink, AllocError> {
    let input = Bytes::new(alloc, b"")?;
    let (cut, reads, writes) = (Vec::new(alloc), Vec::new(alloc), Vec::new(alloc));
    MemLink::new(alloc, input, cut, reads, writes, 1000)
}

fn with_escapes(alloc: Global, bytes: &[u8]) -> Result<String, AllocError> {
    let text = from_utf8(bytes).unwrap_or("?");
    let returned = text.replace(alloc, "\r", "\\r")?;
    returned.as_str().replace(alloc, "\n", "\\n")
}
