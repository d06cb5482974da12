use crate::method::Method;
use an_base::{Bytes, Prefer, Text};

/// Who signs a request, by its Authorization fields.
#[derive(Debug, Drop, PartialEq, Eq)]
pub enum Auth {
    /// There is no such field.
    Absent,
    /// There is one, `Bearer` and this token (RFC 6750, section 2.1).
    Bearer(Text),
    /// There are several, or one that says something else.
    Other,
}

/// A whole request.
#[derive(Debug, Drop, PartialEq, Eq)]
pub struct Request {
    /// There is none where no path has the method that was sent.
    pub method: Option<Method>,
    /// The target as it was sent, percent-encoded.
    pub target: Text,
    pub auth: Auth,
    pub prefer: Prefer,
    /// Whether the connection closes behind the reply: the request is of HTTP/1.0, or a Connection
    /// field says `close`.
    pub close: bool,
    pub body: Bytes,
}
