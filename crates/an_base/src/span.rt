use crate::text::Text;

/// A part of a text, in Unicode code points: the start is included, the end is not.
#[derive(Clone, Copy, Debug, PartialEq, Eq)]
pub struct Span {
    pub start: usize,
    pub end: usize,
}

/// A term, and how often it occurs, or the greatest number of 64 bits where that is more.
#[derive(Debug, Drop, PartialEq, Eq)]
pub struct TermTotal {
    pub term: Text,
    pub total: u64,
}

/// What a `Prefer` field asks of a container (Web Annotation Protocol, section 4.2): the container
/// alone, without its first page; and IRIs in place of whole annotations.
#[derive(Clone, Copy, Debug, PartialEq, Eq)]
pub struct Prefer {
    pub minimal: bool,
    pub iris: bool,
}
