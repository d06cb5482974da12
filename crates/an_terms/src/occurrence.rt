use an_base::{Span, Text, TryCopy};
use std::alloc::AllocError;

/// A word of a text: the term that it is found by, and where it stands.
#[derive(Debug, Drop, PartialEq, Eq)]
pub struct Occurrence {
    pub term: Text,
    pub span: Span,
}

impl TryCopy for Occurrence {
    fn copy(&self) -> Result<Occurrence, AllocError> {
        Ok(Occurrence {
            term: self.term.copy()?,
            span: self.span,
        })
    }
}
