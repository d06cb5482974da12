ghost use Rattle.std.specs.Prelude.{◌≡◌};
ghost use Rattle.an_anchor.specs.Comments.{orphan};

use an_base::{List, Span};
use std::alloc::Global;

/// Whether what a comment is about is still where it was.
#[derive(Clone, Copy, Debug, PartialEq, Eq)]
pub enum AnchorState {
    /// It is about the whole.
    Whole,
    /// It was found, and nothing says where it was.
    Found,
    /// It stands where it was.
    Exact,
    /// It stands elsewhere.
    Moved,
    /// It is nowhere.
    Orphan,
}

/// A place in one of several texts, which are numbered from 0.
#[derive(Clone, Copy, Debug, PartialEq, Eq)]
pub struct AnchorPlace {
    pub text: usize,
    /// In Unicode code points.
    pub span: Span,
}

/// What a comment's selectors come to.
#[derive(Debug, Drop, PartialEq, Eq)]
pub struct Anchor {
    pub state: AnchorState,
    pub places: List<AnchorPlace>,
}

/// What selectors come to that are nowhere. Takes no memory.
pub(crate) fn orphan(alloc: Global) -> Anchor
    ensures { result ≡ orphan }
{
    Anchor {
        state: AnchorState::Orphan,
        places: List::new(alloc),
    }
}
