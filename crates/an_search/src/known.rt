ghost use Rattle.std.specs.Prelude.{◌≡◌};
ghost use Rattle.an_base.specs.TextSet.{has_text};
ghost use Rattle.an_search.specs.Known.{AreKnown, IsKnown};

use crate::pieces::Pieces;
use crate::wanted::Wanted;

/// A text, and whether it is one of some pieces.
#[derive(Clone, Copy)]
pub struct Known<'a> {
    pub text: &'a str,
    pub is_piece: bool,
}

/// What is known of the creator and of the motivation that were looked up last, and whether
/// `non-painting` is a piece. Most annotations have those of the one before, so that few texts are
/// looked up.
#[derive(Clone, Copy)]
pub struct Last<'a> {
    pub creator: Known<'a>,
    pub motivation: Known<'a>,
    pub wants_others: bool,
}

/// What is known before any annotation is looked at.
pub fn known_first<'a>(wanted: &Wanted) -> Last<'a>
    ensures known { AreKnown wanted.now result }
{
    Last {
        creator: of_nothing(&wanted.users),
        motivation: of_nothing(&wanted.motivations),
        wants_others: wanted.motivations.has("non-painting"),
    }
}

fn of_nothing<'a>(pieces: &Pieces) -> Known<'a>
    ensures { IsKnown pieces.now result }
{
    Known {
        text: "",
        is_piece: pieces.has(""),
    }
}

/// Whether the text is one of the pieces. It is looked up unless that is known.
pub(crate) fn is_piece<'a>(pieces: &Pieces, known: &mut Known<'a>, text: &'a str) -> bool
    requires known { IsKnown pieces.now known.old }
    ensures found { result ≡ has_text text.now pieces.now }
    ensures known { IsKnown pieces.now known.new }
{
    if known.text != text {
        *known = Known {
            text,
            is_piece: pieces.has(text),
        };
    }
    known.is_piece
}
