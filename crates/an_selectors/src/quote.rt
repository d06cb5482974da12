ghost use Rattle.std.specs.Prelude.{◌≡◌, ◌<◌, IfOk, Contains};
ghost use Rattle.an_selectors.specs.Places.{LiesIn, places_of, quote_of_span};
ghost use Rattle.an_selectors.specs.declared.selector.Selector.TheVariants as selector;

use crate::cut::cut_behind;
use an_base::{Span, Text, TryCopy};
use std::alloc::{AllocError, Global};

/// A part of a text, with what stands directly before and behind it.
#[derive(Debug, Drop, PartialEq, Eq)]
pub struct Quote {
    pub exact: Text,
    pub prefix: Text,
    pub suffix: Text,
}

impl TryCopy for Quote {
    fn copy(&self) -> Result<Quote, AllocError> {
        Ok(Quote {
            exact: self.exact.copy()?,
            prefix: self.prefix.copy()?,
            suffix: self.suffix.copy()?,
        })
    }
}

/// The quote of what stands at a span of a text, with `around` code points directly before and
/// behind it, or all that are there where they are fewer (Web Annotation Data Model, section
/// 4.2.4). A span that isn't empty is among the places of its quote. The only error is want of
/// memory.
pub fn quote_at(alloc: Global, text: &str, span: Span, around: usize) -> Result<Quote, AllocError>
    requires lies_in { LiesIn text.now span }
    ensures quote { IfOk result (λ q. q ≡ quote_of_span text.now span around) }
    ensures selected { IfOk result (λ q. span.start < span.end
        → Contains (places_of text.now (selector.Quote q.exact q.prefix q.suffix)) span) }
{
    let (_, rest) = cut_behind(text, span.start.saturating_sub(around));
    let (prefix, rest) = cut_behind(rest, around.min(span.start));
    let (exact, rest) = cut_behind(rest, span.end - span.start);
    let (suffix, _) = cut_behind(rest, around);
    Ok(Quote {
        exact: Text::new(alloc, exact)?,
        prefix: Text::new(alloc, prefix)?,
        suffix: Text::new(alloc, suffix)?,
    })
}
