ghost use Rattle.std.specs.Prelude.{◌≡◌, ◌++◌, IfOk, OnOk, map};
ghost use Rattle.an_anchor.specs.Resolve.{candidates, place_in};

use crate::anchored::AnchorPlace;
use an_base::{Span, Text};
use an_selectors::{Selector, places};
use std::alloc::{AllocError, Global};

/// The places of a quote in texts, by text and then by span.
pub(crate) fn candidates(
    alloc: Global,
    texts: &[Text],
    quote: &Selector,
) -> Result<Vec<AnchorPlace>, AllocError>
    ensures { IfOk result (λ places. places.items ≡ candidates quote.now 0 texts.now) }
{
    let mut candidates = Vec::new(alloc);
    let mut number = 0;
    for text in texts {
        let spans = places(alloc, text.as_str(), quote)?;
        push_places(&mut candidates, number, spans.as_slice())?;
        number += 1;
    }
    Ok(candidates)
}

fn push_places(
    places: &mut Vec<AnchorPlace>,
    number: usize,
    spans: &[Span],
) -> Result<(), AllocError>
    ensures { OnOk result (places.new.items
        ≡ places.old.items ++ map (place_in number) spans.now) }
{
    places.reserve(spans.len())?;
    for span in spans {
        places.push(AnchorPlace {
            text: number,
            span: *span,
        })?;
    }
    Ok(())
}
