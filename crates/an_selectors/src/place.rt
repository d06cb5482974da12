ghost use Rattle.std.specs.Prelude.{◌≡◌, ◌+◌, ◌<◌, ◌≤◌, length, true, IfOk, chars};
ghost use Rattle.an_selectors.specs.Places.{places_of, places_of_quote, places_of_position};
ghost use Rattle.an_selectors.specs.Walk.{spans_of};

use crate::cut::Point;
use crate::selector::Selector;
use crate::walk::{next_point, point_after};
use an_base::{Span, char_count};
use std::alloc::{AllocError, Global};

/// The places of a text that a selector selects, in Unicode code points (Web Annotation Data Model,
/// sections 4.2.4 and 4.2.5). A quote selects every place where its exact text stands directly
/// behind its prefix and directly before its suffix, ascending, overlapping ones too; an empty
/// exact text selects none. A position selects its one place, if that ends within the text. Other
/// selectors select none. The only error is want of memory.
pub fn places(alloc: Global, text: &str, selector: &Selector) -> Result<Vec<Span>, AllocError>
    ensures places { IfOk result (λ v. v.items ≡ places_of text.now selector.now) }
{
    match selector {
        Selector::Quote {
            exact,
            prefix,
            suffix,
        } => places_of_quote(
            alloc,
            text,
            exact.as_str(),
            prefix.as_str(),
            suffix.as_str(),
        ),
        Selector::Position { start, end } => {
            places_of_position(alloc, text, *start as usize, *end as usize)
        }
        Selector::Fragment { .. } => Ok(Vec::new(alloc)),
        Selector::Other => Ok(Vec::new(alloc)),
    }
}

/// The places of a quote are those of its three parts in one. A text that is shorter than one of
/// them has none: so the walk over many short texts costs no walk over a long quote for each.
fn places_of_quote(
    alloc: Global,
    text: &str,
    exact: &str,
    prefix: &str,
    suffix: &str,
) -> Result<Vec<Span>, AllocError>
    ensures { IfOk result (λ v. v.items
        ≡ places_of_quote (chars exact.now) (chars prefix.now) (chars suffix.now)
        (chars text.now)) }
{
    if is_shorter(text, exact, prefix, suffix) {
        return Ok(Vec::new(alloc));
    }
    let width = char_count(exact);
    if width == 0 {
        return Ok(Vec::new(alloc));
    }
    let whole = format!(in alloc; "{prefix}{exact}{suffix}")?;
    spans_of(alloc, text, whole.as_str(), char_count(prefix), width)
}

/// Whether a text has fewer bytes than one of the parts of a quote.
fn is_shorter(text: &str, exact: &str, prefix: &str, suffix: &str) -> bool
    ensures { result ≡ true
        → length text.now < length prefix.now + (length exact.now + length suffix.now) }
{
    let length = text.len();
    length < exact.len() || length < prefix.len() || length < suffix.len()
}

/// Walks from each point where the whole of a quote stands to the next.
fn spans_of(
    alloc: Global,
    text: &str,
    whole: &str,
    before: usize,
    width: usize,
) -> Result<Vec<Span>, AllocError>
    requires some { 0 < width }
    requires within { before + width ≤ length (chars whole.now) }
    ensures { IfOk result (λ v. v.items
        ≡ spans_of (chars whole.now) before width (chars text.now)) }
{
    let mut found = Vec::new(alloc);
    let Some(first) = next_point(text, Point { at: 0, number: 0 }, whole) else {
        return Ok(found);
    };
    let mut last = first;
    let mut point = first;
    loop {
        let start = point.number + before;
        found.push(Span {
            start,
            end: start + width,
        })?;
        match point_after(text, whole, last, point) {
            Some(next) => {
                last = point;
                point = next;
            }
            None => return Ok(found),
        }
    }
}

fn places_of_position(
    alloc: Global,
    text: &str,
    start: usize,
    end: usize,
) -> Result<Vec<Span>, AllocError>
    ensures { IfOk result (λ v. v.items ≡ places_of_position start end (chars text.now)) }
{
    let mut found = Vec::new(alloc);
    if end <= char_count(text) {
        found.push(Span { start, end })?;
    }
    Ok(found)
}
