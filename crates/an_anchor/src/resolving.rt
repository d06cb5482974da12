ghost use Rattle.std.specs.Prelude.{◌≡◌, IfOk, Some, None, map};
ghost use Rattle.std.specs.Option.{option_copied};
ghost use Rattle.an_anchor.specs.Resolve.{anchored, chosen, found, is_span, placed, position_in};
ghost use Rattle.an_anchor.specs.Resolve.{quote_in, resolved, state_at};

use crate::anchored::{Anchor, AnchorPlace, AnchorState};
use crate::candidates::candidates;
use crate::nearness::nearest;
use an_base::{List, Span, Text, char_count};
use an_selectors::Selector;
use std::alloc::{AllocError, Global};

/// What selectors come to in texts (Web Annotation Data Model, sections 4.2.4 and 4.2.5). The first
/// quote counts, and the first position. A quote is found at each of its places; with a position,
/// only at the one that begins nearest to it, the first of equals. A position without a quote is
/// found in the first text, if it ends within that. The only error is want of memory.
pub fn resolve(alloc: Global, texts: &[Text], selectors: &[Selector]) -> Result<Anchor, AllocError>
    ensures anchor { IfOk result (λ anchor. anchor ≡ resolved texts.now selectors.now) }
{
    let position = position_in(selectors);
    match quote_in(selectors) {
        Some(quote) => quoted(alloc, texts, quote, position),
        None => unquoted(alloc, texts, position),
    }
}

/// What each list of selectors comes to in the texts.
#[tactic(auto, using(an_list::proofs::PieceLemmas::pieces_left))]
pub fn resolve_all(
    alloc: Global,
    texts: &[Text],
    asked: &[List<Selector>],
) -> Result<List<Anchor>, AllocError>
    ensures anchors { IfOk result (λ anchors. anchors ≡ map (resolved texts.now) asked.now) }
{
    let mut anchors = Vec::new(alloc);
    for selectors in asked {
        let anchor = resolve(alloc, texts, selectors.as_slice())?;
        anchors.push(anchor)?;
    }
    Ok(List::from_vec(anchors))
}

/// The first quote among selectors.
fn quote_in(selectors: &[Selector]) -> Option<&Selector>
    ensures { option_copied result ≡ quote_in selectors.now }
{
    for selector in selectors {
        match selector {
            Selector::Quote { .. } => return Some(selector),
            Selector::Position { .. } => {}
            Selector::Fragment { .. } => {}
            Selector::Other => {}
        }
    }
    None
}

/// What the first position among them selects.
fn position_in(selectors: &[Selector]) -> Option<Span>
    ensures { result ≡ position_in selectors.now }
{
    for selector in selectors {
        match selector {
            Selector::Position { start, end } => return Some(Span {
                start: *start as usize,
                end: *end as usize,
            }),
            Selector::Quote { .. } => {}
            Selector::Fragment { .. } => {}
            Selector::Other => {}
        }
    }
    None
}

fn quoted(
    alloc: Global,
    texts: &[Text],
    quote: &Selector,
    position: Option<Span>,
) -> Result<Anchor, AllocError>
    ensures { IfOk result (λ anchor. anchor ≡ anchored texts.now (Some quote.now) position) }
{
    let candidates = candidates(alloc, texts, quote)?;
    match position {
        Some(span) => chosen(alloc, span, nearest(span.start, candidates.as_slice())),
        None => Ok(found(candidates)),
    }
}

fn unquoted(alloc: Global, texts: &[Text], position: Option<Span>) -> Result<Anchor, AllocError>
    ensures { IfOk result (λ anchor. anchor ≡ anchored texts.now None position) }
{
    match position {
        Some(span) => Ok(found(placed(alloc, span, texts)?)),
        None => Ok(Anchor {
            state: AnchorState::Whole,
            places: List::new(alloc),
        }),
    }
}

/// What a position selects in the first of the texts, where it ends within that.
fn placed(alloc: Global, span: Span, texts: &[Text]) -> Result<Vec<AnchorPlace>, AllocError>
    ensures { IfOk result (λ places. places.items ≡ placed span texts.now) }
{
    let mut places = Vec::new(alloc);
    match texts.first() {
        Some(text) => if span.end <= char_count(text.as_str()) {
            places.push(AnchorPlace { text: 0, span })?;
        },
        None => {}
    }
    Ok(places)
}

/// Found wherever it stands, or nowhere.
fn found(places: Vec<AnchorPlace>) -> Anchor
    ensures { result ≡ found places.items }
{
    let state = if places.is_empty() {
        AnchorState::Orphan
    } else {
        AnchorState::Found
    };
    Anchor {
        state,
        places: List::from_vec(places),
    }
}

/// Found at that one place, or nowhere.
fn chosen(alloc: Global, asked: Span, place: Option<AnchorPlace>) -> Result<Anchor, AllocError>
    ensures { IfOk result (λ anchor. anchor ≡ chosen asked place) }
{
    let mut places = Vec::new(alloc);
    match place {
        Some(place) => {
            places.push(place)?;
            Ok(Anchor {
                state: state_at(place.span, asked),
                places: List::from_vec(places),
            })
        }
        None => Ok(Anchor {
            state: AnchorState::Orphan,
            places: List::from_vec(places),
        }),
    }
}

/// Where the position says, or elsewhere.
fn state_at(span: Span, asked: Span) -> AnchorState
    ensures { result ≡ state_at span asked }
{
    if is_span(span, asked) {
        AnchorState::Exact
    } else {
        AnchorState::Moved
    }
}

fn is_span(one: Span, other: Span) -> bool
    ensures { result ≡ is_span one other }
{
    one.start == other.start && one.end == other.end
}
