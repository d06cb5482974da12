//! Rows on selectors, regions, and places in a text.
use crate::numbers::number;
use crate::rows::{RowError, two_parts, two_words};
use crate::shown::{or_none, written};
use crate::tree_calls::read;
use an_base::{Span, char_count};
use an_selectors::{Quote, places, quote_at, read_selector, read_xywh};
use std::alloc::{AllocError, Global};

pub fn selector(alloc: Global, text: &str) -> Result<String, RowError> {
    let tree = read(alloc, text)?;
    match read_selector(alloc, tree.as_value()) {
        Ok(selector) => Ok(written(alloc, &selector)?),
        Err(error) => Ok(written(alloc, &error)?),
    }
}

pub fn region(alloc: Global, fragment: &str) -> Result<String, AllocError> {
    written(alloc, &read_xywh(fragment))
}

/// The places of a selector, whose tree stands behind the text.
pub fn places_of(alloc: Global, argument: &str) -> Result<String, RowError> {
    let (text, tree) = two_parts(argument)?;
    let tree = read(alloc, tree)?;
    let selector = read_selector(alloc, tree.as_value()).map_err(|_| RowError::Form)?;
    Ok(spans_shown(alloc, places(alloc, text, &selector)?.as_slice())?)
}

fn spans_shown(alloc: Global, spans: &[Span]) -> Result<String, AllocError> {
    let mut found = String::new(alloc);
    for Span { start, end } in spans {
        write!(found, "{start} {end};")?;
    }
    or_none(alloc, found)
}

/// The quote of a span, behind which stands how much is shown around it: `5 10 2`.
pub fn quote(alloc: Global, argument: &str) -> Result<String, RowError> {
    let (text, numbers) = two_parts(argument)?;
    let (start, rest) = two_words(numbers)?;
    let (end, around) = two_words(rest)?;
    let span = Span {
        start: number::<usize>(start)?,
        end: number::<usize>(end)?,
    };
    if span.start <= span.end && span.end <= char_count(text) {
        let quote = quote_at(alloc, text, span, number::<usize>(around)?)?;
        Ok(quote_shown(alloc, &quote)?)
    } else {
        Err(RowError::Form)
    }
}

fn quote_shown(alloc: Global, quote: &Quote) -> Result<String, AllocError> {
    let prefix = quote.prefix.as_str();
    let exact = quote.exact.as_str();
    let suffix = quote.suffix.as_str();
    format!(in alloc; "\"{prefix}|{exact}|{suffix}\"")
}
