//! Rows on names, numbers, moments and words.
use crate::numbers::number;
use crate::rows::{RowError, two_parts};
use crate::shown::{or_none, quoted, written};
use an_base::{Moment, Name, Span, moment_of, moment_text, read_decimal};
use an_terms::{Occurrence, occurrences, plain_of_html};
use std::alloc::{AllocError, Global};

pub fn name(alloc: Global, text: &str) -> Result<String, AllocError> {
    match Name::new(alloc, text) {
        Ok(name) => quoted(alloc, name.as_str()),
        Err(error) => written(alloc, &error),
    }
}

pub fn moment(alloc: Global, text: &str) -> Result<String, AllocError> {
    match moment_of(text) {
        Ok(moment) => moment_shown(alloc, moment),
        Err(error) => written(alloc, &error),
    }
}

fn moment_shown(alloc: Global, moment: Moment) -> Result<String, AllocError> {
    let text = moment_text(alloc, moment)?;
    format!(in alloc; "{} {}", moment.seconds(), text.as_str())
}

/// The greatest number, and the text: `100 | 101`.
pub fn decimal(alloc: Global, argument: &str) -> Result<String, RowError> {
    let (greatest, text) = two_parts(argument)?;
    let read = read_decimal(text, number::<u32>(greatest)?);
    Ok(written(alloc, &read)?)
}

pub fn words(alloc: Global, text: &str) -> Result<String, AllocError> {
    words_shown(alloc, occurrences(alloc, text)?.as_slice())
}

fn words_shown(alloc: Global, words: &[Occurrence]) -> Result<String, AllocError> {
    let mut found = String::new(alloc);
    for word in words {
        let Span { start, end } = word.span;
        write!(found, "{} {start} {end};", word.term.as_str())?;
    }
    or_none(alloc, found)
}

pub fn plain(alloc: Global, html: &str) -> Result<String, AllocError> {
    quoted(alloc, plain_of_html(alloc, html)?.as_str())
}
