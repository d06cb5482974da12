ghost use Rattle.std.specs.Prelude.{◌≡◌, All, AllPairs, IfOk};
ghost use Rattle.std.specs.Char.{is_ascii_alphanumeric};
ghost use Rattle.std.specs.List.{list_any};
ghost use Rattle.unicode_segmentation.specs.Segments.{has_alphanumeric};
ghost use Rattle.an_terms.specs.Terms.{occurrences_of, IsWordOf, StandsBefore};

use crate::occurrence::Occurrence;
use crate::term::term_of;
use an_base::{Span, char_count};
use std::alloc::{AllocError, Global};
use unicode_segmentation::UnicodeSegmentation;

/// The words of a text in order, which are its segments between the word boundaries of UAX #29
/// that have an alphanumeric character: the term of each, and its span in code points. The only
/// error is want of memory.
pub fn occurrences(alloc: Global, text: &str) -> Result<Vec<Occurrence>, AllocError>
    ensures value { IfOk result (λ v. v.items ≡ occurrences_of text.now) }
    ensures words { IfOk result (λ v. All (IsWordOf text.now) v.items) }
    ensures ascending { IfOk result (λ v. AllPairs StandsBefore v.items) }
{
    let mut found = Vec::new(alloc);
    let mut start = 0;
    for piece in text.split_word_bounds() {
        let end = start + char_count(piece);
        if is_word(piece) {
            let term = term_of(alloc, piece)?;
            found.push(Occurrence {
                term,
                span: Span { start, end },
            })?;
        }
        start = end;
    }
    Ok(found)
}

/// Whether a text has an alphanumeric character.
pub(crate) fn is_word(text: &str) -> bool
    ensures { result ≡ has_alphanumeric text.now }
{
    if text.is_ascii() {
        return has_ascii_alphanumeric(text);
    }
    // The words of a text have all such characters of it.
    text.unicode_words().next().is_some()
}

/// Whether a text has an ASCII letter or digit.
fn has_ascii_alphanumeric(text: &str) -> bool
    ensures { result ≡ list_any is_ascii_alphanumeric text.now }
{
    text.as_bytes().iter().any(|b| b.is_ascii_alphanumeric())
}
