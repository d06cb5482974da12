ghost use Rattle.std.specs.Prelude.{◌≡◌, ◌&&◌, IfOk, filter, take};
ghost use Rattle.an_base.specs.TextSet.{has_text};
ghost use Rattle.unicode_segmentation.specs.Segments.{has_alphanumeric};
ghost use Rattle.an_terms.specs.Terms.{occurrences_of, term_of};

use crate::occurrence::Occurrence;
use crate::term::term_of;
use crate::words::is_word;
use an_base::{Span, TextSet, char_count};
use std::alloc::{AllocError, Global};
use unicode_segmentation::UnicodeSegmentation;

/// The first words of a text, at most `most`, whose term is one of those that are sought, in order,
/// as `occurrences` gives them. The text is read up to the last of them. The only error is want of
/// memory.
pub fn sought_occurrences(
    alloc: Global,
    text: &str,
    terms: &TextSet,
    most: usize,
) -> Result<Vec<Occurrence>, AllocError>
    ensures words { IfOk result (λ v. v.items
        ≡ take most (filter (λ o. has_text o.term terms.now) (occurrences_of text.now))) }
{
    let mut found = Vec::new(alloc);
    let mut lowered = String::new(alloc);
    let mut start = 0;
    for piece in text.split_word_bounds() {
        if found.len() >= most {
            return Ok(found);
        }
        let end = start + char_count(piece);
        if is_sought(&mut lowered, terms, piece)? {
            let term = term_of(alloc, piece)?;
            let span = Span { start, end };
            found.push(Occurrence { term, span })?;
        }
        start = end;
    }
    Ok(found)
}

/// Whether a piece is a word whose term is one of those that are sought. The term is looked at
/// first, since few are sought.
fn is_sought(lowered: &mut String, terms: &TextSet, piece: &str) -> Result<bool, AllocError>
    ensures { IfOk result (λ sought.
        sought ≡ (has_text (term_of piece.now) terms.now && has_alphanumeric piece.now)) }
{
    let found = has_term(lowered, terms, piece)?;
    Ok(found && is_word(piece))
}

/// Whether the term of a piece is one of those that are sought. `lowered` is room for it, so that a
/// piece takes no memory of its own where it is ASCII.
fn has_term(lowered: &mut String, terms: &TextSet, piece: &str) -> Result<bool, AllocError>
    ensures { IfOk result (λ found. found ≡ has_text (term_of piece.now) terms.now) }
{
    if !piece.is_ascii() {
        let term = term_of(*lowered.allocator(), piece)?;
        return Ok(terms.has(term.as_str()));
    }
    lowered.clear();
    lowered.push_str(piece)?;
    lowered.make_ascii_lowercase();
    Ok(terms.has(lowered.as_str()))
}
