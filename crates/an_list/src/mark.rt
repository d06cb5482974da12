ghost use Rattle.std.specs.Prelude.{◌≡◌, ◌∷◌, ◌++◌, [], IfOk, codes};
ghost use Rattle.serde_json.specs.Data.{array, item, no_items};
ghost use Rattle.serde_json.specs.Written.{compact_text};
ghost use Rattle.an_base.specs.Write.{item_text, member_text};
ghost use Rattle.an_selectors.specs.Places.{LiesIn};
ghost use Rattle.an_model.specs.Bodies.{occurrence_in};
ghost use Rattle.an_list.specs.Marks.{mark_of, mark_tree, quote_tree, target_tree};

use an_base::{close_items, close_members, push_comma, push_name, push_text_member};
use an_iri::mark_iri;
use an_selectors::{Quote, quote_at};
use an_terms::Occurrence;
use std::alloc::{AllocError, Global};

/// How many code points of the text stand in a mark before and behind its word.
const AROUND: usize = 16;

/// Writes the mark of a word of this text of the annotation with the IRI `source`, which has this
/// number on a page, behind a comma.
pub(crate) fn push_mark(
    alloc: Global,
    out: Vec<u8>,
    text: &str,
    word: &Occurrence,
    source: &str,
    page: &str,
    number: usize,
) -> Result<Vec<u8>, AllocError>
    requires placed { LiesIn text.now word.now.span }
    ensures text { IfOk result (λ v. v.items ≡ out.items ++ item_text (mark_tree
        (text.now ∷ []) source.now page.now number (occurrence_in 0 word.now))) }
{
    let quote = quote_at(alloc, text, word.span, AROUND)?;
    let iri = mark_iri(alloc, page, number)?;
    let out = push_comma(out)?;
    let out = push_mark_of(out, iri.as_str(), source, &quote)?;
    Ok(out)
}

/// Writes the mark with this IRI of what is quoted of a source.
fn push_mark_of(out: Vec<u8>, iri: &str, source: &str, quote: &Quote) -> Result<Vec<u8>, AllocError>
    ensures text { IfOk result (λ v. v.items
        ≡ out.items ++ compact_text (mark_of iri.now source.now quote.now)) }
{
    let start = out.len();
    let out = push_text_member(out, "id", iri)?;
    let out = push_text_member(out, "motivation", "highlighting")?;
    let out = push_target_member(out, source, quote)?;
    let out = push_text_member(out, "type", "Annotation")?;
    let out = close_members(out, start)?;
    Ok(out)
}

/// Writes the part of a source that is quoted, as the target.
fn push_target_member(out: Vec<u8>, source: &str, quote: &Quote) -> Result<Vec<u8>, AllocError>
    ensures text { IfOk result (λ v. v.items
        ≡ out.items ++ member_text (codes "target") (target_tree source.now quote.now)) }
{
    let out = push_name(out, "target")?;
    let start = out.len();
    let out = push_selector_member(out, quote)?;
    let out = push_text_member(out, "source", source)?;
    let out = push_text_member(out, "type", "SpecificResource")?;
    let out = close_members(out, start)?;
    Ok(out)
}

/// Writes the quote as the only selector.
fn push_selector_member(out: Vec<u8>, quote: &Quote) -> Result<Vec<u8>, AllocError>
    ensures text { IfOk result (λ v. v.items ≡ out.items
        ++ member_text (codes "selector") (array (item (quote_tree quote.now) no_items))) }
{
    let out = push_name(out, "selector")?;
    let start = out.len();
    let out = push_comma(out)?;
    let out = push_quote(out, quote)?;
    let out = close_items(out, start)?;
    Ok(out)
}

fn push_quote(out: Vec<u8>, quote: &Quote) -> Result<Vec<u8>, AllocError>
    ensures text { IfOk result
        (λ v. v.items ≡ out.items ++ compact_text (quote_tree quote.now)) }
{
    let start = out.len();
    let out = push_text_member(out, "exact", quote.exact.as_str())?;
    let out = push_text_member(out, "prefix", quote.prefix.as_str())?;
    let out = push_text_member(out, "suffix", quote.suffix.as_str())?;
    let out = push_text_member(out, "type", "TextQuoteSelector")?;
    let out = close_members(out, start)?;
    Ok(out)
}
