ghost use Rattle.std.specs.Prelude.{◌≡◌, ◌+◌, ◌++◌, ◌<◌, ◌≤◌, ◌^◌, All, IfOk, length};
ghost use Rattle.serde_json.specs.View.{items_of};
ghost use Rattle.an_base.specs.Write.{item_commas};
ghost use Rattle.an_terms.specs.Terms.{IsWordOf};
ghost use Rattle.an_list.specs.Marks.{highlights_of, text_marks};

use crate::mark::push_mark;
use an_base::TextSet;
use an_model::KeptNote;
use an_terms::{Occurrence, sought_occurrences};
use std::alloc::{AllocError, Global};

/// How many words of an annotation are marked.
const MAX_MARKS: usize = 10;

/// Annotations that mark words, as they are written, each behind a comma, and how many they are.
#[derive(Drop)]
pub struct Marks {
    pub text: Vec<u8>,
    pub count: usize,
}

/// Adds the annotations that mark the words of an annotation by which a search found it (match
/// annotations of the IIIF Content Search API 2.0): the first ten whose term is one of `terms`, in
/// their order. `source` is the IRI of the annotation, and `page` that of the page on which the
/// marks stand, where they are numbered on. The only error is want of memory.
pub fn highlight(
    alloc: Global,
    marks: Marks,
    note: &KeptNote,
    source: &str,
    terms: &TextSet,
    page: &str,
) -> Result<Marks, AllocError>
    // So that ten marks can be numbered.
    requires numbers { marks.count + 11 < 2 ^ 64 }
    ensures text { IfOk result (λ new. new.text.items ≡ marks.text.items ++ item_commas (items_of
        (highlights_of note.now source.now terms.now page.now (marks.count + 1)))) }
    ensures count { IfOk result (λ new. new.count ≡ marks.count
        + length (highlights_of note.now source.now terms.now page.now (marks.count + 1))) }
    ensures few { IfOk result (λ new. new.count ≤ marks.count + 10) }
{
    let texts = note.texts(alloc)?;
    let most = marks.count + MAX_MARKS;
    let mut marks = marks;
    for text in texts.as_slice() {
        let text = text.as_str();
        let words = sought_occurrences(alloc, text, terms, most - marks.count)?;
        marks = push_words(alloc, marks, text, words.as_slice(), source, page)?;
    }
    Ok(marks)
}

/// Adds the marks of words of a text.
fn push_words(
    alloc: Global,
    marks: Marks,
    text: &str,
    words: &[Occurrence],
    source: &str,
    page: &str,
) -> Result<Marks, AllocError>
    requires placed { All (IsWordOf text.now) words.now }
    requires numbers { marks.count + length words.now < 2 ^ 64 }
    ensures text { IfOk result (λ new. new.text.items ≡ marks.text.items ++ item_commas (items_of
        (text_marks text.now source.now page.now (marks.count + 1) words.now))) }
    ensures count { IfOk result (λ new. new.count ≡ marks.count + length words.now) }
{
    let Marks { text: out, count } = marks;
    let mut out = out;
    let mut number = count;
    for word in words {
        number += 1;
        out = push_mark(alloc, out, text, word, source, page, number)?;
    }
    Ok(Marks {
        text: out,
        count: number,
    })
}
