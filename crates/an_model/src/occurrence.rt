ghost use Rattle.std.specs.Prelude.{◌≡◌, ◌++◌, map, IfOk, OnOk};
ghost use Rattle.an_terms.specs.Terms.{occurrences_of};
ghost use Rattle.an_model.specs.Bodies.{occurrence_in, occurrences_from};

use an_base::{List, Span, Text, TryCopy};
use an_terms::{Occurrence, occurrences};
use std::alloc::{AllocError, Global};

/// A word of an annotation: the number of the text that it stands in, from 0, the term that it is
/// found by, and where it stands.
#[derive(Debug, Drop, PartialEq, Eq)]
pub struct NoteOccurrence {
    pub text: usize,
    pub term: Text,
    pub span: Span,
}

impl TryCopy for NoteOccurrence {
    fn copy(&self) -> Result<NoteOccurrence, AllocError> {
        Ok(NoteOccurrence {
            text: self.text,
            term: self.term.copy()?,
            span: self.span,
        })
    }
}

/// The words of texts in order, each with the number of its text, from 0.
pub(crate) fn read_occurrences(
    alloc: Global,
    texts: &[Text],
) -> Result<List<NoteOccurrence>, AllocError>
    ensures { IfOk result (λ found. found ≡ occurrences_from 0 texts.now) }
{
    let mut found = Vec::new(alloc);
    for (number, text) in texts.iter().enumerate() {
        push_occurrences(alloc, &mut found, number, text.as_str())?;
    }
    Ok(List::from_vec(found))
}

fn push_occurrences(
    alloc: Global,
    found: &mut Vec<NoteOccurrence>,
    number: usize,
    text: &str,
) -> Result<(), AllocError>
    ensures { OnOk result (found.new.items
        ≡ found.old.items ++ map (occurrence_in number) (occurrences_of text.now)) }
{
    for occurrence in occurrences(alloc, text)? {
        let Occurrence { term, span } = occurrence;
        found.push(NoteOccurrence {
            text: number,
            term,
            span,
        })?;
    }
    Ok(())
}
