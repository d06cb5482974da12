ghost use Rattle.std.specs.Prelude.{◌≡◌};
ghost use Rattle.serde_json.specs.View.{view};
ghost use Rattle.an_model.specs.Note.{note_refusal};

use crate::body::bad_body;
use crate::motivation::bad_motivation;
use crate::target::{bad_selector, bad_target};
use an_base::has_type;
use serde_json::Value;

/// Why a tree is no annotation. `at` is a place among several, from 0.
#[derive(Clone, Copy, Debug, PartialEq, Eq)]
pub enum NoteError {
    /// It isn't of type `Annotation`.
    WrongType,
    /// This target is missing, or is neither an IRI nor an object with one.
    Target { at: usize },
    /// This body is neither an IRI nor an object with a text, a source, an IRI or items; or a
    /// `bodyValue` is no text, or stands beside a body.
    Body { at: usize },
    /// This motivation is no text without white space.
    Motivation { at: usize },
    /// A selector of this target is malformed.
    Selector { at: usize },
    Memory,
}

/// Why a tree is no annotation: the first refusal, in the order of type, targets, selectors,
/// bodies, motivations. Nothing where it is one. Takes no memory.
#[tactic(auto, unfolding(crate::specs::Note::note_refusal))]
pub fn note_refusal(tree: &Value) -> Option<NoteError>
    ensures refusal { result ≡ note_refusal (view tree.now) }
{
    if !has_type(tree, "Annotation") {
        return Some(NoteError::WrongType);
    }
    match bad_target(tree) {
        Some(at) => Some(NoteError::Target { at }),
        None => match bad_selector(tree) {
            Some(at) => Some(NoteError::Selector { at }),
            None => match bad_body(tree) {
                Some(at) => Some(NoteError::Body { at }),
                None => match bad_motivation(tree) {
                    Some(at) => Some(NoteError::Motivation { at }),
                    None => None,
                },
            },
        },
    }
}
