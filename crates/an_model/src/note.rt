ghost use Rattle.std.specs.Prelude.{◌≡◌, IfOk, IsTrue, None, false, true};
ghost use Rattle.serde_json.specs.View.{view};
ghost use Rattle.serde_json.specs.Written.{has_float};
ghost use Rattle.an_base.specs.Outcome.{Gives};
ghost use Rattle.an_base.specs.Tree.{is_tree};
ghost use Rattle.an_model.specs.Bodies.{texts_of, iris_of, note_occurrences};
ghost use Rattle.an_model.specs.Note.{is_bare, kept, motivations_of, note_of, note_refusal};
ghost use Rattle.an_model.specs.Targets.{targets_of};

use crate::body::{read_iris, read_texts};
use crate::motivation::read_motivations;
use crate::occurrence::{NoteOccurrence, read_occurrences};
use crate::refusal::{NoteError, note_refusal};
use crate::target::{Target, read_targets};
use an_base::{List, Text, Tree, TryCopy, without_member};
use serde_json::Value;
use std::alloc::{AllocError, Global};
use std::marker::Model;

/// An annotation (Web Annotation Data Model, section 3): the tree that is kept of it, and what it
/// says. Contracts see the tree.
#[derive(Debug, Drop)]
pub struct Note {
    tree: Tree,
    motivations: List<Text>,
    texts: List<Text>,
    iris: List<Text>,
    targets: List<Target>,
    occurrences: List<NoteOccurrence>,
}

impl Model for Note {
    ghost use Rattle.serde_json.specs.Data.{Data};
    ghost use Rattle.an_base.specs.TreeCode.{tree_code};
    ghost use Rattle.an_model.specs.Held.{KeepsParts};

    ghost Value = { Data };

    ghost coded = { tree_code };

    ghost view = { λ n. n.tree };

    ghost invariant = { λ n. KeepsParts n };
}

impl Note {
    /// The tree that is kept: that of the annotation without `@context`, `id`, `creator`,
    /// `created` and `modified`.
    pub fn tree(&self) -> &Value
        ensures value { view result.now ≡ self.now }
        ensures tree { IsTrue (is_tree self.now) }
        ensures whole { has_float self.now ≡ false }
        ensures note { note_refusal self.now ≡ None }
        ensures bare { is_bare self.now ≡ true }
    {
        self.tree.as_value()
    }

    /// Why it was written (section 3.3.5), in the order of the tree.
    pub fn motivations(&self) -> &[Text]
        ensures value { result.now ≡ motivations_of self.now }
    {
        self.motivations.as_slice()
    }

    /// The plain texts of its bodies, in order.
    pub fn texts(&self) -> &[Text]
        ensures value { result.now ≡ texts_of self.now }
    {
        self.texts.as_slice()
    }

    /// The IRIs of its bodies, in order.
    pub fn iris(&self) -> &[Text]
        ensures value { result.now ≡ iris_of self.now }
    {
        self.iris.as_slice()
    }

    /// What it is about, in the order of the tree.
    pub fn targets(&self) -> &[Target]
        ensures value { result.now ≡ targets_of self.now }
    {
        self.targets.as_slice()
    }

    /// The words of its texts, in order.
    pub fn occurrences(&self) -> &[NoteOccurrence]
        ensures value { result.now ≡ note_occurrences self.now }
    {
        self.occurrences.as_slice()
    }
}

impl TryCopy for Note {
    fn copy(&self) -> Result<Note, AllocError> {
        Ok(Note {
            tree: self.tree.copy()?,
            motivations: self.motivations.copy()?,
            texts: self.texts.copy()?,
            iris: self.iris.copy()?,
            targets: self.targets.copy()?,
            occurrences: self.occurrences.copy()?,
        })
    }
}

/// The annotation that a tree is, or the first of the refusals in their order (Web Annotation Data
/// Model, sections 3 and 4). Members that aren't named there are kept.
#[tactic(auto, unfolding(crate::specs::Note::note_of))]
pub fn read_note(alloc: Global, tree: &Value) -> Result<Note, NoteError>
    requires tree { IsTrue (is_tree (view tree.now)) }
    ensures note { Gives (λ n. n) NoteError.Memory result (note_of (view tree.now)) }
{
    match note_refusal(tree) {
        Some(refusal) => Err(refusal),
        None => match keep_note(alloc, tree) {
            Ok(note) => Ok(note),
            Err(_) => Err(NoteError::Memory),
        },
    }
}

/// What is kept of a tree that is an annotation.
fn keep_note(alloc: Global, tree: &Value) -> Result<Note, AllocError>
    requires tree { IsTrue (is_tree (view tree.now)) }
    requires note { note_refusal (view tree.now) ≡ None }
    ensures { IfOk result (λ note. note ≡ kept (view tree.now)) }
{
    let tree = keep(tree.clone()?);
    note_over(alloc, Tree::new(tree))
}

/// A tree without the members that the server writes itself.
#[tactic(auto, unfolding(crate::specs::Note::kept))]
pub(crate) fn keep(tree: Value) -> Value
    requires { IsTrue (is_tree (view tree)) }
    ensures value { view result ≡ kept (view tree) }
    ensures tree { IsTrue (is_tree (view result)) }
{
    let tree = without_member(tree, "@context");
    let tree = without_member(tree, "id");
    let tree = without_member(tree, "creator");
    let tree = without_member(tree, "created");
    without_member(tree, "modified")
}

/// Whether a tree has none of the members that the server writes itself.
#[tactic(auto, unfolding(crate::specs::Note::is_bare))]
pub(crate) fn is_bare(tree: &Value) -> bool
    ensures bare { result ≡ is_bare (view tree.now) }
{
    tree.get("@context").is_none()
        && tree.get("created").is_none()
        && tree.get("creator").is_none()
        && tree.get("id").is_none()
        && tree.get("modified").is_none()
}

/// An annotation over the tree that is kept of it.
pub(crate) fn note_over(alloc: Global, tree: Tree) -> Result<Note, AllocError>
    requires note { note_refusal tree ≡ None }
    requires bare { is_bare tree ≡ true }
    ensures { IfOk result (λ note. note ≡ tree) }
{
    let value = tree.as_value();
    let motivations = read_motivations(alloc, value)?;
    let texts = read_texts(alloc, value)?;
    let iris = read_iris(alloc, value)?;
    let targets = read_targets(alloc, value)?;
    let occurrences = read_occurrences(alloc, texts.as_slice())?;
    Ok(Note {
        tree,
        motivations,
        texts,
        iris,
        targets,
        occurrences,
    })
}
