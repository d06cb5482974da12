ghost use Rattle.std.specs.Prelude.{◌≡◌, map, IfOk, IsTrue, None, OnOk, true};
ghost use Rattle.std.specs.List.{flat_map};
ghost use Rattle.serde_json.specs.View.{view};
ghost use Rattle.serde_json.specs.Written.{compact_text};
ghost use Rattle.an_base.specs.Cut.{is_object, members_in};
ghost use Rattle.an_base.specs.Outcome.{Gives};
ghost use Rattle.an_base.specs.TextSet.{ascending, has_text};
ghost use Rattle.an_base.specs.Totals.{Adds, totals_of};
ghost use Rattle.an_base.specs.Tree.{is_tree};
ghost use Rattle.an_model.specs.Bodies.{iris_of, note_terms, terms_in, texts_of};
ghost use Rattle.an_model.specs.Note.{is_bare, kept, motivations_of, note_of, note_refusal};
ghost use Rattle.an_model.specs.Cuts.{HasCuts};
ghost use Rattle.an_model.specs.Targets.{kept_target, targets_of};

use crate::body::{read_iris, read_texts};
use crate::cuts::{CutText, NoteCuts, cut_text};
use crate::motivation::read_motivations;
use crate::note::{Note, is_bare, keep, note_over};
use crate::refusal::{NoteError, note_refusal};
use crate::target::{Target, read_targets};
use an_base::{
    KeptTree, List, TermList, TermTotals, Text, TextSet, Tree, TryCopy, close_members, read_tree,
};
use an_selectors::Xywh;
use an_terms::occurrences;
use serde_json::Value;
use std::alloc::{AllocError, Global};
use std::marker::Model;
use std::sync::Arc;

/// An annotation as a row keeps it: the text of its tree, and what searches ask of it. Its copies
/// share both. Contracts see the tree.
#[derive(Debug, Drop)]
pub struct KeptNote {
    tree: KeptTree,
    parts: Arc<NoteParts>,
}

/// What is kept of a target: which part of what it is about.
#[derive(Debug, Drop)]
pub struct KeptTarget {
    /// The IRI of the resource, up to its first `#`.
    pub source: Text,
    /// The region of an image, where the target names one.
    pub region: Option<Xywh>,
}

/// What is kept of an annotation beside its text.
#[derive(Debug, Drop)]
pub(crate) struct NoteParts {
    pub(crate) cuts: NoteCuts,
    pub(crate) terms: TermList,
    pub(crate) motivations: TextSet,
    pub(crate) iris: TextSet,
    pub(crate) targets: List<KeptTarget>,
}

impl Model for KeptNote {
    ghost use Rattle.serde_json.specs.Data.{Data};
    ghost use Rattle.an_base.specs.TreeCode.{tree_code};
    ghost use Rattle.an_model.specs.KeptParts.{KeepsTexts};

    ghost Value = { Data };

    ghost coded = { tree_code };

    ghost view = { λ k. k.tree };

    ghost invariant = { λ k. KeepsTexts k };
}

impl KeptNote {
    /// Keeps an annotation.
    pub fn keep(alloc: Global, note: &Note) -> Result<KeptNote, AllocError>
        ensures value { IfOk result (λ k. k ≡ note.now) }
    {
        KeptNote::of_tree(alloc, note.tree())
    }

    /// Keeps the annotation that a tree is, or the first of the refusals in their order, as
    /// `read_note` has them: without the whole of it, which only showing it needs.
    #[tactic(auto, unfolding(crate::specs::Note::note_of))]
    pub fn read(alloc: Global, tree: &Value) -> Result<KeptNote, NoteError>
        requires tree { IsTrue (is_tree (view tree.now)) }
        ensures note { Gives (λ k. k) NoteError.Memory result (note_of (view tree.now)) }
    {
        match note_refusal(tree) {
            Some(refusal) => Err(refusal),
            None => match keep_tree(alloc, tree) {
                Ok(kept) => Ok(kept),
                Err(_) => Err(NoteError::Memory),
            },
        }
    }

    /// Keeps a tree that is an annotation and has none of the members that the server writes.
    fn of_tree(alloc: Global, tree: &Value) -> Result<KeptNote, AllocError>
        requires tree { IsTrue (is_tree (view tree.now)) }
        requires note { note_refusal (view tree.now) ≡ None }
        requires bare { is_bare (view tree.now) ≡ true }
        ensures value { IfOk result (λ k. k ≡ view tree.now) }
    {
        let written = cut_text(alloc, tree)?;
        let CutText { text, cuts } = written;
        let parts = note_parts(alloc, tree, cuts)?;
        let tree = KeptTree::from_text(text)?;
        let parts = Arc::new(alloc, parts)?;
        Ok(KeptNote { tree, parts })
    }

    /// The whole annotation, read back.
    pub fn note(&self, alloc: Global) -> Result<Note, AllocError>
        ensures value { IfOk result (λ note. note ≡ self.now) }
    {
        let tree = self.tree.to_value(alloc)?;
        let note = note_over(alloc, Tree::new(tree))?;
        Ok(note)
    }

    /// The plain texts of its bodies, in order, read back without their words.
    pub fn texts(&self, alloc: Global) -> Result<List<Text>, AllocError>
        ensures texts { IfOk result (λ texts. texts ≡ texts_of self.now) }
    {
        let bodies = read_bodies(alloc, &self.tree, self.parts.cuts)?;
        read_texts(alloc, &bodies)
    }

    /// Its targets, in their order, read back with their selectors.
    pub fn whole_targets(&self, alloc: Global) -> Result<List<Target>, AllocError>
        ensures targets { IfOk result (λ targets. targets ≡ targets_of self.now) }
    {
        let tree = self.tree.to_value(alloc)?;
        read_targets(alloc, &tree)
    }

    /// The tree, read back.
    pub fn tree(&self, alloc: Global) -> Result<Value, AllocError>
        ensures value { IfOk result (λ v. view v ≡ self.now) }
        ensures tree { IfOk result (λ v. IsTrue (is_tree (view v))) }
    {
        let tree = self.tree.to_value(alloc)?;
        Ok(tree)
    }

    /// The tree's compact text.
    pub fn text(&self) -> &[u8]
        ensures text { result.now ≡ compact_text self.now }
    {
        self.tree.text()
    }

    /// The terms of its words, each once, ascending by their bytes, and how often each occurs.
    pub fn terms(&self) -> &TermList
        ensures terms { result.now ≡ totals_of (note_terms self.now) }
    {
        &self.parts.terms
    }

    /// Whether a word of its texts has this term.
    pub fn has_term(&self, term: &str) -> bool
        ensures found { result ≡ has_text term.now (note_terms self.now) }
    {
        self.parts.terms.has(term)
    }

    /// Whether this is one of its motivations.
    pub fn has_motivation(&self, motivation: &str) -> bool
        ensures found { result ≡ has_text motivation.now (motivations_of self.now) }
    {
        self.parts.motivations.has(motivation)
    }

    /// Its motivations, each once, ascending by their bytes.
    pub fn motivations(&self) -> &TextSet
        ensures motivations { result.now ≡ ascending (motivations_of self.now) }
    {
        &self.parts.motivations
    }

    /// Whether this is the IRI of one of its bodies.
    pub fn has_iri(&self, iri: &str) -> bool
        ensures found { result ≡ has_text iri.now (iris_of self.now) }
    {
        self.parts.iris.has(iri)
    }

    /// The source and the region of each of its targets, in their order.
    pub fn targets(&self) -> &[KeptTarget]
        ensures targets { result.now ≡ map kept_target (targets_of self.now) }
    {
        self.parts.targets.as_slice()
    }

    /// Its tree, as it is kept.
    pub fn kept_tree(&self) -> &KeptTree
        ensures value { result.now ≡ self.now }
        ensures tree { IsTrue (is_tree self.now) }
        ensures note { note_refusal self.now ≡ None }
        ensures bare { is_bare self.now ≡ true }
    {
        &self.tree
    }

    /// Where the members that the server writes stand in its text.
    pub fn cuts(&self) -> NoteCuts
        ensures cuts { HasCuts result (members_in self.now) }
    {
        self.parts.cuts
    }
}

impl TryCopy for KeptNote {
    fn copy(&self) -> Result<KeptNote, AllocError> {
        Ok(KeptNote {
            tree: self.tree.copy()?,
            parts: self.parts.clone()?,
        })
    }
}

/// The members that stand between `@context` and `created`, the bodies among them, as an object.
/// The others, the targets among them, aren't read.
fn read_bodies(alloc: Global, tree: &KeptTree, cuts: NoteCuts) -> Result<Value, AllocError>
    requires cuts { HasCuts cuts (members_in tree.now) }
    requires tree { IsTrue (is_tree tree.now) }
    requires object { is_object tree.now ≡ true }
    ensures texts { IfOk result (λ v. texts_of (view v) ≡ texts_of tree.now) }
{
    let from = cuts.context as usize;
    let to = cuts.created as usize;
    let text = Vec::with_capacity(alloc, to.saturating_sub(from).saturating_add(2))?;
    let text = tree.push_between(text, from, to)?;
    let text = close_members(text, 0)?;
    match read_tree(alloc, text.as_slice()) {
        Ok(members) => Ok(members),
        Err(_) => Err(AllocError),
    }
}

/// What is kept of a tree that is an annotation. A tree that a row keeps is kept as it is.
fn keep_tree(alloc: Global, tree: &Value) -> Result<KeptNote, AllocError>
    requires tree { IsTrue (is_tree (view tree.now)) }
    requires note { note_refusal (view tree.now) ≡ None }
    ensures { IfOk result (λ k. k ≡ kept (view tree.now)) }
{
    if is_bare(tree) {
        KeptNote::of_tree(alloc, tree)
    } else {
        KeptNote::of_tree(alloc, &keep(tree.clone()?))
    }
}

fn note_parts(alloc: Global, tree: &Value, cuts: NoteCuts) -> Result<NoteParts, AllocError>
    ensures cuts { IfOk result (λ p. p.cuts ≡ cuts) }
    ensures terms { IfOk result (λ p. p.terms ≡ totals_of (note_terms (view tree.now))) }
    ensures motivations { IfOk result
        (λ p. p.motivations ≡ ascending (motivations_of (view tree.now))) }
    ensures iris { IfOk result (λ p. p.iris ≡ ascending (iris_of (view tree.now))) }
    ensures targets { IfOk result (λ p. p.targets ≡ map kept_target (targets_of (view tree.now))) }
{
    let terms = terms_in(alloc, tree)?;
    let motivations = motivations_in(alloc, tree)?;
    let iris = iris_in(alloc, tree)?;
    let targets = kept_targets(alloc, tree)?;
    Ok(NoteParts {
        cuts,
        terms,
        motivations,
        iris,
        targets,
    })
}

fn motivations_in(alloc: Global, tree: &Value) -> Result<TextSet, AllocError>
    ensures { IfOk result (λ set. set ≡ ascending (motivations_of (view tree.now))) }
{
    let motivations = read_motivations(alloc, tree)?;
    TextSet::of(alloc, motivations.as_slice())
}

fn iris_in(alloc: Global, tree: &Value) -> Result<TextSet, AllocError>
    ensures { IfOk result (λ set. set ≡ ascending (iris_of (view tree.now))) }
{
    let iris = read_iris(alloc, tree)?;
    TextSet::of(alloc, iris.as_slice())
}

fn terms_in(alloc: Global, tree: &Value) -> Result<TermList, AllocError>
    ensures { IfOk result (λ terms. terms ≡ totals_of (note_terms (view tree.now))) }
{
    let texts = read_texts(alloc, tree)?;
    counted_terms(alloc, texts.as_slice())
}

fn counted_terms(alloc: Global, texts: &[Text]) -> Result<TermList, AllocError>
    ensures { IfOk result (λ terms. terms ≡ totals_of (flat_map terms_in texts.now)) }
{
    let mut totals = TermTotals::new(alloc);
    for text in texts {
        count_terms(alloc, &mut totals, text.as_str())?;
    }
    totals.into_list()
}

/// Counts the terms of a text's words.
fn count_terms(alloc: Global, totals: &mut TermTotals, text: &str) -> Result<(), AllocError>
    ensures { OnOk result (Adds totals.old totals.new (terms_in text.now)) }
{
    let words = occurrences(alloc, text)?;
    for word in words.as_slice() {
        totals.add(word.term.as_str())?;
    }
    Ok(())
}

fn kept_targets(alloc: Global, tree: &Value) -> Result<List<KeptTarget>, AllocError>
    ensures { IfOk result (λ kept. kept ≡ map kept_target (targets_of (view tree.now))) }
{
    let targets = read_targets(alloc, tree)?;
    let mut kept = Vec::with_capacity(alloc, targets.as_slice().len())?;
    for target in targets.into_vec() {
        kept.push(kept_target(target))?;
    }
    Ok(List::from_vec(kept))
}

fn kept_target(target: Target) -> KeptTarget
    ensures { result ≡ kept_target target }
{
    let Target { source, region, .. } = target;
    KeptTarget { source, region }
}
