ghost use Rattle.std.specs.Prelude.{◌≡◌, false, [], codes, unwrap_or, IsTrue, IfOk};
ghost use Rattle.an_base.specs.Member.{text_in};
ghost use Rattle.serde_json.specs.View.{view, items_view};
ghost use Rattle.serde_json.specs.Written.{has_float};
ghost use Rattle.an_base.specs.Outcome.{Gives, first_of};
ghost use Rattle.an_base.specs.Tree.{is_tree};
ghost use Rattle.an_manifest.specs.Shape.{canvas_ids};
ghost use Rattle.an_manifest.specs.Manifest.{manifest_refusals, is_manifest, kept_tree};
ghost use Rattle.an_manifest.specs.Manifest.{manifest_of};

use crate::shape::{bad_canvas, canvases_in, has_label, is_version_2};
use an_base::{List, Text, Tree, TryCopy, has_type, text_in, without_member};
use serde_json::Value;
use std::alloc::{AllocError, Global};
use std::marker::Model;

/// Why a tree is no manifest.
#[derive(Clone, Copy, Debug, PartialEq, Eq)]
pub enum SheetError {
    /// It is no object whose `type` is or has `Manifest`.
    WrongType,
    /// `label` is no object, not empty, of arrays of texts.
    Label,
    /// `items` is no array, or it is empty.
    Items,
    /// The item at this place, from 0, has no `type` `Canvas`, no `id`, or no `height` and `width`
    /// from 1 to 4,294,967,295.
    Canvas { at: usize },
    /// It is a manifest of the Presentation API 2: it has `@type` or `sequences`.
    Version2,
    Memory,
}

/// A manifest that is kept. Contracts see the tree that it is.
#[derive(Debug, Drop)]
pub struct Sheet {
    tree: Tree,
    canvases: List<Text>,
}

impl Model for Sheet {
    ghost use Rattle.std.specs.Prelude.{◌≡◌, IsTrue};
    ghost use Rattle.serde_json.specs.Data.{Data};
    ghost use Rattle.an_base.specs.TreeCode.{tree_code};

    ghost Value = { Data };

    ghost coded = { tree_code };

    ghost use Rattle.an_manifest.specs.Manifest.{is_kept, canvases_of};

    ghost view = { λ s. s.tree };

    ghost invariant = { λ s. IsTrue (is_kept s.tree) × (s.canvases ≡ canvases_of s.tree) };
}

impl Sheet {
    ghost use Rattle.std.specs.Prelude.{Ok};
    ghost use Rattle.an_manifest.specs.Manifest.{is_kept, manifest_of, canvases_of};

    /// What is kept of the manifest's tree. What `tree_text` asks of a value holds of it, and read
    /// again it is kept as it is.
    #[tactic(auto, using(crate::proofs::ManifestLemmas::kept_again))]
    pub fn tree(&self) -> &Value
        ensures value { view result.now ≡ self.now }
        ensures tree { IsTrue (is_tree self.now) }
        ensures kept { manifest_of self.now ≡ Ok self.now }
        ensures own { IsTrue (is_kept self.now) }
        ensures whole { has_float self.now ≡ false }
    {
        self.tree.as_value()
    }

    /// The ids of its canvases, in their order.
    pub fn canvases(&self) -> &[Text]
        ensures canvases { result.now ≡ canvases_of self.now }
    {
        self.canvases.as_slice()
    }
}

impl TryCopy for Sheet {
    fn copy(&self) -> Result<Sheet, AllocError> {
        Ok(Sheet {
            tree: self.tree.copy()?,
            canvases: self.canvases.copy()?,
        })
    }
}

/// The manifest that a tree is (IIIF Presentation API 3.0, section 5.2), or the first of the
/// refusals: `Version2`, `WrongType`, `Label`, `Items`, `Canvas`. Its members `@context` and `id`
/// aren't kept; members that aren't named here are.
#[tactic(auto, unfolding(crate::specs::Manifest::manifest_of, crate::specs::Manifest::is_manifest))]
pub fn read_manifest(alloc: Global, tree: &Value) -> Result<Sheet, SheetError>
    requires tree { IsTrue (is_tree (view tree.now)) }
    ensures sheet { Gives (λ s. s) SheetError.Memory result (manifest_of (view tree.now)) }
{
    if let Some(refusal) = manifest_refusal(tree) {
        return Err(refusal);
    }
    match keep(alloc, tree) {
        Ok(sheet) => Ok(sheet),
        Err(_) => Err(SheetError::Memory),
    }
}

/// The first refusal of a tree as a manifest. Takes no memory.
#[tactic(auto, using(crate::proofs::ManifestLemmas::counting), unfolding(crate::specs::Manifest::manifest_refusals))]
pub fn manifest_refusal(tree: &Value) -> Option<SheetError>
    ensures refusal { result ≡ first_of (manifest_refusals (view tree.now)) }
{
    if is_version_2(tree) {
        return Some(SheetError::Version2);
    }
    if !has_type(tree, "Manifest") {
        return Some(SheetError::WrongType);
    }
    if !has_label(tree) {
        return Some(SheetError::Label);
    }
    let canvases = canvases_in(tree);
    if canvases.is_empty() {
        return Some(SheetError::Items);
    }
    match bad_canvas(canvases) {
        Some(at) => Some(SheetError::Canvas { at }),
        None => None,
    }
}

/// What is kept of a manifest.
#[tactic(auto, using(crate::proofs::ManifestLemmas::keeping), unfolding(crate::specs::Manifest::kept_tree))]
fn keep(alloc: Global, tree: &Value) -> Result<Sheet, AllocError>
    requires tree { IsTrue (is_tree (view tree.now)) }
    requires manifest { IsTrue (is_manifest (view tree.now)) }
    ensures kept { IfOk result (λ s. s ≡ kept_tree (view tree.now)) }
{
    let canvases = canvas_ids(alloc, canvases_in(tree))?;
    let named = without_member(tree.clone()?, "@context");
    let tree = Tree::new(without_member(named, "id"));
    Ok(Sheet { tree, canvases })
}

pub(crate) fn canvas_ids(alloc: Global, canvases: &[Value]) -> Result<List<Text>, AllocError>
    ensures { IfOk result (λ ids. ids ≡ canvas_ids (items_view canvases.now)) }
{
    let mut ids = Vec::with_capacity(alloc, canvases.len())?;
    for canvas in canvases {
        ids.push(canvas_id(alloc, canvas)?)?;
    }
    Ok(List::from_vec(ids))
}

/// The id of a canvas; the empty text where it has none.
fn canvas_id(alloc: Global, canvas: &Value) -> Result<Text, AllocError>
    ensures { IfOk result (λ id. id ≡ unwrap_or (text_in (codes "id") (view canvas.now)) []) }
{
    match text_in(canvas, "id") {
        Some(id) => Text::new(alloc, id),
        None => Text::new(alloc, ""),
    }
}
