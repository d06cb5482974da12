ghost use Rattle.std.specs.Prelude.{◌≡◌, ◌≤◌, List, ℕ, ◌∷◌, ◌++◌, drop, length, slice_range, true};
ghost use Rattle.std.specs.Prelude.{IfOk, IsTrue};
ghost use Rattle.serde_json.specs.Data.{Data};
ghost use Rattle.serde_json.specs.View.{view};
ghost use Rattle.serde_json.specs.Written.{compact_text};
ghost use Rattle.an_base.specs.Cut.{is_before, below, above, cut, is_object, members_in};
ghost use Rattle.an_base.specs.Kept.{tree_in, IsKept};
ghost use Rattle.an_base.specs.Tree.{is_tree};
ghost use Rattle.an_base.specs.Write.{commas};

use crate::copy::TryCopy;
use crate::tree::read_tree;
use serde_json::Value;
use std::alloc::{AllocError, Global};
use std::marker::Model;
use std::sync::ArcSlice;

/// A tree that is an object, kept as its compact text. Its copies share the text. Contracts see
/// the tree.
#[derive(Debug, Drop)]
pub struct KeptTree {
    text: ArcSlice<u8>,
}

impl Model for KeptTree {
    ghost use Rattle.std.specs.Arc.{arc_slice_items};
    ghost use Rattle.serde_json.specs.Data.{Data};
    ghost use Rattle.an_base.specs.Kept.{tree_in, IsKept};
    ghost use Rattle.an_base.specs.TreeCode.{tree_code};

    ghost Value = { Data };

    ghost coded = { tree_code };

    ghost view = { λ t. tree_in (arc_slice_items t.text) };

    ghost invariant = { λ t. IsKept (arc_slice_items t.text) };
}

impl KeptTree {
    /// Keeps the text of a tree that is an object.
    pub fn new(alloc: Global, tree: &Value) -> Result<KeptTree, AllocError>
        requires tree { IsTrue (is_tree (view tree.now)) }
        requires object { is_object (view tree.now) ≡ true }
        ensures value { IfOk result (λ t. t ≡ view tree.now) }
    {
        let text = tree.to_vec(alloc)?;
        let kept = KeptTree::from_text(text)?;
        Ok(kept)
    }

    /// Keeps the text that a tree was written as.
    pub fn from_text(text: Vec<u8>) -> Result<KeptTree, AllocError>
        requires kept { IsKept text.items }
        ensures value { IfOk result (λ t. t ≡ tree_in text.items) }
    {
        let mut text = text;
        text.shrink_to_fit();
        Ok(KeptTree {
            text: ArcSlice::from_vec(text)?,
        })
    }

    /// The tree's compact text.
    pub fn text(&self) -> &[u8]
        ensures text { result.now ≡ compact_text self.now }
        ensures tree { IsTrue (is_tree self.now) }
        ensures object { is_object self.now ≡ true }
    {
        self.text.as_slice()
    }

    /// The tree, read back.
    pub fn to_value(&self, alloc: Global) -> Result<Value, AllocError>
        ensures value { IfOk result (λ v. view v ≡ self.now) }
        ensures tree { IfOk result (λ v. IsTrue (is_tree (view v))) }
    {
        match read_tree(alloc, self.text()) {
            Ok(value) => Ok(value),
            Err(_) => Err(AllocError),
        }
    }

    /// Writes the members that stand from one cut up to another, each behind a comma. A cut is how
    /// many bytes of the members' text stand before a name's place.
    pub fn push_between(&self, out: Vec<u8>, from: usize, to: usize) -> Result<Vec<u8>, AllocError>
        ensures text { (low high : List ℕ) → is_before low high ≡ true
            → from ≡ cut low (members_in self.now) → to ≡ cut high (members_in self.now)
            → IfOk result (λ v. v.items
            ≡ out.items ++ commas (below high (above low (members_in self.now)))) }
    {
        let out = push_part(out, self.text(), from, to)?;
        Ok(out)
    }

    /// Writes the members that stand from a cut on, each behind a comma.
    pub fn push_above(&self, out: Vec<u8>, from: usize) -> Result<Vec<u8>, AllocError>
        ensures text { (low : List ℕ) → from ≡ cut low (members_in self.now)
            → IfOk result (λ v. v.items ≡ out.items ++ commas (above low (members_in self.now))) }
    {
        let text = self.text();
        let out = push_part(out, text, from, members_end(text))?;
        Ok(out)
    }
}

impl TryCopy for KeptTree {
    fn copy(&self) -> Result<KeptTree, AllocError> {
        Ok(KeptTree {
            text: self.text.clone()?,
        })
    }
}

/// Where the members of an object's text end.
fn members_end(text: &[u8]) -> usize
    ensures end { (tree : Data) → is_object tree ≡ true → text.now ≡ compact_text tree
        → result ≡ length (commas (members_in tree)) }
{
    if text.len() > 2 { text.len() - 1 } else { 0 }
}

/// Writes a part of an object's text, in which a comma stands for the first bracket.
fn push_part(out: Vec<u8>, text: &[u8], from: usize, to: usize) -> Result<Vec<u8>, AllocError>
    ensures part { from ≤ to → to ≤ length text.now → IfOk result
        (λ v. v.items ≡ out.items ++ slice_range (44 ∷ drop 1 text.now) from to) }
{
    let mut out = out;
    if from == 0 && to > 0 {
        out.push(b',')?;
        let out = push_range(out, text, 1, to)?;
        return Ok(out);
    }
    let out = push_range(out, text, from, to)?;
    Ok(out)
}

/// Writes a range of bytes, if there is one.
fn push_range(out: Vec<u8>, text: &[u8], from: usize, to: usize) -> Result<Vec<u8>, AllocError>
    ensures part { from ≤ to → to ≤ length text.now → IfOk result
        (λ v. v.items ≡ out.items ++ slice_range text.now from to) }
{
    let mut out = out;
    match text.get(from..to) {
        Some(part) => out.extend_from_slice(part)?,
        None => {}
    }
    Ok(out)
}
