ghost use Rattle.std.specs.Prelude.{◌≡◌, ◌≤◌, List, ℕ, Some, IsTrue, IsUtf8, IfOk};
ghost use Rattle.serde_json.specs.Data.{Data, depth};
ghost use Rattle.serde_json.specs.Read.{max_depth};
ghost use Rattle.serde_json.specs.View.{view};
ghost use Rattle.serde_json.specs.Written.{compact_text};
ghost use Rattle.an_base.specs.Outcome.{Gives};
ghost use Rattle.an_base.specs.Tree.{is_whole, is_tree, json_of};
ghost use Rattle.an_base.specs.Value.{value_of};

use crate::tree::{MAX_TREE_DEPTH, TreeError, is_whole, nests_within, read_json};
use serde_json::Value;
use std::alloc::Global;

/// The JSON value that bytes are, which may be deeper than a tree, or the first of the refusals
/// `Json` and `NotWhole` of `TreeError`; `Deep` is none of them. Of two members with one name the
/// later counts.
#[tactic(auto, using(crate::proofs::ValueLemmas::reading_values))]
pub fn read_value(alloc: Global, bytes: &[u8]) -> Result<Value, TreeError>
    ensures value { Gives view TreeError.Memory result (value_of bytes.now) }
    ensures whole { IfOk result (λ v. IsTrue (is_whole (view v))) }
{
    let value = read_json(alloc, bytes)?;
    if !is_whole(&value) {
        return Err(TreeError::NotWhole);
    }
    Ok(value)
}

/// Whether a value is a tree: its numbers are whole, and at most 100 arrays and objects stand
/// inside each other. Takes no memory.
#[tactic(auto, unfolding(crate::specs::Tree::is_tree))]
pub fn is_tree(value: &Value) -> bool
    ensures is { result ≡ is_tree (view value.now) }
{
    is_whole(value) && nests_within(value, MAX_TREE_DEPTH)
}

/// A law: the text of a whole value in which at most 127 arrays and objects stand inside each
/// other is UTF-8 and reads back as the value.
#[tactic(auto, using(crate::proofs::ValueLemmas::values_texts))]
pub fn values_read_back()
    ensures utf8 { (d : Data) → IsTrue (is_whole d) → IsUtf8 (compact_text d) }
    ensures read_back { (d : Data) → IsTrue (is_whole d) → depth d ≤ max_depth
        → json_of (compact_text d) ≡ Some d }
{}
