ghost use Rattle.std.specs.Prelude.{◌≡◌, ◌-◌, false, not, Ok, ok_or, IsTrue, IfOk, nat_le};
ghost use Rattle.serde_json.specs.Data.{Data, object, depth, items_depth, members_depth};
ghost use Rattle.serde_json.specs.Find.{is_float};
ghost use Rattle.serde_json.specs.View.{view, number_view, items_view, members_view};
ghost use Rattle.serde_json.specs.Written.{has_float, items_have_float, members_have_float};
ghost use Rattle.serde_json.specs.Written.{compact_text};
ghost use Rattle.an_base.specs.Outcome.{Gives};
ghost use Rattle.an_base.specs.Tree.{is_whole_number, is_whole, items_are_whole, members_are_whole};
ghost use Rattle.an_base.specs.Tree.{is_tree, json_of, tree_of, one_or_many};

use crate::bytes::Bytes;
use crate::copy::TryCopy;
use serde_json::{Map, Number, Value};
use std::alloc::{AllocError, Global};
use std::marker::Model;
use std::slice;

/// How many arrays and objects may stand inside each other in a tree.
pub(crate) const MAX_TREE_DEPTH: usize = 100;

/// Why bytes are no tree.
#[derive(Clone, Copy, Debug, PartialEq, Eq)]
pub enum TreeError {
    /// They are no JSON text (RFC 8259): not UTF-8, out of form, a number beyond every float, or
    /// more than 127 arrays and objects inside each other.
    Json,
    /// A number in them is `-0`, has a fraction or an exponent, or is outside -2^63 to 2^64 - 1.
    NotWhole,
    /// More than 100 arrays and objects stand inside each other.
    Deep,
    Memory,
}

/// The tree that bytes are, or the first of the refusals in their order. Of two members with one
/// name the later counts.
#[tactic(auto, using(crate::proofs::TreeLemmas::reading))]
pub fn read_tree(alloc: Global, bytes: &[u8]) -> Result<Value, TreeError>
    ensures tree { Gives view TreeError.Memory result (tree_of bytes.now) }
    ensures ok { IfOk result (λ v. IsTrue (is_tree (view v))) }
{
    let value = read_json(alloc, bytes)?;
    if !is_whole(&value) {
        return Err(TreeError::NotWhole);
    }
    if !nests_within(&value, MAX_TREE_DEPTH) {
        return Err(TreeError::Deep);
    }
    Ok(value)
}

/// The text of a tree, without white space and with names ascending by bytes. It may be deeper
/// than a tree that is read.
pub fn tree_text(alloc: Global, tree: &Value) -> Result<Bytes, AllocError>
    requires whole { has_float (view tree.now) ≡ false }
    ensures text { IfOk result (λ text. text ≡ compact_text (view tree.now)) }
{
    Ok(Bytes::from_vec(tree.to_vec(alloc)?))
}

/// An array's items, or the value alone. Takes no memory.
pub fn one_or_many(tree: &Value) -> &[Value]
    ensures items { items_view result.now ≡ one_or_many (view tree.now) }
{
    match tree {
        Value::Array(items) => items.as_slice(),
        _ => slice::from_ref(tree),
    }
}

/// A tree that is kept. Contracts see the JSON value that it is.
#[derive(Debug, Drop)]
pub struct Tree {
    value: Value,
}

impl Model for Tree {
    ghost use Rattle.std.specs.Prelude.{IsTrue};
    ghost use Rattle.serde_json.specs.Data.{Data};
    ghost use Rattle.serde_json.specs.View.{view as value_view};
    ghost use Rattle.an_base.specs.Tree.{is_tree};
    ghost use Rattle.an_base.specs.TreeCode.{tree_code};

    ghost Value = { Data };

    ghost coded = { tree_code };

    ghost view = { λ t. value_view t.value };

    ghost invariant = { λ t. IsTrue (is_tree (value_view t.value)) };
}

impl Tree {
    /// Takes no memory.
    pub fn new(value: Value) -> Tree
        requires tree { IsTrue (is_tree (view value)) }
        ensures value { result ≡ view value }
    {
        Tree { value }
    }

    /// What `tree_text` asks of a value holds of it.
    #[tactic(auto, using(crate::proofs::TreeTexts::no_float_in_tree))]
    pub fn as_value(&self) -> &Value
        ensures value { view result.now ≡ self.now }
        ensures tree { IsTrue (is_tree self.now) }
        ensures whole { has_float self.now ≡ false }
    {
        &self.value
    }

    /// Takes no memory.
    pub fn into_value(self) -> Value
        ensures value { view result ≡ self }
        ensures tree { IsTrue (is_tree self) }
    {
        let Tree { value } = self;
        value
    }
}

impl TryCopy for Tree {
    fn copy(&self) -> Result<Tree, AllocError> {
        Ok(Tree {
            value: self.value.clone()?,
        })
    }
}

/// A law: the text of a tree reads back as the tree.
#[tactic(auto, using(crate::proofs::TreeTexts::read_back))]
pub fn trees_read_back()
    ensures read_back { (t : Data) → IsTrue (is_tree t) → tree_of (compact_text t) ≡ Ok t }
{}

/// A law: trees whose texts are equal are equal.
#[tactic(auto, using(crate::proofs::TreeTexts::same_from_texts))]
pub fn equal_texts_are_equal_trees()
    ensures equal { (t u : Data) → IsTrue (is_tree t) → IsTrue (is_tree u)
        → compact_text t ≡ compact_text u → t ≡ u }
{}

/// The JSON value that bytes are, of which the later of two members with one name counts.
#[tactic(auto, using(crate::proofs::TreeLemmas::reading))]
pub(crate) fn read_json(alloc: Global, bytes: &[u8]) -> Result<Value, TreeError>
    ensures json { Gives view TreeError.Memory result (ok_or (json_of bytes.now) TreeError.Json) }
{
    match Value::from_slice(alloc, bytes) {
        Ok(value) => Ok(value),
        Err(error) => {
            if error.is_memory() {
                Err(TreeError::Memory)
            } else {
                Err(TreeError::Json)
            }
        }
    }
}

/// Whether no number is a float. What the types keep is the rest of a whole value: a text is
/// UTF-8, and a map's names ascend.
#[cycle(whole)]
pub(crate) fn is_whole(value: &Value) -> bool
    ensures whole { result ≡ is_whole (view value.now) }
    ensures no_float { result ≡ not (has_float (view value.now)) }
{
    match value {
        Value::Null => true,
        Value::Bool(_) => true,
        Value::Number(number) => is_whole_number(number),
        Value::String(_) => true,
        Value::Array(items) => items_are_whole(items),
        Value::Object(members) => members_are_whole(members),
    }
}

fn is_whole_number(number: &Number) -> bool
    ensures whole { result ≡ is_whole_number (number_view number.now) }
    ensures no_float { result ≡ not (is_float (number_view number.now)) }
{
    match number.as_u64() {
        Some(_) => true,
        None => match number.as_i64() {
            Some(_) => true,
            None => false,
        },
    }
}

#[cycle(whole)]
fn items_are_whole(items: &[Value]) -> bool
    ensures whole { result ≡ items_are_whole (items_view items.now) }
    ensures no_float { result ≡ not (items_have_float (items_view items.now)) }
{
    for item in items {
        if !is_whole(item) {
            return false;
        }
    }
    true
}

#[cycle(whole)]
#[tactic(auto, using(crate::proofs::TreeLemmas::members_walk))]
fn members_are_whole(members: &Map<String, Value>) -> bool
    ensures whole { result ≡ is_whole (object (members_view members.now.entries)) }
    ensures no_float { result ≡ not (members_have_float (members_view members.now.entries)) }
{
    for member in members.values() {
        if !is_whole(member) {
            return false;
        }
    }
    true
}

/// Whether at most this many arrays and objects stand inside each other.
#[cycle(nests)]
pub(crate) fn nests_within(value: &Value, levels: usize) -> bool
    ensures { result ≡ nat_le (depth (view value.now)) levels }
{
    match value {
        Value::Array(items) => levels > 0 && items_nest_within(items, levels - 1),
        Value::Object(members) => levels > 0 && members_nest_within(members, levels - 1),
        _ => true,
    }
}

#[cycle(nests)]
fn items_nest_within(items: &[Value], levels: usize) -> bool
    ensures { result ≡ nat_le (items_depth (items_view items.now)) levels }
{
    for item in items {
        if !nests_within(item, levels) {
            return false;
        }
    }
    true
}

#[cycle(nests)]
#[tactic(auto, using(crate::proofs::TreeLemmas::members_walk))]
fn members_nest_within(members: &Map<String, Value>, levels: usize) -> bool
    ensures { result ≡ nat_le (members_depth (members_view members.now.entries)) levels }
{
    for member in members.values() {
        if !nests_within(member, levels) {
            return false;
        }
    }
    true
}
