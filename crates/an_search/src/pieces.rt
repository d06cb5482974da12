ghost use Rattle.std.specs.Prelude.{◌≡◌, IfOk};
ghost use Rattle.std.specs.List.{list_any};
ghost use Rattle.an_base.specs.TextSet.{ascending, has_text};

use an_base::{List, Text, TextSet};
use std::alloc::{AllocError, Global};
use std::marker::Model;

/// The pieces of a value, and the same in order, each once, so that a text is found among many in
/// few steps. Contracts see the pieces.
#[derive(Debug, Drop)]
pub struct Pieces {
    given: List<Text>,
    ordered: TextSet,
}

impl Model for Pieces {
    ghost use Rattle.std.specs.Prelude.{◌≡◌, ℕ, List};
    ghost use Rattle.an_base.specs.TextSet.{ascending};

    ghost Value = { List (List ℕ) };

    ghost view = { λ p. p.given };

    ghost invariant = { λ p. p.ordered ≡ ascending p.given };
}

impl Pieces {
    pub(crate) fn of(alloc: Global, given: List<Text>) -> Result<Pieces, AllocError>
        ensures value { IfOk result (λ pieces. pieces ≡ given) }
    {
        let ordered = TextSet::of(alloc, given.as_slice())?;
        Ok(Pieces { given, ordered })
    }

    /// The pieces as they were given.
    pub fn as_slice(&self) -> &[Text]
        ensures value { result.now ≡ self.now }
    {
        self.given.as_slice()
    }

    /// The pieces, each once, ascending by their bytes.
    pub fn ordered(&self) -> &TextSet
        ensures ordered { result.now ≡ ascending self.now }
    {
        &self.ordered
    }

    /// Whether the text is one of them.
    pub fn has(&self, text: &str) -> bool
        ensures found { result ≡ has_text text.now self.now }
    {
        self.ordered.has(text)
    }
}

/// Whether a text is one of both. Those of the shorter are looked up in the longer.
pub(crate) fn share_one(first: &TextSet, second: &TextSet) -> bool
    ensures { result ≡ list_any (λ text. has_text text second.now) first.now }
{
    if first.len() <= second.len() {
        has_one_of(second, first)
    } else {
        has_one_of(first, second)
    }
}

/// Whether one of the texts is among the others.
fn has_one_of(others: &TextSet, texts: &TextSet) -> bool
    ensures { result ≡ list_any (λ text. has_text text others.now) texts.now }
{
    for place in 0..texts.len() {
        if others.has(texts.text(place)) {
            return true;
        }
    }
    false
}
