ghost use Rattle.std.specs.Prelude.{◌≡◌, ◌<◌, ◌++◌, ◌∷◌, [], length, get_or, map, nat_eq, IfOk};
ghost use Rattle.std.specs.List.{prefix_len, starts_with};
ghost use Rattle.an_base.specs.TextSet.{Ascend, has_text, is_below};
ghost use Rattle.an_base.specs.declared.span.TermTotal.{TermTotal as Total};

use crate::copy::TryCopy;
use crate::text_set::TextSet;
use std::alloc::{AllocError, Global};
use std::marker::Model;

/// Terms, each once, ascending by their bytes, and how often each occurs: a term takes its bytes
/// and eight more. Contracts see the list of the totals.
#[derive(Debug, Drop)]
pub struct TermList {
    terms: TextSet,
    totals: Vec<u32>,
}

impl Model for TermList {
    ghost use Rattle.std.specs.Prelude.{◌≡◌, List, length};
    ghost use Rattle.an_base.specs.Totals.{numbered};
    ghost use Rattle.an_base.specs.declared.span.TermTotal.{TermTotal};

    ghost Value = { List TermTotal };

    ghost view = { λ l. numbered l.terms l.totals.items };

    ghost invariant = { λ l. length l.totals.items ≡ length l.terms };
}

impl TermList {
    /// No term, which takes no memory.
    pub fn new(alloc: Global) -> TermList
        ensures none { result ≡ [] }
    {
        TermList {
            terms: TextSet::new(alloc),
            totals: Vec::new(alloc),
        }
    }

    /// How many they are.
    pub fn len(&self) -> usize
        ensures length { result ≡ length self.now }
        ensures order { Ascend (map (λ e. e.term) self.now) }
    {
        self.terms.len()
    }

    /// The term at this place, from 0.
    pub fn term(&self, place: usize) -> &str
        requires within { place < length self.now }
        ensures term { result.now ≡ get_or (map (λ e. e.term) self.now) place [] }
    {
        self.terms.text(place)
    }

    /// How often the term at this place occurs.
    pub fn total(&self, place: usize) -> u64
        requires within { place < length self.now }
        ensures total { result ≡ get_or (map (λ e. e.total) self.now) place 0 }
    {
        number_at(self.totals.as_slice(), place)
    }

    /// The place of the first term that doesn't stand before this text.
    pub fn place_of(&self, text: &str) -> usize
        ensures place { result ≡ prefix_len (is_below text.now) (map (λ e. e.term) self.now) }
    {
        self.terms.place_of(text)
    }

    /// Whether the term at this place begins with the prefix.
    pub fn begins(&self, place: usize, prefix: &str) -> bool
        requires within { place < length self.now }
        ensures begins { result
            ≡ starts_with nat_eq (get_or (map (λ e. e.term) self.now) place []) prefix.now }
    {
        self.terms.begins(place, prefix)
    }

    /// Whether the term is one of them.
    pub fn has(&self, term: &str) -> bool
        ensures found { result ≡ has_text term.now (map (λ e. e.term) self.now) }
    {
        self.terms.has(term)
    }

    /// The list with one term more, behind all. A total of more than 32 bits is refused as want of
    /// memory.
    pub(crate) fn followed_by(self, term: &str, total: u64) -> Result<TermList, AllocError>
        requires order { Ascend (map (λ e. e.term) self ++ term.now ∷ []) }
        ensures value { IfOk result (λ l. l
            ≡ self ++ record { term = term.now; total = total } ∷ []) }
    {
        let TermList { terms, totals } = self;
        let mut totals = totals;
        totals.push(in_32_bits(total)?)?;
        Ok(TermList {
            terms: terms.followed_by(term)?,
            totals,
        })
    }

    /// The same list, in no more memory than it needs.
    pub(crate) fn shrunk(self) -> TermList
        ensures same { result ≡ self }
    {
        let TermList { terms, totals } = self;
        let mut totals = totals;
        totals.shrink_to_fit();
        TermList {
            terms: terms.shrunk(),
            totals,
        }
    }
}

impl TryCopy for TermList {
    fn copy(&self) -> Result<TermList, AllocError> {
        let totals = Vec::from_slice(*self.totals.allocator(), self.totals.as_slice())?;
        Ok(TermList {
            terms: self.terms.copy()?,
            totals,
        })
    }
}

fn number_at(numbers: &[u32], place: usize) -> u64
    requires { place < length numbers.now }
    ensures { result ≡ get_or numbers.now place 0 }
{
    u64::from(numbers[place])
}

fn in_32_bits(n: u64) -> Result<u32, AllocError>
    ensures { IfOk result (λ m. m ≡ n) }
{
    match u32::try_from(n) {
        Ok(n) => Ok(n),
        Err(_) => Err(AllocError),
    }
}
