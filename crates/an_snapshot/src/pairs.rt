ghost use Rattle.std.specs.Prelude.{◌≡◌, ◌+◌, ◌++◌, ◌∷◌, [], IfOk, None, OnOk, Some};
ghost use Rattle.std.specs.Prelude.{slice_get};
ghost use Rattle.an_keyed.specs.Index.{IsHashed, place_of_key};
ghost use Rattle.an_snapshot.specs.PairHash.{class_code, pair_hash};
ghost use Rattle.an_snapshot.specs.Pairs.{Extends, same_class, same_pair, with_pair};

use crate::change::ClassChange;
use an_base::to_u32;
use an_keyed::{Hashes, short_hash};
use std::alloc::{AllocError, Global};
use std::marker::Model;

/// Pairs of classes, each once, numbered from 0 in the order in which they came. Contracts see the
/// list of the pairs.
#[derive(Drop)]
pub(crate) struct Pairs {
    pairs: Vec<ClassChange>,
    index: Hashes,
}

impl Model for Pairs {
    ghost use Rattle.std.specs.Prelude.{List};
    ghost use Rattle.an_keyed.specs.Index.{IsHashed};
    ghost use Rattle.an_snapshot.specs.PairHash.{pair_hash};
    ghost use Rattle.an_snapshot.specs.Pairs.{same_pair};
    ghost use Rattle.an_snapshot.specs.declared.change.ClassChange.{ClassChange};

    ghost Value = { List ClassChange };

    ghost view = { λ p. p.pairs.items };

    ghost invariant = { λ p. IsHashed same_pair pair_hash p.pairs.items p.index.hashes };
}

impl Pairs {
    /// No pairs. It takes no memory.
    pub fn new(alloc: Global) -> Pairs
        ensures empty { result ≡ [] }
    {
        Pairs {
            pairs: Vec::new(alloc),
            index: Hashes::new(alloc),
        }
    }

    /// The pairs by their numbers.
    pub fn as_slice(&self) -> &[ClassChange]
        ensures pairs { result.now ≡ self.now }
    {
        self.pairs.as_slice()
    }

    /// The number of a pair, which has one then. Want of memory is its only error, which more than
    /// 2^32 pairs are answered with too.
    #[tactic(auto, using(crate::proofs::PairLemmas::growth))]
    pub fn add(&mut self, pair: ClassChange) -> Result<u32, AllocError>
        ensures number { IfOk result (λ number. slice_get self.new number ≡ Some pair) }
        ensures ok { OnOk result (self.new ≡ with_pair pair self.old) }
        ensures grows { Extends self.old self.new }
    {
        match place_in(self.pairs.as_slice(), &self.index, pair) {
            Some(place) => to_u32(place),
            None => self.push(pair),
        }
    }

    #[tactic(auto, using(crate::proofs::PairLemmas::growth))]
    fn push(&mut self, pair: ClassChange) -> Result<u32, AllocError>
        requires new { place_of_key same_pair pair self.old ≡ None }
        ensures number { IfOk result (λ number. slice_get self.new number ≡ Some pair) }
        ensures ok { OnOk result (self.new ≡ self.old ++ pair ∷ []) }
        ensures grows { Extends self.old self.new }
    {
        let number = to_u32(self.pairs.len())?;
        self.index.make_room(1)?;
        self.pairs.reserve(1)?;
        self.index.push(hash_of(pair));
        self.pairs.push_reserved(pair);
        Ok(number)
    }
}

/// Where the pair stands, which is sought among those with its hash.
fn place_in(pairs: &[ClassChange], index: &Hashes, pair: ClassChange) -> Option<usize>
    requires hashed { IsHashed same_pair pair_hash pairs.now index.now.hashes }
    ensures place { result ≡ place_of_key same_pair pair pairs.now }
{
    let mut next = index.last(hash_of(pair));
    while let Some(place) = next {
        if is_same(pairs[place], pair) {
            return Some(place);
        }
        next = index.before(place);
    }
    None
}

fn is_same(pair: ClassChange, other: ClassChange) -> bool
    ensures { result ≡ same_pair pair other }
{
    is_same_class(pair.before, other.before) && is_same_class(pair.after, other.after)
}

fn is_same_class(class: Option<u32>, other: Option<u32>) -> bool
    ensures { result ≡ same_class class other }
{
    match class {
        Some(class) => match other {
            Some(other) => class == other,
            None => false,
        },
        None => other.is_none(),
    }
}

#[tactic(auto, unfolding(crate::specs::PairHash::pair_hash))]
fn hash_of(pair: ClassChange) -> u32
    ensures { result ≡ pair_hash pair }
{
    short_hash(class_code(pair.before) * 65_599 + class_code(pair.after))
}

fn class_code(class: Option<u32>) -> u64
    ensures { result ≡ class_code class }
{
    match class {
        Some(class) => u64::from(class) + 1,
        None => 0,
    }
}
