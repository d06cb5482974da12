//! Terms as the keys of a map.
ghost use Rattle.std.specs.Prelude.{◌≡◌, ◌+◌, ◌*◌, ◌^◌, IfOk, drop, get_or, string_bytes};
ghost use Rattle.std.specs.Cmp.Lexicographic.{slice_cmp};
ghost use Rattle.std.specs.Ordering.{nat_cmp};
ghost use Rattle.an_postings.specs.Heads.{head_from, head_of};

use std::alloc::{AllocError, Global};
use std::cmp::Ordering;
use std::collections::btree_map::Comparable;
use std::marker::Model;

/// A term, beside the number that its first eight bytes are. Most terms are told apart by these
/// numbers, so that a look-up among many terms waits for the memory of few of them. Contracts see
/// the text.
#[derive(Drop)]
pub(crate) struct TermKey {
    head: u64,
    text: String,
}

impl Model for TermKey {
    ghost use Rattle.std.specs.Prelude.{◌≡◌, String, string_bytes};
    ghost use Rattle.std.proofs.Common.{Global};
    ghost use Rattle.an_postings.specs.Heads.{head_of};

    ghost Value = { String Global };

    ghost view = { λ k. k.text };

    ghost invariant = { λ k. k.head ≡ head_of (string_bytes k.text) };
}

impl TermKey {
    pub fn of(alloc: Global, term: &str) -> Result<TermKey, AllocError>
        ensures text { IfOk result (λ key. string_bytes key ≡ term.now) }
    {
        Ok(TermKey {
            head: head_of(term),
            text: String::from_str(alloc, term)?,
        })
    }

    pub fn as_str(&self) -> &str
        ensures text { result.now ≡ string_bytes self.now }
    {
        self.text.as_str()
    }
}

/// A term that is sought among keys, beside the number that its first eight bytes are.
#[derive(Clone, Copy)]
pub(crate) struct Sought<'a> {
    head: u64,
    text: &'a str,
}

impl<'a> Sought<'a> {
    pub fn of(term: &'a str) -> Sought<'a>
        ensures head { result.head ≡ head_of term.now }
        ensures text { result.text.now ≡ term.now }
    {
        Sought {
            head: head_of(term),
            text: term,
        }
    }
}

/// The first eight bytes as a number, in which the first one counts most.
fn head_of(text: &str) -> u64
    ensures { result ≡ head_of text.now }
{
    let bytes = text.as_bytes();
    u64::from_be_bytes([
        byte_at(bytes, 0),
        byte_at(bytes, 1),
        byte_at(bytes, 2),
        byte_at(bytes, 3),
        byte_at(bytes, 4),
        byte_at(bytes, 5),
        byte_at(bytes, 6),
        byte_at(bytes, 7),
    ])
}

/// The byte at the place, or zero behind the last one.
fn byte_at(bytes: &[u8], at: usize) -> u8
    ensures { result ≡ get_or bytes.now at 0 }
{
    match bytes.get(at) {
        Some(byte) => *byte,
        None => 0,
    }
}

impl PartialEq for TermKey {
    ghost use Rattle.std.specs.Prelude.{string_bytes};
    ghost use Rattle.std.specs.String.{string_eq};
    ghost use Rattle.std.specs.Cmp.Lexicographic.{nat_list_eq_equiv};
    ghost use Rattle.std.specs.Cmp as Cmp;

    ghost eq = { string_eq };

    ghost laws = { Cmp.on_per (λ x. string_bytes x)
        (Cmp.partial_equiv_from_equiv nat_list_eq_equiv) };

    fn eq(&self, other: &TermKey) -> bool {
        self.as_str() == other.as_str()
    }
}

impl Eq for TermKey {
    ghost use Rattle.std.specs.Prelude.{string_bytes};
    ghost use Rattle.std.specs.Cmp.Lexicographic.{nat_list_eq_equiv};
    ghost use Rattle.std.specs.Cmp as Cmp;

    ghost laws = { Cmp.on_equiv (λ x. string_bytes x) nat_list_eq_equiv };
}

impl PartialOrd for TermKey {
    ghost use Rattle.std.specs.Prelude.{Some, string_bytes};
    ghost use Rattle.std.specs.String.{string_cmp};
    ghost use Rattle.std.specs.Cmp.Lexicographic.{texts_po};
    ghost use Rattle.std.specs.Cmp as Cmp;

    ghost partial_cmp = { λ x y. Some (string_cmp x y) };

    ghost laws = { Cmp.on_po (λ x. string_bytes x) texts_po };

    fn partial_cmp(&self, other: &TermKey) -> Option<Ordering> {
        Some(self.cmp(other))
    }
}

impl Ord for TermKey {
    ghost use Rattle.std.specs.Prelude.{string_bytes};
    ghost use Rattle.std.specs.String.{string_cmp};
    ghost use Rattle.std.specs.Cmp.Lexicographic.{nat_list_cmp_total, texts_ties};
    ghost use Rattle.std.specs.Cmp as Cmp;
    ghost use Rattle.std.proofs.Common.{refl};

    ghost cmp = { string_cmp };

    ghost total = { Cmp.on_total (λ x. string_bytes x) nat_list_cmp_total };

    ghost matches_partial_cmp = { λ x y. refl };

    ghost matches_eq = { λ x y. texts_ties (string_bytes x) (string_bytes y) };

    fn cmp(&self, other: &TermKey) -> Ordering {
        let own = Sought {
            head: self.head,
            text: self.text.as_str(),
        };
        own.compare(other)
    }
}

impl<'a> Comparable<TermKey> for Sought<'a> {
    ghost use Rattle.std.specs.Prelude.{string_bytes};
    ghost use Rattle.an_postings.specs.Heads.{head_cmp};
    ghost use Rattle.an_postings.specs.HeadOrder.{below, respects};

    ghost compare = { λ q k. head_cmp q.head q.text.now (string_bytes k) };

    ghost respects_cmp = { λ q. respects q.head q.text.now };

    ghost below_greater = { λ q. below q.head q.text.now };

    fn compare(&self, key: &TermKey) -> Ordering {
        match self.head.cmp(&key.head) {
            Ordering::Less => Ordering::Less,
            Ordering::Equal => self.text.cmp(key.text.as_str()),
            Ordering::Greater => Ordering::Greater,
        }
    }
}

/// A copy has memory for its text alone.
impl Clone for TermKey {
    ghost use Rattle.std.specs.Prelude.{◌≡◌, string_bytes};

    ghost is_clone = { λ old new. string_bytes new ≡ string_bytes old };

    fn clone(&self) -> Result<TermKey, AllocError> {
        Ok(TermKey {
            head: self.head,
            text: self.text.clone()?,
        })
    }
}
