ghost use Rattle.std.specs.Prelude.{◌≡◌, ◌<◌, ◌≤◌, ◌↔◌, [], ◌++◌, length, take, drop, filter};
ghost use Rattle.std.specs.Prelude.{nat_lt, vec_len};
ghost use Rattle.an_world.specs.Input.{pieces_of, piece_of, count_for, cut_behind, pieces_behind};

use an_base::Bytes;
use std::marker::Model;

/// The input of a link in memory, which is given piece by piece.
#[derive(Debug, Drop)]
pub(crate) struct Input {
    bytes: Bytes,
    at: usize,
    cut: Vec<usize>,
    next: usize,
}

impl Model for Input {
    ghost use Rattle.std.specs.Prelude.{◌≤◌, IsTrue, nat_lt, length, take, drop};
    ghost use Rattle.std.specs.List.{list_all};
    ghost use Rattle.an_world.specs.Input.{Pieces};

    ghost Value = { Pieces };

    ghost view = { λ i. record {
      read = take i.at i.bytes;
      left = drop i.at i.bytes;
      cut = drop i.next i.cut.items;
    } };

    ghost invariant = { λ i. (i.at ≤ length i.bytes) × (i.next ≤ length i.cut.items)
        × IsTrue (list_all (nat_lt 0) (drop i.next i.cut.items)) };
}

impl Input {
    /// Nothing of it is given yet. Takes no memory.
    pub(crate) fn new(bytes: Bytes, cut: Vec<usize>) -> Input
        ensures start { result ≡ pieces_of bytes cut.items }
    {
        Input {
            bytes,
            at: 0,
            cut: without_empty(cut),
            next: 0,
        }
    }

    /// Gives the next bytes into the front of `into`, and answers how many.
    pub(crate) fn give(&mut self, into: &mut [u8]) -> usize
        ensures count { result ≡ count_for (length into.old) self.old }
        ensures bytes { into.new ≡ take result self.old.left ++ drop result into.old }
        ensures after { self.new ≡ pieces_behind result self.old }
        ensures end { 0 < length into.old → ((result ≡ 0) ↔ (self.old.left ≡ [])) }
    {
        let left = &self.bytes.as_slice()[self.at..];
        let piece = piece_of(&self.cut[self.next..], left.len());
        let count = piece.min(into.len());
        into[..count].copy_from_slice(&left[..count]);
        self.at += count;
        self.next = pass(&mut self.cut, self.next, count);
        count
    }
}

/// The pieces of at least one byte.
fn without_empty(mut cut: Vec<usize>) -> Vec<usize>
    ensures { result.items ≡ filter (nat_lt 0) cut.items }
{
    cut.retain(|length| 0 < *length);
    cut
}

/// How many bytes the next piece has, where `left` bytes are left.
fn piece_of(cut: &[usize], left: usize) -> usize
    ensures { result ≡ piece_of cut.now left }
{
    match cut {
        [] => left,
        [first, ..] => (*first).min(left),
    }
}

/// Takes `count` bytes off the piece at `next`, and answers where the next piece stands.
fn pass(cut: &mut Vec<usize>, next: usize, count: usize) -> usize
    requires { next ≤ vec_len cut.old }
    ensures within { result ≤ vec_len cut.new }
    ensures behind { drop result cut.new.items ≡ cut_behind count (drop next cut.old.items) }
{
    if next == cut.len() {
        return next;
    }
    if count < cut[next] {
        cut[next] -= count;
        next
    } else {
        next + 1
    }
}
