ghost use Rattle.std.specs.Prelude.{◌≡◌, ◌+◌, ◌<◌, ◌≤◌, slice_set, vec_capacity, vec_len};
ghost use Rattle.an_listed.specs.Leaner.{AreLeaner, IsLeaner};

use crate::filed::Filed;
use crate::keys::{Keys, keys_by};
use crate::kind::Kind;
use crate::register::Register;
use an_postings::Postings;
use std::mem::replace;

/// Puts a row over another, which is kept among those that are gone, where it isn't done with. It
/// takes no memory.
pub(crate) fn put_over(
    rows: &mut Vec<Filed>,
    gone: &mut Vec<Filed>,
    place: usize,
    row: Filed,
    done: bool,
)
    requires place { place < vec_len rows.old }
    requires room { vec_len gone.old < vec_capacity gone.old }
    ensures rows { rows.new.items ≡ slice_set rows.old.items place row }
    ensures len { vec_len rows.new ≡ vec_len rows.old }
    ensures capacity { vec_capacity rows.new ≡ vec_capacity rows.old }
    ensures gone { vec_len gone.new ≤ vec_len gone.old + 1 }
    ensures gone_capacity { vec_capacity gone.new ≡ vec_capacity gone.old }
{
    let old = replace(&mut rows[place], row);
    if !done {
        gone.push_reserved(old);
    }
}

/// Drops the lists of these rows that have no place any more. It takes no memory. Rows are put in
/// the order of their places, and later ones mostly have later classes: so the last goes first, and
/// a list is mostly taken out of the end.
#[tactic(auto, using(crate::proofs::LeanerLemmas::alike, crate::proofs::LeanerLemmas::after_all))]
pub(crate) fn let_go_all(register: &mut Register, rows: &[Filed])
    ensures leaner { AreLeaner register.old register.new }
{
    for row in rows.iter().rev() {
        register.let_go(row);
    }
}

impl Register {
    /// Drops the lists of a row that have no place any more. It takes no memory.
    fn let_go(&mut self, row: &Filed)
        ensures leaner { AreLeaner self.old self.new }
    {
        let_go_in(&mut self.words, Kind::Words, row);
        let_go_in(&mut self.anywhere, Kind::Anywhere, row);
        let_go_in(&mut self.whole, Kind::Whole, row);
    }
}

/// The same in the lists of a kind.
#[tactic(auto, using(crate::proofs::LeanerLemmas::itself))]
fn let_go_in(lists: &mut Postings, kind: Kind, row: &Filed)
    ensures leaner { IsLeaner lists.old lists.new }
{
    match keys_by(kind, row) {
        Some(keys) => let_go_keys(lists, &keys),
        None => {}
    }
}

#[tactic(auto, using(crate::proofs::LeanerLemmas::itself, crate::proofs::LeanerLemmas::after))]
fn let_go_keys(lists: &mut Postings, keys: &Keys<'_>)
    ensures leaner { IsLeaner lists.old lists.new }
{
    for at in 0..keys.len() {
        lists.let_go(keys.manifest(), keys.term(at), keys.class());
    }
}
