ghost use Rattle.std.specs.Prelude.{◌≡◌, ◌++◌, ◌∷◌, ◌<◌, ◌≤◌, ◌^◌, [], List, length, slice_set};
ghost use Rattle.std.specs.Prelude.{true};
ghost use Rattle.an_listed.specs.Room.{HasRowSpace, HasSpace};
ghost use Rattle.an_listed.specs.Stands.{AreOf, Stands};

use crate::change::{put, take};
use crate::filed::Filed;
use crate::keys::{is_alike, keys_by};
use crate::kind::Kind;
use crate::register::Register;
use an_postings::Postings;

impl Register {
    /// Puts a row in place of another, which costs no look-up where both are found alike. Where no
    /// more rows are to come, the memory of what the old one was found by is given back: whether
    /// that needs no `let_go` any more. It takes no memory.
    pub(crate) fn replace(&mut self, rows: &[Filed], place: usize, row: &Filed, more: bool) -> bool
        requires stands { Stands self.old rows.now }
        requires place { place < length rows.now }
        requires space { HasSpace (row.now ∷ []) self.old }
        ensures stands { Stands self.new (slice_set rows.now place row.now) }
        ensures rest { more ≡ true → (rest : List Filed)
            → HasSpace (row.now ∷ rest) self.old → HasSpace rest self.new }
    {
        if is_alike(&rows[place], row) {
            return true;
        }
        replace_in(&mut self.words, Kind::Words, rows, place, row, more);
        replace_in(&mut self.anywhere, Kind::Anywhere, rows, place, row, more);
        replace_in(&mut self.whole, Kind::Whole, rows, place, row, more);
        !more
    }

    /// Puts a row after all. It takes no memory.
    pub(crate) fn push(&mut self, rows: &[Filed], row: &Filed)
        requires stands { Stands self.old rows.now }
        requires few { length rows.now < 2 ^ 32 }
        requires space { HasSpace (row.now ∷ []) self.old }
        ensures stands { Stands self.new (rows.now ++ row.now ∷ []) }
        ensures rest { (rest : List Filed)
            → HasSpace (row.now ∷ rest) self.old → HasSpace rest self.new }
    {
        push_in(&mut self.words, Kind::Words, rows, row);
        push_in(&mut self.anywhere, Kind::Anywhere, rows, row);
        push_in(&mut self.whole, Kind::Whole, rows, row);
    }
}

/// Puts a row in place of another in the lists of a kind.
fn replace_in(
    lists: &mut Postings,
    kind: Kind,
    rows: &[Filed],
    place: usize,
    row: &Filed,
    more: bool,
)
    requires of { AreOf kind lists.old rows.now }
    requires few { length rows.now ≤ 2 ^ 32 }
    requires place { place < length rows.now }
    requires space { HasRowSpace kind (row.now ∷ []) lists.old }
    ensures of { AreOf kind lists.new (slice_set rows.now place row.now) }
    ensures rest { more ≡ true → (rest : List Filed)
        → HasRowSpace kind (row.now ∷ rest) lists.old → HasRowSpace kind rest lists.new }
{
    let old = keys_by(kind, &rows[place]);
    let new = keys_by(kind, row);
    take(lists, &old, &new, place, more);
    put(lists, &new, place);
}

/// Puts a row after all in the lists of a kind.
fn push_in(lists: &mut Postings, kind: Kind, rows: &[Filed], row: &Filed)
    requires of { AreOf kind lists.old rows.now }
    requires few { length rows.now < 2 ^ 32 }
    requires space { HasRowSpace kind (row.now ∷ []) lists.old }
    ensures of { AreOf kind lists.new (rows.now ++ row.now ∷ []) }
    ensures rest { (rest : List Filed)
        → HasRowSpace kind (row.now ∷ rest) lists.old → HasRowSpace kind rest lists.new }
{
    let keys = keys_by(kind, row);
    put(lists, &keys, rows.len());
}
