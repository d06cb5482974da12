ghost use Rattle.std.specs.Prelude.{◌≡◌, ◌+◌, ◌<◌, ◌≤◌, [], IsTrue, OnOk, map};
ghost use Rattle.std.specs.Option.{option_copied};
ghost use Rattle.an_keyed.specs.Index.{IsHashed};
ghost use Rattle.an_keyed.specs.Key.{same_key};
ghost use Rattle.an_keyed.specs.KeyHash.{key_hash};
ghost use Rattle.an_keyed.specs.Rows.{keys_are_distinct, place_of, row_of, put_row};

use crate::hashes::Hashes;
use crate::key::{Keyed, has_key, hash_of};
use an_base::Name;
use std::alloc::{AllocError, Global};
use std::marker::Model;

/// Rows under keys, in the order in which their keys came first. A row stays in its place for good.
/// Contracts see the list of the rows, and for how many more there is memory.
#[derive(Drop)]
pub struct Rows<R: Keyed> {
    rows: Vec<R>,
    index: Hashes,
    room: usize,
}

impl<R: Keyed> Model for Rows<R> {
    ghost use Rattle.std.specs.Prelude.{◌+◌, ◌≤◌, map, vec_len, vec_capacity};
    ghost use Rattle.an_keyed.specs.Index.{IsHashed};
    ghost use Rattle.an_keyed.specs.Key.{same_key};
    ghost use Rattle.an_keyed.specs.KeyHash.{key_hash};
    ghost use Rattle.an_keyed.specs.Rows.{Kept};

    ghost Value = { Kept R };

    ghost view = { λ r. record { rows = r.rows.items; room = r.room } };

    ghost invariant = { λ r. record {
      hashed : IsHashed same_key key_hash (map R.key r.rows.items) r.index.hashes;
      rows : vec_len r.rows + r.room ≤ vec_capacity r.rows;
      index : r.room ≤ r.index.room;
    } };
}

impl<R: Keyed + Drop> Rows<R> {
    /// No rows, and room for none. It takes no memory.
    pub fn new(alloc: Global) -> Rows<R>
        ensures empty { result.rows ≡ [] }
        ensures room { result.room ≡ 0 }
    {
        Rows {
            rows: Vec::new(alloc),
            index: Hashes::new(alloc),
            room: 0,
        }
    }

    /// The rows in their order; no two rows have one key.
    #[tactic(auto, using(crate::proofs::DistinctLemmas::distinct_rows))]
    pub fn as_slice(&self) -> &[R]
        ensures rows { result.now ≡ self.now.rows }
        ensures distinct { IsTrue (keys_are_distinct R.key self.now.rows) }
    {
        self.rows.as_slice()
    }

    /// Where the row with this key stands.
    pub fn place(&self, owner: Option<&Name>, name: &Name) -> Option<usize>
        ensures place { result ≡ place_of R.key
            (record { owner = option_copied owner.entry; name = name.now }) self.now.rows }
    {
        place_in(
            self.rows.as_slice(),
            &self.index,
            hash_of(owner, name),
            owner,
            name,
        )
    }

    /// The row with this key; no two rows have one key.
    #[tactic(auto, using(crate::proofs::DistinctLemmas::distinct_rows))]
    pub fn find(&self, owner: Option<&Name>, name: &Name) -> Option<&R>
        ensures row { option_copied result ≡ row_of R.key
            (record { owner = option_copied owner.entry; name = name.now }) self.now.rows }
        ensures distinct { IsTrue (keys_are_distinct R.key self.now.rows) }
    {
        match self.place(owner, name) {
            None => None,
            Some(place) => self.rows.get(place),
        }
    }

    /// Takes the memory for so many rows more.
    pub fn make_room(&mut self, more: usize) -> Result<(), AllocError>
        ensures ok { OnOk result (more ≤ self.new.room) }
        ensures rows { self.new.rows ≡ self.old.rows }
        ensures kept { self.old.room ≤ self.new.room }
    {
        if self.room < more {
            self.rows.reserve(more)?;
            self.index.make_room(more)?;
            self.room = more;
        }
        Ok(())
    }

    /// Puts the row in the place of the one with its key, or behind all where there is none. It
    /// takes no memory.
    pub fn put(&mut self, row: R)
        requires room { 0 < self.old.room }
        ensures rows { self.new.rows ≡ put_row R.key row self.old.rows }
        ensures room { self.old.room ≤ self.new.room + 1 }
    {
        let hash = hash_of(row.owner(), row.name());
        let place = place_in(
            self.rows.as_slice(),
            &self.index,
            hash,
            row.owner(),
            row.name(),
        );
        match place {
            None => {
                self.index.push(hash);
                self.rows.push_reserved(row);
                self.room -= 1;
            }
            Some(place) => self.rows[place] = row,
        }
    }
}

/// Where the row with this key stands, which is sought among the rows with the key's hash.
fn place_in<R: Keyed>(
    rows: &[R],
    index: &Hashes,
    hash: u32,
    owner: Option<&Name>,
    name: &Name,
) -> Option<usize>
    requires hashed { IsHashed same_key key_hash (map R.key rows.now) index.now.hashes }
    requires hash { hash ≡ key_hash (record { owner = option_copied owner; name = name.now }) }
    ensures place { result ≡ place_of R.key
        (record { owner = option_copied owner.entry; name = name.now }) rows.now }
{
    let mut next = index.last(hash);
    while let Some(place) = next {
        if has_key(&rows[place], owner, name) {
            return Some(place);
        }
        next = index.before(place);
    }
    None
}
