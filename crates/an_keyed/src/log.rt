ghost use Rattle.std.specs.Prelude.{◌≡◌, ◌+◌, ◌<◌, ◌≤◌, [], ◌∷◌, ◌++◌, OnOk, length, map};
ghost use Rattle.std.specs.Prelude.{slice_get, take, true};
ghost use Rattle.std.specs.Option.{option_copied};
ghost use Rattle.an_base.specs.Outcome.{passes};
ghost use Rattle.an_keyed.specs.Hashes.{IsLast};
ghost use Rattle.an_keyed.specs.Key.{same_key};
ghost use Rattle.an_keyed.specs.KeyHash.{key_hash};
ghost use Rattle.an_keyed.specs.Log.{IsLastBefore};

use crate::hashes::Hashes;
use crate::key::{Keyed, has_key, hash_of};
use an_base::Name;
use std::alloc::{AllocError, Global};
use std::marker::Model;

/// What happened under keys, in order. Many items may have one key; the last of them is found at
/// once, and from each the one before it. Contracts see the list of the items, and for how many
/// more there is memory.
#[derive(Drop)]
pub struct Log<R: Keyed> {
    items: Vec<R>,
    index: Hashes,
    room: usize,
}

impl<R: Keyed> Model for Log<R> {
    ghost use Rattle.std.specs.Prelude.{◌≡◌, ◌+◌, ◌≤◌, map, vec_len, vec_capacity};
    ghost use Rattle.an_keyed.specs.KeyHash.{key_hash};
    ghost use Rattle.an_keyed.specs.Rows.{Kept};

    ghost Value = { Kept R };

    ghost view = { λ l. record { rows = l.items.items; room = l.room } };

    ghost invariant = { λ l. record {
      hashed : l.index.hashes ≡ map key_hash (map R.key l.items.items);
      items : vec_len l.items + l.room ≤ vec_capacity l.items;
      index : l.room ≤ l.index.room;
    } };
}

impl<R: Keyed + Drop> Log<R> {
    /// No items, and room for none. It takes no memory.
    pub fn new(alloc: Global) -> Log<R>
        ensures empty { result.rows ≡ [] }
        ensures room { result.room ≡ 0 }
    {
        Log {
            items: Vec::new(alloc),
            index: Hashes::new(alloc),
            room: 0,
        }
    }

    /// The items in their order.
    pub fn as_slice(&self) -> &[R]
        ensures items { result.now ≡ self.now.rows }
    {
        self.items.as_slice()
    }

    /// Where the last item with this key stands.
    pub fn last(&self, owner: Option<&Name>, name: &Name) -> Option<usize>
        ensures last { IsLastBefore R.key
            (record { owner = option_copied owner.entry; name = name.now })
            self.now.rows (length self.now.rows) result }
    {
        let next = self.index.last(hash_of(owner, name));
        last_in(
            self.as_slice(),
            &self.index,
            self.items.len(),
            next,
            owner,
            name,
        )
    }

    /// Where the last item with this key stands before a place that has one.
    pub fn before(&self, place: usize, owner: Option<&Name>, name: &Name) -> Option<usize>
        requires here { passes (λ item. same_key (R.key item)
            (record { owner = option_copied owner; name = name.now }))
            (slice_get self.now.rows place) ≡ true }
        ensures last { IsLastBefore R.key
            (record { owner = option_copied owner.entry; name = name.now })
            self.now.rows place result }
    {
        let next = self.index.before(place);
        last_in(self.as_slice(), &self.index, place, next, owner, name)
    }

    /// Takes the memory for so many items more.
    pub fn make_room(&mut self, more: usize) -> Result<(), AllocError>
        ensures ok { OnOk result (more ≤ self.new.room) }
        ensures items { self.new.rows ≡ self.old.rows }
        ensures kept { self.old.room ≤ self.new.room }
    {
        if self.room < more {
            self.items.reserve(more)?;
            self.index.make_room(more)?;
            self.room = more;
        }
        Ok(())
    }

    /// Puts an item behind all. It takes no memory.
    pub fn push(&mut self, item: R)
        requires room { 0 < self.old.room }
        ensures items { self.new.rows ≡ self.old.rows ++ item ∷ [] }
        ensures room { self.old.room ≡ self.new.room + 1 }
    {
        self.index.push(hash_of(item.owner(), item.name()));
        self.items.push_reserved(item);
        self.room -= 1;
    }
}

/// Where the last of the first `end` items stands that has this key. It is sought among those with
/// the key's hash, from `next` back.
fn last_in<R: Keyed>(
    items: &[R],
    index: &Hashes,
    end: usize,
    next: Option<usize>,
    owner: Option<&Name>,
    name: &Name,
) -> Option<usize>
    requires hashed { index.now.hashes ≡ map key_hash (map R.key items.now) }
    requires end { end ≤ length items.now }
    requires next { IsLast (key_hash (record { owner = option_copied owner; name = name.now }))
        (take end index.now.hashes) next }
    ensures last { IsLastBefore R.key
        (record { owner = option_copied owner.entry; name = name.now })
        items.now end result }
{
    let mut next = next;
    while let Some(place) = next {
        if has_key(&items[place], owner, name) {
            return Some(place);
        }
        next = index.before(place);
    }
    None
}
