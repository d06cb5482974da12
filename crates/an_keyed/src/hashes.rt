ghost use Rattle.std.specs.Prelude.{◌≡◌, ◌+◌, ◌<◌, ◌≤◌, [], ◌∷◌, ◌++◌, ℕ, None, OnOk, length, take};
ghost use Rattle.std.specs.Prelude.{if◌then◌else◌, nat_eq, slice_index};
ghost use Rattle.std.specs.HashMap.{get, spare};
ghost use Rattle.an_keyed.specs.Hashes.{IsLast, short_hash};

use std::alloc::{AllocError, Global};
use std::collections::HashMap;
use std::marker::Model;

/// So many hashes can be listed, since a place is kept in 32 bits.
const MOST_HASHES: usize = 4_294_967_296;

/// What is kept of a hash: its low 32 bits.
#[tactic(auto, unfolding(crate::specs::Hashes::short_hash))]
pub fn short_hash(hash: u64) -> u32
    ensures short { result ≡ short_hash hash }
{
    (hash % 4_294_967_296) as u32
}

/// A list of hashes, in which the last place of each hash is found at once. Contracts see the list,
/// and for how many more there is memory.
#[derive(Drop)]
pub struct Hashes {
    newest: HashMap<u32, u32>,
    hashes: Vec<u32>,
    /// For a place whose hash stands before it too, the last such place.
    earlier: HashMap<u32, u32>,
    room: usize,
}

impl Model for Hashes {
    ghost use Rattle.std.specs.Prelude.{◌+◌, ◌≤◌, vec_len, vec_capacity};
    ghost use Rattle.std.specs.HashMap.{spare};
    ghost use Rattle.an_keyed.specs.Hashes.{Hashed, IsIndex};

    ghost Value = { Hashed };

    ghost view = { λ h. record { hashes = h.hashes.items; room = h.room } };

    ghost invariant = { λ h. record {
      index : IsIndex h.newest h.earlier h.hashes.items;
      newest : h.room ≤ spare h.newest;
      hashes : vec_len h.hashes + h.room ≤ vec_capacity h.hashes;
      earlier : h.room ≤ spare h.earlier;
      small : vec_len h.hashes + h.room ≤ 4_294_967_296;
    } };
}

impl Hashes {
    /// No hashes, and room for none. It takes no memory.
    pub fn new(alloc: Global) -> Hashes
        ensures empty { result.hashes ≡ [] }
        ensures room { result.room ≡ 0 }
    {
        Hashes {
            newest: HashMap::new(alloc),
            hashes: Vec::new(alloc),
            earlier: HashMap::new(alloc),
            room: 0,
        }
    }

    /// The last place with this hash.
    pub fn last(&self, hash: u32) -> Option<usize>
        ensures last { IsLast hash self.now.hashes result }
    {
        as_place(self.newest.get(&hash).copied())
    }

    /// The last place before this one that has the same hash.
    pub fn before(&self, place: usize) -> Option<usize>
        requires place { place < length self.now.hashes }
        ensures last { IsLast (slice_index self.now.hashes place)
            (take place self.now.hashes) result }
    {
        as_place(self.earlier.get(&(place as u32)).copied())
    }

    /// Takes the memory for so many hashes more. Its only error is want of memory, which more than
    /// 2^32 hashes are answered with too.
    pub fn make_room(&mut self, more: usize) -> Result<(), AllocError>
        ensures ok { OnOk result (more ≤ self.new.room) }
        ensures hashes { self.new.hashes ≡ self.old.hashes }
        ensures kept { self.old.room ≤ self.new.room }
    {
        if self.room < more {
            if MOST_HASHES - self.hashes.len() < more {
                return Err(AllocError);
            }
            self.newest.reserve(more)?;
            self.hashes.reserve(more)?;
            self.earlier.reserve(more)?;
            self.room = more;
        }
        Ok(())
    }

    /// Adds a hash behind all. It takes no memory.
    pub fn push(&mut self, hash: u32)
        requires room { 0 < self.old.room }
        ensures hashes { self.new.hashes ≡ self.old.hashes ++ hash ∷ [] }
        ensures room { self.old.room ≡ self.new.room + 1 }
    {
        let place = self.hashes.len() as u32;
        match self.newest.insert(hash, place) {
            Ok(before) => link(&mut self.earlier, place, before),
            Err(_) => unreachable!(),
        }
        self.hashes.push_reserved(hash);
        self.room -= 1;
    }
}

fn as_place(place: Option<u32>) -> Option<usize>
    ensures { result ≡ place }
{
    match place {
        Some(place) => Some(place as usize),
        None => None,
    }
}

/// Links a new place to the last before it that has its hash, if any has. It takes no memory.
fn link(earlier: &mut HashMap<u32, u32>, place: u32, before: Option<u32>)
    requires room { 0 < spare earlier.old }
    requires unlinked { get nat_eq earlier.old place ≡ None }
    ensures linked { (p : ℕ) → get nat_eq earlier.new p
        ≡ (if nat_eq place p then before else get nat_eq earlier.old p) }
    ensures room { spare earlier.old ≤ spare earlier.new + 1 }
{
    let Some(before) = before else {
        return;
    };
    match earlier.insert(place, before) {
        Ok(_) => {}
        Err(_) => unreachable!(),
    }
}
