ghost use Rattle.std.specs.Prelude.{◌≡◌, ◌+◌, ◌<◌, ◌≤◌, ◌↔◌, [], IsTrue, OnOk, length, take};
ghost use Rattle.std.specs.Prelude.{slice_index};
ghost use Rattle.an_keyed.specs.Hashes.{IsLast};
ghost use Rattle.an_keyed.specs.MarkIndex.{IsEntered, IsKept};

use crate::hashes::Hashes;
use std::alloc::{AllocError, Global};
use std::marker::Model;

/// Places that are entered under hashes, many under one hash, and never taken out. Contracts see
/// the entries, and for how many more there is memory.
#[derive(Drop)]
pub(crate) struct Places {
    hashes: Hashes,
    places: Vec<usize>,
    room: usize,
}

impl Model for Places {
    ghost use Rattle.std.specs.Prelude.{◌≡◌, ◌+◌, ◌≤◌, length, vec_len, vec_capacity};
    ghost use Rattle.an_keyed.specs.MarkIndex.{Entries};

    ghost Value = { Entries };

    ghost view = { λ p. record {
      hashes = p.hashes.hashes;
      places = p.places.items;
      room = p.room;
    } };

    ghost invariant = { λ p. record {
      each_place : length p.places.items ≡ length p.hashes.hashes;
      hashes : p.room ≤ p.hashes.room;
      places : vec_len p.places + p.room ≤ vec_capacity p.places;
    } };
}

impl Places {
    /// No entries, and room for none. It takes no memory.
    pub fn new(alloc: Global) -> Places
        ensures empty { result.hashes ≡ [] }
        ensures room { result.room ≡ 0 }
    {
        Places {
            hashes: Hashes::new(alloc),
            places: Vec::new(alloc),
            room: 0,
        }
    }

    /// The last entry with this hash.
    pub fn last(&self, hash: u32) -> Option<usize>
        ensures last { IsLast hash self.now.hashes result }
    {
        self.hashes.last(hash)
    }

    /// The last entry before this one that has the same hash.
    pub fn before(&self, entry: usize) -> Option<usize>
        requires entry { entry < length self.now.hashes }
        ensures last { IsLast (slice_index self.now.hashes entry)
            (take entry self.now.hashes) result }
    {
        self.hashes.before(entry)
    }

    /// The place of an entry.
    pub fn place(&self, entry: usize) -> usize
        requires entry { entry < length self.now.hashes }
        ensures place { result ≡ slice_index self.now.places entry }
    {
        self.places[entry]
    }

    /// Takes the memory for so many entries more.
    pub fn make_room(&mut self, more: usize) -> Result<(), AllocError>
        ensures ok { OnOk result (more ≤ self.new.room) }
        ensures hashes { self.new.hashes ≡ self.old.hashes }
        ensures places { self.new.places ≡ self.old.places }
        ensures kept { self.old.room ≤ self.new.room }
    {
        if self.room < more {
            self.hashes.make_room(more)?;
            self.places.reserve(more)?;
            self.room = more;
        }
        Ok(())
    }

    /// Enters the place under the hash, where it isn't yet. It takes no memory.
    pub fn enter(&mut self, hash: u32, place: usize)
        requires room { 0 < self.old.room }
        ensures entered { IsEntered hash place self.new }
        ensures kept { IsKept self.old self.new }
        ensures once { IsEntered hash place self.old → self.new ≡ self.old }
        ensures room { self.old.room ≤ self.new.room + 1 }
    {
        if !self.is_entered(hash, place) {
            self.hashes.push(hash);
            self.places.push_reserved(place);
            self.room -= 1;
        }
    }

    fn is_entered(&self, hash: u32, place: usize) -> bool
        ensures entered { IsTrue result ↔ IsEntered hash place self.now }
    {
        let mut next = self.last(hash);
        while let Some(entry) = next {
            if self.place(entry) == place {
                return true;
            }
            next = self.before(entry);
        }
        false
    }
}
