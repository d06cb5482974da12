ghost use Rattle.std.specs.Prelude.{◌≡◌, ◌≤◌, ◌||◌, ℕ, [], false, IfOk, IsTrue, OnOk, flat_map};
ghost use Rattle.std.specs.Prelude.{nat_lt, true};
ghost use Rattle.std.specs.List.{sum_by};
ghost use Rattle.an_base.specs.Totals.{capped};
ghost use Rattle.an_slots.specs.Places.{Rises, ascending, has};
ghost use Rattle.an_slots.specs.Texts.{under};
ghost use Rattle.an_postings.specs.Change.{IsAdded, IsChangedUnder, IsLeaner, IsOut, IsRemoved};
ghost use Rattle.an_postings.specs.Change.{IsRoomier, IsTaken};
ghost use Rattle.an_postings.specs.Lists.{IsOrdered, count_at, places_at, room_at};
ghost use Rattle.an_postings.specs.Totals.{Climbs, told_from};

use crate::class_postings::{ClassPostings, TermPostings};
use crate::prefix::told_in;
use crate::term_key::{Sought, TermKey};
use an_base::TermTotal;
use std::alloc::{AllocError, Global};
use std::collections::BTreeMap;
use std::marker::Model;

/// The postings of the terms of one manifest. Contracts see them ascending by the bytes of the
/// terms.
#[derive(Drop)]
pub(crate) struct ManifestPostings {
    alloc: Global,
    terms: BTreeMap<TermKey, TermPostings>,
}

impl Model for ManifestPostings {
    ghost use Rattle.std.specs.Prelude.{List, ℕ};
    ghost use Rattle.an_postings.specs.declared.class_postings.ClassPostings.{ClassPostings as One};
    ghost use Rattle.an_slots.specs.Texts.{texts};

    ghost Value = { List (List ℕ × List One) };

    ghost view = { λ m. texts m.terms.entries };
}

impl ManifestPostings {
    /// No postings, which take no memory.
    pub fn new(alloc: Global) -> ManifestPostings
        ensures empty { result ≡ [] }
    {
        ManifestPostings {
            alloc,
            terms: BTreeMap::new(alloc),
        }
    }

    /// Takes the memory for so many places more of a term in a class.
    pub fn room_add(&mut self, term: &str, class: usize, more: usize) -> Result<(), AllocError>
        ensures ok { OnOk result (more ≤ room_at (under term.now self.new) class) }
        ensures roomier { IsChangedUnder term.now IsRoomier self.old self.new }
    {
        match self.terms.get_mut(Sought::of(term)) {
            Some(postings) => postings.room_add(class, more),
            None => self.begin(term, class, more),
        }
    }

    fn begin(&mut self, term: &str, class: usize, more: usize) -> Result<(), AllocError>
        requires nowhere { under term.now self.old ≡ [] }
        ensures ok { OnOk result (more ≤ room_at (under term.now self.new) class) }
        ensures roomier { IsChangedUnder term.now IsRoomier self.old self.new }
    {
        let mut postings = TermPostings::new(self.alloc);
        postings.room_add(class, more)?;
        let key = TermKey::of(self.alloc, term)?;
        match self.terms.insert(key, postings) {
            Ok(_) => Ok(()),
            Err(_) => Err(AllocError),
        }
    }

    /// Puts the place into the list of a term in a class, if it isn't there, and adds so many times
    /// to its count. It takes no memory.
    pub fn add(&mut self, term: &str, class: usize, place: u32, times: u64)
        requires room { IsTrue (has place (places_at (under term.now self.old) class)
            || nat_lt 0 (room_at (under term.now self.old) class)) }
        ensures added { IsChangedUnder term.now (IsAdded class place times) self.old self.new }
    {
        match self.terms.get_mut(Sought::of(term)) {
            Some(postings) => postings.add(class, place, times),
            None => unreachable!(),
        }
    }

    /// Takes the place out of the list of a term in a class, if it is there. It takes no memory.
    pub fn remove(&mut self, term: &str, class: usize, place: u32)
        ensures removed { IsChangedUnder term.now (IsRemoved class place) self.old self.new }
    {
        match self.terms.get_mut(Sought::of(term)) {
            Some(postings) => postings.remove(class, place),
            None => {}
        }
    }

    /// Takes so many times from the count of a term in a class. It takes no memory.
    pub fn take(&mut self, term: &str, class: usize, times: u64)
        requires enough { times ≤ count_at (under term.now self.old) class }
        ensures taken { IsChangedUnder term.now (IsTaken class times) self.old self.new }
    {
        match self.terms.get_mut(Sought::of(term)) {
            Some(postings) => postings.take(class, times),
            None => {}
        }
    }

    /// Takes the place out of the list of a term in a class, and so many times from its count;
    /// where no memory stays, what is of no use any more is given back as by `let_go`. Whether no
    /// term is left. It takes no memory.
    pub fn take_out(
        &mut self,
        term: &str,
        class: usize,
        place: u32,
        times: u64,
        stays: bool,
    ) -> bool
        requires enough { times ≤ count_at (under term.now self.old) class }
        ensures out { IsChangedUnder term.now (IsOut stays class place times) self.old self.new }
        ensures none { result ≡ true → self.new ≡ [] }
    {
        self.take_out_of(term, class, place, times, stays);
        self.terms.is_empty()
    }

    fn take_out_of(&mut self, term: &str, class: usize, place: u32, times: u64, stays: bool)
        requires enough { times ≤ count_at (under term.now self.old) class }
        ensures out { IsChangedUnder term.now (IsOut stays class place times) self.old self.new }
    {
        if self.take_out_in(term, class, place, times, stays) {
            drop(self.terms.remove(Sought::of(term)));
        }
    }

    fn take_out_in(&mut self, term: &str, class: usize, place: u32, times: u64, stays: bool) -> bool
        requires enough { times ≤ count_at (under term.now self.old) class }
        ensures out { IsChangedUnder term.now (IsOut stays class place times) self.old self.new }
        ensures none { result ≡ true → under term.now self.new ≡ [] }
    {
        match self.terms.get_mut(Sought::of(term)) {
            Some(postings) => postings.take_out(class, place, times, stays),
            None => false,
        }
    }

    /// Drops the list of a term in a class that has no place and no count, and the term with its
    /// last list. Whether no term is left. It takes no memory.
    pub fn let_go(&mut self, term: &str, class: usize) -> bool
        ensures leaner { IsChangedUnder term.now IsLeaner self.old self.new }
        ensures none { result ≡ true → self.new ≡ [] }
    {
        self.let_go_of(term, class);
        self.terms.is_empty()
    }

    fn let_go_of(&mut self, term: &str, class: usize)
        ensures leaner { IsChangedUnder term.now IsLeaner self.old self.new }
    {
        if self.let_go_in(term, class) {
            drop(self.terms.remove(Sought::of(term)));
        }
    }

    fn let_go_in(&mut self, term: &str, class: usize) -> bool
        ensures leaner { IsChangedUnder term.now IsLeaner self.old self.new }
        ensures none { result ≡ true → under term.now self.new ≡ [] }
    {
        match self.terms.get_mut(Sought::of(term)) {
            Some(postings) => postings.let_go(class),
            None => false,
        }
    }

    /// The places of a term in these classes, ascending, each once.
    pub fn places(
        &self,
        alloc: Global,
        term: &str,
        classes: &[usize],
    ) -> Result<Vec<usize>, AllocError>
        requires rises { Rises 0 classes.now }
        ensures places { IfOk result (λ places. places.items
            ≡ ascending (flat_map (places_at (under term.now self.now)) classes.now)) }
    {
        match self.terms.get(Sought::of(term)) {
            Some(postings) => postings.places(alloc, classes),
            None => Ok(Vec::new(alloc)),
        }
    }

    /// Classes, ascending, among them each in which the term has a place.
    pub fn classes(&self, alloc: Global, term: &str) -> Result<Vec<usize>, AllocError>
        ensures rises { IfOk result (λ classes. Rises 0 classes.items) }
        ensures others { IfOk result (λ classes. (class : ℕ) → has class classes.items ≡ false
            → places_at (under term.now self.now) class ≡ []) }
    {
        match self.terms.get(Sought::of(term)) {
            Some(postings) => postings.classes(alloc),
            None => Ok(Vec::new(alloc)),
        }
    }

    /// The counts of a term in these classes together, or the greatest number of 64 bits where that
    /// is more. It takes no memory.
    pub fn total(&self, term: &str, classes: &[usize]) -> u64
        requires rises { Rises 0 classes.now }
        ensures total { result ≡ capped (sum_by (count_at (under term.now self.now)) classes.now) }
    {
        match self.terms.get(Sought::of(term)) {
            Some(postings) => postings.total(classes),
            None => 0,
        }
    }

    /// The terms that begin with the prefix, ascending by bytes, each with its counts in these
    /// classes together, or the greatest number of 64 bits where that is more; without those that
    /// are 0.
    pub fn from_prefix(
        &self,
        alloc: Global,
        prefix: &str,
        classes: &[usize],
    ) -> Result<Vec<TermTotal>, AllocError>
        requires rises { Rises 0 classes.now }
        ensures told { IfOk result (λ told. told.items
            ≡ told_from prefix.now classes.now self.now) }
        ensures ascending { OnOk result (Climbs self.now) }
    {
        told_in(alloc, &self.terms, prefix, classes)
    }

    /// The lists of a term, ascending by their classes.
    pub fn lists_of(&self, term: &str) -> &[ClassPostings]
        ensures lists { result.now ≡ under term.now self.now }
        ensures ordered { IsOrdered result.now }
    {
        match self.terms.get(Sought::of(term)) {
            Some(postings) => postings.lists(),
            None => &[],
        }
    }
}

/// A copy has memory for its places alone.
impl Clone for ManifestPostings {
    ghost use Rattle.an_postings.specs.Change.{IsLeaner};
    ghost use Rattle.an_postings.specs.Clones.{EachUnder};

    ghost is_clone = { EachUnder IsLeaner };

    fn clone(&self) -> Result<ManifestPostings, AllocError> {
        let terms = self.terms.clone()?;
        Ok(ManifestPostings {
            alloc: self.alloc,
            terms,
        })
    }
}
