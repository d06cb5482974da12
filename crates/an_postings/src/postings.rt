ghost use Rattle.std.specs.Prelude.{◌≡◌, ◌-◌, ◌<◌, ◌≤◌, ◌^◌, ◌||◌, ℕ, [], false, IfOk, IsTrue};
ghost use Rattle.std.specs.Prelude.{OnOk, filter, flat_map, not, true};
ghost use Rattle.std.specs.List.{sum_by};
ghost use Rattle.an_base.specs.Totals.{capped};
ghost use Rattle.an_slots.specs.Places.{Rises, ascending, has, with_place, without_place};
ghost use Rattle.an_slots.specs.Slot.{Slot, at, same_slot, slot_of};
ghost use Rattle.an_slots.specs.Texts.{under};
ghost use Rattle.an_postings.specs.Change.{IsAdded, IsChangedUnder, IsLeaner, IsOut, IsRemoved};
ghost use Rattle.an_postings.specs.Change.{IsRoomier, IsTaken};
ghost use Rattle.an_postings.specs.Lists.{IsOrdered, more_often};
ghost use Rattle.an_postings.specs.Postings.{IsSpentAt, count_in, has_room, places_in, room_in};
ghost use Rattle.an_postings.specs.Totals.{Climbs, told_from};

use crate::class_postings::ClassPostings;
use crate::gather::common_in;
use crate::manifest_postings::ManifestPostings;
use an_base::TermTotal;
use std::alloc::{AllocError, Global};
use std::collections::BTreeMap;
use std::marker::Model;

/// For each manifest, term and class the places of rows, ascending, and how often the term occurs
/// in them. Contracts see the list and the count of each of these slots, and for how many more
/// places it has memory.
#[derive(Drop)]
pub struct Postings {
    alloc: Global,
    manifests: BTreeMap<String, ManifestPostings>,
}

impl Model for Postings {
    ghost use Rattle.an_postings.specs.Postings.{Lists};
    ghost use Rattle.an_slots.specs.Texts.{texts};

    ghost Value = { Lists };

    ghost view = { λ p. texts p.manifests.entries };
}

impl Postings {
    /// No place, and no count above 0, which takes no memory.
    pub fn new(alloc: Global) -> Postings
        ensures places { places_in result ≡ λ slot. [] }
        ensures count { count_in result ≡ λ slot. 0 }
    {
        Postings {
            alloc,
            manifests: BTreeMap::new(alloc),
        }
    }

    /// A copy, which has memory for its places alone. Its only error is out of memory.
    pub fn copy(&self) -> Result<Postings, AllocError>
        ensures places { IfOk result (λ copy. places_in copy ≡ places_in self.now) }
        ensures count { IfOk result (λ copy. count_in copy ≡ count_in self.now) }
    {
        let manifests = self.manifests.clone()?;
        Ok(Postings {
            alloc: self.alloc,
            manifests,
        })
    }

    /// Takes the memory for so many places more of a manifest, term and class. Where it runs out,
    /// the places and the counts are the same, and there is no less room.
    pub fn room_add(
        &mut self,
        manifest: &str,
        term: &str,
        class: usize,
        more: usize,
    ) -> Result<(), AllocError>
        ensures ok { OnOk result (more ≤ room_in self.new (slot_of manifest.now term.now class)) }
        ensures places { places_in self.new ≡ places_in self.old }
        ensures count { count_in self.new ≡ count_in self.old }
        ensures kept { (slot : Slot) → room_in self.old slot ≤ room_in self.new slot }
    {
        self.room_under(manifest, term, class, more)
    }

    fn room_under(
        &mut self,
        manifest: &str,
        term: &str,
        class: usize,
        more: usize,
    ) -> Result<(), AllocError>
        ensures ok { OnOk result (more ≤ room_in self.new (slot_of manifest.now term.now class)) }
        ensures roomier { IsChangedUnder manifest.now (IsChangedUnder term.now IsRoomier)
            self.old self.new }
    {
        match self.manifests.get_mut(manifest) {
            Some(terms) => terms.room_add(term, class, more),
            None => self.begin(manifest, term, class, more),
        }
    }

    fn begin(
        &mut self,
        manifest: &str,
        term: &str,
        class: usize,
        more: usize,
    ) -> Result<(), AllocError>
        requires nowhere { under manifest.now self.old ≡ [] }
        ensures ok { OnOk result (more ≤ room_in self.new (slot_of manifest.now term.now class)) }
        ensures roomier { IsChangedUnder manifest.now (IsChangedUnder term.now IsRoomier)
            self.old self.new }
    {
        let mut terms = ManifestPostings::new(self.alloc);
        terms.room_add(term, class, more)?;
        let key = String::from_str(self.alloc, manifest)?;
        match self.manifests.insert(key, terms) {
            Ok(_) => Ok(()),
            Err(_) => Err(AllocError),
        }
    }

    /// Puts the place into the list of a manifest, term and class, if it isn't there, and counts
    /// the term so many times more, at most 2^128 - 1 times in all. It takes no memory.
    pub fn add(&mut self, manifest: &str, term: &str, class: usize, place: usize, times: u64)
        requires room { IsTrue (has_room place (slot_of manifest.now term.now class) self.old) }
        requires place { place < 2 ^ 32 }
        ensures places { places_in self.new
            ≡ at (slot_of manifest.now term.now class) (with_place place) (places_in self.old) }
        ensures count { count_in self.new
            ≡ at (slot_of manifest.now term.now class) (more_often times) (count_in self.old) }
        ensures room { IsSpentAt (slot_of manifest.now term.now class)
            (room_in self.old) (room_in self.new) }
    {
        self.add_under(manifest, term, class, place as u32, times);
    }

    fn add_under(&mut self, manifest: &str, term: &str, class: usize, place: u32, times: u64)
        requires room { IsTrue (has_room place (slot_of manifest.now term.now class) self.old) }
        ensures added { IsChangedUnder manifest.now
            (IsChangedUnder term.now (IsAdded class place times)) self.old self.new }
    {
        match self.manifests.get_mut(manifest) {
            Some(terms) => terms.add(term, class, place, times),
            None => unreachable!(),
        }
    }

    /// Takes the place out of the list of a manifest, term and class, if it is there. It takes no
    /// memory.
    pub fn remove(&mut self, manifest: &str, term: &str, class: usize, place: usize)
        requires place { place < 2 ^ 32 }
        ensures places { places_in self.new
            ≡ at (slot_of manifest.now term.now class) (without_place place) (places_in self.old) }
        ensures count { count_in self.new ≡ count_in self.old }
        ensures room { (slot : Slot) → room_in self.old slot ≤ room_in self.new slot }
    {
        self.remove_under(manifest, term, class, place as u32);
    }

    fn remove_under(&mut self, manifest: &str, term: &str, class: usize, place: u32)
        ensures removed { IsChangedUnder manifest.now
            (IsChangedUnder term.now (IsRemoved class place)) self.old self.new }
    {
        match self.manifests.get_mut(manifest) {
            Some(terms) => terms.remove(term, class, place),
            None => {}
        }
    }

    /// Counts the term of a manifest and class so many times less. It takes no memory.
    pub fn take(&mut self, manifest: &str, term: &str, class: usize, times: u64)
        requires enough { times ≤ count_in self.old (slot_of manifest.now term.now class) }
        ensures places { places_in self.new ≡ places_in self.old }
        ensures count { count_in self.new
            ≡ at (slot_of manifest.now term.now class) (λ m. m - times) (count_in self.old) }
        ensures room { (slot : Slot) → room_in self.old slot ≤ room_in self.new slot }
    {
        self.take_under(manifest, term, class, times);
    }

    fn take_under(&mut self, manifest: &str, term: &str, class: usize, times: u64)
        requires enough { times ≤ count_in self.old (slot_of manifest.now term.now class) }
        ensures taken { IsChangedUnder manifest.now
            (IsChangedUnder term.now (IsTaken class times)) self.old self.new }
    {
        match self.manifests.get_mut(manifest) {
            Some(terms) => terms.take(term, class, times),
            None => {}
        }
    }

    /// Takes the place out of the list of a manifest, term and class, and counts the term there so
    /// many times less, as `remove` and `take` do. Where no memory stays there, what is of no use
    /// any more is given back as by `let_go`. It takes no memory.
    pub fn take_out(
        &mut self,
        manifest: &str,
        term: &str,
        class: usize,
        place: usize,
        times: u64,
        stays: bool,
    )
        requires place { place < 2 ^ 32 }
        requires enough { times ≤ count_in self.old (slot_of manifest.now term.now class) }
        ensures places { places_in self.new
            ≡ at (slot_of manifest.now term.now class) (without_place place) (places_in self.old) }
        ensures count { count_in self.new
            ≡ at (slot_of manifest.now term.now class) (λ m. m - times) (count_in self.old) }
        ensures room { (slot : Slot)
            → (stays || not (same_slot slot (slot_of manifest.now term.now class))) ≡ true
            → room_in self.old slot ≤ room_in self.new slot }
    {
        self.take_out_under(manifest, term, class, place as u32, times, stays);
    }

    fn take_out_under(
        &mut self,
        manifest: &str,
        term: &str,
        class: usize,
        place: u32,
        times: u64,
        stays: bool,
    )
        requires enough { times ≤ count_in self.old (slot_of manifest.now term.now class) }
        ensures out { IsChangedUnder manifest.now
            (IsChangedUnder term.now (IsOut stays class place times)) self.old self.new }
    {
        if self.take_out_in(manifest, term, class, place, times, stays) {
            drop(self.manifests.remove(manifest));
        }
    }

    fn take_out_in(
        &mut self,
        manifest: &str,
        term: &str,
        class: usize,
        place: u32,
        times: u64,
        stays: bool,
    ) -> bool
        requires enough { times ≤ count_in self.old (slot_of manifest.now term.now class) }
        ensures out { IsChangedUnder manifest.now
            (IsChangedUnder term.now (IsOut stays class place times)) self.old self.new }
        ensures none { result ≡ true → under manifest.now self.new ≡ [] }
    {
        match self.manifests.get_mut(manifest) {
            Some(terms) => terms.take_out(term, class, place, times, stays),
            None => false,
        }
    }

    /// Drops the list of a manifest, term and class, where it has no place and the term isn't
    /// counted there; the term with its last list, and the manifest with its last term. So no
    /// memory is kept for what is gone. There may be less room. It takes no memory.
    pub fn let_go(&mut self, manifest: &str, term: &str, class: usize)
        ensures places { places_in self.new ≡ places_in self.old }
        ensures count { count_in self.new ≡ count_in self.old }
    {
        self.let_go_under(manifest, term, class);
    }

    fn let_go_under(&mut self, manifest: &str, term: &str, class: usize)
        ensures leaner { IsChangedUnder manifest.now (IsChangedUnder term.now IsLeaner)
            self.old self.new }
    {
        if self.let_go_in(manifest, term, class) {
            drop(self.manifests.remove(manifest));
        }
    }

    fn let_go_in(&mut self, manifest: &str, term: &str, class: usize) -> bool
        ensures leaner { IsChangedUnder manifest.now (IsChangedUnder term.now IsLeaner)
            self.old self.new }
        ensures none { result ≡ true → under manifest.now self.new ≡ [] }
    {
        match self.manifests.get_mut(manifest) {
            Some(terms) => terms.let_go(term, class),
            None => false,
        }
    }

    /// The places of a manifest and term in these classes, which ascend: ascending, each once.
    pub fn places(
        &self,
        alloc: Global,
        manifest: &str,
        term: &str,
        classes: &[usize],
    ) -> Result<Vec<usize>, AllocError>
        requires rises { Rises 0 classes.now }
        ensures places { IfOk result (λ places. places.items ≡ ascending (flat_map
            (λ class. places_in self.now (slot_of manifest.now term.now class)) classes.now)) }
    {
        match self.manifests.get(manifest) {
            Some(terms) => terms.places(alloc, term, classes),
            None => Ok(Vec::new(alloc)),
        }
    }

    /// Those of the places, which ascend, that stand in the lists of a manifest and term in these
    /// classes, which ascend. Both are walked along once.
    pub fn common(
        &self,
        alloc: Global,
        manifest: &str,
        term: &str,
        classes: &[usize],
        places: &[usize],
    ) -> Result<Vec<usize>, AllocError>
        requires rises { Rises 0 classes.now }
        requires places { Rises 0 places.now }
        ensures common { IfOk result (λ common. common.items ≡ filter (λ place. has place
            (ascending (flat_map
            (λ class. places_in self.now (slot_of manifest.now term.now class)) classes.now)))
            places.now) }
    {
        common_in(alloc, self.lists_of(manifest, term), classes, places)
    }

    /// Classes, ascending, and among them each in which the term has a place on the manifest.
    pub fn classes(
        &self,
        alloc: Global,
        manifest: &str,
        term: &str,
    ) -> Result<Vec<usize>, AllocError>
        ensures rises { IfOk result (λ classes. Rises 0 classes.items) }
        ensures others { IfOk result (λ classes. (class : ℕ) → has class classes.items ≡ false
            → places_in self.now (slot_of manifest.now term.now class) ≡ []) }
    {
        match self.manifests.get(manifest) {
            Some(terms) => terms.classes(alloc, term),
            None => Ok(Vec::new(alloc)),
        }
    }

    /// The counts of a manifest and term in these classes together, or the greatest number of 64
    /// bits where that is more. The classes ascend. It takes no memory.
    pub fn total(&self, manifest: &str, term: &str, classes: &[usize]) -> u64
        requires rises { Rises 0 classes.now }
        ensures total { result ≡ capped (sum_by
            (λ class. count_in self.now (slot_of manifest.now term.now class)) classes.now) }
    {
        match self.manifests.get(manifest) {
            Some(terms) => terms.total(term, classes),
            None => 0,
        }
    }

    /// The terms of a manifest that begin with the prefix, ascending by their bytes, each with its
    /// counts in these classes together, or the greatest number of 64 bits where that is more;
    /// without those whose counts are 0. The classes ascend.
    pub fn from_prefix(
        &self,
        alloc: Global,
        manifest: &str,
        prefix: &str,
        classes: &[usize],
    ) -> Result<Vec<TermTotal>, AllocError>
        requires rises { Rises 0 classes.now }
        ensures told { IfOk result (λ told. told.items
            ≡ told_from prefix.now classes.now (under manifest.now self.now)) }
        ensures ascending { OnOk result (Climbs (under manifest.now self.now)) }
    {
        match self.manifests.get(manifest) {
            Some(terms) => terms.from_prefix(alloc, prefix, classes),
            None => Ok(Vec::new(alloc)),
        }
    }

    /// The lists of a term on a manifest, ascending by their classes, in which single places are
    /// looked up by `is_listed`.
    pub fn lists_of(&self, manifest: &str, term: &str) -> &[ClassPostings]
        ensures lists { result.now ≡ under term.now (under manifest.now self.now) }
        ensures ordered { IsOrdered result.now }
    {
        match self.manifests.get(manifest) {
            Some(terms) => terms.lists_of(term),
            None => &[],
        }
    }
}
