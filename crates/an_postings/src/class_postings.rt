ghost use Rattle.std.specs.Prelude.{◌≡◌, ◌+◌, ◌-◌, ◌≤◌, ◌||◌, ℕ, [], false, IfOk, IsTrue};
ghost use Rattle.std.specs.Prelude.{MatchResult, OnOk, flat_map, nat_lt, true};
ghost use Rattle.std.specs.List.{sum_by};
ghost use Rattle.an_base.specs.Totals.{capped};
ghost use Rattle.an_slots.specs.Classed.{IsAt, IsGap};
ghost use Rattle.an_slots.specs.Places.{Rises, ascending, has, with_place};
ghost use Rattle.an_postings.specs.Change.{IsAdded, IsLeaner, IsOut, IsRemoved, IsRoomier, IsTaken};
ghost use Rattle.an_postings.specs.Lists.{IsOrdered, class_of, count_at, more_often};
ghost use Rattle.an_postings.specs.Lists.{places_at, room_at};

use crate::gather::{classes_of, places_in};
use crate::kept::Places;
use crate::leaner::{let_go_at, take_out_at};
use crate::totals::total_in;
use std::alloc::{AllocError, Global};
use std::marker::Model;

/// The places of one term in the rows of one class, ascending, and how often it occurs there.
#[derive(Drop)]
pub struct ClassPostings {
    pub class: usize,
    pub(crate) places: Places,
    pub(crate) count: u128,
}

/// A copy has memory for its places alone.
impl Clone for ClassPostings {
    ghost use Rattle.an_postings.specs.Clones.{IsSameClass};

    ghost is_clone = { IsSameClass };

    fn clone(&self) -> Result<ClassPostings, AllocError> {
        Ok(ClassPostings {
            class: self.class,
            places: self.places.clone()?,
            count: self.count,
        })
    }
}

/// The postings of one term, ascending by class. Contracts see their list.
#[derive(Drop)]
pub(crate) struct TermPostings {
    lists: Vec<ClassPostings>,
}

impl Model for TermPostings {
    ghost use Rattle.std.specs.Prelude.{List};
    ghost use Rattle.an_postings.specs.declared.class_postings.ClassPostings.{ClassPostings as One};
    ghost use Rattle.an_postings.specs.Lists.{IsOrdered};

    ghost Value = { List One };

    ghost view = { λ t. t.lists.items };

    ghost invariant = { λ t. IsOrdered t.lists.items };
}

impl TermPostings {
    /// No postings, which take no memory.
    pub fn new(alloc: Global) -> TermPostings
        ensures empty { result ≡ [] }
    {
        TermPostings {
            lists: Vec::new(alloc),
        }
    }

    /// Takes the memory for so many places more of a class.
    pub fn room_add(&mut self, class: usize, more: usize) -> Result<(), AllocError>
        ensures ok { OnOk result (more ≤ room_at self.new class) }
        ensures roomier { IsRoomier self.old self.new }
    {
        room_in(&mut self.lists, class, more)
    }

    /// Adds the place to the list of a class, if it isn't there, and so many times to its count, at
    /// whose end that stands still. It takes no memory.
    pub fn add(&mut self, class: usize, place: u32, times: u64)
        requires room { IsTrue (has place (places_at self.old class)
            || nat_lt 0 (room_at self.old class)) }
        ensures added { IsAdded class place times self.old self.new }
    {
        add_in(&mut self.lists, class, place, times);
    }

    /// Takes the place out of the list of a class, if it is there. It takes no memory.
    pub fn remove(&mut self, class: usize, place: u32)
        ensures removed { IsRemoved class place self.old self.new }
    {
        remove_in(&mut self.lists, class, place);
    }

    /// Takes so many times from the count of a class. It takes no memory.
    pub fn take(&mut self, class: usize, times: u64)
        requires enough { times ≤ count_at self.old class }
        ensures taken { IsTaken class times self.old self.new }
    {
        take_in(&mut self.lists, class, times);
    }

    /// Takes the place out of the list of a class, and so many times from its count; where no
    /// memory stays, what is of no use any more is given back as by `let_go`. Whether no list is
    /// left. It takes no memory.
    pub fn take_out(&mut self, class: usize, place: u32, times: u64, stays: bool) -> bool
        requires enough { times ≤ count_at self.old class }
        ensures out { IsOut stays class place times self.old self.new }
        ensures none { result ≡ true → self.new ≡ [] }
    {
        take_out_in(&mut self.lists, class, place, times, stays);
        self.lists.is_empty()
    }

    /// Drops the list of a class that has no place and no count, and gives back memory that has
    /// been of no use for long. Whether no list is left. It takes no memory.
    pub fn let_go(&mut self, class: usize) -> bool
        ensures leaner { IsLeaner self.old self.new }
        ensures none { result ≡ true → self.new ≡ [] }
    {
        let_go_in(&mut self.lists, class);
        self.lists.is_empty()
    }

    /// The places of these classes, ascending, each once.
    pub fn places(&self, alloc: Global, classes: &[usize]) -> Result<Vec<usize>, AllocError>
        requires rises { Rises 0 classes.now }
        ensures places { IfOk result (λ places. places.items
            ≡ ascending (flat_map (places_at self.now) classes.now)) }
    {
        places_in(alloc, self.lists.as_slice(), classes)
    }

    /// Classes, ascending, among them each that has a place.
    pub fn classes(&self, alloc: Global) -> Result<Vec<usize>, AllocError>
        ensures rises { IfOk result (λ classes. Rises 0 classes.items) }
        ensures others { IfOk result (λ classes. (class : ℕ) → has class classes.items ≡ false
            → places_at self.now class ≡ []) }
    {
        classes_of(alloc, self.lists.as_slice())
    }

    /// The counts of these classes together, or the greatest number of 64 bits where that is more.
    /// It takes no memory.
    pub fn total(&self, classes: &[usize]) -> u64
        requires rises { Rises 0 classes.now }
        ensures total { result ≡ capped (sum_by (count_at self.now) classes.now) }
    {
        total_in(self.lists.as_slice(), classes)
    }

    /// The lists, ascending by their classes.
    pub fn lists(&self) -> &[ClassPostings]
        ensures lists { result.now ≡ self.now }
        ensures ordered { IsOrdered result.now }
    {
        self.lists.as_slice()
    }
}

/// A copy has memory for its places alone.
impl Clone for TermPostings {
    ghost use Rattle.an_postings.specs.Change.{IsLeaner};

    ghost is_clone = { IsLeaner };

    fn clone(&self) -> Result<TermPostings, AllocError> {
        let lists = self.lists.clone()?;
        Ok(TermPostings { lists })
    }
}

fn room_in(lists: &mut Vec<ClassPostings>, class: usize, more: usize) -> Result<(), AllocError>
    requires ordered { IsOrdered lists.old.items }
    ensures ordered { IsOrdered lists.new.items }
    ensures ok { OnOk result (more ≤ room_at lists.new.items class) }
    ensures roomier { IsRoomier lists.old.items lists.new.items }
{
    match place_of(lists.as_slice(), class) {
        Ok(at) => lists[at].places.reserve(more),
        Err(at) => {
            room_for_first(lists);
            begin_at(lists, at, class, more)
        }
    }
}

/// Takes the memory for one list, where there is none: most terms have one class, for which a
/// vector that grows would take four times as much. Where it runs out, the put of the list says so.
fn room_for_first(lists: &mut Vec<ClassPostings>)
    ensures lists { lists.new.items ≡ lists.old.items }
{
    if lists.is_empty() {
        let _ = lists.reserve_exact(1);
    }
}

/// Puts an empty list with room for so many places where its class belongs.
fn begin_at(
    lists: &mut Vec<ClassPostings>,
    at: usize,
    class: usize,
    room: usize,
) -> Result<(), AllocError>
    requires ordered { IsOrdered lists.old.items }
    requires gap { IsGap class_of class lists.old.items at }
    ensures ordered { IsOrdered lists.new.items }
    ensures ok { OnOk result (room ≤ room_at lists.new.items class) }
    ensures roomier { IsRoomier lists.old.items lists.new.items }
{
    let mut places = Places::new(*lists.allocator());
    places.reserve(room)?;
    let own = ClassPostings {
        class,
        places,
        count: 0,
    };
    match lists.insert(at, own) {
        Ok(()) => Ok(()),
        Err(_) => Err(AllocError),
    }
}

fn add_in(lists: &mut Vec<ClassPostings>, class: usize, place: u32, times: u64)
    requires ordered { IsOrdered lists.old.items }
    requires room { IsTrue (has place (places_at lists.old.items class)
        || nat_lt 0 (room_at lists.old.items class)) }
    ensures ordered { IsOrdered lists.new.items }
    ensures added { IsAdded class place times lists.old.items lists.new.items }
{
    match place_of(lists.as_slice(), class) {
        Ok(at) => add_one(&mut lists[at], place, times),
        Err(_) => unreachable!(),
    }
}

fn add_one(own: &mut ClassPostings, place: u32, times: u64)
    requires rises { Rises 0 own.old.places.items }
    requires room { IsTrue (has place own.old.places.items || nat_lt 0 own.old.places.room) }
    ensures class { own.new.class ≡ own.old.class }
    ensures rises { Rises 0 own.new.places.items }
    ensures places { own.new.places.items ≡ with_place place own.old.places.items }
    ensures room { own.old.places.room ≤ own.new.places.room + 1 }
    ensures count { own.new.count ≡ more_often times own.old.count }
{
    own.places.add(place);
    own.count = own.count.saturating_add(u128::from(times));
}

fn remove_in(lists: &mut Vec<ClassPostings>, class: usize, place: u32)
    requires ordered { IsOrdered lists.old.items }
    ensures ordered { IsOrdered lists.new.items }
    ensures removed { IsRemoved class place lists.old.items lists.new.items }
{
    match place_of(lists.as_slice(), class) {
        Ok(at) => lists[at].places.remove(place),
        Err(_) => {}
    }
}

fn take_in(lists: &mut Vec<ClassPostings>, class: usize, times: u64)
    requires ordered { IsOrdered lists.old.items }
    requires enough { times ≤ count_at lists.old.items class }
    ensures ordered { IsOrdered lists.new.items }
    ensures taken { IsTaken class times lists.old.items lists.new.items }
{
    match place_of(lists.as_slice(), class) {
        Ok(at) => take_one(&mut lists[at], times),
        Err(_) => {}
    }
}

fn take_one(own: &mut ClassPostings, times: u64)
    requires enough { times ≤ own.old.count }
    ensures class { own.new.class ≡ own.old.class }
    ensures places { own.new.places ≡ own.old.places }
    ensures count { own.new.count ≡ own.old.count - times }
{
    own.count -= u128::from(times);
}

fn take_out_in(lists: &mut Vec<ClassPostings>, class: usize, place: u32, times: u64, stays: bool)
    requires ordered { IsOrdered lists.old.items }
    requires enough { times ≤ count_at lists.old.items class }
    ensures ordered { IsOrdered lists.new.items }
    ensures out { IsOut stays class place times lists.old.items lists.new.items }
{
    match place_of(lists.as_slice(), class) {
        Ok(at) => take_out_at(lists, at, class, place, times, stays),
        Err(_) => {}
    }
}

fn let_go_in(lists: &mut Vec<ClassPostings>, class: usize)
    requires ordered { IsOrdered lists.old.items }
    ensures ordered { IsOrdered lists.new.items }
    ensures leaner { IsLeaner lists.old.items lists.new.items }
{
    match place_of(lists.as_slice(), class) {
        Ok(at) => let_go_at(lists, at, class),
        Err(_) => {}
    }
}

/// Where the list of the class stands, or belongs.
pub(crate) fn place_of(lists: &[ClassPostings], class: usize) -> Result<usize, usize>
    requires ordered { IsOrdered lists.now }
    ensures place { MatchResult result
        (IsAt class_of class lists.now) (IsGap class_of class lists.now) }
{
    lists.binary_search_by_key(&class, |list| list.class)
}
