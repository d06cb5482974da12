ghost use Rattle.std.specs.Prelude.{◌≡◌, ◌+◌, ◌-◌, ◌<◌, ◌≤◌, ◌++◌, ◌||◌, [], IfOk, IsTrue};
ghost use Rattle.std.specs.Prelude.{List, OnOk, nat_lt, true, ◌∷◌, ℕ};
ghost use Rattle.std.specs.Option.{IfSome};
ghost use Rattle.std.specs.Vec.{vec_capacity, vec_len};
ghost use Rattle.std.specs.VecDeque.{deque_len, deque_capacity};
ghost use Rattle.an_slots.specs.Places.{Rises, has, with_place, without_place};
ghost use Rattle.an_postings.specs.Live.{live};

use crate::places::{add_to, is_in, remove_from};
use std::alloc::{AllocError, Global};
use std::collections::VecDeque;
use std::marker::Model;

/// Many places in order. One that is taken out far from both ends stays where it stands, and is
/// noted among those that are gone: so no other place is moved, and the same place is put in again
/// by taking the note away. Where there is no memory for more notes, all places that are gone are
/// taken out together, in the time that one of them would take. One goes out of either end at once:
/// so the deletion of a whole manifest, whose places go one after the other, is linear.
#[derive(Drop)]
pub(crate) struct Noted {
    all: VecDeque<u32>,
    gone: VecDeque<u32>,
}

impl Model for Noted {
    ghost use Rattle.std.specs.Prelude.{◌-◌};
    ghost use Rattle.std.specs.VecDeque.{deque_len, deque_capacity};
    ghost use Rattle.an_slots.specs.Places.{Rises};
    ghost use Rattle.an_postings.specs.Live.{PlaceList, live};

    ghost Value = { PlaceList };

    ghost view = { λ p. record {
      items = live p.all.items p.gone.items;
      room = deque_capacity p.all - deque_len p.all;
    } };

    ghost invariant = { λ p. Rises 0 p.all.items × Rises 0 p.gone.items };
}

impl Noted {
    /// These places, which ascend, in the memory that they have.
    pub fn of(alloc: Global, places: Vec<u32>) -> Noted
        requires rises { Rises 0 places.items }
        ensures items { result.items ≡ places.items }
        ensures room { result.room ≡ vec_capacity places - vec_len places }
    {
        Noted {
            all: VecDeque::from_vec(places),
            gone: VecDeque::new(alloc),
        }
    }

    /// The places, ascending, in the memory that they have.
    pub fn into_vec(self) -> Vec<u32>
        ensures rises { Rises 0 result.items }
        ensures items { result.items ≡ self.items }
        ensures room { self.room ≤ vec_capacity result - vec_len result }
    {
        let Noted { mut all, gone } = self;
        keep_live(&mut all, &gone);
        all.into_vec()
    }

    /// Takes the memory for so many places more.
    pub fn reserve(&mut self, more: usize) -> Result<(), AllocError>
        ensures items { self.new.items ≡ self.old.items }
        ensures ok { OnOk result (more ≤ self.new.room) }
        ensures room { self.old.room ≤ self.new.room }
    {
        room_for_notes(&mut self.gone, self.all.len());
        self.all.reserve(more)
    }

    /// Adds the place, if it isn't there. It takes no memory.
    pub fn add(&mut self, place: u32)
        requires room { IsTrue (has place self.old.items || nat_lt 0 self.old.room) }
        ensures rises { Rises 0 self.new.items }
        ensures places { self.new.items ≡ with_place place self.old.items }
        ensures room { self.old.room ≤ self.new.room + 1 }
    {
        put_in(&mut self.all, &mut self.gone, place);
    }

    /// Takes the place out, if it is there. It takes no memory.
    pub fn remove(&mut self, place: u32)
        ensures rises { Rises 0 self.new.items }
        ensures places { self.new.items ≡ without_place place self.old.items }
        ensures room { self.old.room ≤ self.new.room }
    {
        take_out(&mut self.all, &mut self.gone, place);
        settle(&mut self.all, &mut self.gone);
    }

    /// Gives back half of the memory and more, where less than a quarter of it is in use. Where the
    /// smaller memory can't be had, the larger stays.
    pub fn slim(&mut self)
        ensures places { self.new.items ≡ self.old.items }
    {
        slim(&mut self.all);
        slim_notes(&mut self.gone, self.all.len());
    }

    /// Whether no place is there, nor noted.
    pub fn is_empty(&self) -> bool
        ensures { result ≡ true → self.now.items ≡ [] }
    {
        self.all.is_empty()
    }

    /// Whether the place is there.
    pub fn has(&self, place: usize) -> bool
        ensures { result ≡ has place self.now.items }
    {
        is_live(&self.all, &self.gone, place)
    }

    /// How many places there are, those that are gone among them. Nothing is promised of it.
    pub fn len(&self) -> usize {
        self.all.len()
    }

    /// The two runs in which they stand in memory, where none is gone.
    pub fn runs(&self) -> Option<(&[u32], &[u32])>
        ensures runs { IfSome result (λ runs. runs.0.now ++ runs.1.now ≡ self.now.items) }
    {
        runs_of(&self.all, &self.gone)
    }

    /// A copy of them.
    pub fn copied(&self, alloc: Global) -> Result<Vec<u32>, AllocError>
        ensures places { IfOk result (λ places. places.items ≡ self.now.items) }
        ensures rises { IfOk result (λ places. Rises 0 places.items) }
    {
        copied(alloc, &self.all, &self.gone)
    }
}

/// Takes memory for notes, where it can be had: for a sixteenth of the places, and at most 8192, so
/// that a note is quickly made. Without it places are taken out at once.
fn room_for_notes(gone: &mut VecDeque<u32>, length: usize)
    ensures places { gone.new.items ≡ gone.old.items }
{
    let notes = (length / 16).min(8192);
    if gone.capacity() < notes / 2 {
        let _ = gone.reserve(notes.saturating_sub(gone.len()));
    }
}

/// Gives back memory for notes, where a list of this length needs less than a quarter of it.
fn slim_notes(gone: &mut VecDeque<u32>, length: usize)
    ensures places { gone.new.items ≡ gone.old.items }
{
    if length / 4 < gone.capacity() {
        gone.shrink_to(length / 16);
    }
}

fn put_in(all: &mut VecDeque<u32>, gone: &mut VecDeque<u32>, place: u32)
    requires all { Rises 0 all.old.items }
    requires gone { Rises 0 gone.old.items }
    requires room { IsTrue (has place (live all.old.items gone.old.items)
        || nat_lt 0 (deque_capacity all.old - deque_len all.old)) }
    ensures all { Rises 0 all.new.items }
    ensures gone { Rises 0 gone.new.items }
    ensures rises { Rises 0 (live all.new.items gone.new.items) }
    ensures places { live all.new.items gone.new.items
        ≡ with_place place (live all.old.items gone.old.items) }
    ensures room { deque_capacity all.old - deque_len all.old
        ≤ deque_capacity all.new - deque_len all.new + 1 }
{
    remove_from(gone, place);
    add_to(all, place);
}

fn take_out(all: &mut VecDeque<u32>, gone: &mut VecDeque<u32>, place: u32)
    requires all { Rises 0 all.old.items }
    requires gone { Rises 0 gone.old.items }
    ensures all { Rises 0 all.new.items }
    ensures gone { Rises 0 gone.new.items }
    ensures rises { Rises 0 (live all.new.items gone.new.items) }
    ensures places { live all.new.items gone.new.items
        ≡ without_place place (live all.old.items gone.old.items) }
    ensures room { deque_capacity all.old - deque_len all.old
        ≤ deque_capacity all.new - deque_len all.new }
{
    if has_room(gone) && is_inside(all, place) {
        add_to(gone, place);
    } else {
        remove_from(all, place);
    }
}

fn has_room(places: &VecDeque<u32>) -> bool
    ensures { result ≡ true → deque_len places.now < deque_capacity places.now }
{
    places.len() < places.capacity()
}

/// Whether the place is there, with many on both sides. Nothing is promised of it: where there are
/// few on one side, these are quickly moved.
fn is_inside(places: &VecDeque<u32>, place: u32) -> bool {
    match places.binary_search(&place) {
        Ok(at) => 512 <= at && 512 < places.len().saturating_sub(at),
        Err(_) => false,
    }
}

/// Takes out all that are gone, where no more can be noted, or half of the places are gone.
fn settle(all: &mut VecDeque<u32>, gone: &mut VecDeque<u32>)
    requires all { Rises 0 all.old.items }
    requires gone { Rises 0 gone.old.items }
    ensures all { Rises 0 all.new.items }
    ensures gone { Rises 0 gone.new.items }
    ensures places { live all.new.items gone.new.items ≡ live all.old.items gone.old.items }
    ensures room { deque_capacity all.old - deque_len all.old
        ≤ deque_capacity all.new - deque_len all.new }
{
    if gone.is_empty() || has_room(gone) && gone.len() < all.len() / 2 {
        return;
    }
    keep_live(all, gone);
    gone.clear();
}

fn keep_live(all: &mut VecDeque<u32>, gone: &VecDeque<u32>)
    requires all { Rises 0 all.old.items }
    requires gone { Rises 0 gone.now.items }
    ensures rises { Rises 0 all.new.items }
    ensures places { all.new.items ≡ live all.old.items gone.now.items }
    ensures room { deque_capacity all.old - deque_len all.old
        ≤ deque_capacity all.new - deque_len all.new }
{
    all.retain(|place| !is_among(gone, *place as usize));
}

/// Whether the place is among these, which ascend.
fn is_among(places: &VecDeque<u32>, place: usize) -> bool
    ensures { Rises 0 places.now.items → result ≡ has place places.now.items }
{
    let (front, back) = places.as_slices();
    is_in(front, place) || is_in(back, place)
}

/// Gives back half of the memory and more, where less than a quarter of it is in use.
fn slim(places: &mut VecDeque<u32>)
    ensures places { places.new.items ≡ places.old.items }
{
    let used = places.len();
    if used < places.capacity() / 4 {
        places.shrink_to(used * 2);
    }
}

fn is_live(all: &VecDeque<u32>, gone: &VecDeque<u32>, place: usize) -> bool
    requires all { Rises 0 all.now.items }
    requires gone { Rises 0 gone.now.items }
    ensures { result ≡ has place (live all.now.items gone.now.items) }
{
    is_among(all, place) && !is_among(gone, place)
}

fn runs_of<'a>(all: &'a VecDeque<u32>, gone: &VecDeque<u32>) -> Option<(&'a [u32], &'a [u32])>
    ensures runs { IfSome result (λ runs. runs.0.now ++ runs.1.now
        ≡ live all.now.items gone.now.items) }
{
    if gone.is_empty() {
        Some(all.as_slices())
    } else {
        None
    }
}

fn copied(alloc: Global, all: &VecDeque<u32>, gone: &VecDeque<u32>) -> Result<Vec<u32>, AllocError>
    requires all { Rises 0 all.now.items }
    requires gone { Rises 0 gone.now.items }
    ensures places { IfOk result (λ places. places.items ≡ live all.now.items gone.now.items) }
{
    let (front, back) = all.as_slices();
    let mut places = Vec::new(alloc);
    places.reserve(all.len().saturating_sub(gone.len()))?;
    append_live(&mut places, front, gone)?;
    append_live(&mut places, back, gone)?;
    Ok(places)
}

/// Appends those that aren't gone: each stretch between two that are, as it stands.
fn append_live(places: &mut Vec<u32>, all: &[u32], gone: &VecDeque<u32>) -> Result<(), AllocError>
    requires all { Rises 0 all.now }
    requires gone { Rises 0 gone.now.items }
    ensures live { OnOk result (places.new.items
        ≡ places.old.items ++ live all.now gone.now.items) }
{
    let mut left = all;
    for at in 0..gone.len() {
        left = append_stretch(places, left, gone[at])?;
    }
    places.extend_from_slice(left)?;
    Ok(())
}

/// Appends those before the place that is gone next, and gives those behind it; all are left where
/// it isn't among them.
fn append_stretch<'a>(
    places: &mut Vec<u32>,
    all: &'a [u32],
    place: u32,
) -> Result<&'a [u32], AllocError>
    requires all { Rises 0 all.now }
    ensures rises { IfOk result (λ left. Rises 0 left.now) }
    ensures live { IfOk result (λ left. (gone : List ℕ) → Rises (place + 1) gone
        → places.new.items ++ live left.now gone
        ≡ places.old.items ++ live all.now (place ∷ gone)) }
{
    match all.binary_search(&place) {
        Ok(at) => {
            places.extend_from_slice(&all[..at])?;
            Ok(&all[at + 1..])
        }
        Err(_) => Ok(all),
    }
}
