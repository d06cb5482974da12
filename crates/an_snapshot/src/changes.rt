ghost use Rattle.std.specs.Prelude.{◌≡◌, ◌^◌, ◌+◌, ◌++◌, ◌<◌, ◌≤◌, ◌∷◌, [], IfOk, OnOk, Some};
ghost use Rattle.std.specs.Prelude.{length, slice_get, take};
ghost use Rattle.an_snapshot.specs.Changes.{numbers_in};
ghost use Rattle.an_snapshot.specs.PairLists.{AreFiled};
ghost use Rattle.an_snapshot.specs.Pairs.{Extends};

use crate::change::{ClassChange, FiledChange};
use crate::pair_lists::PairLists;
use crate::pairs::Pairs;
use std::alloc::{AllocError, Global};
use std::marker::Model;

/// Changes in their order, and their places by their pairs. Contracts see the list of the changes
/// and that of the pairs, and for how many changes more there is memory. There need be none for the
/// places: what has no place yet gets one with a later change, and is looked through until then.
#[derive(Drop)]
pub(crate) struct Changes {
    rows: Vec<FiledChange>,
    room: usize,
    pairs: Pairs,
    lists: PairLists,
}

impl Model for Changes {
    ghost use Rattle.std.specs.Prelude.{◌+◌, ◌≤◌, length, take, vec_len, vec_capacity};
    ghost use Rattle.an_snapshot.specs.Changes.{KeptChanges, numbers_in};
    ghost use Rattle.an_snapshot.specs.PairLists.{AreFiled};

    ghost Value = { KeptChanges };

    ghost view = { λ c. record { rows = c.rows.items; pairs = c.pairs; room = c.room } };

    ghost invariant = { λ c. record {
      room : vec_len c.rows + c.room ≤ vec_capacity c.rows;
      within : c.lists.count ≤ length c.rows.items;
      filed : AreFiled (numbers_in (take c.lists.count c.rows.items)) c.lists;
    } };
}

impl Changes {
    /// No changes, and room for none. It takes no memory.
    pub fn new(alloc: Global) -> Changes
        ensures rows { result.rows ≡ [] }
    {
        Changes {
            rows: Vec::new(alloc),
            room: 0,
            pairs: Pairs::new(alloc),
            lists: PairLists::new(alloc),
        }
    }

    /// The changes in their order.
    pub fn as_slice(&self) -> &[FiledChange]
        ensures rows { result.now ≡ self.now.rows }
    {
        self.rows.as_slice()
    }

    /// The pairs by their numbers.
    pub fn pairs(&self) -> &[ClassChange]
        ensures pairs { result.now ≡ self.now.pairs }
    {
        self.pairs.as_slice()
    }

    /// The places of the first changes by their pairs.
    pub fn lists(&self) -> &PairLists
        ensures few { length self.now.rows < 2 ^ 64 }
        ensures within { result.now.count ≤ length self.now.rows }
        ensures filed { AreFiled (numbers_in (take result.now.count self.now.rows)) result.now }
    {
        &self.lists
    }

    /// The number of a pair, which has one then. Its only error is want of memory.
    pub fn number_of(&mut self, pair: ClassChange) -> Result<u32, AllocError>
        ensures number { IfOk result (λ number. slice_get self.new.pairs number ≡ Some pair) }
        ensures grows { Extends self.old.pairs self.new.pairs }
        ensures rows { self.new.rows ≡ self.old.rows }
    {
        self.pairs.add(pair)
    }

    /// Takes the memory for so many changes more.
    pub fn make_room(&mut self, more: usize) -> Result<(), AllocError>
        ensures ok { OnOk result (more ≤ self.new.room) }
        ensures rows { self.new.rows ≡ self.old.rows }
        ensures pairs { self.new.pairs ≡ self.old.pairs }
    {
        if self.room < more {
            self.rows.reserve(more)?;
            self.room = more;
        }
        Ok(())
    }

    /// Puts a change after all.
    pub fn push(&mut self, change: FiledChange)
        requires room { 0 < self.old.room }
        ensures rows { self.new.rows ≡ self.old.rows ++ change ∷ [] }
        ensures pairs { self.new.pairs ≡ self.old.pairs }
        ensures room { self.old.room ≡ self.new.room + 1 }
    {
        self.rows.push_reserved(change);
        self.room -= 1;
        file_places(&mut self.lists, self.rows.as_slice());
    }
}

/// Files the places of the changes by their pairs as far as memory lasts.
fn file_places(lists: &mut PairLists, rows: &[FiledChange])
    requires within { lists.old.count ≤ length rows.now }
    requires filed { AreFiled (numbers_in (take lists.old.count rows.now)) lists.old }
    ensures within { lists.new.count ≤ length rows.now }
    ensures filed { AreFiled (numbers_in (take lists.new.count rows.now)) lists.new }
{
    while lists.count() < rows.len() {
        match lists.file(rows[lists.count()].pair) {
            Ok(()) => {}
            Err(_) => return,
        }
    }
}

/// Puts changes after all, in order.
pub(crate) fn add_changes(changes: &mut Changes, added: Vec<FiledChange>)
    requires room { length added.items ≤ changes.old.room }
    ensures rows { changes.new.rows ≡ changes.old.rows ++ added.items }
    ensures pairs { changes.new.pairs ≡ changes.old.pairs }
{
    for change in added {
        changes.push(change);
    }
}
