ghost use Rattle.std.specs.Prelude.{◌≡◌, ◌+◌, ◌<◌, ◌≤◌, [], IfSome, IsTrue, OnOk, length, map};
ghost use Rattle.std.specs.Prelude.{option_and_then, slice_get, unwrap_or};
ghost use Rattle.std.specs.Option.{option_copied};
ghost use Rattle.an_keyed.specs.MarkIndex.{IsEntered, IsKept, IsMarkIndex, mark_hash};
ghost use Rattle.an_keyed.specs.Marks.{marked_place, marked_row};
ghost use Rattle.an_keyed.specs.Rows.{keys_are_distinct, place_of, row_of, put_row};

use crate::key::Keyed;
use crate::mark::{Marked, hash_of_mark, is_marked_from, with_place};
use crate::places::Places;
use crate::rows::Rows;
use an_base::Name;
use std::alloc::{AllocError, Global};
use std::marker::Model;

/// Rows under keys, as [`Rows`], that are found by their marks too. Contracts see the list of the
/// rows, and for how many more there is memory. Each mark that a row was ever put with stays
/// entered and takes memory, but a look-up answers by the rows as they are.
#[derive(Drop)]
pub struct MarkedRows<R: Keyed + Marked> {
    rows: Rows<R>,
    marks: Places,
    room: usize,
}

impl<R: Keyed + Marked> Model for MarkedRows<R> {
    ghost use Rattle.std.specs.Prelude.{◌≤◌, map};
    ghost use Rattle.an_keyed.specs.MarkIndex.{IsMarkIndex};
    ghost use Rattle.an_keyed.specs.Rows.{Kept};

    ghost Value = { Kept R };

    ghost view = { λ r. record { rows = r.rows.rows; room = r.room } };

    ghost invariant = { λ r. record {
      marked : IsMarkIndex (map R.mark r.rows.rows) r.marks;
      rows : r.room ≤ r.rows.room;
      marks : r.room ≤ r.marks.room;
    } };
}

impl<R: Keyed + Marked + Drop> MarkedRows<R> {
    /// No rows, and room for none. It takes no memory.
    pub fn new(alloc: Global) -> MarkedRows<R>
        ensures empty { result.rows ≡ [] }
        ensures room { result.room ≡ 0 }
    {
        MarkedRows {
            rows: Rows::new(alloc),
            marks: Places::new(alloc),
            room: 0,
        }
    }

    /// The rows in their order.
    pub fn as_slice(&self) -> &[R]
        ensures rows { result.now ≡ self.now.rows }
    {
        self.rows.as_slice()
    }

    /// Where the row with this key stands.
    pub fn place(&self, owner: Option<&Name>, name: &Name) -> Option<usize>
        ensures place { result ≡ place_of R.key
            (record { owner = option_copied owner.entry; name = name.now }) self.now.rows }
    {
        self.rows.place(owner, name)
    }

    /// The row with this key; no two rows have one key.
    pub fn find(&self, owner: Option<&Name>, name: &Name) -> Option<&R>
        ensures row { option_copied result ≡ row_of R.key
            (record { owner = option_copied owner.entry; name = name.now }) self.now.rows }
        ensures distinct { IsTrue (keys_are_distinct R.key self.now.rows) }
    {
        self.rows.find(owner, name)
    }

    /// The first place from `start` on whose row has this mark.
    pub fn place_marked(&self, mark: &str, start: usize) -> Option<usize>
        ensures place { result ≡ marked_place R.mark mark.now start self.now.rows }
        ensures from { IfSome result (λ place. start ≤ place) }
        ensures within { IfSome result (λ place. place < length self.now.rows) }
    {
        marked_in(self.rows.as_slice(), &self.marks, mark, start)
    }

    /// The first row with this mark.
    pub fn find_marked(&self, mark: &str) -> Option<&R>
        ensures row { option_copied result ≡ marked_row R.mark mark.now self.now.rows }
    {
        row_at(self.as_slice(), self.place_marked(mark, 0))
    }

    /// Takes the memory for so many rows more.
    pub fn make_room(&mut self, more: usize) -> Result<(), AllocError>
        ensures ok { OnOk result (more ≤ self.new.room) }
        ensures rows { self.new.rows ≡ self.old.rows }
        ensures kept { self.old.room ≤ self.new.room }
    {
        if self.room < more {
            self.rows.make_room(more)?;
            self.marks.make_room(more)?;
            self.room = more;
        }
        Ok(())
    }

    /// Puts the row in the place of the one with its key, or behind all where there is none. It
    /// takes no memory.
    pub fn put(&mut self, row: R)
        requires room { 0 < self.old.room }
        ensures rows { self.new.rows ≡ put_row R.key row self.old.rows }
        ensures room { self.old.room ≤ self.new.room + 1 }
    {
        let place = place_for(&self.rows, &row);
        enter_mark(&mut self.marks, &row, place);
        self.rows.put(row);
        self.room -= 1;
    }
}

fn row_at<R>(rows: &[R], place: Option<usize>) -> Option<&R>
    ensures { option_copied result ≡ option_and_then (slice_get rows.now) place }
{
    match place {
        None => None,
        Some(place) => rows.get(place),
    }
}

/// Where a put puts the row.
fn place_for<R: Keyed + Drop>(rows: &Rows<R>, row: &R) -> usize
    ensures { result
        ≡ unwrap_or (place_of R.key (R.key row.now) rows.now.rows) (length rows.now.rows) }
{
    match rows.place(row.owner(), row.name()) {
        Some(place) => place,
        None => rows.as_slice().len(),
    }
}

/// Enters the place under the row's mark, where it has one.
fn enter_mark<R: Marked>(marks: &mut Places, row: &R, place: usize)
    requires room { 0 < marks.old.room }
    ensures entered { IfSome (R.mark row.now) (λ mark. IsEntered (mark_hash mark) place marks.new) }
    ensures kept { IsKept marks.old marks.new }
    ensures room { marks.old.room ≤ marks.new.room + 1 }
{
    match row.mark() {
        Some(mark) => marks.enter(hash_of_mark(mark), place),
        None => {}
    }
}

/// The first place from `start` on whose row has the mark, which is sought among the places that
/// were entered under the mark's hash.
fn marked_in<R: Marked>(rows: &[R], marks: &Places, mark: &str, start: usize) -> Option<usize>
    requires marked { IsMarkIndex (map R.mark rows.now) marks.now }
    ensures place { result ≡ marked_place R.mark mark.now start rows.now }
    ensures from { IfSome result (λ place. start ≤ place) }
    ensures within { IfSome result (λ place. place < length rows.now) }
{
    let mut found = None;
    let mut next = marks.last(hash_of_mark(mark));
    while let Some(entry) = next {
        let place = marks.place(entry);
        found = with_place(is_marked_from(rows, mark, start, place), place, found);
        next = marks.before(entry);
    }
    found
}
