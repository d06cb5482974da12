ghost use Rattle.std.specs.Prelude.{◌≡◌, ◌+◌, ◌<◌, ◌≤◌, IfOk, OnOk, OnErr, IsTrue, if◌then◌else◌};
ghost use Rattle.std.specs.Prelude.{◌++◌, ◌&&◌, not, nat_lt};
ghost use Rattle.std.specs.Prelude.{insert, length, slice_get, slice_set, vec_len, vec_capacity};
ghost use Rattle.std.specs.List.{list_all, prefix_len};
ghost use Rattle.std.specs.Option.{option_copied};
ghost use Rattle.an_base.specs.Outcome.{passes};
ghost use Rattle.an_keep.specs.Cells.{Ascend, Part, first_of, is_at, is_before, next_after};
ghost use Rattle.an_keep.specs.Cells.{put_cell, put_change, put_changes, take_cell};

use crate::cell::{Cell, Change};
use an_base::TryCopy;
use std::alloc::{AllocError, Global};
use std::marker::Model;

/// Cells in memory, in ascending order: `rows`, and `log` behind them all. The log has only cells
/// of tables from 4 on, so that a new cell of a lower table moves none of them.
#[derive(Debug, Drop)]
pub(crate) struct Cells {
    rows: Vec<Cell>,
    log: Vec<Cell>,
}

impl Model for Cells {
    ghost use Rattle.std.specs.Prelude.{List, ◌++◌};
    ghost use Rattle.an_keep.specs.declared.cell.Cell.{Cell};
    ghost use Rattle.an_keep.specs.Cells.{Part};

    ghost Value = { List Cell };

    ghost view = { λ c. c.rows.items ++ c.log.items };

    ghost invariant = { λ c. Part c.rows.items c.log.items };
}

impl Cells {
    /// Takes no memory.
    #[tactic(auto, using(crate::proofs::PartLemmas::rows_alone))]
    pub(crate) fn new(cells: Vec<Cell>) -> Cells
        requires { Ascend cells.items }
        ensures cells { result ≡ cells.items }
    {
        let log = Vec::new(*cells.allocator());
        Cells { rows: cells, log }
    }

    /// A copy of the first cell.
    pub(crate) fn first(&self) -> Result<Option<Cell>, AllocError>
        ensures cell { IfOk result (λ cell. cell ≡ first_of self.now) }
        ensures ascend { Ascend self.now }
    {
        copy_of(first_in(self.rows.as_slice(), self.log.as_slice()))
    }

    /// A copy of the first cell behind this table and key.
    pub(crate) fn next_after(&self, tab: u8, key: u64) -> Result<Option<Cell>, AllocError>
        ensures cell { IfOk result (λ cell. cell ≡ next_after tab key self.now) }
    {
        copy_of(next_in_both(self.rows.as_slice(), self.log.as_slice(), tab, key))
    }

    /// Does all of these changes, one after the other, or none where memory runs out.
    pub(crate) fn put_changes(&mut self, changes: &[Change]) -> Result<(), AllocError>
        ensures done { OnOk result (self.new ≡ put_changes changes.now self.old) }
        ensures still { OnErr result (self.new ≡ self.old) }
        ensures ascend { Ascend self.new }
    {
        let copies = copies_of(*self.rows.allocator(), changes)?;
        self.rows.reserve(copies.len())?;
        self.log.reserve(copies.len())?;
        for change in copies {
            put_in_part(&mut self.rows, &mut self.log, change);
        }
        Ok(())
    }
}

/// The first cell of both parts.
fn first_in<'a>(rows: &'a [Cell], log: &'a [Cell]) -> Option<&'a Cell>
    ensures { option_copied result ≡ first_of (rows.now ++ log.now) }
{
    match rows.first() {
        Some(cell) => Some(cell),
        None => log.first(),
    }
}

/// The first cell of both parts behind this table and key.
#[tactic(auto, using(crate::proofs::PartLemmas::next_in_parts))]
fn next_in_both<'a>(rows: &'a [Cell], log: &'a [Cell], tab: u8, key: u64) -> Option<&'a Cell>
    requires rows { Ascend rows.now }
    requires log { Ascend log.now }
    ensures { option_copied result ≡ next_after tab key (rows.now ++ log.now) }
{
    match next_in(rows, tab, key) {
        Some(cell) => Some(cell),
        None => next_in(log, tab, key),
    }
}

/// Whether a change at this table and key is of the log: the table is 4 or more, and all rows come
/// before.
fn is_of_log(rows: &[Cell], tab: u8, key: u64) -> bool
    requires { Ascend rows.now }
    ensures { result ≡ (not (nat_lt tab 4) && list_all (is_before tab key) rows.now) }
{
    tab >= 4 && place_of(rows, tab, key) == rows.len()
}

/// Does a change in its part, where each has room for one more cell. It takes no memory.
fn put_in_part(rows: &mut Vec<Cell>, log: &mut Vec<Cell>, change: Change)
    requires part { Part rows.old.items log.old.items }
    requires rows_room { vec_len rows.old < vec_capacity rows.old }
    requires log_room { vec_len log.old < vec_capacity log.old }
    ensures cells { rows.new.items ++ log.new.items
        ≡ put_change change (rows.old.items ++ log.old.items) }
    ensures part { Part rows.new.items log.new.items }
    ensures rows_length { vec_len rows.new ≤ vec_len rows.old + 1 }
    ensures rows_capacity { vec_capacity rows.old ≤ vec_capacity rows.new }
    ensures log_length { vec_len log.new ≤ vec_len log.old + 1 }
    ensures log_capacity { vec_capacity log.old ≤ vec_capacity log.new }
{
    if is_of_log(rows.as_slice(), change.tab, change.key) {
        put(log, change);
    } else {
        put(rows, change);
    }
}

fn copy_of(cell: Option<&Cell>) -> Result<Option<Cell>, AllocError>
    ensures copy { IfOk result (λ copy. copy ≡ option_copied cell.entry) }
{
    match cell {
        Some(cell) => Ok(Some(cell.copy()?)),
        None => Ok(None),
    }
}

fn copies_of(alloc: Global, changes: &[Change]) -> Result<Vec<Change>, AllocError>
    ensures copies { IfOk result (λ copies. copies.items ≡ changes.now) }
{
    let mut copies = Vec::with_capacity(alloc, changes.len())?;
    for change in changes {
        copies.push(change.copy()?)?;
    }
    Ok(copies)
}

/// Whether the cell comes before this table and key.
fn is_before(cell: &Cell, tab: u8, key: u64) -> bool
    ensures { result ≡ is_before tab key cell.now }
{
    cell.tab < tab || cell.tab == tab && cell.key < key
}

/// How many cells come before this table and key.
fn place_of(cells: &[Cell], tab: u8, key: u64) -> usize
    requires { Ascend cells.now }
    ensures place { result ≡ prefix_len (is_before tab key) cells.now }
    ensures within { result ≤ length cells.now }
{
    cells.partition_point(|cell| is_before(cell, tab, key))
}

fn cell_at(cells: &[Cell], place: usize) -> Option<&Cell>
    ensures { option_copied result ≡ slice_get cells.now place }
{
    cells.get(place)
}

/// Whether the cell at the place is there and has this table and key.
fn is_at(cells: &[Cell], place: usize, tab: u8, key: u64) -> bool
    ensures { result ≡ passes (is_at tab key) (slice_get cells.now place) }
{
    match cell_at(cells, place) {
        Some(cell) => cell.tab == tab && cell.key == key,
        None => false,
    }
}

/// The first cell behind this table and key.
#[tactic(auto, using(crate::proofs::CellLemmas::next_there, crate::proofs::CellLemmas::next_else))]
fn next_in(cells: &[Cell], tab: u8, key: u64) -> Option<&Cell>
    requires { Ascend cells.now }
    ensures { option_copied result ≡ next_after tab key cells.now }
{
    let place = place_of(cells, tab, key);
    if is_at(cells, place, tab, key) {
        cell_at(cells, place + 1)
    } else {
        cell_at(cells, place)
    }
}

/// Does a change where there is room for one more cell. It takes no memory.
fn put(cells: &mut Vec<Cell>, change: Change)
    requires ascend { Ascend cells.old.items }
    requires room { vec_len cells.old < vec_capacity cells.old }
    ensures cells { cells.new.items ≡ put_change change cells.old.items }
    ensures length { vec_len cells.new ≤ vec_len cells.old + 1 }
    ensures capacity { vec_capacity cells.old ≤ vec_capacity cells.new }
{
    let Change { tab, key, val } = change;
    match val {
        None => take_cell(cells, tab, key),
        Some(val) => put_cell(cells, Cell { tab, key, val }),
    }
}

/// Takes the cell at this table and key away.
#[tactic(auto, using(crate::proofs::CellLemmas::take_there, crate::proofs::CellLemmas::take_else))]
fn take_cell(cells: &mut Vec<Cell>, tab: u8, key: u64)
    requires { Ascend cells.old.items }
    ensures cells { cells.new.items ≡ take_cell tab key cells.old.items }
    ensures length { vec_len cells.new ≤ vec_len cells.old }
    ensures capacity { vec_capacity cells.old ≤ vec_capacity cells.new }
{
    let place = place_of(cells.as_slice(), tab, key);
    if is_at(cells.as_slice(), place, tab, key) {
        let _cell = cells.remove(place);
    }
}

/// Puts a cell in its place, over the one that is there.
#[tactic(auto, using(crate::proofs::CellLemmas::put_found))]
fn put_cell(cells: &mut Vec<Cell>, cell: Cell)
    requires ascend { Ascend cells.old.items }
    requires room { vec_len cells.old < vec_capacity cells.old }
    ensures cells { cells.new.items ≡ put_cell cell cells.old.items }
    ensures length { vec_len cells.new ≤ vec_len cells.old + 1 }
    ensures capacity { vec_capacity cells.old ≤ vec_capacity cells.new }
{
    let place = place_of(cells.as_slice(), cell.tab, cell.key);
    let is_there = is_at(cells.as_slice(), place, cell.tab, cell.key);
    put_at(cells, place, is_there, cell);
}

/// Puts a cell at a place, over the one there or before it.
fn put_at(cells: &mut Vec<Cell>, place: usize, is_there: bool, cell: Cell)
    requires place { place ≤ vec_len cells.old }
    requires there { IsTrue is_there → place < vec_len cells.old }
    requires room { vec_len cells.old < vec_capacity cells.old }
    ensures cells { cells.new.items ≡ (if is_there then slice_set cells.old.items place cell
        else insert cells.old.items place cell) }
    ensures length { vec_len cells.new ≤ vec_len cells.old + 1 }
    ensures capacity { vec_capacity cells.old ≤ vec_capacity cells.new }
{
    if is_there {
        cells[place] = cell;
        return;
    }
    match cells.insert(place, cell) {
        Ok(()) => {}
        Err(_) => unreachable!(),
    }
}
