ghost use Rattle.std.specs.Prelude.{[], ◌≡◌, ◌≤◌, ◌^◌, ◌⊎◌, IfOk, IfSome, IsSome, IsTrue, List};
ghost use Rattle.std.specs.Prelude.{None, OnErr, OnOk, Some, false, nat_lt};
ghost use Rattle.std.specs.List.{list_all};
ghost use Rattle.an_base.specs.Faults.{Rises};
ghost use Rattle.an_keep.specs.Cells.{Ascend, first_of, next_after, put_changes};
ghost use Rattle.an_keep.specs.Keeper.{Stays, StaysOrBegins, Turns};
ghost use Rattle.an_keep.specs.declared.cell.Cell.{Cell};
ghost use Rattle.an_sqlite.specs.Connecting.{BeginsWith, HoldsCells, IsClean, IsOpen};
ghost use Rattle.an_sqlite.specs.Connecting.{IsSettled, came_in, connection_in, told_in};
ghost use Rattle.an_sqlite.specs.Table.{no_schema};
ghost use Rattle.an_sqlite.specs.Tells.{Tells, cells_of};
ghost use Rattle.an_sqlite.specs.Told.{is_well};
ghost use Rattle.sqlite.specs.Held.{state};
ghost use Rattle.sqlite.specs.State.{HasCleanDisk};

use crate::connecting::Connecting;
use crate::teller::Teller;
use an_keep::{Cell, Change, KeepError, Keeper};
use sqlite::{Alter, Connection};

/// A keeper whose cells stand in the table `cell` of a database, which its first call makes where
/// it isn't there. It tells its cells, from the beginning, where the connection came with no table,
/// no index and no view, or with exactly that table, whose rowids rise, and with no transaction
/// open, as long as the disk returns what was written.
///
/// Each refused statement is a failure and counted, but for want of memory; so is a key above
/// 2^63 - 1 that is to be put or taken, before any statement runs, and a row that is no cell, as a
/// foreign table may have one. When it is dropped, its connection is dropped and not closed.
#[derive(Drop)]
pub struct SqlKeeper<S: Alter + Drop> {
    place: Connecting<S>,
    faults: u64,
}

impl<S: Alter + Drop> SqlKeeper<S> {
    /// A keeper over an open connection, of the cells that its table has. Takes no memory.
    #[tactic(auto, using(crate::proofs::PlaceLemmas::adopting))]
    pub fn adopt(connection: Connection<S>) -> SqlKeeper<S>
        ensures faults { result.faults ≡ 0 }
        ensures held { (cells : List Cell) → BeginsWith (state S.Store connection) cells
            → HoldsCells S.Store result.place cells }
        ensures connection { connection_in result.place ≡ Some connection }
        ensures tells { (state S.Store connection).now.schema ≡ no_schema
            → (state S.Store connection).in_transaction ≡ false
            → IsTrue (is_well (state S.Store connection))
            → told_in S.Store result.place ≡ Some [] }
        ensures tells_found { Tells (state S.Store connection)
            → (state S.Store connection).in_transaction ≡ false
            → IsTrue (is_well (state S.Store connection))
            → told_in S.Store result.place ≡ Some (cells_of (state S.Store connection)) }

        // Where it tells cells, they are those that a clean connection begins with.
        ensures begins { (cells : List Cell) → (HasCleanDisk (state S.Store connection)
            → BeginsWith (state S.Store connection) cells)
            → IfSome (told_in S.Store result.place) (λ told. told ≡ cells) }
        ensures told { IsSome (told_in S.Store result.place)
            → ((state S.Store connection).now.schema ≡ no_schema)
            ⊎ Tells (state S.Store connection) }
        ensures settled { IsSome (told_in S.Store result.place)
            → (state S.Store connection).in_transaction ≡ false }
    {
        SqlKeeper {
            place: Connecting::Open(Teller::new(connection)),
            faults: 0,
        }
    }

    /// A keeper of a database that wasn't opened, of which each call answers this error, and counts
    /// it where it is a failure. It tells no cells. Takes no memory.
    pub fn refused(error: KeepError) -> SqlKeeper<S>
        ensures faults { result.faults ≡ 0 }
        ensures connection { connection_in result.place ≡ None }
        ensures untold { told_in S.Store result.place ≡ None }
    {
        SqlKeeper {
            place: Connecting::Refused(error),
            faults: 0,
        }
    }

    /// The connection as the last call left it, where the database is open.
    pub fn into_connection(self) -> Option<Connection<S>>
        ensures { result ≡ connection_in self.place }
    {
        let SqlKeeper { place, faults: _ } = self;
        place.into_connection()
    }

    /// How many calls failed. The count stands still at `u64::MAX`.
    pub fn faults(&self) -> u64
        ensures { result ≡ self.now.faults }
    {
        self.faults
    }
}

/// Whether a row can have the key.
fn is_key(key: u64) -> bool
    ensures { result ≡ nat_lt key (2 ^ 63) }
{
    key < 1 << 63
}

/// Whether each change is of a key that a row can have.
fn have_keys(changes: &[Change]) -> bool
    ensures { result ≡ list_all (λ change. nat_lt change.key (2 ^ 63)) changes.now }
{
    changes.iter().all(|change| is_key(change.key))
}

/// The answer, which is counted where it is a failure.
fn counted<T>(faults: &mut u64, answer: Result<T, KeepError>) -> Result<T, KeepError>
    ensures same { result ≡ answer }
    ensures counted { result ≡ Err KeepError.Failed → Rises faults.old faults.new }
    ensures kept { faults.old ≤ faults.new }
{
    match answer {
        Ok(given) => Ok(given),
        Err(KeepError::Failed) => {
            *faults = faults.saturating_add(1);
            Err(KeepError::Failed)
        }
        Err(KeepError::Memory) => Err(KeepError::Memory),
    }
}

impl<S: Alter + Drop> Keeper for SqlKeeper<S> {
    ghost use Rattle.std.specs.Prelude.{false};
    ghost use Rattle.std.proofs.Common.{rules};
    ghost use Rattle.an_sqlite.specs.Connecting.{told_in};

    ghost told = { λ keeper. told_in S.Store keeper.place };

    ghost faults = { λ keeper. keeper.faults };

    ghost is_sure = { false };

    ghost may_begin = { false };

    // It claims no such thing.
    ghost sure_keeps = { Prim.search rules };

    /// Does all of these changes, or none. With a key above 2^63 - 1 it fails, and asks nothing of
    /// the database.
    #[tactic(auto, using(crate::proofs::PlaceLemmas::settled_in))]
    fn commit(&mut self, changes: &[Change]) -> Result<(), KeepError>
        ensures keys { list_all (λ change. nat_lt change.key (2 ^ 63)) changes.now ≡ false
            → (result ≡ Err KeepError.Failed) × (self.new.place ≡ self.old.place) }
        ensures came { came_in self.new.place ≡ came_in self.old.place }

        // Of what it held before, where the store is clean after the call.
        ensures held { IsClean S.Store self.new.place → (cells : List Cell)
            → HoldsCells S.Store self.old.place cells
            → OnOk result (HoldsCells S.Store self.new.place (put_changes changes.now cells)) }
        ensures kept { IsClean S.Store self.new.place → IsOpen S.Store self.new.place
            → (cells : List Cell) → HoldsCells S.Store self.old.place cells
            → OnErr result (HoldsCells S.Store self.new.place cells) }

        // It leaves no transaction open, and none is open where its cells are told.
        ensures settles { IsSettled S.Store self.old.place → IsSettled S.Store self.new.place }
        ensures settled { IsSome (told_in S.Store self.new.place)
            → IsSettled S.Store self.new.place }

        // What each keeper ensures.
        ensures done { OnOk result (Turns (put_changes changes.now)
            (told_in S.Store self.old.place) (told_in S.Store self.new.place)) }
        ensures still { OnErr result (Stays (told_in S.Store self.old.place)
            (told_in S.Store self.new.place)) }
        ensures counted { result ≡ Err KeepError.Failed → Rises self.old.faults self.new.faults }
        ensures faults_kept { self.old.faults ≤ self.new.faults }
    {
        if !have_keys(changes) {
            return counted(&mut self.faults, Err(KeepError::Failed));
        }
        let done = self.place.commit(changes);
        counted(&mut self.faults, done)
    }

    #[tactic(auto, using(crate::proofs::PlaceLemmas::telling))]
    fn first(&mut self) -> Result<Option<Cell>, KeepError>
        ensures came { came_in self.new.place ≡ came_in self.old.place }

        // Of what it held before, where the store is clean after the call.
        ensures least { IsClean S.Store self.new.place → (cells : List Cell)
            → HoldsCells S.Store self.old.place cells
            → IfOk result (λ cell. cell ≡ first_of cells) }
        ensures held { IsClean S.Store self.new.place → (cells : List Cell)
            → HoldsCells S.Store self.old.place cells
            → OnOk result (HoldsCells S.Store self.new.place cells) }
        ensures kept { IsClean S.Store self.new.place → IsOpen S.Store self.new.place
            → (cells : List Cell) → HoldsCells S.Store self.old.place cells
            → OnErr result (HoldsCells S.Store self.new.place cells) }

        // It leaves no transaction open, and none is open where its cells are told.
        ensures settles { IsSettled S.Store self.old.place → IsSettled S.Store self.new.place }
        ensures settled { IsSome (told_in S.Store self.new.place)
            → IsSettled S.Store self.new.place }

        // What each keeper ensures.
        ensures cell { IfOk result (λ cell. IfSome (told_in S.Store self.new.place)
            (λ cells. cell ≡ first_of cells)) }
        ensures ascend { IfSome (told_in S.Store self.new.place) Ascend }
        ensures stays { StaysOrBegins (told_in S.Store self.old.place)
            (told_in S.Store self.new.place) }
        ensures never { Stays (told_in S.Store self.old.place) (told_in S.Store self.new.place) }
        ensures counted { result ≡ Err KeepError.Failed → Rises self.old.faults self.new.faults }
        ensures faults_kept { self.old.faults ≤ self.new.faults }
    {
        let answer = self.place.first();
        counted(&mut self.faults, answer)
    }

    #[tactic(auto, using(crate::proofs::PlaceLemmas::settled_in))]
    fn next_after(&mut self, tab: u8, key: u64) -> Result<Option<Cell>, KeepError>
        ensures came { came_in self.new.place ≡ came_in self.old.place }

        // Of what it held before, where the store is clean after the call.
        ensures next { IsClean S.Store self.new.place → (cells : List Cell)
            → HoldsCells S.Store self.old.place cells
            → IfOk result (λ cell. cell ≡ next_after tab key cells) }
        ensures held { IsClean S.Store self.new.place → (cells : List Cell)
            → HoldsCells S.Store self.old.place cells
            → OnOk result (HoldsCells S.Store self.new.place cells) }
        ensures kept { IsClean S.Store self.new.place → IsOpen S.Store self.new.place
            → (cells : List Cell) → HoldsCells S.Store self.old.place cells
            → OnErr result (HoldsCells S.Store self.new.place cells) }

        // It leaves no transaction open, and none is open where its cells are told.
        ensures settles { IsSettled S.Store self.old.place → IsSettled S.Store self.new.place }
        ensures settled { IsSome (told_in S.Store self.new.place)
            → IsSettled S.Store self.new.place }

        // What each keeper ensures.
        ensures cell { IfOk result (λ cell. IfSome (told_in S.Store self.new.place)
            (λ cells. cell ≡ next_after tab key cells)) }
        ensures still { Stays (told_in S.Store self.old.place) (told_in S.Store self.new.place) }
        ensures counted { result ≡ Err KeepError.Failed → Rises self.old.faults self.new.faults }
        ensures faults_kept { self.old.faults ≤ self.new.faults }
    {
        let answer = self.place.next_after(tab, key);
        counted(&mut self.faults, answer)
    }
}
