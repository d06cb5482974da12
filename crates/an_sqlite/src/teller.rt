ghost use Rattle.std.specs.Prelude.{◌≡◌, IfOk, IfSome, IsTrue, List, None, OnErr, OnOk, false};
ghost use Rattle.an_keep.specs.Cells.{Ascend, first_of, next_after, put_changes};
ghost use Rattle.an_keep.specs.Keeper.{Stays, Turns};
ghost use Rattle.an_keep.specs.declared.cell.Cell.{Cell};
ghost use Rattle.an_sqlite.specs.Base.{Lists};
ghost use Rattle.an_sqlite.specs.Found.{may_tell};
ghost use Rattle.an_sqlite.specs.Told.{cells_in, is_well, told_by};
ghost use Rattle.sqlite.specs.Held.{state};
ghost use Rattle.sqlite.specs.State.{HasCleanDisk, IsLive};

use crate::base::Base;
use an_keep::{Cell, Change, KeepError};
use sqlite::{Alter, Connection};
use std::snapshot::Snapshot;

/// A base that tells its cells, where the connection came with no table at all or with exactly the
/// table of cells, and then has no transaction open between calls. Nothing is tested for that:
/// contracts alone see how it came.
#[derive(Drop)]
pub(crate) struct Teller<S: Alter + Drop> {
    base: Base<S>,
    /// The connection as it came here. It takes no bytes.
    came: Snapshot<Connection<S>>,
    ghost known: { IsTrue (may_tell (state S.Store came.value))
        → IsTrue (is_well (state S.Store base.conn))
        → ∥ Lists S.Store base (cells_in (state S.Store base.conn))
        × ((state S.Store base.conn).in_transaction ≡ false) ∥₁ },
}

impl<S: Alter + Drop> Teller<S> {
    /// Takes no memory.
    #[tactic(auto, using(crate::proofs::ToldLemmas::knows_found))]
    pub(crate) fn new(conn: Connection<S>) -> Teller<S>
        ensures base { result.base ≡ record { conn = conn; is_made = false; ahead = None } }
        ensures came { result.came.value ≡ conn }
        ensures live { IsLive (state S.Store conn) }
    {
        // It is asked for what it ensures: that the rows obey the schema.
        let _ = conn.schema();
        let came = Snapshot::of(&conn);
        Teller {
            base: Base::new(conn),
            came,
        }
    }

    pub(crate) fn into_connection(self) -> Connection<S>
        ensures { result ≡ self.base.conn }
    {
        let Teller { base, came: _ } = self;
        base.into_connection()
    }

    /// Does all of these changes, or none.
    pub(crate) fn commit(&mut self, changes: &[Change]) -> Result<(), KeepError>
        ensures came { self.new.came ≡ self.old.came }
        ensures settles { (state S.Store self.old.base.conn).in_transaction ≡ false
            → (state S.Store self.new.base.conn).in_transaction ≡ false }
        ensures turns { OnOk result (Turns (put_changes changes.now)
            (told_by S.Store self.old.came.value self.old.base)
            (told_by S.Store self.new.came.value self.new.base)) }
        ensures stays { OnErr result (Stays (told_by S.Store self.old.came.value self.old.base)
            (told_by S.Store self.new.came.value self.new.base)) }
        ensures done { HasCleanDisk (state S.Store self.new.base.conn)
            → (cells : List Cell) → Lists S.Store self.old.base cells
            → OnOk result (Lists S.Store self.new.base (put_changes changes.now cells)) }
        ensures still { HasCleanDisk (state S.Store self.new.base.conn)
            → IsTrue (state S.Store self.new.base.conn).is_open
            → (cells : List Cell) → Lists S.Store self.old.base cells
            → OnErr result (Lists S.Store self.new.base cells) }
    {
        self.base.commit(changes)
    }

    pub(crate) fn first(&mut self) -> Result<Option<Cell>, KeepError>
        ensures came { self.new.came ≡ self.old.came }
        ensures settles { (state S.Store self.old.base.conn).in_transaction ≡ false
            → (state S.Store self.new.base.conn).in_transaction ≡ false }
        ensures gives { IfOk result (λ cell. IfSome
            (told_by S.Store self.new.came.value self.new.base) (λ cells. cell ≡ first_of cells)) }
        ensures told { Stays (told_by S.Store self.old.came.value self.old.base)
            (told_by S.Store self.new.came.value self.new.base) }
        ensures cell { HasCleanDisk (state S.Store self.new.base.conn)
            → (cells : List Cell) → Lists S.Store self.old.base cells
            → IfOk result (λ cell. cell ≡ first_of cells) }
        ensures stays { HasCleanDisk (state S.Store self.new.base.conn)
            → (cells : List Cell) → Lists S.Store self.old.base cells
            → OnOk result (Lists S.Store self.new.base cells) }
        ensures still { HasCleanDisk (state S.Store self.new.base.conn)
            → IsTrue (state S.Store self.new.base.conn).is_open
            → (cells : List Cell) → Lists S.Store self.old.base cells
            → OnErr result (Lists S.Store self.new.base cells) }
    {
        self.base.first()
    }

    /// The first cell behind this table and key. It takes no time for the cells before them.
    pub(crate) fn next_after(&mut self, tab: u8, key: u64) -> Result<Option<Cell>, KeepError>
        ensures came { self.new.came ≡ self.old.came }
        ensures settles { (state S.Store self.old.base.conn).in_transaction ≡ false
            → (state S.Store self.new.base.conn).in_transaction ≡ false }
        ensures gives { IfOk result (λ cell. IfSome
            (told_by S.Store self.new.came.value self.new.base)
            (λ cells. cell ≡ next_after tab key cells)) }
        ensures told { Stays (told_by S.Store self.old.came.value self.old.base)
            (told_by S.Store self.new.came.value self.new.base) }
        ensures cell { HasCleanDisk (state S.Store self.new.base.conn)
            → (cells : List Cell) → Lists S.Store self.old.base cells
            → IfOk result (λ cell. cell ≡ next_after tab key cells) }
        ensures stays { HasCleanDisk (state S.Store self.new.base.conn)
            → (cells : List Cell) → Lists S.Store self.old.base cells
            → OnOk result (Lists S.Store self.new.base cells) }
        ensures still { HasCleanDisk (state S.Store self.new.base.conn)
            → IsTrue (state S.Store self.new.base.conn).is_open
            → (cells : List Cell) → Lists S.Store self.old.base cells
            → OnErr result (Lists S.Store self.new.base cells) }
    {
        self.base.next_after(tab, key)
    }
}
