ghost use Rattle.std.specs.Prelude.{◌≡◌, IfOk, IfSome, List, OnErr, OnOk};
ghost use Rattle.an_keep.specs.Cells.{first_of, next_after, put_changes};
ghost use Rattle.an_keep.specs.declared.cell.Cell.{Cell};
ghost use Rattle.an_keep.specs.Keeper.{Stays, Turns};
ghost use Rattle.an_sqlite.specs.Connecting.{HoldsCells, IsClean, IsOpen, IsSettled};
ghost use Rattle.an_sqlite.specs.Connecting.{came_in, connection_in, told_in};

use crate::teller::Teller;
use an_keep::{Cell, Change, KeepError};
use sqlite::{Alter, Connection};

/// Where the table stands.
#[derive(Drop)]
pub(crate) enum Connecting<S: Alter + Drop> {
    Open(Teller<S>),
    /// The database wasn't opened, for this reason.
    Refused(KeepError),
}

impl<S: Alter + Drop> Connecting<S> {
    /// The connection, where the database is open.
    pub(crate) fn into_connection(self) -> Option<Connection<S>>
        ensures { result ≡ connection_in self }
    {
        match self {
            Connecting::Open(teller) => Some(teller.into_connection()),
            Connecting::Refused(_) => None,
        }
    }

    pub(crate) fn commit(&mut self, changes: &[Change]) -> Result<(), KeepError>
        ensures came { came_in self.new ≡ came_in self.old }
        ensures settles { IsSettled S.Store self.old → IsSettled S.Store self.new }
        ensures turns { OnOk result (Turns (put_changes changes.now)
            (told_in S.Store self.old) (told_in S.Store self.new)) }
        ensures stays { OnErr result (Stays (told_in S.Store self.old)
            (told_in S.Store self.new)) }
        ensures done { IsClean S.Store self.new → (cells : List Cell)
            → HoldsCells S.Store self.old cells
            → OnOk result (HoldsCells S.Store self.new (put_changes changes.now cells)) }
        ensures still { IsClean S.Store self.new → IsOpen S.Store self.new → (cells : List Cell)
            → HoldsCells S.Store self.old cells
            → OnErr result (HoldsCells S.Store self.new cells) }
    {
        match self {
            Connecting::Open(teller) => teller.commit(changes),
            Connecting::Refused(error) => Err(*error),
        }
    }

    pub(crate) fn first(&mut self) -> Result<Option<Cell>, KeepError>
        ensures came { came_in self.new ≡ came_in self.old }
        ensures settles { IsSettled S.Store self.old → IsSettled S.Store self.new }
        ensures gives { IfOk result (λ cell. IfSome (told_in S.Store self.new)
            (λ cells. cell ≡ first_of cells)) }
        ensures told { Stays (told_in S.Store self.old) (told_in S.Store self.new) }
        ensures cell { IsClean S.Store self.new → (cells : List Cell)
            → HoldsCells S.Store self.old cells
            → IfOk result (λ cell. cell ≡ first_of cells) }
        ensures stays { IsClean S.Store self.new → (cells : List Cell)
            → HoldsCells S.Store self.old cells
            → OnOk result (HoldsCells S.Store self.new cells) }
        ensures still { IsClean S.Store self.new → IsOpen S.Store self.new → (cells : List Cell)
            → HoldsCells S.Store self.old cells
            → OnErr result (HoldsCells S.Store self.new cells) }
    {
        match self {
            Connecting::Open(teller) => teller.first(),
            Connecting::Refused(error) => Err(*error),
        }
    }

    pub(crate) fn next_after(&mut self, tab: u8, key: u64) -> Result<Option<Cell>, KeepError>
        ensures came { came_in self.new ≡ came_in self.old }
        ensures settles { IsSettled S.Store self.old → IsSettled S.Store self.new }
        ensures gives { IfOk result (λ cell. IfSome (told_in S.Store self.new)
            (λ cells. cell ≡ next_after tab key cells)) }
        ensures told { Stays (told_in S.Store self.old) (told_in S.Store self.new) }
        ensures cell { IsClean S.Store self.new → (cells : List Cell)
            → HoldsCells S.Store self.old cells
            → IfOk result (λ cell. cell ≡ next_after tab key cells) }
        ensures stays { IsClean S.Store self.new → (cells : List Cell)
            → HoldsCells S.Store self.old cells
            → OnOk result (HoldsCells S.Store self.new cells) }
        ensures still { IsClean S.Store self.new → IsOpen S.Store self.new → (cells : List Cell)
            → HoldsCells S.Store self.old cells
            → OnErr result (HoldsCells S.Store self.new cells) }
    {
        match self {
            Connecting::Open(teller) => teller.next_after(tab, key),
            Connecting::Refused(error) => Err(*error),
        }
    }
}
