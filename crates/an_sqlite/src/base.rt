ghost use Rattle.std.specs.Prelude.{◌≡◌, ◌<◌, ◌≤◌, ◌^◌, IfOk, IfSome, IsTrue, List, None, OnErr};
ghost use Rattle.std.specs.Prelude.{OnOk, false};
ghost use Rattle.an_keep.specs.declared.cell.Cell.{Cell};
ghost use Rattle.an_sqlite.specs.Ahead.{AreNext, HaveRead};
ghost use Rattle.an_sqlite.specs.Base.{Lists};
ghost use Rattle.an_sqlite.specs.Later.{ShowsBehind};
ghost use Rattle.an_sqlite.specs.Told.{GoesOn};
ghost use Rattle.an_keep.specs.Cells.{Ascend, first_of, next_after, put_changes};
ghost use Rattle.an_sqlite.specs.Tells.{Tells, cells_of};
ghost use Rattle.sqlite.specs.Held.{state};
ghost use Rattle.sqlite.specs.State.{HasCleanDisk};
ghost use Rattle.sqlite_trees.specs.View.{doubt};
ghost use Rattle.an_keep.specs.Cells.{is_behind};

use crate::ahead::Ahead;
use crate::row::cell_of;
use crate::statements;
use an_keep::{Cell, Change, KeepError};
use sqlite::{Alter, Connection, Row};

/// The last key that a row can have.
const LAST_KEY: u64 = (1 << 63) - 1;

/// An open database, whose table is made by the first call, and the rows that were read ahead.
#[derive(Drop)]
pub(crate) struct Base<S: Alter + Drop> {
    conn: Connection<S>,
    is_made: bool,
    ahead: Option<Ahead>,
}

impl<S: Alter + Drop> Base<S> {
    /// Takes no memory.
    pub(crate) fn new(conn: Connection<S>) -> Base<S>
        ensures { result ≡ record { conn = conn; is_made = false; ahead = None } }
    {
        Base {
            conn,
            is_made: false,
            ahead: None,
        }
    }

    pub(crate) fn into_connection(self) -> Connection<S>
        ensures { result ≡ self.conn }
    {
        let Base {
            conn,
            is_made: _,
            ahead: _,
        } = self;
        conn
    }

    /// Makes the table, where this base hasn't yet.
    #[tactic(auto, using(crate::proofs::FirstLemmas::made))]
    fn make(&mut self) -> Result<(), KeepError>
        ensures ahead { self.new.ahead ≡ self.old.ahead }
        ensures made { HasCleanDisk (state S.Store self.new.conn)
            → (cells : List Cell) → Lists S.Store self.old cells
            → OnOk result (Tells (state S.Store self.new.conn)
            × (cells_of (state S.Store self.new.conn) ≡ cells)) }
        ensures still { HasCleanDisk (state S.Store self.new.conn)
            → IsTrue (state S.Store self.new.conn).is_open
            → (cells : List Cell) → Lists S.Store self.old cells
            → OnErr result (Lists S.Store self.new cells) }
        ensures clean { doubt (state S.Store self.old.conn).is_clean
            ≤ doubt (state S.Store self.new.conn).is_clean }
        ensures goes_on { GoesOn S.Store self.old self.new }
    {
        if !self.is_made {
            statements::make(&mut self.conn)?;
            self.is_made = true;
        }
        Ok(())
    }

    /// Does all of these changes, or none. What was read ahead is dropped, whatever this answers.
    pub(crate) fn commit(&mut self, changes: &[Change]) -> Result<(), KeepError>
        ensures ahead { self.new.ahead ≡ None }
        ensures goes_on { GoesOn S.Store self.old self.new }
        ensures done { HasCleanDisk (state S.Store self.new.conn)
            → (cells : List Cell) → Lists S.Store self.old cells
            → OnOk result (Lists S.Store self.new (put_changes changes.now cells)) }
        ensures still { HasCleanDisk (state S.Store self.new.conn)
            → IsTrue (state S.Store self.new.conn).is_open
            → (cells : List Cell) → Lists S.Store self.old cells
            → OnErr result (Lists S.Store self.new cells) }
    {
        self.ahead = None;
        self.make()?;
        statements::commit(&mut self.conn, changes)
    }

    pub(crate) fn first(&mut self) -> Result<Option<Cell>, KeepError>
        ensures goes_on { GoesOn S.Store self.old self.new }
        ensures cell { HasCleanDisk (state S.Store self.new.conn)
            → (cells : List Cell) → Lists S.Store self.old cells
            → IfOk result (λ cell. cell ≡ first_of cells) }
        ensures stays { HasCleanDisk (state S.Store self.new.conn)
            → (cells : List Cell) → Lists S.Store self.old cells
            → OnOk result (Lists S.Store self.new cells) }
        ensures still { HasCleanDisk (state S.Store self.new.conn)
            → IsTrue (state S.Store self.new.conn).is_open
            → (cells : List Cell) → Lists S.Store self.old cells
            → OnErr result (Lists S.Store self.new cells) }
    {
        self.make()?;
        match statements::first(&mut self.conn)? {
            Some(row) => Ok(Some(cell_of(&row)?)),
            None => Ok(None),
        }
    }

    /// The first cell behind this table and key. It takes no time for the cells before them.
    pub(crate) fn next_after(&mut self, tab: u8, key: u64) -> Result<Option<Cell>, KeepError>
        ensures goes_on { GoesOn S.Store self.old self.new }
        ensures behind { IfOk result
            (λ cell. IfSome cell (λ cell. IsTrue (is_behind tab key cell))) }
        ensures cell { HasCleanDisk (state S.Store self.new.conn)
            → (cells : List Cell) → Lists S.Store self.old cells
            → IfOk result (λ cell. cell ≡ next_after tab key cells) }
        ensures stays { HasCleanDisk (state S.Store self.new.conn)
            → (cells : List Cell) → Lists S.Store self.old cells
            → OnOk result (Lists S.Store self.new cells) }
        ensures still { HasCleanDisk (state S.Store self.new.conn)
            → IsTrue (state S.Store self.new.conn).is_open
            → (cells : List Cell) → Lists S.Store self.old cells
            → OnErr result (Lists S.Store self.new cells) }
    {
        self.make()?;
        self.next_made(tab, key.min(LAST_KEY))
    }

    /// The first cell behind this table and key, which a row can have, where the table is made.
    fn next_made(&mut self, tab: u8, key: u64) -> Result<Option<Cell>, KeepError>
        requires { key < 2 ^ 63 }
        ensures made { self.new.is_made ≡ self.old.is_made }
        ensures behind { IfOk result
            (λ cell. IfSome cell (λ cell. IsTrue (is_behind tab key cell))) }
        ensures fits { IfOk result (λ cell. IfSome cell (λ cell. cell.key < 2 ^ 63)) }
        ensures cell { HasCleanDisk (state S.Store self.new.conn)
            → Tells (state S.Store self.old.conn)
            → AreNext self.old.ahead (cells_of (state S.Store self.old.conn))
            → IfOk result (λ cell. cell
            ≡ next_after tab key (cells_of (state S.Store self.old.conn))) }
        ensures ahead { HasCleanDisk (state S.Store self.new.conn)
            → Tells (state S.Store self.old.conn)
            → AreNext self.old.ahead (cells_of (state S.Store self.old.conn))
            → AreNext self.new.ahead (cells_of (state S.Store self.old.conn)) }
        ensures kept { HasCleanDisk (state S.Store self.new.conn)
            → Tells (state S.Store self.old.conn)
            → OnOk result ((state S.Store self.new.conn).now ≡ (state S.Store self.old.conn).now) }
        ensures still { HasCleanDisk (state S.Store self.new.conn)
            → IsTrue (state S.Store self.new.conn).is_open
            → Tells (state S.Store self.old.conn)
            → OnErr result ((state S.Store self.new.conn).now ≡ (state S.Store self.old.conn).now) }
        ensures open { HasCleanDisk (state S.Store self.new.conn)
            → IsTrue (state S.Store self.new.conn).is_open
            → IsTrue (state S.Store self.old.conn).is_open }
        ensures clean { doubt (state S.Store self.old.conn).is_clean
            ≤ doubt (state S.Store self.new.conn).is_clean }
        ensures settled { (state S.Store self.old.conn).in_transaction ≡ false
            → (state S.Store self.new.conn).in_transaction ≡ false }
    {
        if let Some(cell) = self.next_ahead(tab, key)? {
            return Ok(Some(cell));
        }
        self.read_ahead(tab, key)?;
        self.next_ahead(tab, key)
    }

    /// The next cell of those that were read ahead, where they stand at this table and key. A row
    /// that is no cell is met by each call that asks for it.
    fn next_ahead(&mut self, tab: u8, key: u64) -> Result<Option<Cell>, KeepError>
        ensures same { self.new ≡ record self.old { ahead = self.new.ahead } }
        ensures behind { IfOk result
            (λ cell. IfSome cell (λ cell. IsTrue (is_behind tab key cell))) }
        ensures fits { IfOk result (λ cell. IfSome cell (λ cell. cell.key < 2 ^ 63)) }
        ensures next { (cells : List Cell) → Ascend cells → AreNext self.old.ahead cells
            → IfOk result (λ cell. IfSome cell (λ cell. next_after tab key cells ≡ Some cell)) }
        ensures left { (cells : List Cell) → Ascend cells → AreNext self.old.ahead cells
            → AreNext self.new.ahead cells }
        ensures none { (cells : List Cell) → Ascend cells → HaveRead tab key cells self.old.ahead
            → result ≡ Ok None → next_after tab key cells ≡ None }
    {
        match &mut self.ahead {
            Some(ahead) => ahead.next_after(tab, key),
            None => Ok(None),
        }
    }

    /// Reads the first rows behind this table and key.
    fn read_ahead(&mut self, tab: u8, key: u64) -> Result<(), KeepError>
        requires { key < 2 ^ 63 }
        ensures made { self.new.is_made ≡ self.old.is_made }
        ensures read { HasCleanDisk (state S.Store self.new.conn)
            → Tells (state S.Store self.old.conn)
            → OnOk result
            (HaveRead tab key (cells_of (state S.Store self.old.conn)) self.new.ahead) }
        ensures dropped { OnErr result (self.new.ahead ≡ None) }
        ensures kept { HasCleanDisk (state S.Store self.new.conn)
            → Tells (state S.Store self.old.conn)
            → OnOk result ((state S.Store self.new.conn).now ≡ (state S.Store self.old.conn).now) }
        ensures still { HasCleanDisk (state S.Store self.new.conn)
            → IsTrue (state S.Store self.new.conn).is_open
            → Tells (state S.Store self.old.conn)
            → OnErr result ((state S.Store self.new.conn).now ≡ (state S.Store self.old.conn).now) }
        ensures open { HasCleanDisk (state S.Store self.new.conn)
            → IsTrue (state S.Store self.new.conn).is_open
            → IsTrue (state S.Store self.old.conn).is_open }
        ensures clean { doubt (state S.Store self.old.conn).is_clean
            ≤ doubt (state S.Store self.new.conn).is_clean }
        ensures settled { (state S.Store self.old.conn).in_transaction ≡ false
            → (state S.Store self.new.conn).in_transaction ≡ false }
    {
        // The rows before these make room for them.
        drop(self.ahead.take());
        let rows = rows_behind(&mut self.conn, tab, key)?;
        self.ahead = Some(Ahead::new(tab, key, rows));
        Ok(())
    }
}

/// The first rows behind this table and key: those of the table, or else those of later tables.
fn rows_behind<S: Alter>(conn: &mut Connection<S>, tab: u8, key: u64) -> Result<Vec<Row>, KeepError>
    requires { key < 2 ^ 63 }
    ensures rows { HasCleanDisk (state S.Store conn.new) → Tells (state S.Store conn.old)
        → IfOk result (λ rows. ShowsBehind tab key (cells_of (state S.Store conn.old)) rows.items) }
    ensures kept { HasCleanDisk (state S.Store conn.new) → Tells (state S.Store conn.old)
        → OnOk result ((state S.Store conn.new).now ≡ (state S.Store conn.old).now) }
    ensures still { HasCleanDisk (state S.Store conn.new) → IsTrue (state S.Store conn.new).is_open
        → Tells (state S.Store conn.old)
        → OnErr result ((state S.Store conn.new).now ≡ (state S.Store conn.old).now) }
    ensures open { HasCleanDisk (state S.Store conn.new) → IsTrue (state S.Store conn.new).is_open
        → IsTrue (state S.Store conn.old).is_open }
    ensures clean { doubt (state S.Store conn.old).is_clean
        ≤ doubt (state S.Store conn.new).is_clean }
    ensures settled { (state S.Store conn.old).in_transaction ≡ false
        → (state S.Store conn.new).in_transaction ≡ false }
{
    let rows = statements::later_in(conn, tab, key)?;
    if rows.is_empty() {
        return statements::in_later(conn, tab);
    }
    Ok(rows)
}
