ghost use Rattle.std.specs.Prelude.{[], ◌∷◌, ◌≡◌, ◌≤◌, ◌↔◌, ◌⊎◌, ◌-◌, ◌^◌, min, pos, IfErr};
ghost use Rattle.std.specs.Prelude.{IfOk, IsTrue, OnErr, OnOk, false};
ghost use Rattle.an_keep.specs.Cells.{first_of, put_change, put_changes};
ghost use Rattle.an_sqlite.specs.Cells.{ShowsIf};
ghost use Rattle.an_sqlite.specs.Later.{ShowsFirst, in_later_text, is_in_later, is_later_in};
ghost use Rattle.an_sqlite.specs.Later.{later_in_text};
ghost use Rattle.an_sqlite.specs.Statements.{put_text, take_text};
ghost use Rattle.an_sqlite.specs.Table.{no_schema};
ghost use Rattle.an_sqlite.specs.Tells.{KeepsCommit, Tells, Turns, cells_of};
ghost use Rattle.sqlite.specs.Held.{state};
ghost use Rattle.sqlite.specs.State.{ExecutesInside, FailsToQuery, HasCleanDisk, Shown};
ghost use Rattle.sqlite_trees.specs.View.{doubt};
ghost use Rattle.sqlite_value.specs.declared.value.Value.TheVariants.{Blob, Int};

use an_keep::{Change, KeepError};
use sqlite::{Alter, Connection, Error, ErrorCode, Row, Transaction, params};

/// The table of the cells.
const TABLE: &str = "CREATE TABLE IF NOT EXISTS cell (tab INTEGER NOT NULL, key INTEGER NOT NULL, \
val BLOB NOT NULL, PRIMARY KEY (tab, key), CHECK (tab >= 0 AND tab <= 255), CHECK (key >= 0)) \
STRICT";

const PUT: &str = "INSERT INTO cell (tab, key, val) VALUES (?1, ?2, ?3) \
ON CONFLICT (tab, key) DO UPDATE SET val = excluded.val";

const TAKE: &str = "DELETE FROM cell WHERE tab = ?1 AND key = ?2";

const FIRST: &str = "SELECT tab, key, val FROM cell ORDER BY tab, key LIMIT 1";

// The rows behind a place are asked for in two statements, since one with OR walks from the first
// row of all. Each answers up to 100 rows, since a statement costs as much as ten of them.
const LATER_IN: &str = "SELECT tab, key, val FROM cell WHERE tab = ?1 AND key > ?2 \
ORDER BY tab, key LIMIT 100";

const IN_LATER: &str = "SELECT tab, key, val FROM cell WHERE tab > ?1 ORDER BY tab, key LIMIT 100";

/// Makes the table where it isn't there, in a transaction of its own.
pub(crate) fn make<S: Alter>(conn: &mut Connection<S>) -> Result<(), KeepError>
    ensures made { HasCleanDisk (state S.Store conn.new)
        → (state S.Store conn.old).now.schema ≡ no_schema
        → OnOk result (Tells (state S.Store conn.new)
        × (cells_of (state S.Store conn.new) ≡ [])) }
    ensures again { HasCleanDisk (state S.Store conn.new) → Tells (state S.Store conn.old)
        → OnOk result (Tells (state S.Store conn.new)
        × (cells_of (state S.Store conn.new) ≡ cells_of (state S.Store conn.old))) }
    ensures still { HasCleanDisk (state S.Store conn.new) → IsTrue (state S.Store conn.new).is_open
        → OnErr result ((state S.Store conn.new).now ≡ (state S.Store conn.old).now) }
    ensures open { HasCleanDisk (state S.Store conn.new) → IsTrue (state S.Store conn.new).is_open
        → IsTrue (state S.Store conn.old).is_open }
    ensures clean { doubt (state S.Store conn.old).is_clean
        ≤ doubt (state S.Store conn.new).is_clean }
    ensures settled { (state S.Store conn.old).in_transaction ≡ false
        → (state S.Store conn.new).in_transaction ≡ false }
{
    match do_make(conn) {
        Ok(()) => Ok(()),
        Err(error) => Err(refusal(error)),
    }
}

#[tactic(auto, using(crate::proofs::FirstLemmas::kept_made))]
fn do_make<S: Alter>(conn: &mut Connection<S>) -> Result<(), Error>
    ensures made { HasCleanDisk (state S.Store conn.new)
        → (state S.Store conn.old).now.schema ≡ no_schema
        → OnOk result (Tells (state S.Store conn.new)
        × (cells_of (state S.Store conn.new) ≡ [])) }
    ensures again { HasCleanDisk (state S.Store conn.new) → Tells (state S.Store conn.old)
        → OnOk result (Tells (state S.Store conn.new)
        × (cells_of (state S.Store conn.new) ≡ cells_of (state S.Store conn.old))) }
    ensures still { HasCleanDisk (state S.Store conn.new) → IsTrue (state S.Store conn.new).is_open
        → OnErr result ((state S.Store conn.new).now ≡ (state S.Store conn.old).now) }
    ensures open { HasCleanDisk (state S.Store conn.new) → IsTrue (state S.Store conn.new).is_open
        → IsTrue (state S.Store conn.old).is_open }
    ensures clean { doubt (state S.Store conn.old).is_clean
        ≤ doubt (state S.Store conn.new).is_clean }
    ensures settled { (state S.Store conn.old).in_transaction ≡ false
        → (state S.Store conn.new).in_transaction ≡ false }
{
    if !conn.is_autocommit() {
        return Err(Error::SqliteFailure(ErrorCode::TransactionState));
    }
    let mut tx = conn.transaction();
    make_in(&mut tx)?;
    tx.commit()?;
    Ok(())
}

fn make_in<S: Alter>(tx: &mut Transaction<'_, S>) -> Result<usize, Error>
    ensures same_reference { tx.new.conn.ghost_name ≡ tx.old.conn.ghost_name }
    ensures made { HasCleanDisk (state S.Store tx.new.conn.now)
        → IsTrue (state S.Store tx.old.conn.now).in_transaction
        → (state S.Store tx.old.conn.now).now.schema ≡ no_schema
        → OnOk result (Tells (state S.Store tx.new.conn.now)
        × (cells_of (state S.Store tx.new.conn.now) ≡ [])) }
    ensures again { HasCleanDisk (state S.Store tx.new.conn.now)
        → IsTrue (state S.Store tx.old.conn.now).in_transaction
        → Tells (state S.Store tx.old.conn.now)
        → OnOk result (Tells (state S.Store tx.new.conn.now)
        × (cells_of (state S.Store tx.new.conn.now) ≡ cells_of (state S.Store tx.old.conn.now))) }
    ensures inside { HasCleanDisk (state S.Store tx.new.conn.now)
        → IsTrue (state S.Store tx.old.conn.now).in_transaction
        → OnOk result (IsTrue (state S.Store tx.new.conn.now).in_transaction) }
    ensures kept { HasCleanDisk (state S.Store tx.new.conn.now)
        → IsTrue (state S.Store tx.old.conn.now).in_transaction
        → KeepsCommit (state S.Store tx.old.conn.now) (state S.Store tx.new.conn.now) }
    ensures clean { doubt (state S.Store tx.old.conn.now).is_clean
        ≤ doubt (state S.Store tx.new.conn.now).is_clean }
{
    tx.execute(TABLE, &[])
}

/// The first row, outside a transaction.
#[tactic(auto, using(crate::proofs::OpenLemmas::queried))]
pub(crate) fn first<S: Alter>(conn: &mut Connection<S>) -> Result<Option<Row>, KeepError>
    ensures row { HasCleanDisk (state S.Store conn.new) → Tells (state S.Store conn.old)
        → IfOk result (ShowsIf (first_of (cells_of (state S.Store conn.old)))) }
    ensures kept { HasCleanDisk (state S.Store conn.new) → Tells (state S.Store conn.old)
        → OnOk result ((state S.Store conn.new).now ≡ (state S.Store conn.old).now) }
    ensures still { HasCleanDisk (state S.Store conn.new) → IsTrue (state S.Store conn.new).is_open
        → Tells (state S.Store conn.old)
        → OnErr result ((state S.Store conn.new).now ≡ (state S.Store conn.old).now) }
    ensures open { HasCleanDisk (state S.Store conn.new) → IsTrue (state S.Store conn.new).is_open
        → IsTrue (state S.Store conn.old).is_open }
    ensures clean { doubt (state S.Store conn.old).is_clean
        ≤ doubt (state S.Store conn.new).is_clean }
    ensures settled { (state S.Store conn.old).in_transaction ≡ false
        → (state S.Store conn.new).in_transaction ≡ false }
{
    if !conn.is_autocommit() {
        return Err(KeepError::Failed);
    }
    match conn.query_row(FIRST, &[]) {
        Ok(row) => Ok(Some(row)),
        Err(Error::QueryReturnedNoRows) => Ok(None),
        Err(error) => Err(refusal(error)),
    }
}

/// The first rows of a table behind a key, outside a transaction.
#[tactic(auto, using(crate::proofs::FirstLemmas::keeps_refused))]
pub(crate) fn later_in<S: Alter>(
    conn: &mut Connection<S>,
    tab: u8,
    key: u64,
) -> Result<Vec<Row>, KeepError>
    ensures rows { HasCleanDisk (state S.Store conn.new) → Tells (state S.Store conn.old)
        → IfOk result (λ rows. ShowsFirst (is_later_in tab (min key (2 ^ 63 - 1)))
        (cells_of (state S.Store conn.old)) rows.items) }
    ensures kept { HasCleanDisk (state S.Store conn.new) → Tells (state S.Store conn.old)
        → OnOk result ((state S.Store conn.new).now ≡ (state S.Store conn.old).now) }
    ensures still { HasCleanDisk (state S.Store conn.new) → IsTrue (state S.Store conn.new).is_open
        → OnErr result ((state S.Store conn.new).now ≡ (state S.Store conn.old).now) }
    ensures open { HasCleanDisk (state S.Store conn.new) → IsTrue (state S.Store conn.new).is_open
        → IsTrue (state S.Store conn.old).is_open }
    ensures clean { doubt (state S.Store conn.old).is_clean
        ≤ doubt (state S.Store conn.new).is_clean }
    ensures settled { (state S.Store conn.old).in_transaction ≡ false
        → (state S.Store conn.new).in_transaction ≡ false }
{
    if !conn.is_autocommit() {
        return Err(KeepError::Failed);
    }
    match ask_later_in(conn, tab, key_or_last(key)) {
        Ok(rows) => Ok(rows),
        Err(error) => Err(refusal(error)),
    }
}

fn ask_later_in<S: Alter>(conn: &mut Connection<S>, tab: u8, key: i64) -> Result<Vec<Row>, Error>
    ensures ok { HasCleanDisk (state S.Store conn.new)
        → IfOk result (λ rows. Shown later_in_text (Int (pos tab) ∷ Int key ∷ [])
        (state S.Store conn.old) (state S.Store conn.new) rows.items) }
    ensures err { HasCleanDisk (state S.Store conn.new)
        → IfErr result (FailsToQuery later_in_text (Int (pos tab) ∷ Int key ∷ [])
        (state S.Store conn.old) (state S.Store conn.new)) }
    ensures open { HasCleanDisk (state S.Store conn.new) → IsTrue (state S.Store conn.new).is_open
        → IsTrue (state S.Store conn.old).is_open }
    ensures clean { doubt (state S.Store conn.old).is_clean
        ≤ doubt (state S.Store conn.new).is_clean }
    ensures settled { (state S.Store conn.old).in_transaction ≡ false
        → (state S.Store conn.new).in_transaction ≡ false }
{
    conn.query_all(LATER_IN, params![u32::from(tab), key])
}

/// The first rows of the tables behind a table, outside a transaction.
#[tactic(auto, using(crate::proofs::FirstLemmas::keeps_refused))]
pub(crate) fn in_later<S: Alter>(conn: &mut Connection<S>, tab: u8) -> Result<Vec<Row>, KeepError>
    ensures rows { HasCleanDisk (state S.Store conn.new) → Tells (state S.Store conn.old)
        → IfOk result (λ rows. ShowsFirst (is_in_later tab) (cells_of (state S.Store conn.old))
        rows.items) }
    ensures kept { HasCleanDisk (state S.Store conn.new) → Tells (state S.Store conn.old)
        → OnOk result ((state S.Store conn.new).now ≡ (state S.Store conn.old).now) }
    ensures still { HasCleanDisk (state S.Store conn.new) → IsTrue (state S.Store conn.new).is_open
        → OnErr result ((state S.Store conn.new).now ≡ (state S.Store conn.old).now) }
    ensures open { HasCleanDisk (state S.Store conn.new) → IsTrue (state S.Store conn.new).is_open
        → IsTrue (state S.Store conn.old).is_open }
    ensures clean { doubt (state S.Store conn.old).is_clean
        ≤ doubt (state S.Store conn.new).is_clean }
    ensures settled { (state S.Store conn.old).in_transaction ≡ false
        → (state S.Store conn.new).in_transaction ≡ false }
{
    if !conn.is_autocommit() {
        return Err(KeepError::Failed);
    }
    match ask_in_later(conn, tab) {
        Ok(rows) => Ok(rows),
        Err(error) => Err(refusal(error)),
    }
}

fn ask_in_later<S: Alter>(conn: &mut Connection<S>, tab: u8) -> Result<Vec<Row>, Error>
    ensures ok { HasCleanDisk (state S.Store conn.new)
        → IfOk result (λ rows. Shown in_later_text (Int (pos tab) ∷ [])
        (state S.Store conn.old) (state S.Store conn.new) rows.items) }
    ensures err { HasCleanDisk (state S.Store conn.new)
        → IfErr result (FailsToQuery in_later_text (Int (pos tab) ∷ [])
        (state S.Store conn.old) (state S.Store conn.new)) }
    ensures open { HasCleanDisk (state S.Store conn.new) → IsTrue (state S.Store conn.new).is_open
        → IsTrue (state S.Store conn.old).is_open }
    ensures clean { doubt (state S.Store conn.old).is_clean
        ≤ doubt (state S.Store conn.new).is_clean }
    ensures settled { (state S.Store conn.old).in_transaction ≡ false
        → (state S.Store conn.new).in_transaction ≡ false }
{
    conn.query_all(IN_LATER, params![u32::from(tab)])
}

/// Does all of these changes in one transaction, or none.
pub(crate) fn commit<S: Alter>(
    conn: &mut Connection<S>,
    changes: &[Change],
) -> Result<(), KeepError>
    ensures done { HasCleanDisk (state S.Store conn.new) → Tells (state S.Store conn.old)
        → OnOk result (Tells (state S.Store conn.new) × (cells_of (state S.Store conn.new)
        ≡ put_changes changes.now (cells_of (state S.Store conn.old)))) }
    ensures ended { OnOk result ((state S.Store conn.new).in_transaction ≡ false) }
    ensures still { HasCleanDisk (state S.Store conn.new) → IsTrue (state S.Store conn.new).is_open
        → OnErr result ((state S.Store conn.new).now ≡ (state S.Store conn.old).now) }
    ensures open { HasCleanDisk (state S.Store conn.new) → IsTrue (state S.Store conn.new).is_open
        → IsTrue (state S.Store conn.old).is_open }
    ensures clean { doubt (state S.Store conn.old).is_clean
        ≤ doubt (state S.Store conn.new).is_clean }
    ensures settled { (state S.Store conn.old).in_transaction ≡ false
        → (state S.Store conn.new).in_transaction ≡ false }
{
    match do_all(conn, changes) {
        Ok(()) => Ok(()),
        Err(error) => Err(refusal(error)),
    }
}

fn do_all<S: Alter>(conn: &mut Connection<S>, changes: &[Change]) -> Result<(), Error>
    ensures done { HasCleanDisk (state S.Store conn.new) → Tells (state S.Store conn.old)
        → OnOk result (Tells (state S.Store conn.new) × (cells_of (state S.Store conn.new)
        ≡ put_changes changes.now (cells_of (state S.Store conn.old)))) }
    ensures ended { OnOk result ((state S.Store conn.new).in_transaction ≡ false) }
    ensures still { HasCleanDisk (state S.Store conn.new) → IsTrue (state S.Store conn.new).is_open
        → OnErr result ((state S.Store conn.new).now ≡ (state S.Store conn.old).now) }
    ensures open { HasCleanDisk (state S.Store conn.new) → IsTrue (state S.Store conn.new).is_open
        → IsTrue (state S.Store conn.old).is_open }
    ensures clean { doubt (state S.Store conn.old).is_clean
        ≤ doubt (state S.Store conn.new).is_clean }
    ensures settled { (state S.Store conn.old).in_transaction ≡ false
        → (state S.Store conn.new).in_transaction ≡ false }
{
    if !conn.is_autocommit() {
        return Err(Error::SqliteFailure(ErrorCode::TransactionState));
    }
    let mut tx = conn.transaction();
    change_all(&mut tx, changes)?;
    tx.commit()?;
    Ok(())
}

/// Does all of these changes, one after the other.
#[tactic(auto, using(crate::proofs::ChangeLemmas::changes))]
fn change_all<S: Alter>(tx: &mut Transaction<'_, S>, changes: &[Change]) -> Result<(), Error>
    ensures same_reference { tx.new.conn.ghost_name ≡ tx.old.conn.ghost_name }
    ensures done { HasCleanDisk (state S.Store tx.new.conn.now)
        → IsTrue (state S.Store tx.old.conn.now).in_transaction
        → Tells (state S.Store tx.old.conn.now)
        → OnOk result (Turns (put_changes changes.now) (state S.Store tx.old.conn.now)
        (state S.Store tx.new.conn.now)) }
    ensures inside { HasCleanDisk (state S.Store tx.new.conn.now)
        → IsTrue (state S.Store tx.old.conn.now).in_transaction
        → OnOk result (IsTrue (state S.Store tx.new.conn.now).in_transaction) }
    ensures kept { HasCleanDisk (state S.Store tx.new.conn.now)
        → IsTrue (state S.Store tx.old.conn.now).in_transaction
        → KeepsCommit (state S.Store tx.old.conn.now) (state S.Store tx.new.conn.now) }
    ensures clean { doubt (state S.Store tx.old.conn.now).is_clean
        ≤ doubt (state S.Store tx.new.conn.now).is_clean }
{
    for change in changes {
        do_change(tx, change)?;
    }
    Ok(())
}

/// Does one change.
#[tactic(auto, using(crate::proofs::ChangeLemmas::change))]
fn do_change<S: Alter>(tx: &mut Transaction<'_, S>, change: &Change) -> Result<usize, Error>
    ensures same_reference { tx.new.conn.ghost_name ≡ tx.old.conn.ghost_name }
    ensures done { HasCleanDisk (state S.Store tx.new.conn.now)
        → IsTrue (state S.Store tx.old.conn.now).in_transaction
        → Tells (state S.Store tx.old.conn.now)
        → OnOk result (Turns (put_change change.now) (state S.Store tx.old.conn.now)
        (state S.Store tx.new.conn.now)) }
    ensures inside { HasCleanDisk (state S.Store tx.new.conn.now)
        → IsTrue (state S.Store tx.old.conn.now).in_transaction
        → OnOk result (IsTrue (state S.Store tx.new.conn.now).in_transaction) }
    ensures kept { HasCleanDisk (state S.Store tx.new.conn.now)
        → IsTrue (state S.Store tx.old.conn.now).in_transaction
        → KeepsCommit (state S.Store tx.old.conn.now) (state S.Store tx.new.conn.now) }
    ensures clean { doubt (state S.Store tx.old.conn.now).is_clean
        ≤ doubt (state S.Store tx.new.conn.now).is_clean }
{
    let Ok(key) = i64::try_from(change.key) else {
        return Err(Error::IntegralValueOutOfRange(0));
    };
    match &change.val {
        Some(val) => put(tx, change.tab, key, val.as_slice()),
        None => take(tx, change.tab, key),
    }
}

/// Puts a cell over the one that is there.
fn put<S: Alter>(tx: &mut Transaction<'_, S>, tab: u8, key: i64, val: &[u8]) -> Result<usize, Error>
    ensures same_reference { tx.new.conn.ghost_name ≡ tx.old.conn.ghost_name }
    ensures ran { HasCleanDisk (state S.Store tx.new.conn.now)
        → IsTrue (state S.Store tx.old.conn.now).in_transaction
        → ExecutesInside 0 put_text (Int (pos tab) ∷ Int key ∷ Blob val.now ∷ [])
        (state S.Store tx.old.conn.now) (state S.Store tx.new.conn.now) result }
    ensures inside { HasCleanDisk (state S.Store tx.new.conn.now)
        → IsTrue (state S.Store tx.old.conn.now).in_transaction
        → OnOk result (IsTrue (state S.Store tx.new.conn.now).in_transaction) }
    ensures kept { HasCleanDisk (state S.Store tx.new.conn.now)
        → IsTrue (state S.Store tx.old.conn.now).in_transaction
        → KeepsCommit (state S.Store tx.old.conn.now) (state S.Store tx.new.conn.now) }
    ensures clean { doubt (state S.Store tx.old.conn.now).is_clean
        ≤ doubt (state S.Store tx.new.conn.now).is_clean }
{
    tx.execute(PUT, params![u32::from(tab), key, val])
}

/// Takes the cell at this table and key away.
fn take<S: Alter>(tx: &mut Transaction<'_, S>, tab: u8, key: i64) -> Result<usize, Error>
    ensures same_reference { tx.new.conn.ghost_name ≡ tx.old.conn.ghost_name }
    ensures ran { HasCleanDisk (state S.Store tx.new.conn.now)
        → IsTrue (state S.Store tx.old.conn.now).in_transaction
        → ExecutesInside 0 take_text (Int (pos tab) ∷ Int key ∷ [])
        (state S.Store tx.old.conn.now) (state S.Store tx.new.conn.now) result }
    ensures inside { HasCleanDisk (state S.Store tx.new.conn.now)
        → IsTrue (state S.Store tx.old.conn.now).in_transaction
        → OnOk result (IsTrue (state S.Store tx.new.conn.now).in_transaction) }
    ensures kept { HasCleanDisk (state S.Store tx.new.conn.now)
        → IsTrue (state S.Store tx.old.conn.now).in_transaction
        → KeepsCommit (state S.Store tx.old.conn.now) (state S.Store tx.new.conn.now) }
    ensures clean { doubt (state S.Store tx.old.conn.now).is_clean
        ≤ doubt (state S.Store tx.new.conn.now).is_clean }
{
    tx.execute(TAKE, params![u32::from(tab), key])
}

/// The key, or the last one that a row can have.
fn key_or_last(key: u64) -> i64
    ensures { result ≡ pos (min key (2 ^ 63 - 1)) }
{
    match i64::try_from(key) {
        Ok(key) => key,
        Err(_) => i64::MAX,
    }
}

/// What a refused statement comes to: all but want of memory is a failure.
pub(crate) fn refusal(error: Error) -> KeepError
    ensures { (result ≡ KeepError.Memory) ↔ (error ≡ Error.SqliteFailure ErrorCode.OutOfMemory) }
{
    match error {
        Error::SqliteFailure(ErrorCode::OutOfMemory) => KeepError::Memory,
        _ => KeepError::Failed,
    }
}
