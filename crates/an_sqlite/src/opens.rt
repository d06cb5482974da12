ghost use Rattle.std.specs.Prelude.{◌≡◌, IfOk, IsTrue, List, false};
ghost use Rattle.an_keep.specs.declared.cell.Cell.{Cell};
ghost use Rattle.an_sqlite.specs.Hold.{Hold};
ghost use Rattle.an_sqlite.specs.Connecting.{BeginsWith, IsClean, told_in};
ghost use Rattle.sqlite.specs.Files.{file_state, over_files};
ghost use Rattle.sqlite.specs.State.{HasCleanDisk};
ghost use Rattle.sqlite_wal.specs.Files.{image_at};
ghost use Rattle.std.specs.Prelude.{Some};

use crate::keeper::SqlKeeper;
use crate::statements::refusal;
use an_keep::KeepError;
use sqlite::{Connection, FileFrom, FileStore, Start};
use std::rt::HostRuntime;

/// A connection to the database at this path, which is made where there is none. `U` stands for
/// what the files held, which may be anything: where they held exactly the table of cells, and the
/// disk returns what was written, it begins with these cells. A program names the unknown contents
/// in its one call, and hands the connection to a function that is generic in the store.
pub fn open_file<U: Start>(
    rt: &HostRuntime,
    path: &str,
    start: U,
) -> Result<Connection<FileStore<FileFrom<U>>>, KeepError>
    ensures finds { IfOk result (λ conn. HasCleanDisk (file_state conn) → (cells : List Cell)
        → Hold (image_at U.Start) cells → BeginsWith (file_state conn) cells) }
    ensures opened { IfOk result (λ conn. HasCleanDisk (file_state conn)
        → IsTrue (file_state conn).is_open) }
    ensures settled { IfOk result (λ conn. (file_state conn).in_transaction ≡ false) }
{
    match Connection::open_from(rt, path, false, start) {
        Ok(conn) => Ok(conn),
        Err((error, _)) => Err(refusal(error)),
    }
}

/// A keeper over the database at this path. Before its first call it tells the cells that the files
/// held, where the disk returns what was written. Where the database isn't opened, each call
/// answers the refusal.
pub fn keeper_at<U: Start>(
    rt: &HostRuntime,
    path: &str,
    start: U,
) -> SqlKeeper<FileStore<FileFrom<U>>>
    ensures tells { IsClean over_files result.place → (cells : List Cell)
        → Hold (image_at U.Start) cells → told_in over_files result.place ≡ Some cells }
{
    match open_file(rt, path, start) {
        Ok(conn) => SqlKeeper::adopt(conn),
        Err(error) => SqlKeeper::refused(error),
    }
}
