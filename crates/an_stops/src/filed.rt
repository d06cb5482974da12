//! Stores over a file of this machine.
use crate::sending::{due_cells, import_over};
use an_sqlite::{SqlKeeper, keeper_at};
use sqlite::{FileFrom, FileStore, Start, Unknown};
use std::alloc::AllocError;
use std::fs;

/// The file over which a case plays, in the folder in which the program runs.
const PATH: &str = "an_stops.db";

/// Its log.
const LOG: &str = "an_stops.db-wal";

/// What two imports of the lines print, the first over a file that isn't there, and the second over
/// what the first has left in it, and whether the cells after both are those of a keeper in memory.
pub fn import_twice(host: &HostRuntime, lines: &str) -> Result<String, AllocError> {
    let due = due_cells(host.alloc(), lines)?;
    let mut told = String::new(host.alloc());
    remove(host);
    import_at(host, Unknown, lines, due.as_str(), &mut told)?;
    told.push_str("; ")?;
    import_at(host, Unknown, lines, due.as_str(), &mut told)?;
    remove(host);
    Ok(told)
}

/// What comes of an import over a file that holds these bytes.
pub fn import_over_bytes(host: &HostRuntime, bytes: &str) -> Result<String, AllocError> {
    let mut told = String::new(host.alloc());
    remove(host);
    let _ = fs::write(host, PATH, bytes);
    import_at(host, Unknown, "", "", &mut told)?;
    remove(host);
    Ok(told)
}

/// Tells what an import prints over the file, where `U` stands for what it held. The file is closed
/// after it.
fn import_at<U: Start>(
    host: &HostRuntime,
    start: U,
    lines: &str,
    due: &str,
    told: &mut String,
) -> Result<(), AllocError> {
    let keeper = keeper_at(host, PATH, start);
    if let Some(keeper) = import_over(host.alloc(), keeper, lines, due, told)? {
        close(keeper);
    }
    Ok(())
}

fn close<U: Start>(keeper: SqlKeeper<FileStore<FileFrom<U>>>) {
    if let Some(connection) = keeper.into_connection() {
        let _ = connection.close();
    }
}

fn remove(host: &HostRuntime) {
    let _ = fs::remove_file(host, PATH);
    let _ = fs::remove_file(host, LOG);
}
