//! Lines that are written while a disk stops, which then crashes and is opened again.
use crate::disks::{Crashes, Disk, Disks, close, crashed, new_disks, open};
use crate::sending::{accepted, cells, states};
use an_keep::Keeper;
use an_sqlite::SqlKeeper;
use sqlite::{Alter, Connection, FileStore};
use std::alloc::{AllocError, Global};

/// The disk that stops.
#[derive(Clone, Copy)]
pub enum Stopped {
    Log,
    File,
}

/// How many calls of a disk are tried at most.
const CALLS: u64 = 400;

/// What came of the lines until the crash.
#[derive(Drop)]
struct Written {
    /// How many were accepted.
    accepted: usize,
    /// Whether no call met the stop.
    is_whole: bool,
    disks: Disks,
}

/// What is found behind a crash.
#[derive(Drop)]
struct Found {
    cells: String,
    /// How many of the lines are accepted when they are sent again.
    accepted: Option<usize>,
    cells_at_end: String,
}

/// One stop.
#[derive(Clone, Copy)]
struct Tried {
    accepted: usize,
    is_whole: bool,
    is_kept: bool,
}

/// Stops a disk at each of its calls in turn, until none is left to stop. Tells how many lines were
/// accepted before the stops, each number once, and the first stop behind which the store isn't
/// found as it is due.
pub fn play(
    alloc: Global,
    lines: &str,
    stopped: Stopped,
    crashes: Crashes,
) -> Result<String, AllocError> {
    let states = states(alloc, lines)?;
    let mut told = String::from_str(alloc, "accepted")?;
    let mut last = None;
    for stop in 0..CALLS {
        let tried = try_stop(alloc, lines, states.as_slice(), stopped, crashes, stop)?;
        if last != Some(tried.accepted) || !tried.is_kept {
            tell(alloc, &mut told, stop, &tried)?;
        }
        if tried.is_whole || !tried.is_kept {
            return Ok(told);
        }
        last = Some(tried.accepted);
    }
    told.push_str(" and no end")?;
    Ok(told)
}

fn tell(alloc: Global, told: &mut String, stop: u64, tried: &Tried) -> Result<(), AllocError> {
    let more = if tried.is_kept {
        format!(in alloc; " {}", tried.accepted)?
    } else {
        format!(in alloc; " {}, lost at stop {stop}", tried.accepted)?
    };
    told.push_str(more.as_str())
}

fn try_stop(
    alloc: Global,
    lines: &str,
    states: &[String],
    stopped: Stopped,
    crashes: Crashes,
    stop: u64,
) -> Result<Tried, AllocError> {
    let disks = match stopped {
        Stopped::Log => new_disks(alloc, stop, u64::MAX),
        Stopped::File => new_disks(alloc, u64::MAX, stop),
    };
    let Written {
        accepted,
        is_whole,
        disks,
    } = write(alloc, disks, lines)?;
    let found = look(alloc, crashed(alloc, disks, crashes)?, lines)?;
    Ok(Tried {
        accepted,
        is_whole,
        is_kept: found.is_some_and(|found| is_as_due(states, accepted, &found)),
    })
}

/// Whether the store was found as it is behind at least so many of the lines, and took those that
/// it lacked and no other when they were sent again.
fn is_as_due(states: &[String], accepted: usize, found: &Found) -> bool {
    let here = found.cells.as_str();
    let Some(done) = states.iter().position(|state| state.as_str() == here) else {
        return false;
    };
    let missing = states.len().saturating_sub(1).saturating_sub(done);
    let at_end = found.cells_at_end.as_str();
    accepted <= done
        && found.accepted == Some(missing)
        && states.last().is_some_and(|state| state.as_str() == at_end)
}

/// Writes the lines, and then closes the database.
fn write(alloc: Global, disks: Disks, lines: &str) -> Result<Written, AllocError> {
    match open(alloc, disks) {
        Ok(connection) => write_over(alloc, connection, lines),
        Err(disks) => Ok(Written {
            accepted: 0,
            is_whole: false,
            disks,
        }),
    }
}

fn write_over(
    alloc: Global,
    connection: Connection<FileStore<Disk>>,
    lines: &str,
) -> Result<Written, AllocError> {
    let Through {
        accepted,
        connection,
    } = write_through(alloc, connection, lines)?;
    let (disks, is_closed) = close(connection);
    Ok(Written {
        accepted,
        is_whole: is_closed && accepted == lines.lines().count(),
        disks,
    })
}

/// How many lines were accepted over a connection.
#[derive(Drop)]
struct Through<S: Alter + Drop> {
    accepted: usize,
    connection: Connection<S>,
}

// A keeper stands here and below over any store, since what a proof has to know of one over files
// is too much for the functions that name them.
fn write_through<S: Alter + Drop>(
    alloc: Global,
    connection: Connection<S>,
    lines: &str,
) -> Result<Through<S>, AllocError> {
    let mut keeper = SqlKeeper::adopt(connection);
    let accepted = match accepted(alloc, &mut keeper, lines) {
        Ok(accepted) => accepted.unwrap_or(0),
        Err(error) => {
            drop(keeper);
            return Err(error);
        }
    };
    match keeper.into_connection() {
        Some(connection) => Ok(Through {
            accepted,
            connection,
        }),
        None => Err(AllocError),
    }
}

/// Opens the store again, and sends the lines again. None where the database isn't opened.
fn look(alloc: Global, disks: Disks, lines: &str) -> Result<Option<Found>, AllocError> {
    match open(alloc, disks) {
        Ok(connection) => look_through(alloc, connection, lines),
        Err(_) => Ok(None),
    }
}

fn look_through<S: Alter + Drop>(
    alloc: Global,
    connection: Connection<S>,
    lines: &str,
) -> Result<Option<Found>, AllocError> {
    let mut keeper = SqlKeeper::adopt(connection);
    let found = find(alloc, &mut keeper, lines);
    drop(keeper);
    Ok(Some(found?))
}

fn find<K: Keeper>(alloc: Global, keeper: &mut K, lines: &str) -> Result<Found, AllocError> {
    let found = cells(alloc, keeper)?;
    let accepted = accepted(alloc, keeper, lines)?;
    Ok(Found {
        cells: found,
        accepted,
        cells_at_end: cells(alloc, keeper)?,
    })
}
