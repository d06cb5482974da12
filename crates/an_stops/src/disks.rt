//! A connection over disks in memory.
use sqlite::{Connection, FileStore, Files, Options};
use sqlite_disk::{Crash, Disk as _, Fuse, Memory};
use std::alloc::{AllocError, Global};

/// A disk that stops behind some number of calls, each of which fails from then on.
pub type Disk = Fuse<Memory>;

/// The disk of the log, and that of the database file.
pub type Disks = Files<Disk>;

/// Disks without a byte, which stop behind so many calls each.
pub fn new_disks(alloc: Global, log: u64, file: u64) -> Disks {
    Files {
        log: Fuse::new(Memory::new(alloc), log),
        db: Fuse::new(Memory::new(alloc), file),
    }
}

/// Opens a database, or gives the disks back.
pub fn open(alloc: Global, disks: Disks) -> Result<Connection<FileStore<Disk>>, Disks> {
    if !disks.may_be_used() {
        return Err(disks);
    }
    match Connection::open_files(alloc, disks, Options::new(1)) {
        Ok(connection) => Ok(connection),
        Err((_, left)) => Err(left.into_files()),
    }
}

/// The disks behind a connection, and whether its log was copied into the database file.
pub fn close(connection: Connection<FileStore<Disk>>) -> (Disks, bool) {
    match connection.close_files() {
        Ok(disks) => (disks, true),
        Err((_, store)) => (store.close(), false),
    }
}

/// What crashes.
#[derive(Clone, Copy)]
pub enum Crashes {
    /// The machine: what isn't synced is lost.
    Machine,
    /// The process: what is written stays.
    Process,
}

/// The disks behind a crash, which stop no more.
pub fn crashed(alloc: Global, disks: Disks, crashes: Crashes) -> Result<Disks, AllocError> {
    let Files { log, db } = disks;
    Ok(Files {
        log: crashed_disk(alloc, log, crashes)?,
        db: crashed_disk(alloc, db, crashes)?,
    })
}

fn crashed_disk(alloc: Global, disk: Disk, crashes: Crashes) -> Result<Disk, AllocError> {
    let mut disk = disk;
    match crashes {
        Crashes::Machine => {
            disk.crash();
            Ok(disk)
        }
        Crashes::Process => copy(alloc, disk.inner().bytes()),
    }
}

fn copy(alloc: Global, bytes: &[u8]) -> Result<Disk, AllocError> {
    let mut copy = Memory::new(alloc);
    match copy.write_at(0, bytes) {
        Ok(()) => Ok(Fuse::new(copy, u64::MAX)),
        Err(_error) => Err(AllocError),
    }
}
