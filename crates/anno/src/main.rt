//! The annotation server as a program: it does what its words say, over standard input and output
//! and at a port, and ends with the status of that.
//!
//! ```text
//! anno notes.db import < lines     0: each line was accepted, and is kept in notes.db
//! anno notes.db session FOO 10     2: FOO is no base of IRIs, and no file is made
//! ```
#![tactic(auto)]

mod account;
mod clock;
mod filed;
mod host;
mod progress;
mod tcp_door;
mod tcp_link;

use account::Account;
use an_app::{Ran, Status, run};
use an_keep::SureKeeper;
use an_outside::{StdLink, words_of};
use clock::RealClock;
use filed::{close, run_at};
use host::Host;
use sqlite::Unknown;
use std::io;
use std::net::{Net, TcpListener, TcpStream};
use std::process::ExitCode;
use std::sync::Wait;
use std::thread::Threads;
use tcp_door::TcpDoor;

/// Does what the words behind the program's name say, over standard input and output and at a port,
/// and ends with the status of `run`.
fn main(rt: HostRuntime) -> ExitCode {
    let status = match words_of(&rt) {
        Ok(words) => run_words(&rt, &rt, words.as_slice()),
        Err(_) => Status::Memory,
    };
    ExitCode::from(status.code())
}

/// Does what the words say. The first is the store: `-` is an empty one in memory, and any other is
/// the path of a file, of whose contents nothing is known. The handles to threads and to ports come
/// beside the runtime that opens files.
fn run_words<R: Threads + Wait + Net<Listener = TcpListener, Stream = TcpStream> + Sync>(
    rt: &R,
    host: &HostRuntime,
    words: &[String],
) -> Status {
    match path_in(words) {
        Some(path) => run_filed(rt, host, words, path),
        None => run_in_memory(rt, host, words),
    }
}

/// The path that the first word is.
fn path_in(words: &[String]) -> Option<&str> {
    let path = words.first()?.as_str();
    if path == "-" { None } else { Some(path) }
}

/// Does what the words say at the store in the file at this path.
fn run_filed<R: Threads + Wait + Net<Listener = TcpListener, Stream = TcpStream> + Sync>(
    rt: &R,
    host: &HostRuntime,
    words: &[String],
    path: &str,
) -> Status {
    let mut link = StdLink::new(host.reader(), io::writer(host));
    let account = Account::new(host);
    let mut door = TcpDoor::new(Host::new(rt, host), &account);
    let clock = RealClock::new(host);
    let Ran { status, keeper } = run_at(
        rt, host, words, path, Unknown, &mut link, &mut door, &clock,
    );
    match status {
        // It may be somebody else's file, which stays as it was found.
        Status::KeeperFailed | Status::Damaged { .. } => drop(keeper),
        _ => close(keeper),
    }
    status
}

/// Does what the words say at an empty store in memory.
fn run_in_memory<R: Threads + Wait + Net<Listener = TcpListener, Stream = TcpStream> + Sync>(
    rt: &R,
    host: &HostRuntime,
    words: &[String],
) -> Status {
    let keeper = SureKeeper::new(Vec::new(host.alloc()));
    let mut link = StdLink::new(host.reader(), io::writer(host));
    let account = Account::new(host);
    let mut door = TcpDoor::new(Host::new(rt, host), &account);
    let clock = RealClock::new(host);
    let Ran { status, keeper: _ } = run(
        rt,
        host.alloc(),
        words,
        keeper,
        &mut link,
        &mut door,
        &clock,
    );
    door.report_end(None);
    status
}
