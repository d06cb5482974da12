//! Tries the keeper over SQLite: what its calls answer over a connection in memory, what a store
//! over a file finds again, and what a store keeps where one of its disks stops at any of its
//! calls, and crashes.
#![tactic(auto)]

mod calls;
mod crashes;
mod disks;
mod filed;
mod large;
mod lent;
mod sending;

use an_report::{is_right, read_row, wrong_with};
use crashes::Stopped;
use disks::Crashes;
use sending::Second;
use std::alloc::AllocError;
use std::io;
use std::process::ExitCode;
use std::thread::Threads;

/// Plays the table on standard input, and ends with 0 where each case came out as it is due.
fn main(rt: HostRuntime) -> ExitCode {
    match play_input(&rt, &rt) {
        Ok(true) => ExitCode::from(0),
        Ok(false) => ExitCode::from(1),
        Err(_) => ExitCode::from(1),
    }
}

/// Plays the table on standard input, prints how many cases it has and how many of them are wrong,
/// and answers whether none is.
fn play_input<R: Input + Print + AllocGlobal + Threads>(
    rt: &R,
    host: &HostRuntime,
) -> io::Result<bool> {
    let table = io::read_to_string(rt.alloc(), rt.reader())?;
    let mut lines = String::new(rt.alloc());
    let mut cases = 0usize;
    let mut wrong = 0usize;
    for line in table.lines() {
        if let Some(row) = read_row(&mut lines, line)? {
            let found = answer(rt, host, lines.as_str(), row.asked)?;
            cases = cases.saturating_add(1);
            wrong = wrong_with(wrong, is_right(rt, &row, found.as_str())?);
        }
    }
    println!(rt; "{cases} cases, {wrong} wrong")?;
    Ok(wrong == 0)
}

/// What comes of a case: of lines that are imported twice, over a file too, of lines that are
/// written while a disk stops, of a manifest with many annotations that is deleted, or of calls of
/// a keeper.
fn answer<R: Threads>(
    rt: &R,
    host: &HostRuntime,
    lines: &str,
    asked: &str,
) -> Result<String, AllocError> {
    let alloc = host.alloc();
    match asked {
        "import twice" => sending::import_twice(alloc, lines, Second::Same),
        "import twice, over a file" => filed::import_twice(host, lines),
        "import over a file that says hello" => filed::import_over_bytes(host, "hello"),
        "import twice, by two keepers" => sending::import_twice(alloc, lines, Second::Another),
        "log stops, and what isn't synced is lost" => {
            crashes::play(alloc, lines, Stopped::Log, Crashes::Machine)
        }
        "log stops, and what is written stays" => {
            crashes::play(alloc, lines, Stopped::Log, Crashes::Process)
        }
        "file stops, and what isn't synced is lost" => {
            crashes::play(alloc, lines, Stopped::File, Crashes::Machine)
        }
        "file stops, and what is written stays" => {
            crashes::play(alloc, lines, Stopped::File, Crashes::Process)
        }
        _ => match deletion(asked) {
            Some(count) => large::play(rt, alloc, lines, count),
            None => calls::play(alloc, asked),
        },
    }
}

/// Of how many annotations the manifest is that a case deletes.
fn deletion(asked: &str) -> Option<u32> {
    let count = asked.strip_prefix("delete a manifest of ")?;
    count.strip_suffix(" annotations")?.parse::<u32>().ok()
}
