//! Plays rows of two connections that wait for each other, each a run of the server by threads.
//!
//! ```text
//! 5 cases, 0 wrong   where each row of standard input came out as it is due
//! ```
#![tactic(auto)]

mod events;
mod given;
mod rows;
mod sure;
mod waiting;
mod waits;

use an_report::{is_right, read_row, wrong_with};
use std::io;
use std::process::ExitCode;
use std::sync::Wait;
use std::thread::Threads;

/// Plays the rows on standard input, and ends with 0 where each came out as it is due.
fn main(rt: HostRuntime) -> ExitCode {
    match play_input(&rt) {
        Ok(true) => ExitCode::from(0),
        Ok(false) => ExitCode::from(1),
        Err(_) => ExitCode::from(1),
    }
}

/// Plays the rows on standard input, prints how many there are and how many of them are wrong, and
/// answers whether none is.
fn play_input<R: Input + Print + AllocGlobal + Threads + Wait + Sync>(rt: &R) -> io::Result<bool> {
    let table = io::read_to_string(rt.alloc(), rt.reader())?;
    let mut lines = String::new(rt.alloc());
    let mut rows = 0usize;
    let mut wrong = 0usize;
    for line in table.lines() {
        if let Some(row) = read_row(&mut lines, line)? {
            let found = rows::play(rt, rt.alloc(), lines.as_str(), row.asked)?;
            rows = rows.saturating_add(1);
            wrong = wrong_with(wrong, is_right(rt, &row, found.as_str())?);
        }
    }
    println!(rt; "{rows} cases, {wrong} wrong")?;
    Ok(wrong == 0)
}
