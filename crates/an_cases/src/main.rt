//! Plays the cases of a table, each a run of the server or rows of calls with what is due from
//! them, and prints those that come out otherwise.
#![tactic(auto)]

mod failing;
mod play;
mod seats;
mod stores;
mod sure_runs;

use an_report::{report, wrong_with};
use an_tables::{Case, Table};
use play::play;
use std::process::ExitCode;
use std::rt::Files;
use std::sync::Wait;
use std::thread::Threads;
use std::{fs, io};

/// Plays the table on standard input, and ends with 0 where each case came out as it is due.
fn main(rt: HostRuntime) -> ExitCode {
    match play_input(&rt) {
        Ok(true) => ExitCode::from(0),
        Ok(false) => ExitCode::from(1),
        Err(_) => ExitCode::from(1),
    }
}

/// Plays the table on standard input, and answers whether it is one and no case is wrong.
fn play_input<R: Input + Files + Print + AllocGlobal + Threads + Wait + Sync>(
    rt: &R,
) -> io::Result<bool> {
    let mut table = Table::new(rt.alloc());
    if !read_input(rt, &mut table)? {
        return Ok(false);
    }
    play_all(rt, table.cases())
}

/// Reads the table on standard input, and answers whether it is one. A line `table FILE` stands for
/// the lines of this file.
fn read_input<R: Input + Files + Print + AllocGlobal>(
    rt: &R,
    table: &mut Table,
) -> io::Result<bool> {
    let text = io::read_to_string(rt.alloc(), rt.reader())?;
    for (at, line) in text.lines().enumerate() {
        let is_read = match line.strip_prefix("table ") {
            Some(file) => read_file(rt, table, file)?,
            None => read_line(rt, table, "standard input", at, line)?,
        };
        if !is_read {
            return Ok(false);
        }
    }
    Ok(true)
}

fn read_file<R: Files + Print + AllocGlobal>(
    rt: &R,
    table: &mut Table,
    file: &str,
) -> io::Result<bool> {
    let text = fs::read_to_string(rt, file)?;
    for (at, line) in text.lines().enumerate() {
        if !read_line(rt, table, file, at, line)? {
            return Ok(false);
        }
    }
    Ok(true)
}

/// Reads a line, or prints why it can't stand in a table.
fn read_line<R: Print>(
    rt: &R,
    table: &mut Table,
    file: &str,
    at: usize,
    line: &str,
) -> io::Result<bool> {
    match table.read_line(line) {
        Ok(()) => Ok(true),
        Err(error) => {
            let number = at.saturating_add(1);
            println!(rt; "{file}, line {number}: {}", error.text())?;
            Ok(false)
        }
    }
}

/// Plays the cases, prints how many there are and how many of them are wrong, and answers whether
/// none is.
fn play_all<R: Print + AllocGlobal + Threads + Wait + Sync>(
    rt: &R,
    cases: &[Case],
) -> io::Result<bool> {
    let mut wrong = 0usize;
    for case in cases {
        wrong = wrong_with(wrong, is_right(rt, case)?);
    }
    println!(rt; "{} cases, {wrong} wrong", cases.len())?;
    Ok(wrong == 0)
}

/// Plays a case, and prints what came out otherwise than it is due.
fn is_right<R: Print + AllocGlobal + Threads + Wait + Sync>(
    rt: &R,
    case: &Case,
) -> io::Result<bool> {
    let played = play(rt, rt.alloc(), case)?;
    report(rt, case.name.as_str(), &case.due, &played)
}
