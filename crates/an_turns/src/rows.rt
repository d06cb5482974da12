//! Rows, each a run of the server at whose door two links come.
use crate::events::Event;
use crate::sure::play_sure;
use crate::waits::{Waits, play_waits};
use std::alloc::{AllocError, Global};
use std::sync::Wait;
use std::thread::Threads;

/// What a row plays.
#[derive(Clone, Copy)]
enum Kind {
    /// A run of which parts wait for each other.
    Waits(Waits),
    /// A run of parts that never fail.
    Sure,
}

/// What a row with this name plays.
fn kind_named(name: &str) -> Option<Kind> {
    match name {
        "the first reads once the second is answered" => Some(Kind::Waits(Waits {
            first: Some(Event::SecondAnswered),
            second: None,
            commit: None,
        })),
        "the second reads once the first is answered" => Some(Kind::Waits(Waits {
            first: None,
            second: Some(Event::FirstAnswered),
            commit: None,
        })),
        "the second reads once a commit is begun, which ends once the second is answered" => {
            Some(Kind::Waits(Waits {
                first: None,
                second: Some(Event::CommitBegun),
                commit: Some(Event::SecondAnswered),
            }))
        }
        "no part ever fails" => Some(Kind::Sure),
        _ => None,
    }
}

/// What a row plays, and the requests of both links.
#[derive(Clone, Copy)]
struct Row<'a> {
    kind: Kind,
    first: &'a str,
    second: &'a str,
}

fn row_of(asked: &str) -> Option<Row<'_>> {
    let (name, requests) = asked.split_once(" | ")?;
    let (first, second) = requests.split_once(" | ")?;
    let kind = kind_named(name)?;
    Some(Row {
        kind,
        first,
        second,
    })
}

/// Plays a row at a store with these lines: what it plays, and behind ` | ` each the requests of
/// both links, in which `\r\n` ends a line.
pub fn play<R: Threads + Wait + Sync>(
    rt: &R,
    alloc: Global,
    lines: &str,
    asked: &str,
) -> Result<String, AllocError> {
    match row_of(asked) {
        Some(row) => play_row(rt, alloc, lines, &row),
        None => String::from_str(alloc, "no row"),
    }
}

fn play_row<R: Threads + Wait + Sync>(
    rt: &R,
    alloc: Global,
    lines: &str,
    row: &Row<'_>,
) -> Result<String, AllocError> {
    match row.kind {
        Kind::Waits(waits) => play_waits(rt, alloc, lines, &waits, row.first, row.second),
        Kind::Sure => play_sure(rt, alloc, row.first, row.second),
    }
}
