//! A manifest with many annotations, which one line deletes.
use crate::lent::Lent;
use crate::sending::printed;
use an_keep::Keeper;
use an_shelf::Desk;
use an_sqlite::SqlKeeper;
use sqlite::Connection;
use std::alloc::{AllocError, Global};
use std::thread::{Builder, Threads};

/// How many bytes the stack of the thread has that makes and deletes the manifest.
const STACK: usize = 1 << 20;

/// The line that deletes the manifest.
const DELETION: &str = "2024-05-01T11:00:00Z - DELETE /manifests/m1?version=2";

/// Imports these lines and so many annotations of the manifest `m1`, on a thread of its own, then
/// the line that deletes it, and that line again, each by a store that is opened anew over the same
/// connection in memory. Answers what each import prints.
pub fn play<R: Threads>(
    rt: &R,
    alloc: Global,
    lines: &str,
    count: u32,
) -> Result<String, AllocError> {
    let lines = with_annotations(alloc, lines, count)?;
    let started = Builder::new()
        .stack_size(STACK)
        .spawn(rt, move || deleted(alloc, lines));
    match started {
        Ok(deleting) => deleting.join(rt),
        Err(_error) => String::from_str(alloc, "no thread"),
    }
}

/// The lines, and behind them those of so many annotations.
fn with_annotations(alloc: Global, lines: &str, count: u32) -> Result<String, AllocError> {
    let mut all = String::from_str(alloc, lines)?;
    for number in 0..count {
        all.push_str(annotation(alloc, number)?.as_str())?;
    }
    Ok(all)
}

fn annotation(alloc: Global, number: u32) -> Result<String, AllocError> {
    format!(in alloc;
        "2024-05-01T10:01:00Z mara PUT /annotations/mara/n{number}?version=1&manifest=m1 \
{{\"bodyValue\":\"heron {number}\",\"target\":\"http://a.example/c1\",\"type\":\"Annotation\"}}\n"
    )
}

fn deleted(alloc: Global, lines: String) -> Result<String, AllocError> {
    let mut keeper = SqlKeeper::adopt(Connection::open_in_memory(alloc)?);
    let told = imports(alloc, &mut keeper, lines.as_str());
    drop(keeper);
    told
}

/// What the three imports over a keeper print.
fn imports<K: Keeper>(alloc: Global, keeper: &mut K, lines: &str) -> Result<String, AllocError> {
    let made = import_over(alloc, keeper, lines)?;
    let deleted = import_over(alloc, keeper, DELETION)?;
    let again = import_over(alloc, keeper, DELETION)?;
    format!(in alloc; "{made}; {deleted}; {again}")
}

/// What an import of the lines prints, by a store that is opened over the keeper.
fn import_over<K: Keeper>(
    alloc: Global,
    keeper: &mut K,
    lines: &str,
) -> Result<String, AllocError> {
    match Desk::open(alloc, Lent { keeper }) {
        Ok(mut desk) => {
            let told = printed(alloc, &mut desk, lines);
            // A store that gives its keeper back leaves nothing to drop.
            let Lent { keeper: _ } = desk.into_keeper();
            told
        }
        Err(_error) => String::from_str(alloc, "not opened"),
    }
}
