//! Calls of a keeper over a connection in memory.
use crate::sending::{MemSqlKeeper, cells, shown};
use an_base::Bytes;
use an_keep::{Change, Keeper};
use an_sqlite::SqlKeeper;
use sqlite::Connection;
use std::alloc::{AllocError, Global};

/// Answers calls of one keeper, between ` | `: `commit 1 0 a, 2 3`, which puts `a` at table 1 and
/// key 0, and takes away what stands at 2 and 3; `first`; `next 1 0`; `faults`, which counts those
/// that failed; and `cells`, which shows all.
pub fn play(alloc: Global, asked: &str) -> Result<String, AllocError> {
    let connection = Connection::open_in_memory(alloc)?;
    let mut keeper = SqlKeeper::adopt(connection);
    answers(alloc, &mut keeper, asked)
}

fn answers(alloc: Global, keeper: &mut MemSqlKeeper, asked: &str) -> Result<String, AllocError> {
    let mut told = String::new(alloc);
    for call in asked.split(" | ") {
        if !told.is_empty() {
            told.push_str(" | ")?;
        }
        told.push_str(answer(alloc, keeper, call)?.as_str())?;
    }
    Ok(told)
}

fn answer(alloc: Global, keeper: &mut MemSqlKeeper, call: &str) -> Result<String, AllocError> {
    match call {
        "first" => shown(alloc, &keeper.first()),
        "cells" => cells(alloc, keeper),
        "faults" => format!(in alloc; "{}", keeper.faults()),
        _ => match call.strip_prefix("next ") {
            Some(place) => next(alloc, keeper, place),
            None => commit(alloc, keeper, call),
        },
    }
}

fn next(alloc: Global, keeper: &mut MemSqlKeeper, place: &str) -> Result<String, AllocError> {
    match place_of(place) {
        Some((tab, key, _)) => shown(alloc, &keeper.next_after(tab, key)),
        None => String::from_str(alloc, "no place"),
    }
}

fn commit(alloc: Global, keeper: &mut MemSqlKeeper, call: &str) -> Result<String, AllocError> {
    match changes(alloc, call)? {
        Some(changes) => match keeper.commit(changes.as_slice()) {
            Ok(()) => String::from_str(alloc, "done"),
            Err(error) => shown(alloc, &Err(error)),
        },
        None => String::from_str(alloc, "no call"),
    }
}

/// The changes of a commit, if it is one.
fn changes(alloc: Global, call: &str) -> Result<Option<Vec<Change>>, AllocError> {
    let Some(texts) = call.strip_prefix("commit ") else {
        return Ok(None);
    };
    let mut changes = Vec::new(alloc);
    for text in texts.split(", ") {
        match change(alloc, text)? {
            Some(change) => changes.push(change)?,
            None => return Ok(None),
        }
    }
    Ok(Some(changes))
}

fn change(alloc: Global, text: &str) -> Result<Option<Change>, AllocError> {
    let Some((tab, key, val)) = place_of(text) else {
        return Ok(None);
    };
    let val = match val {
        Some(val) => Some(Bytes::new(alloc, val.as_bytes())?),
        None => None,
    };
    Ok(Some(Change { tab, key, val }))
}

/// A table, a key, and the value behind them, if there is one.
fn place_of(text: &str) -> Option<(u8, u64, Option<&str>)> {
    let mut words = text.splitn(3, ' ');
    let tab = words.next()?.parse::<u8>().ok()?;
    let key = words.next()?.parse::<u64>().ok()?;
    Some((tab, key, words.next()))
}
