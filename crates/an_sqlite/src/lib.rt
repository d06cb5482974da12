//! A keeper whose cells stand in a table of SQLite: over a connection that is handed to it, or over
//! the database file at a path, which is made where there is none.
//!
//! ```text
//! let mut keeper = keeper_at(&rt, "cells.db", Unknown);
//! keeper.commit(&[put(1, 7, "a")])  Ok(())
//! keeper.first()                    Ok(Some(Cell { tab: 1, key: 7, val: "a" }))
//! keeper.next_after(1, 7)           Ok(None)
//! ```
#![tactic(auto)]

pub use keeper::SqlKeeper;
pub use opens::{keeper_at, open_file};

mod ahead;
mod base;
mod connecting;
mod keeper;
mod opens;
mod row;
mod statements;
mod teller;
