//! What keeps the server's cells: the trait of keepers, and two keepers that stand in memory. A
//! cell has a table, a key and the bytes that are kept there; a keeper gives cells in the order of
//! tables and then of keys, whatever order they were put in.
//!
//! ```text
//! keeper.commit(&[put(2, 1, "b"), put(1, 7, "a")])  Ok(())
//! keeper.first()                                    Ok(Some(Cell { tab: 1, key: 7, val: "a" }))
//! keeper.next_after(1, 7)                           Ok(Some(Cell { tab: 2, key: 1, val: "b" }))
//! ```
#![tactic(auto)]

pub use cell::{Cell, Change};
pub use keeper::{KeepError, Keeper};
pub use memory::MemKeeper;
pub use sure::SureKeeper;

mod cell;
mod cells;
mod keeper;
mod memory;
mod sure;
