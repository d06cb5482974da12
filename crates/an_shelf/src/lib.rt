//! A store: a keeper's cells, the state that they stand for, and the look that requests are
//! answered from.
//!
//! ```text
//! Desk::open(alloc, MemKeeper::new(cells))        Ok(desk), where the cells stand for a state
//!     Err(NotOpened { why, keeper })              else, with the first damaged cell
//! desk.write(alloc, moment, &caller, command)     Ok(WriteReply { version: 1, .. }): it is kept
//! ```
#![tactic(auto)]

pub use closing::reopen;
pub use desk::{Desk, NotOpened};
pub use error::{OpenError, WriteError};
pub use keeping::{decide, keep};
pub use opening::load;

mod closing;
mod desk;
mod error;
mod keeping;
mod lagging_look;
mod opening;
mod restoring;
mod writing;
