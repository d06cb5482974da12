//! A store that threads share: who reads takes what is published and waits for nobody, and one
//! writes at a time.
//!
//! ```text
//! open_store(rt, alloc, keeper, 2)                        Ok(opened), with two seats
//! store.write(rt, alloc, &mut seat, moment, &caller, c)   Ok(reply): kept, published, and seen
//! store.close(rt, &mut seat)                              the keeper, which has all that was kept
//! ```
#![tactic(auto)]

pub use an_published::{Naming, Seat, Shown};
pub use opened::{Opened, open_store};
pub use store::Store;
pub use under_lock::UnderLock;

mod opened;
mod store;
mod under_lock;
