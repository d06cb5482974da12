//! What is published of a store that threads share: the history of its writes, a snapshot of the
//! state behind each beginning of it, and the seats from which readers look.
//!
//! ```text
//! seat.look()        Ok(shown), without waiting: what is published, or Err(seat) once closed
//! shown.snapshot()   the state behind all writes that the seat sees
//! shown.leave()      the seat again
//! ```
#![tactic(auto)]

pub use event::KeptEvent;
pub use history::{Head, Mark, begin, extend};
pub use lock::{StoreWriter, align, earn, publish};
pub use published::{Addition, Published};
pub use seat::{Seat, Shown};
pub use seat_knowledge::Naming;

mod event;
mod history;
mod lock;
mod published;
mod seat;
mod seat_knowledge;
