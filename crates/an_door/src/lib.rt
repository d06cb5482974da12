//! Where connections come in and are handed in again, and the workers that serve them.
//!
//! ```text
//! serve(rt, alloc, &mut line, &sessions, seats, 8080, 64, &mut door).status
//!     Status::Done        the door has ended, each link is handed in, `served 3` is printed
//!     Status::DoorFailed  the door failed a call; `door failed` is printed
//! ```
#![tactic(auto)]

pub use door::{Accepted, Door, DoorFault, Tally};
pub use finished::Finished;
pub use mem_door::MemDoor;
pub use serving::{Run, Status, serve};
pub use sessions::{Served, SessionKind, Sessions};
pub use sure_door::SureDoor;

mod door;
mod finished;
mod links;
mod lock;
mod mem_door;
mod serving;
mod sessions;
mod sure_door;
mod worker;
