//! The annotation server, but for its links to the outside: what its words, its lines and its
//! requests do.
//!
//! ```text
//! run(rt, alloc, ["-", "import"], keeper, &mut link, &mut door, &clock)
//!     Ran { status: Status::Done, keeper }   every line was done, and the keeper has its cells
//!     Ran { status: Status::Damaged { tab, key }, keeper }   its cells stood for no state
//! ```
#![tactic(auto)]

pub use an_answers::{answer, query_answer, refusal_reply, write_answer};
pub use an_door::{Accepted, Door, DoorFault, Finished, MemDoor, SureDoor, Tally};
pub use an_lines::{Status, export, find, harvest, harvest_look, import, trial};
pub use an_routes::{Read, Route, RouteError, WriteRoute, command_of, route};
pub use an_seats::{AtStores, session};
pub use an_serve::session_at_desk;
pub use form::{Form, Serving, form_of};
pub use laws::{equal_views_are_answered_alike, harvests_are_views};
pub use memory::run_in_memory;
pub use program::{misunderstood, run};
pub use ran::Ran;
pub use serving::serve;

mod form;
mod laws;
mod memory;
mod program;
mod ran;
mod serving;
mod stored;
