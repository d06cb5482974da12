//! What serves a connection at a store: what comes of each request.
//!
//! ```text
//! respond(alloc, &look, &settings, &request)   Ok(Response::Ready(reply)) for a read
//!     Ok(Response::Write { .. })               what the machine is asked to write
//! session_at_desk(alloc, &mut link, &mut desk, &settings, &clock)   Ended::Closed, all answered
//! ```
#![tactic(auto)]

pub use at_desk::session_at_desk;
pub use responding::{Response, respond};
pub use told::reply_to_write;

mod at_desk;
mod responding;
mod told;
