//! What serves connections at the seats of a store that threads share: each is answered by what is
//! published, and waits for nobody but to write.
//!
//! ```text
//! session(rt, alloc, &mut link, &store, seat, &settings, &clock)
//!     Served { seat, ended: Ended::Closed }   each request was answered, the writes by the store
//! ```
#![tactic(auto)]

pub use server::{AtStores, Server, Since};
pub use sitting::session;

mod hearing;
mod seat_context;
mod seat_service;
mod server;
mod sitting;
mod writing;
