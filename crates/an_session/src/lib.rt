//! One connection: requests are read, answered and replied to in turn, up to its end.
//!
//! ```text
//! serve_link(alloc, &mut link, &mut service, &context)
//!     Ended::Closed      all that was due is answered: a request closed, was refused, the input
//!                        ended, or it was the 1,000th request
//!     Ended::ReadFault   the link failed a read; each whole request before it is answered
//!     Ended::WriteFault  the link failed a write; the last reply may be cut off
//!     Ended::Memory      memory ran out; the last reply says so
//! ```
#![tactic(auto)]

pub use ended::Ended;
pub use laws::{
    dues_are_few, dues_are_requests, dues_are_unique, lists_are_one, own_is_added,
    sessions_read_little, trails_are_shared,
};
pub use serve::serve_link;
pub use service::Service;

mod ended;
mod laws;
mod serve;
mod service;
mod turn;
