//! The replies to reads, and to writes that were decided.
//!
//! ```text
//! answer(alloc, &look, &site, &caller, prefer, &read, &mut steps)
//!     Ok(reply): its bytes are a function of what the caller may read, and of what is asked
//! ```
#![tactic(auto)]

pub use an_http::refusal_reply;
pub use answers::{answer, query_answer, write_answer};
pub use fetch::{LookFetch, NO_PREFERENCE, looks_serve};
pub use refused::write_refusal;
pub use uncounted::answer_uncounted;
pub use untold::inner_groups_are_untold;

mod answers;
mod fetch;
mod refused;
mod uncounted;
mod untold;
