//! The stream of the changes that a caller sees.
//!
//! ```text
//! changes_page(alloc, &look, &who, 3, &site)   where `who` sees 11 changes, and a page has ten:
//!     Err(ReadError::NoPage { pages: 2 })
//! ```
#![tactic(auto)]

pub use stream::{changes, changes_page};

mod activity;
mod page;
mod stream;
