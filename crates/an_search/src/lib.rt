//! Searches: which annotations a query wants, and the page of them that it asks for.
//!
//! ```text
//! search(alloc, &look, &who, &manifest, &query, &site, &mut steps)
//!     Ok(page), or Err(ReadError::NoPage { pages: 1 }) where that page is past the only one
//! ```
#![tactic(auto)]

pub use gathered::{Scope, search_on};
pub use known::{Known, Last, known_first};
pub use pieces::Pieces;
pub use ranges::Ranges;
pub use searching::{SEARCH_CONTEXT, append_query, found_total, search};
pub use wanted::{Wanted, given_pieces, matches, matches_after, wanted_by, wants_nothing};

mod gathered;
mod hits;
mod known;
mod pieces;
mod ranges;
mod searching;
mod wanted;
