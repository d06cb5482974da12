//! A harvest of a stream of changes: what lives after all of them. The walk gets the stream's last
//! page, and then one page before the other, as far as nothing is known yet.
//!
//! ```text
//! harvest(alloc, &mut fetch, "http://a.example", &Known::new(alloc))
//!     Ok(known)                          each object that lives, and the number of activities
//!     Err(HarvestError::Form { target }) what was got for this target is no page as it is due
//! harvest(alloc, &mut fetch, "http://a.example", &known)
//!     Ok(..)                             only the pages with new activities were got
//! ```
#![tactic(auto)]

pub use fetch::{Fetch, FetchError, Got};
pub use harvesting::{HarvestError, harvest};
pub use known::{Known, KnownObject};
pub use laws::{harvests_go_on, replies_are_unique};
pub use link_fetch::LinkFetch;
pub use map_fetch::{FetchPair, MapFetch};
pub use reply::{GetError, get_reply};

mod feed;
mod fetch;
mod getting;
mod harvesting;
mod head;
mod known;
mod latest;
mod laws;
mod link_fetch;
mod map_fetch;
mod merging;
mod reply;
mod request;
