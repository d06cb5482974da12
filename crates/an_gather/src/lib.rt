//! Searches and completions in the annotations on several manifests, and the collection of all
//! manifests: each over those that the caller may read.
//!
//! ```text
//! read_gather(alloc, "manifests=m1+m2&q=heron")   Ok(gather), which asks for "heron" on m1 and m2
//! read_gather(alloc, "manifests=A")               Err(GatherError::Manifests { at: 0 })
//! gather_search(alloc, &look, &who, &gather, &site, &mut steps)   Ok(the page of what is found)
//! ```
#![tactic(auto)]

pub use ask::{GATHER_ASK_PARAMETERS, GatherAsk, GatherAskError, read_gather_ask};
pub use collected::collection;
pub use completion::gather_complete;
pub use gather::{GATHER_PARAMETERS, Gather, GatherError, read_gather};
pub use searching::gather_search;

mod ask;
mod choosing;
mod collected;
mod completion;
mod gather;
mod names;
mod searching;
