//! Comments on transcriptions: annotations that are about another annotation, and where they hold
//! in its texts as these are now.
//!
//! ```text
//! resolve(alloc, &texts, &selectors)   where the selectors quote "herons" at 9 to 15, and the text
//!     is "two grey herons": Ok of the state `Exact` and the place 9 to 15 of text 0; where it is
//!     "the two grey herons": Ok of the state `Moved` and the place 13 to 19
//! ```
#![tactic(auto)]

pub use anchored::{Anchor, AnchorPlace, AnchorState};
pub use commented::anchors;
pub use orphaned::orphans;
pub use resolving::{resolve, resolve_all};

mod anchored;
mod candidates;
mod comment;
mod commented;
mod counted;
mod counting;
mod lost;
mod nearness;
mod orphaned;
mod resolving;
mod targets;
mod written;
