//! Postings: for each manifest, term and class the places of the rows there, ascending, and how
//! often the term occurs in them. A manifest is its name, or the empty text, under which lists of
//! all manifests can be filed.
//!
//! ```text
//! postings.room_add("m1", "heron", 2, 1)  Ok(()): a place more has room; Err: out of memory
//! postings.add("m1", "heron", 2, 7, 3)    the row at 7 has the term three times
//! postings.places(alloc, "m1", "heron", &[2])  Ok([7])
//! postings.total("m1", "heron", &[2])     3
//! ```
#![tactic(auto)]

pub use among::{is_listed, length_of};
pub use class_postings::ClassPostings;
pub use laws::all_is_told;
pub use postings::Postings;

mod among;
mod class_postings;
mod gather;
mod kept;
mod laws;
mod leaner;
mod manifest_postings;
mod marks;
mod merge;
mod noted;
mod places;
mod postings;
mod prefix;
mod sorted;
mod term_key;
mod totals;
mod walk;
