//! What lists of places and counts are kept by: a manifest, a term and a class.
//!
//! ```text
//! is_among(&[2, 5, 9], 5)   true
//! merge(alloc, &[2, 5], &[5, 9])   Ok([2, 5, 9])
//! ```
#![tactic(auto)]

pub use classes::is_among;
pub use joined::merge;

mod classes;
mod joined;
