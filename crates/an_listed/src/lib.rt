//! The rows of annotations beside the lists by which they are found.
//!
//! ```text
//! listed.room(&[row])   Ok(()): there is memory for the row and its lists
//! listed.put(0, row)    the row is at the place 0, and found by its words
//! listed.with_term(alloc, &classes, &who, None, "heron")  Ok([0]), if the caller may read it
//! ```
#![tactic(auto)]

pub use filed::Filed;
pub use listed::Listed;

mod among;
mod asks;
mod change;
mod filed;
mod keys;
mod kind;
mod leaner;
mod listed;
mod needs;
mod put;
mod register;
mod room;
