//! The trial: an input of any size, which a seed decides, is written to a store in memory, and what
//! searches and completions count there is printed in nine lines. Anybody can compare them.
//!
//! ```text
//! trial(alloc, 3, 1)   Ok("notes 3 public 2\ncrane 0 0 0 0\n.."): a line for each of eight words
//! ```
#![tactic(auto)]

pub use report::trial;

mod draws;
mod names;
mod playing;
mod report;
mod totals;
mod trees;
mod writes;
