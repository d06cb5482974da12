//! What is reported of a case that came out otherwise than it is due, and tables of such cases.
//!
//! ```text
//! report(rt, "a name", &due, &found)   Ok(true) where both are equal; else what differs is printed
//! ```
#![tactic(auto)]

pub use outcome::{Outcome, report, wrong_with};
pub use table::{Row, is_right, read_row};

mod outcome;
mod table;
