//! The words of a text (UAX #29), each with the term that it is found by and the span where it
//! stands; and the plain text of an HTML text.
//!
//! ```text
//! term_of(alloc, "HERON")               "heron"
//! occurrences(alloc, "a grey heron")    "a" at 0 to 1, "grey" at 2 to 6, "heron" at 7 to 12
//! sought_occurrences(alloc, "a grey heron", &terms, 10)
//!                                       "heron" at 7 to 12, where that is all of the terms
//! ```
#![tactic(auto)]

pub use html::plain_of_html;
pub use occurrence::Occurrence;
pub use sought::sought_occurrences;
pub use term::term_of;
pub use words::occurrences;

mod html;
mod occurrence;
mod sought;
mod term;
mod words;
