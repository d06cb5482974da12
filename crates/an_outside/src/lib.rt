//! What each program of the server takes from outside: its words, and a link over its input and its
//! output.
//!
//! ```text
//! words_of(&rt)      Ok(["-", "trial", "3", "1"]), the words behind the program's name
//! StdLink::new(rt.reader(), io::writer(&rt))   a link, which tells no bytes
//! ```
#![tactic(auto)]

pub use std_link::StdLink;
pub use words::words_of;

mod std_link;
mod words;
