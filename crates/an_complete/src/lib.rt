//! Completions: the terms of a manifest's annotations that begin as a prefix does.
//!
//! ```text
//! read_ask(alloc, "q=he&min=2")   Ok(ask), which asks for the terms in "he.." that occur twice
//! read_ask(alloc, "min=2")        Err(AskError::NoPrefix)
//! complete(alloc, &look, &who, &manifest, &ask, &site, &mut steps)   Ok(the page of these terms)
//! ```
#![tactic(auto)]

pub use ask::{Ask, AskError, ask_in, read_ask};
pub use completion::{asked_terms, asked_terms_on, complete};
pub use page::{append_ask, terms_text};

mod ask;
mod completion;
mod page;
mod totals;
