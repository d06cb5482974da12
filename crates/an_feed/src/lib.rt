//! What a harvest finds of a stream that this server serves. The crate has laws only, each of which
//! is the contract of a function that does nothing.
//!
//! ```text
//! served_streams_are_harvested(&fetch)  no walk over what is served of a view stops; at its end it
//!                                       has every change of the view
//! harvests_have_what_is_told()          a manifest whose last change is Delete is in no harvest
//! ```
#![tactic(auto)]

pub use laws::{harvests_have_what_is_told, served_streams_are_harvested};

mod laws;
