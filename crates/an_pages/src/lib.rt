//! The answers to reads of one thing, a manifest or an annotation, and of the annotations on a
//! canvas or in a container.
//!
//! ```text
//! annotation(alloc, &look, &who, &owner, &name, &site)   Ok(body) where `who` may read it,
//!     Err(ReadError::Gone) where it could once, and else Err(ReadError::Absent)
//! ```
#![tactic(auto)]

pub use canvas::canvas_page;
pub use containers::{container, container_page};
pub use manifest::manifest_answer;
pub use note::{annotation, missing_note};

mod about;
mod canvas;
mod containers;
mod items;
mod manifest;
mod note;
mod region;
mod written;
