//! What is served of what is kept: a manifest with its IRI, its services and the pages of the
//! annotations on it, and an annotation with its IRI, who made it and when.
//!
//! ```text
//! push_manifest(alloc, out, sheet, "http://a.example", m1)
//!     Ok: {..,"id":"http://a.example/manifests/m1",..}
//! push_dressed(out, note, "http://a.example/annotations/u/n", "http://a.example/readers/u", ..)
//!     Ok: {..,"created":"2026-01-01T00:00:00Z","creator":"http://a.example/readers/u",..}
//! ```
#![tactic(auto)]

pub use laws::{canvas_ids_stay, other_members_stay};
pub use manifest::{CONTEXTS, push_label, push_manifest};
pub use manifest_tree::dress_manifest;
pub use note::{push_dressed, push_shown};
pub use note_tree::dress;

mod laws;
mod manifest;
mod manifest_tree;
mod note;
mod note_tree;
mod take;
