//! Annotations (Web Annotation Data Model): the tree that is kept of one, and what it says.
//!
//! ```text
//! note_refusal({"type":"Annotation","target":"http://a.example/c1"})   None: it can be kept
//! note_refusal({"type":"Annotation","target":[7]})   Some(NoteError::Target { at: 0 })
//! ```
#![tactic(auto)]

pub use cuts::NoteCuts;
pub use kept::{KeptNote, KeptTarget};
pub use note::{Note, read_note};
pub use occurrence::NoteOccurrence;
pub use refusal::{NoteError, note_refusal};
pub use target::Target;

mod body;
mod cuts;
mod kept;
mod motivation;
mod note;
mod occurrence;
mod refusal;
mod target;
