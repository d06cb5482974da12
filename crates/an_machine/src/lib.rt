//! The small machine: which writes are accepted, and what they come to.
//!
//! ```text
//! decide(alloc, &book, moment, &caller, &command)
//!     Ok(Decided { entry: Some(entry), reply })   accepted: the entry has its rows and activities
//!     Ok(Decided { entry: None, reply })          it had been done already
//!     Err(Refused::NotWriter)                     the first refusal that is due
//! ```
#![tactic(auto)]

pub use an_state::{
    Activity, Book, Command, Entry, LiveNote, Look, ManifestRow, NoteRow, Object, ReaderRow, Row,
    Seen,
};
pub use command::{Decided, Refused, WriteReply};
pub use judging::decide;

mod asked;
mod changes;
mod command;
mod deletion;
mod effect;
mod judging;
mod put_manifest;
mod put_note;
mod put_reader;
mod refusal;
mod versions;
