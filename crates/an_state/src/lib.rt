//! What the server knows: rows, entries, the book that keeps them, and looks at it.
//!
//! ```text
//! book.room(&entry)             makes room for what the entry changes, or is out of memory
//! book.apply(entry)             changes it, and takes no memory
//! book.note_row(&owner, &name)  Some(&row): the row that it has now
//! ```
#![tactic(auto)]

pub use activity::{Activity, Seen};
pub use book::Book;
pub use command::{Command, Object, object_of, typed_writes};
pub use entry::{Entry, Row, entry_of_write};
pub use former::former_views_stay;
pub use look::Look;
pub use names::as_known;
pub use readable::is_on;
pub use row::{LiveNote, ManifestRow, NoteRow, ReaderRow};
pub use shown::{
    is_manifest_shown, is_note_shown, manifests_are_distinct, shown_manifest, shown_manifests,
    shown_note,
};
pub use totals::add_terms_of;
pub use untold::groups_are_untold;

mod activity;
mod among;
mod book;
mod command;
mod entry;
mod former;
mod look;
mod names;
mod readable;
mod row;
mod shown;
mod totals;
mod untold;
