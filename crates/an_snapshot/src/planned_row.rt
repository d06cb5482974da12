use an_base::Shared;
use an_listed::Filed;
use an_state::{NoteRow, Row};

/// A row that is to be put.
#[derive(Drop)]
pub(crate) enum PlannedRow {
    /// A row that isn't an annotation's.
    Other(Row),
    /// An annotation's row, and how it is filed.
    Note(Shared<NoteRow>, Filed),
}
