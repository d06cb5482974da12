use an_base::{Shared, TryCopy};
use an_state::NoteRow;
use std::alloc::AllocError;

/// A row of an annotation, and the number of the class of its audience: of a tombstone any number.
#[derive(Debug, Drop)]
pub struct Filed {
    pub note: Shared<NoteRow>,
    pub class: usize,
}

impl TryCopy for Filed {
    fn copy(&self) -> Result<Filed, AllocError> {
        Ok(Filed {
            note: self.note.copy()?,
            class: self.class,
        })
    }
}
