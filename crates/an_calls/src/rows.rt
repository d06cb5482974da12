//! What answers the rows of a case, and what arguments are made of.
use std::alloc::{AllocError, AllocFailed, Global};

/// Why a row has no answer.
#[derive(Clone, Copy)]
pub enum RowError {
    /// What stands before the answer is no argument of the call.
    Form,
    /// Memory ran out.
    Memory,
}

impl RowError {
    /// How it is shown in place of an answer.
    pub fn text(self) -> &'static str {
        match self {
            RowError::Form => "no argument of the call",
            RowError::Memory => "memory ran out",
        }
    }
}

impl From<AllocError> for RowError {
    fn from(_error: AllocError) -> RowError {
        RowError::Memory
    }
}

impl<T: Drop> From<AllocFailed<T>> for RowError {
    fn from(_error: AllocFailed<T>) -> RowError {
        RowError::Memory
    }
}

/// What answers the rows of a case, one after the other.
pub trait Answers {
    fn answer(&mut self, alloc: Global, argument: &str) -> Result<String, RowError>;
}

/// The parts of an argument, which stand between bars.
pub fn two_parts(argument: &str) -> Result<(&str, &str), RowError> {
    argument.split_once(" | ").ok_or(RowError::Form)
}

/// The first word of a text, and what stands behind it.
pub fn two_words(text: &str) -> Result<(&str, &str), RowError> {
    text.split_once(" ").ok_or(RowError::Form)
}
