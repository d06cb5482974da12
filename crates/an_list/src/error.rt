ghost use Rattle.std.specs.Prelude.{◌≡◌};

use std::alloc::AllocError;

/// Why nothing is shown of what is read.
#[derive(Clone, Copy, Debug, PartialEq, Eq)]
pub enum ReadError {
    /// There is no such thing that the caller may read.
    Absent,
    /// The last change of it that the caller sees is its deletion.
    Gone,
    /// The list has no page of this number: its pages are numbered from 1 to this one.
    NoPage { pages: usize },
    /// Memory ran out. It may stand in place of any answer.
    Memory,
}

impl From<AllocError> for ReadError {
    ghost use Rattle.an_list.specs.declared.error.ReadError.TheVariants.{Memory};

    ghost from_gives = { λ e error. error ≡ Memory };

    fn from(_error: AllocError) -> ReadError {
        ReadError::Memory
    }
}
