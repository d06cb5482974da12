ghost use Rattle.std.specs.Prelude.{◌≡◌};

use an_keep::KeepError;
use an_machine::Refused;
use std::alloc::AllocError;

/// Why a store isn't opened. Its cells are as they were.
#[derive(Clone, Copy, Debug, PartialEq, Eq)]
pub enum OpenError {
    /// The keeper failed, and has counted it.
    Keeper,
    /// The cells stand for no state. This one is the first that is damaged.
    Damaged { tab: u8, key: u64 },
    Memory,
}

impl From<AllocError> for OpenError {
    ghost use Rattle.an_shelf.specs.declared.error.OpenError.TheVariants.{Memory};

    ghost from_gives = { λ e error. error ≡ Memory };

    fn from(_error: AllocError) -> OpenError {
        OpenError::Memory
    }
}

impl From<KeepError> for OpenError {
    ghost use Rattle.an_shelf.specs.Failure.{open_error};

    ghost from_gives = { λ e error. error ≡ open_error e };

    fn from(error: KeepError) -> OpenError {
        match error {
            KeepError::Failed => OpenError::Keeper,
            KeepError::Memory => OpenError::Memory,
        }
    }
}

/// Why a write isn't reported as done. A refusal and a failure of the keeper leave the state and
/// the cells as they were. Where memory ran out the write may be kept, and then waits to be shown.
#[derive(Clone, Copy, Debug, PartialEq, Eq)]
pub enum WriteError {
    /// The machine refused it.
    Refused(Refused),
    /// The keeper failed, and has counted it.
    Keeper,
    Memory,
}

impl From<AllocError> for WriteError {
    ghost use Rattle.an_shelf.specs.declared.error.WriteError.TheVariants.{Memory};

    ghost from_gives = { λ e error. error ≡ Memory };

    fn from(_error: AllocError) -> WriteError {
        WriteError::Memory
    }
}

impl From<KeepError> for WriteError {
    ghost use Rattle.an_shelf.specs.Failure.{write_error};

    ghost from_gives = { λ e error. error ≡ write_error e };

    fn from(error: KeepError) -> WriteError {
        match error {
            KeepError::Failed => WriteError::Keeper,
            KeepError::Memory => WriteError::Memory,
        }
    }
}
