ghost use Rattle.std.specs.Prelude.{◌≡◌, IfOk};

use std::alloc::AllocError;

/// A value that can be copied where memory lasts.
pub trait TryCopy {
    /// A value equal to this one. Its only error is want of memory.
    fn copy(&self) -> Result<Self, AllocError>
        ensures equal { IfOk result (λ copy. copy ≡ self.now) };
}

impl<T: TryCopy> TryCopy for Option<T> {
    fn copy(&self) -> Result<Option<T>, AllocError> {
        match self {
            Some(value) => Ok(Some(value.copy()?)),
            None => Ok(None),
        }
    }
}

/// Copies of both values. What copies many values copies them by twos, which proves far faster.
pub fn copy_both<A: TryCopy + Drop, B: TryCopy>(a: &A, b: &B) -> Result<(A, B), AllocError>
    ensures first { IfOk result (λ both. both.0 ≡ a.now) }
    ensures second { IfOk result (λ both. both.1 ≡ b.now) }
{
    let a = a.copy()?;
    Ok((a, b.copy()?))
}
