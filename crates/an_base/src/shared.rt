ghost use Rattle.std.specs.Prelude.{◌≡◌, IfOk};

use crate::copy::TryCopy;
use std::alloc::{AllocError, Global};
use std::marker::Model;
use std::sync::Arc;

/// A value that several hold, and that is once in memory: its copies share it. Contracts see the
/// value.
#[derive(Debug, Drop)]
pub struct Shared<R> {
    value: Arc<R>,
}

impl<R> Model for Shared<R> {
    ghost use Rattle.std.specs.Arc.{arc_value};

    ghost Value = { R };

    ghost view = { λ s. arc_value s.value };
}

impl<R: Drop> Shared<R> {
    /// Its only error is want of memory.
    pub fn new(alloc: Global, value: R) -> Result<Shared<R>, AllocError>
        ensures value { IfOk result (λ shared. shared ≡ value) }
    {
        Ok(Shared {
            value: Arc::new(alloc, value)?,
        })
    }

    /// The value.
    pub fn get(&self) -> &R
        ensures value { result.now ≡ self.now }
    {
        &self.value
    }
}

impl<R: Drop> TryCopy for Shared<R> {
    /// Shares the value. It takes no memory; its only error is that the value has more copies than
    /// can be counted.
    fn copy(&self) -> Result<Shared<R>, AllocError> {
        Ok(Shared {
            value: self.value.clone()?,
        })
    }
}
