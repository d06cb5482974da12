//! Bytes that contracts alone see.
ghost use Rattle.std.specs.Prelude.{◌≡◌, List, ℕ, [], ◌++◌};

use std::marker::{Model, PhantomData};

/// The bytes that were written to a link, for contracts alone: it takes no memory and no time, and
/// its methods do nothing at run time. A clause reads them as `bytes`.
#[derive(Drop)]
pub(crate) struct Written {
    marker: PhantomData<u8>,
    pub ghost bytes: { List ℕ },
}

impl Model for Written {
    ghost use Rattle.std.specs.Borrow.{ftrue};

    ghost also_owns = { λ _. ftrue };
}

// It owns nothing.
unsafe impl Send for Written {}

impl Written {
    pub(crate) fn new() -> Written
        ensures { result.bytes ≡ [] }
    {
        Written {
            marker: PhantomData,
        }
    }

    /// Adds these bytes behind those that were written so far.
    pub(crate) fn add(&mut self, _bytes: &[u8])
        ensures { self.new.bytes ≡ self.old.bytes ++ _bytes.now }
    {}
}
