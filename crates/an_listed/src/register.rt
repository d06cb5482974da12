ghost use Rattle.std.specs.Prelude.{◌≡◌, [], IfOk};
ghost use Rattle.an_listed.specs.Leaner.{AreLeaner};
ghost use Rattle.an_listed.specs.Stands.{Stands};

use an_postings::Postings;
use std::alloc::{AllocError, Global};

/// What stands beside rows.
#[derive(Drop)]
pub struct Register {
    /// By manifest, term and class the places of the rows that have the term, and how often it
    /// occurs in them.
    pub words: Postings,
    /// The same by term and class, whatever manifest the rows are on: under the empty text, which
    /// is no manifest's name.
    pub anywhere: Postings,
    /// By manifest and class the places of all rows, under the empty term.
    pub whole: Postings,
}

impl Register {
    /// Of no rows. It takes no memory.
    pub(crate) fn new(alloc: Global) -> Register
        ensures stands { Stands result [] }
    {
        Register {
            words: Postings::new(alloc),
            anywhere: Postings::new(alloc),
            whole: Postings::new(alloc),
        }
    }

    /// A copy, which has memory for its places alone.
    pub(crate) fn copy(&self) -> Result<Register, AllocError>
        ensures leaner { IfOk result (λ copy. AreLeaner self.now copy) }
    {
        Ok(Register {
            words: self.words.copy()?,
            anywhere: self.anywhere.copy()?,
            whole: self.whole.copy()?,
        })
    }
}
