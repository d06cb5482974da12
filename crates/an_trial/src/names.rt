//! The names of the trial.
ghost use Rattle.std.specs.Prelude.{◌≡◌, IfOk, IsTrue};
ghost use Rattle.an_base.specs.Name.{is_name};
ghost use Rattle.an_trial.specs.Writes.{note_name};

use an_base::{Name, NameError};
use std::alloc::{AllocError, Global};

/// The name that a text is.
pub(crate) fn name(alloc: Global, text: &str) -> Result<Name, AllocError>
    requires name { IsTrue (is_name text.now) }
    ensures value { IfOk result (λ name. name ≡ text.now) }
{
    match Name::new(alloc, text) {
        Ok(name) => Ok(name),
        Err(NameError::Memory) => Err(AllocError),
        Err(_) => unreachable!(),
    }
}

/// The name of the annotation with this number.
#[tactic(auto, using(crate::proofs::NameLemmas::note_name_is_name))]
pub(crate) fn note_name(alloc: Global, number: u32) -> Result<Name, AllocError>
    ensures value { IfOk result (λ name. name ≡ note_name number) }
{
    let text = format!(in alloc; "n{number}")?;
    name(alloc, text.as_str())
}
