ghost use Rattle.std.specs.Prelude.{◌≡◌, ℕ, List, IfOk, IsTrue, Some};
ghost use Rattle.an_base.specs.Name.{is_name};
ghost use Rattle.an_iri.specs.Iris.{note_iri};
ghost use Rattle.an_iri.specs.Names.{both_names, names_between, names_in};

use an_base::{Name, after_front, name_in};
use std::alloc::{AllocError, Global};

/// The owner and the name of the annotation whose IRI a text is: the base, `/annotations/`, two
/// names and one `/` between them, and nothing more.
pub fn names_in(alloc: Global, base: &str, iri: &str) -> Result<Option<(Name, Name)>, AllocError>
    ensures names { IfOk result (λ names. names ≡ names_in base.now iri.now) }
{
    match after_front(base, iri) {
        Some(path) => match after_front("/annotations/", path) {
            Some(names) => names_between(alloc, names),
            None => Ok(None),
        },
        None => Ok(None),
    }
}

fn names_between(alloc: Global, text: &str) -> Result<Option<(Name, Name)>, AllocError>
    ensures { IfOk result (λ names. names ≡ names_between text.now) }
{
    match text.split_once('/') {
        Some((owner, name)) => both_names(alloc, owner, name),
        None => Ok(None),
    }
}

fn both_names(alloc: Global, owner: &str, name: &str) -> Result<Option<(Name, Name)>, AllocError>
    ensures { IfOk result (λ names. names ≡ both_names owner.now name.now) }
{
    match name_in(alloc, owner)? {
        Some(owner) => match name_in(alloc, name)? {
            Some(name) => Ok(Some((owner, name))),
            None => Ok(None),
        },
        None => Ok(None),
    }
}

/// A law: an annotation's IRI is read back as the names of its owner and of its own.
pub fn note_iris_read_back()
    ensures names { (base owner name : List ℕ) → IsTrue (is_name owner) → IsTrue (is_name name)
        → names_in base (note_iri base owner name) ≡ Some (owner, name) }
{}

/// A law: what is read as two names is the IRI of that annotation, and no other text.
pub fn note_iris_are_unique()
    ensures iri { (base iri owner name : List ℕ) → names_in base iri ≡ Some (owner, name)
        → iri ≡ note_iri base owner name }
{}
