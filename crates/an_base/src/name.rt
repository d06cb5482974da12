ghost use Rattle.std.specs.Prelude.{◌≡◌, IfOk, IsTrue, not, position};
ghost use Rattle.an_base.specs.Outcome.{Gives, first_of};
ghost use Rattle.an_base.specs.Name.{is_name, is_name_sign, name_in, name_refusals};

use crate::copy::TryCopy;
use crate::shared::Shared;
use crate::text::Text;
use std::alloc::{AllocError, Global};
use std::marker::Model;

/// Why a text is no name.
#[derive(Clone, Copy, Debug, PartialEq, Eq)]
pub enum NameError {
    /// It is empty.
    Empty,
    /// It has more than 64 bytes.
    Long,
    /// The byte at this place stands in no name, or it is `-` alone.
    Sign { at: usize },
    Memory,
}

/// The name of a reader, a manifest, an annotation or a group: 1 to 64 bytes of `a-z`, `0-9`, `-`
/// and `_`, other than `-` alone. Its copies share the text. Contracts see the list of its bytes.
#[derive(Debug, Drop)]
pub struct Name {
    text: Shared<Text>,
}

impl Model for Name {
    ghost use Rattle.std.specs.Prelude.{List, ℕ, IsTrue};
    ghost use Rattle.an_base.specs.Name.{is_name};

    ghost Value = { List ℕ };

    ghost view = { λ n. n.text };

    ghost inverse = { λ text. record { text = text } };

    ghost invariant = { λ n. IsTrue (is_name n.text) };
}

impl Name {
    ghost use Rattle.an_base.specs.Name.{is_name, name_of};

    /// The name that a text is, or the first of the refusals in their order.
    pub fn new(alloc: Global, text: &str) -> Result<Name, NameError>
        ensures name { Gives (λ n. n) NameError.Memory result (name_of text.now) }
    {
        if let Some(refusal) = refusal_of(text) {
            return Err(refusal);
        }
        match shared_text(alloc, text) {
            Ok(text) => Ok(Name { text }),
            Err(_) => Err(NameError::Memory),
        }
    }

    pub fn as_str(&self) -> &str
        ensures value { result.now ≡ self.now }
        ensures name { IsTrue (is_name self.now) }
    {
        self.text.get().as_str()
    }
}

impl TryCopy for Name {
    fn copy(&self) -> Result<Name, AllocError> {
        Ok(Name {
            text: self.text.copy()?,
        })
    }
}

impl PartialEq for Name {
    ghost use Rattle.std.specs.Prelude.{bytes_eq};
    ghost use Rattle.std.specs.Cmp.Lexicographic.{nat_list_eq_equiv};
    ghost use Rattle.std.specs.Cmp as Cmp;

    ghost eq = { bytes_eq };

    ghost laws = { Cmp.partial_equiv_from_equiv nat_list_eq_equiv };

    fn eq(&self, other: &Name) -> bool {
        self.as_str() == other.as_str()
    }
}

impl Eq for Name {
    ghost use Rattle.std.specs.Cmp.Lexicographic.{nat_list_eq_equiv};

    ghost laws = { nat_list_eq_equiv };
}

/// The name that a text is, where it is one.
pub fn name_in(alloc: Global, text: &str) -> Result<Option<Name>, AllocError>
    ensures name { IfOk result (λ name. name ≡ name_in text.now) }
{
    match Name::new(alloc, text) {
        Ok(name) => Ok(Some(name)),
        Err(error) => if matches!(error, NameError::Memory) {
            Err(AllocError)
        } else {
            Ok(None)
        },
    }
}

/// Whether a text is a name. Takes no memory.
pub fn is_name(text: &str) -> bool
    ensures name { result ≡ is_name text.now }
{
    refusal_of(text).is_none()
}

fn shared_text(alloc: Global, text: &str) -> Result<Shared<Text>, AllocError>
    ensures { IfOk result (λ shared. shared ≡ text.now) }
{
    Shared::new(alloc, Text::new(alloc, text)?)
}

/// The first refusal of a text as a name.
fn refusal_of(text: &str) -> Option<NameError>
    ensures { result ≡ first_of (name_refusals text.now) }
{
    let bytes = text.as_bytes();
    if bytes.is_empty() {
        return Some(NameError::Empty);
    }
    if bytes.len() > 64 {
        return Some(NameError::Long);
    }
    if text == "-" {
        return Some(NameError::Sign { at: 0 });
    }
    match bad_sign_at(bytes) {
        Some(at) => Some(NameError::Sign { at }),
        None => None,
    }
}

fn bad_sign_at(bytes: &[u8]) -> Option<usize>
    ensures { result ≡ position (λ b. not (is_name_sign b)) bytes.now }
{
    bytes.iter().position(|b| !is_name_sign(*b))
}

fn is_name_sign(byte: u8) -> bool
    ensures { result ≡ is_name_sign byte }
{
    matches!(byte, b'a'..=b'z' | b'0'..=b'9' | b'-' | b'_')
}
