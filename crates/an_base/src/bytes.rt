ghost use Rattle.std.specs.Prelude.{◌≡◌, IfOk};

use crate::copy::TryCopy;
use std::alloc::{AllocError, Global};
use std::marker::Model;

/// Bytes. Contracts see the list of them.
#[derive(Debug, Drop)]
pub struct Bytes {
    bytes: Vec<u8>,
}

impl Model for Bytes {
    ghost use Rattle.std.specs.Prelude.{List, ℕ};

    ghost Value = { List ℕ };

    ghost view = { λ b. b.bytes.items };
}

impl Bytes {
    /// A copy of the bytes that are lent.
    pub fn new(alloc: Global, bytes: &[u8]) -> Result<Bytes, AllocError>
        ensures value { IfOk result (λ b. b ≡ bytes.now) }
    {
        Ok(Bytes {
            bytes: Vec::from_slice(alloc, bytes)?,
        })
    }

    /// Takes no memory.
    pub fn from_vec(bytes: Vec<u8>) -> Bytes
        ensures value { result ≡ bytes.items }
    {
        Bytes { bytes }
    }

    /// Takes no memory.
    pub fn into_vec(self) -> Vec<u8>
        ensures value { result.items ≡ self }
    {
        let Bytes { bytes } = self;
        bytes
    }

    pub fn as_slice(&self) -> &[u8]
        ensures value { result.now ≡ self.now }
    {
        self.bytes.as_slice()
    }
}

impl TryCopy for Bytes {
    fn copy(&self) -> Result<Bytes, AllocError> {
        Bytes::new(*self.bytes.allocator(), self.bytes.as_slice())
    }
}

impl PartialEq for Bytes {
    ghost use Rattle.std.specs.Prelude.{bytes_eq};
    ghost use Rattle.std.specs.Cmp.Lexicographic.{nat_list_eq_equiv};
    ghost use Rattle.std.specs.Cmp as Cmp;

    ghost eq = { bytes_eq };

    ghost laws = { Cmp.partial_equiv_from_equiv nat_list_eq_equiv };

    fn eq(&self, other: &Bytes) -> bool {
        self.as_slice() == other.as_slice()
    }
}

impl Eq for Bytes {
    ghost use Rattle.std.specs.Cmp.Lexicographic.{nat_list_eq_equiv};

    ghost laws = { nat_list_eq_equiv };
}
