use std::alloc::Global;
use std::marker::Model;

/// The bytes that were read from a link, and of which no request was taken yet. Contracts see the
/// list of them. They are never more than a head and a body may have.
#[derive(Debug, Drop)]
pub struct Buffer {
    pub(crate) bytes: Vec<u8>,
}

impl Model for Buffer {
    ghost use Rattle.std.specs.Prelude.{List, ℕ, ◌+◌, ◌≤◌, length};
    ghost use Rattle.an_http.specs.Head.{head_limit};
    ghost use Rattle.an_http.specs.Fields.{body_limit};

    ghost Value = { List ℕ };

    ghost view = { λ b. b.bytes.items };

    ghost invariant = { λ b. length b.bytes.items ≤ head_limit + body_limit };
}

impl Buffer {
    ghost use Rattle.std.specs.Prelude.{◌≡◌, ◌+◌, ◌≤◌, [], length};
    ghost use Rattle.an_http.specs.Head.{head_limit};
    ghost use Rattle.an_http.specs.Fields.{body_limit};

    /// Nothing was read yet. Takes no memory.
    pub fn new(alloc: Global) -> Buffer
        ensures empty { result ≡ [] }
    {
        Buffer {
            bytes: Vec::new(alloc),
        }
    }

    /// How many bytes it holds, which is at most 1,064,960.
    pub fn held(&self) -> usize
        ensures count { result ≡ length self.now }
        ensures most { result ≤ head_limit + body_limit }
    {
        self.bytes.len()
    }
}
