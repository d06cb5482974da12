ghost use Rattle.std.specs.Prelude.{◌≡◌, ◌≤◌, drop, length};

use std::marker::Model;

/// What is left of an input. The part that is read is let go of as soon as it is more than what is
/// left, so that an input and what is made of it aren't both held whole. Contracts see the bytes
/// that are left.
#[derive(Drop)]
pub(crate) struct Input {
    bytes: Vec<u8>,
    read: usize,
}

impl Model for Input {
    ghost use Rattle.std.specs.Prelude.{◌≤◌, ℕ, List, drop, length};

    ghost Value = { List ℕ };

    ghost view = { λ i. drop i.read i.bytes.items };

    ghost invariant = { λ i. i.read ≤ length i.bytes.items };
}

impl Input {
    /// Takes no memory.
    pub(crate) fn new(bytes: Vec<u8>) -> Input
        ensures whole { result ≡ bytes.items }
    {
        Input { bytes, read: 0 }
    }

    /// The bytes that are left.
    pub(crate) fn as_slice(&self) -> &[u8]
        ensures value { result.now ≡ self.now }
    {
        &self.bytes[self.read..]
    }

    /// Passes over so many bytes, for which it wants no memory.
    pub(crate) fn pass(&mut self, count: usize)
        requires within { count ≤ length self.old }
        ensures rest { self.new ≡ drop count self.old }
    {
        self.read += count;
        if self.read > self.bytes.len() / 2 {
            self.let_go();
        }
    }

    /// Lets go of what is read, where memory lasts for what is left.
    fn let_go(&mut self)
        ensures { self.new ≡ self.old }
    {
        match Vec::from_slice(*self.bytes.allocator(), self.as_slice()) {
            Ok(left) => {
                self.bytes = left;
                self.read = 0;
            }
            Err(_) => {}
        }
    }
}
