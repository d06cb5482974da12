ghost use Rattle.std.specs.Prelude.{◌≡◌, ◌<◌, ◌≤◌, ◌↔◌, [], length, take, Ok, IfOk};
ghost use Rattle.an_world.specs.Link.{MovesRead};
ghost use Rattle.an_world.specs.Input.{count_for};
ghost use Rattle.an_world.specs.Sure.{sure_of, sure_traffic, sure_after_read, sure_after_write};

use crate::input::Input;
use crate::link::{Link, LinkFault};
use crate::written::Written;
use an_base::Bytes;
use std::marker::Model;

/// A link whose input stands in memory and which never fails. What is written to it is kept for
/// contracts alone.
#[derive(Drop)]
pub struct SureLink {
    input: Input,
    written: Written,
}

impl Model for SureLink {
    ghost use Rattle.an_world.specs.Sure.{Sure};

    ghost Value = { Sure };

    ghost view = { λ l. record { input = l.input; written = l.written.bytes } };
}

impl SureLink {
    /// A link with this input, of which each read gives no more than the next piece of `cut`, or
    /// the rest behind the last piece. A piece of 0 bytes is no piece. Takes no memory.
    pub fn new(input: Bytes, cut: Vec<usize>) -> SureLink
        ensures start { result ≡ sure_of input cut.items }
    {
        SureLink {
            input: Input::new(input, cut),
            written: Written::new(),
        }
    }
}

impl Link for SureLink {
    ghost use Rattle.std.specs.Prelude.{Some, true, refl};

    ghost traffic = { λ link. Some (sure_traffic link) };

    ghost read_faults = { λ _. 0 };

    ghost write_faults = { λ _. 0 };

    ghost is_sure = { true };

    ghost sure_reads = { λ sure link. refl };

    ghost sure_writes = { λ sure link. refl };

    /// Gives as much of the next piece as there is room for.
    fn read(&mut self, into: &mut [u8]) -> Result<usize, LinkFault>
        requires { 0 < length into.old }
        ensures gives { result ≡ Ok (count_for (length into.old) self.old.input) }
        ensures after { self.new ≡ sure_after_read (length into.old) self.old }

        // What each link ensures.
        ensures within { IfOk result (λ count. count ≤ length into.old) }
        ensures moves { IfOk result
            (λ count. MovesRead (take count into.new)
            (sure_traffic self.old) (sure_traffic self.new)) }
        ensures end { IfOk result (λ count. (count ≡ 0) ↔ (self.old.input.left ≡ [])) }
    {
        Ok(self.input.give(into))
    }

    /// Takes all of them.
    fn write(&mut self, from: &[u8]) -> Result<usize, LinkFault>
        requires { 0 < length from.now }
        ensures takes { result ≡ Ok (length from.now) }
        ensures after { self.new ≡ sure_after_write from.now self.old }
    {
        self.written.add(from);
        Ok(from.len())
    }

    /// Leaves all as it is.
    fn close(&mut self)
        ensures same { self.new ≡ self.old }
    {}
}
