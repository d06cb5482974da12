use an_world::{Link, LinkFault};
use std::io::{Read, Write};

/// A link over a reader and a writer of the outside, as standard input and output. It counts each
/// call that fails, and tells no bytes.
#[derive(Drop)]
pub struct StdLink<R: Read + Drop, W: Write + Drop> {
    reader: R,
    writer: W,
    read_faults: u64,
    write_faults: u64,
}

impl<R: Read + Drop, W: Write + Drop> StdLink<R, W> {
    pub fn new(reader: R, writer: W) -> StdLink<R, W> {
        StdLink {
            reader,
            writer,
            read_faults: 0,
            write_faults: 0,
        }
    }
}

impl<R: Read + Drop, W: Write + Drop> Link for StdLink<R, W> {
    ghost use Rattle.std.specs.Prelude.{None, false};
    ghost use Rattle.std.proofs.Common.{rules};

    ghost traffic = { λ _. None };

    ghost read_faults = { λ l. l.read_faults };

    ghost write_faults = { λ l. l.write_faults };

    ghost is_sure = { false };

    ghost sure_reads = { Prim.search rules };

    ghost sure_writes = { Prim.search rules };

    fn read(&mut self, into: &mut [u8]) -> Result<usize, LinkFault> {
        match self.reader.read(into) {
            Ok(count) => Ok(count),
            Err(_) => {
                self.read_faults = self.read_faults.saturating_add(1);
                Err(LinkFault)
            }
        }
    }

    /// A write that takes no byte is a fault.
    fn write(&mut self, from: &[u8]) -> Result<usize, LinkFault> {
        match self.writer.write(from) {
            Ok(count) => if count > 0 {
                Ok(count)
            } else {
                self.write_faults = self.write_faults.saturating_add(1);
                Err(LinkFault)
            },
            Err(_) => {
                self.write_faults = self.write_faults.saturating_add(1);
                Err(LinkFault)
            }
        }
    }

    fn close(&mut self) {}
}
