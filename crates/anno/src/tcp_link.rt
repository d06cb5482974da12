ghost use Rattle.std.specs.Prelude.{◌≡◌, ◌≤◌, length, IfSome};

use crate::account::{Account, Outcome};
use an_world::{Link, LinkFault};
use std::io::{ErrorKind, Read, Write};
use std::net::{Shutdown, TcpStream};

/// A connection. It counts each call that fails, and tells no bytes. Each reply comes to it whole,
/// and what a write left of one comes again: so a write that takes all of what it is given ends a
/// reply, and the next write begins with a status.
#[derive(Drop)]
pub struct TcpLink<'a> {
    // None once it is closed, so that its descriptor is free before the link is handed in.
    stream: Option<TcpStream>,
    read_faults: u64,
    write_faults: u64,
    account: &'a Account,
    // Of the reply that is written in part, where there is one.
    begun: Option<Outcome>,
}

impl<'a> TcpLink<'a> {
    pub fn new(stream: TcpStream, account: &'a Account) -> TcpLink<'a>
        ensures read_faults { result.read_faults ≡ 0 }
        ensures write_faults { result.write_faults ≡ 0 }
    {
        TcpLink {
            stream: Some(stream),
            read_faults: 0,
            write_faults: 0,
            account,
            begun: None,
        }
    }
}

impl<'a> Link for TcpLink<'a> {
    ghost use Rattle.std.specs.Prelude.{None, false};
    ghost use Rattle.std.proofs.Common.{rules};

    ghost traffic = { λ _. None };

    ghost read_faults = { λ l. l.read_faults };

    ghost write_faults = { λ l. l.write_faults };

    ghost is_sure = { false };

    ghost sure_reads = { Prim.search rules };

    ghost sure_writes = { Prim.search rules };

    fn read(&mut self, into: &mut [u8]) -> Result<usize, LinkFault> {
        match read_some(&self.stream, into) {
            Some(count) => Ok(count),
            None => {
                self.read_faults = self.read_faults.saturating_add(1);
                Err(LinkFault)
            }
        }
    }

    /// A write that takes no byte is a fault.
    fn write(&mut self, from: &[u8]) -> Result<usize, LinkFault> {
        match write_some(&self.stream, from) {
            Some(count) => if count > 0 {
                self.begun = wrote(self.account, self.begun, from, count);
                Ok(count)
            } else {
                self.write_faults = self.write_faults.saturating_add(1);
                Err(LinkFault)
            },
            None => {
                self.write_faults = self.write_faults.saturating_add(1);
                Err(LinkFault)
            }
        }
    }

    fn close(&mut self) {
        match &self.stream {
            Some(stream) => {
                let _ = stream.shutdown(Shutdown::Both);
                self.account.close();
            }
            None => {}
        }
        self.stream = None;
    }
}

/// Counts the reply whose last bytes these are, where a write took all of them. Else it is written
/// in part, and its outcome comes back.
fn wrote(account: &Account, begun: Option<Outcome>, from: &[u8], count: usize) -> Option<Outcome> {
    let outcome = match begun {
        Some(outcome) => outcome,
        None => Outcome::of(from),
    };
    if count < from.len() {
        return Some(outcome);
    }
    account.reply(outcome);
    None
}

/// How often a call that a signal interrupted is made again.
const TRIES: u32 = 1_000;

/// Reads once. None is a failure.
fn read_some(stream: &Option<TcpStream>, into: &mut [u8]) -> Option<usize>
    ensures count { IfSome result (λ count. count ≤ length into.old) }
    ensures length { length into.new ≡ length into.old }
{
    let mut stream = stream.as_ref()?;
    for _ in 0..TRIES {
        match stream.read(into) {
            Ok(count) => return Some(count),
            Err(error) => if error.kind() != ErrorKind::Interrupted {
                return None;
            },
        }
    }
    None
}

/// Writes once. None is a failure.
fn write_some(stream: &Option<TcpStream>, from: &[u8]) -> Option<usize>
    ensures count { IfSome result (λ count. count ≤ length from.now) }
{
    let mut stream = stream.as_ref()?;
    for _ in 0..TRIES {
        match stream.write(from) {
            Ok(count) => return Some(count),
            Err(error) => if error.kind() != ErrorKind::Interrupted {
                return None;
            },
        }
    }
    None
}
