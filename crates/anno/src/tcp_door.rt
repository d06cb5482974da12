ghost use Rattle.std.specs.Prelude.{◌≡◌};

use crate::account::Account;
use crate::host::Binder;
use crate::tcp_link::TcpLink;
use an_door::{Accepted, Door, DoorFault, SessionKind, Tally};
use an_session::Ended;
use std::net::{TcpListener, TcpStream};
use std::time::Duration;

/// A port of this machine at which connections come in.
#[derive(Drop)]
pub struct TcpDoor<'a, B: Binder + Drop> {
    binder: B,
    account: &'a Account,
    listener: Option<TcpListener>,
    tally: Tally,
    faults: u64,
    // The second in which it was bound.
    begun: u64,
}

impl<'a, B: Binder + Drop> TcpDoor<'a, B> {
    /// A door that isn't bound yet.
    pub fn new(binder: B, account: &'a Account) -> TcpDoor<'a, B>
        ensures unbound { result.tally.port ≡ 0 }
    {
        TcpDoor {
            binder,
            account,
            listener: None,
            tally: Tally {
                accepted: 0,
                finished: 0,
                ended: false,
                port: 0,
                most: 0,
            },
            faults: 0,
            begun: 0,
        }
    }

    /// Says what was served, where it was bound, at a store that kept so many commits, where it
    /// keeps any.
    pub fn report_end(&self, commits: Option<u64>) {
        if self.tally.port != 0 {
            self.account
                .report_end(self.begun, self.tally.finished, commits);
        }
    }
}

impl<'a, B: Binder + Drop, K: SessionKind> Door<K> for TcpDoor<'a, B> {
    type Link = TcpLink<'a>;

    ghost use Rattle.std.specs.Prelude.{false};
    ghost use Rattle.std.proofs.Common.{rules};

    ghost counts = { λ d. d.tally };

    ghost has_none = { λ d. false };

    ghost faults = { λ d. d.faults };

    ghost is_sure = { false };

    ghost sure_calls = { Prim.search rules };

    fn bind(&mut self, port: u16, most: u32) -> Result<(), DoorFault> {
        match self.binder.listen(port) {
            Ok(listener) => {
                self.listener = Some(listener);
                self.begun = self.account.second();
                self.tally.port = port;
                self.tally.most = most;
                Ok(())
            }
            Err(_) => {
                self.faults = self.faults.saturating_add(1);
                Err(DoorFault)
            }
        }
    }

    fn accept(&mut self) -> Result<Accepted<TcpLink<'a>>, DoorFault> {
        if self.tally.most != 0 && self.tally.accepted >= u64::from(self.tally.most) {
            report_last(self.account, self.tally);
            self.tally.ended = true;
            self.listener = None;
            return Ok(Accepted::Ended);
        }
        match stream_of(&self.binder, &self.listener) {
            Some(stream) => {
                self.tally.accepted = self.tally.accepted.saturating_add(1);
                Ok(Accepted::Link(TcpLink::new(stream, self.account)))
            }
            None => {
                self.faults = self.faults.saturating_add(1);
                Err(DoorFault)
            }
        }
    }

    fn finish(&mut self, link: TcpLink<'a>, _ended: Ended) {
        drop(link);
        self.tally.finished = self.tally.finished.saturating_add(1);
    }

    fn tally(&self) -> Tally {
        self.tally
    }
}

/// Says that no connection is taken any more, the first time that it is asked for one more.
fn report_last(account: &Account, tally: Tally) {
    if !tally.ended {
        account.report_last(tally.accepted);
    }
}

/// How often a door tries to accept, 20 milliseconds apart.
const TRIES: u32 = 500;

/// How many seconds a read or a write of a connection may take.
const PATIENCE: u64 = 30;

/// The next connection, if the system gives one in time. That too many descriptors are open, or
/// that a connection is gone before it is taken, is no fault of the door.
fn stream_of<B: Binder>(binder: &B, listener: &Option<TcpListener>) -> Option<TcpStream> {
    let listener = listener.as_ref()?;
    for _ in 0..TRIES {
        match listener.accept() {
            Ok((stream, _)) => if is_set(&stream) {
                return Some(stream);
            },
            Err(_) => binder.pause(),
        }
    }
    None
}

/// Whether the options of a connection could be set: what is written goes out at once, and no call
/// waits for ever.
fn is_set(stream: &TcpStream) -> bool {
    let patience = Some(Duration::from_secs(PATIENCE));
    stream.set_nodelay(true).is_ok()
        && stream.set_read_timeout(patience).is_ok()
        && stream.set_write_timeout(patience).is_ok()
}
