ghost use Rattle.std.specs.Prelude.{◌≡◌, ◌≤◌, All, IfOk, OnErr, OnOk, is_err, map};
ghost use Rattle.an_base.specs.Faults.{Rises};
ghost use Rattle.an_session.specs.Session.{line};
ghost use Rattle.an_world.specs.Calls.{is_next_failing};
ghost use Rattle.an_door.specs.Doors.{Accepts, bound_with, finished_one};
ghost use Rattle.an_door.specs.Ends.{Held, IsBorne, IsFresh};
ghost use Rattle.an_door.specs.Memory.{memory_of, called, after_bind, is_empty, accepted_of};
ghost use Rattle.an_door.specs.Memory.{after_accept, after_finish};

use crate::door::{Accepted, Door, DoorFault, Tally};
use crate::finished::Finished;
use crate::links::Links;
use crate::sessions::SessionKind;
use an_session::Ended;
use an_world::Link;
use std::alloc::{AllocError, Global};
use std::marker::Model;

/// A door whose links stand in memory. It fails the calls that it is told to fail.
#[derive(Drop)]
pub struct MemDoor<L: Link, K: SessionKind> {
    links: Links<L, K>,
    made: u64,
    faults: u64,
    failing: Vec<u64>,
}

impl<L: Link, K: SessionKind> Model for MemDoor<L, K> {
    ghost use Rattle.an_door.specs.Memory.{Memory};

    ghost Value = { Memory L };

    ghost view = { λ d. record {
      waiting = d.links;
      calls = record { made = d.made; faults = d.faults; failing = d.failing.items };
    } };
}

impl<L: Link, K: SessionKind> MemDoor<L, K> {
    /// A door to which these links come, in this order. Nothing may have gone over them yet. The
    /// calls with the numbers of `fail` fail, those of `bind` and `accept` counted together, from
    /// 1. The memory to keep as many links that are handed in is taken here.
    pub fn new(alloc: Global, links: Vec<L>, fail: Vec<u64>) -> Result<MemDoor<L, K>, AllocError>
        requires { All (λ link. IsFresh (line (L.traffic link)
            (L.read_faults link) (L.write_faults link))) links.items }
        ensures start { IfOk result (λ door. door ≡ memory_of links.items fail.items) }
    {
        Ok(MemDoor {
            links: Links::new(alloc, links)?,
            made: 0,
            faults: 0,
            failing: fail,
        })
    }

    /// The links that were handed in, in order.
    pub fn finished(&self) -> &[Finished<L, K>]
        ensures { map (λ f. record { link = f.link; ended = f.ended }) result.now
            ≡ self.now.waiting.finished }
    {
        self.links.finished()
    }

    /// How many calls failed. The count stands still at `u64::MAX`.
    pub fn faults(&self) -> u64
        ensures { result ≡ self.now.calls.faults }
    {
        self.faults
    }

    /// Counts a call, and fails it where it is listed.
    fn call(&mut self) -> Result<(), DoorFault>
        ensures fails { is_err result ≡ is_next_failing self.old.calls }
        ensures after { self.new ≡ called self.old }
        ensures rises { OnErr result (Rises self.old.calls.faults self.new.calls.faults) }
        ensures kept { self.old.calls.faults ≤ self.new.calls.faults }
    {
        let call = self.made.saturating_add(1);
        self.made = call;
        if self.failing.contains(&call) {
            self.faults = self.faults.saturating_add(1);
            return Err(DoorFault);
        }
        Ok(())
    }
}

impl<L: Link, K: SessionKind> Door<K> for MemDoor<L, K> {
    type Link = L;

    ghost use Rattle.std.specs.Prelude.{false};
    ghost use Rattle.an_door.specs.Memory.{is_empty};

    ghost counts = { λ door. door.waiting.tally };

    ghost has_none = { λ door. is_empty door.waiting.left };

    ghost faults = { λ door. door.calls.faults };

    ghost is_sure = { false };

    ghost use Rattle.std.proofs.lemmas.Bool.{false≢true};

    // It claims no such thing.
    ghost sure_calls = { λ sure door. absurd (false≢true sure) };

    /// Fails exactly where the call is listed.
    fn bind(&mut self, port: u16, most: u32) -> Result<(), DoorFault>
        ensures fails { is_err result ≡ is_next_failing self.old.calls }
        ensures ok { OnOk result (self.new ≡ record (called self.old) {
          waiting = after_bind port most self.old.waiting;
        }) }
        ensures err { OnErr result (self.new ≡ called self.old) }

        // What each door ensures.
        ensures bound { OnOk result
            (self.new.waiting.tally ≡ bound_with port most self.old.waiting.tally) }
        ensures still { OnErr result (self.new.waiting.tally ≡ self.old.waiting.tally) }
        ensures fault { OnErr result (Rises self.old.calls.faults self.new.calls.faults) }
        ensures faults_kept { self.old.calls.faults ≤ self.new.calls.faults }
    {
        self.call()?;
        self.links.bind(port, most);
        Ok(())
    }

    /// The next link, or the end where as many were accepted as the door is bound to, or none is
    /// left. Fails exactly where the call is listed.
    fn accept(&mut self) -> Result<Accepted<L>, DoorFault>
        ensures fails { is_err result ≡ is_next_failing self.old.calls }
        ensures gives { IfOk result (λ accepted. accepted ≡ accepted_of self.old.waiting) }
        ensures ok { OnOk result (self.new ≡ record (called self.old) {
          waiting = after_accept self.old.waiting;
        }) }
        ensures err { OnErr result (self.new ≡ called self.old) }

        // What each door ensures.
        ensures accepts { IfOk result (λ accepted. Accepts
            (λ link. IsFresh (line (L.traffic link) (L.read_faults link) (L.write_faults link)))
            (is_empty self.old.waiting.left) accepted
            self.old.waiting.tally self.new.waiting.tally) }
        ensures still { OnErr result (self.new.waiting.tally ≡ self.old.waiting.tally) }
        ensures fault { OnErr result (Rises self.old.calls.faults self.new.calls.faults) }
        ensures faults_kept { self.old.calls.faults ≤ self.new.calls.faults }
    {
        self.call()?;
        match self.links.accept() {
            Some(link) => Ok(Accepted::Link(link)),
            None => Ok(Accepted::Ended),
        }
    }

    /// Keeps the link where there is room, which is there for as many as came.
    fn finish(&mut self, link: L, ended: Ended)
        requires held { ∥ Held K.ran ended (line (L.traffic link)
            (L.read_faults link) (L.write_faults link)) ∥₁ }
        requires borne { ∥ IsBorne ended (line (L.traffic link)
            (L.read_faults link) (L.write_faults link)) ∥₁ }
        ensures after { self.new ≡ record self.old {
          waiting = after_finish link ended self.old.waiting;
        } }

        // What each door ensures.
        ensures counted { self.new.waiting.tally ≡ finished_one self.old.waiting.tally }
        ensures faults_same { self.new.calls.faults ≡ self.old.calls.faults }
    {
        self.links.finish(link, ended)
    }

    fn tally(&self) -> Tally
        ensures { result ≡ self.now.waiting.tally }
    {
        self.links.tally()
    }
}
