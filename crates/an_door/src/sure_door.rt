ghost use Rattle.std.specs.Prelude.{◌≡◌, All, IfOk, IsOk, map};
ghost use Rattle.an_session.specs.Session.{line};
ghost use Rattle.an_door.specs.Doors.{Accepts, finished_one};
ghost use Rattle.an_door.specs.Ends.{Held, IsBorne, IsFresh};
ghost use Rattle.an_door.specs.Memory.{waiting_of, after_bind, is_empty, accepted_of, after_accept};
ghost use Rattle.an_door.specs.Memory.{after_finish};

use crate::door::{Accepted, Door, DoorFault, Tally};
use crate::finished::Finished;
use crate::links::Links;
use crate::sessions::SessionKind;
use an_session::Ended;
use an_world::Link;
use std::alloc::{AllocError, Global};
use std::marker::Model;

/// A door whose links stand in memory and which never fails a call.
#[derive(Drop)]
pub struct SureDoor<L: Link, K: SessionKind> {
    links: Links<L, K>,
}

impl<L: Link, K: SessionKind> Model for SureDoor<L, K> {
    ghost use Rattle.an_door.specs.Memory.{Waiting};

    ghost Value = { Waiting L };

    ghost view = { λ d. d.links };
}

impl<L: Link, K: SessionKind> SureDoor<L, K> {
    /// A door to which these links come, in this order. Nothing may have gone over them yet. The
    /// memory to keep as many that are handed in is taken here.
    pub fn new(alloc: Global, links: Vec<L>) -> Result<SureDoor<L, K>, AllocError>
        requires { All (λ link. IsFresh (line (L.traffic link)
            (L.read_faults link) (L.write_faults link))) links.items }
        ensures start { IfOk result (λ door. door ≡ waiting_of links.items) }
    {
        Ok(SureDoor {
            links: Links::new(alloc, links)?,
        })
    }

    /// The links that were handed in, in order.
    pub fn finished(&self) -> &[Finished<L, K>]
        ensures { map (λ f. record { link = f.link; ended = f.ended }) result.now
            ≡ self.now.finished }
    {
        self.links.finished()
    }
}

impl<L: Link, K: SessionKind> Door<K> for SureDoor<L, K> {
    type Link = L;

    ghost use Rattle.std.specs.Prelude.{true, refl};
    ghost use Rattle.an_door.specs.Memory.{is_empty};

    ghost counts = { λ door. door.tally };

    ghost has_none = { λ door. is_empty door.left };

    ghost faults = { λ _. 0 };

    ghost is_sure = { true };

    ghost sure_calls = { λ sure door. refl };

    fn bind(&mut self, port: u16, most: u32) -> Result<(), DoorFault>
        ensures ok { IsOk result }
        ensures after { self.new ≡ after_bind port most self.old }
    {
        self.links.bind(port, most);
        Ok(())
    }

    /// The next link, or the end where as many were accepted as the door is bound to, or none is
    /// left.
    fn accept(&mut self) -> Result<Accepted<L>, DoorFault>
        ensures gives { result ≡ Ok (accepted_of self.old) }
        ensures after { self.new ≡ after_accept self.old }

        // What each door ensures.
        ensures accepts { IfOk result (λ accepted. Accepts
            (λ link. IsFresh (line (L.traffic link) (L.read_faults link) (L.write_faults link)))
            (is_empty self.old.left) accepted self.old.tally self.new.tally) }
    {
        match self.links.accept() {
            Some(link) => Ok(Accepted::Link(link)),
            None => Ok(Accepted::Ended),
        }
    }

    /// Keeps the link where there is room, which is there for as many as came.
    fn finish(&mut self, link: L, ended: Ended)
        requires held { ∥ Held K.ran ended (line (L.traffic link)
            (L.read_faults link) (L.write_faults link)) ∥₁ }
        requires borne { ∥ IsBorne ended (line (L.traffic link)
            (L.read_faults link) (L.write_faults link)) ∥₁ }
        ensures after { self.new ≡ after_finish link ended self.old }

        // What each door ensures.
        ensures counted { self.new.tally ≡ finished_one self.old.tally }
    {
        self.links.finish(link, ended)
    }

    fn tally(&self) -> Tally
        ensures { result ≡ self.now.tally }
    {
        self.links.tally()
    }
}
