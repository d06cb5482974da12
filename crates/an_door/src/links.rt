ghost use Rattle.std.specs.Prelude.{◌≡◌, All, IfOk, IfSome, map};
ghost use Rattle.an_session.specs.Session.{line};
ghost use Rattle.an_door.specs.Doors.{has_most};
ghost use Rattle.an_door.specs.Ends.{Held, IsBorne, IsFresh};
ghost use Rattle.an_door.specs.Memory.{waiting_of, after_bind, next_of, after_accept, after_finish};

use crate::door::Tally;
use crate::finished::Finished;
use crate::sessions::SessionKind;
use an_session::Ended;
use an_world::Link;
use std::alloc::{AllocError, Global};
use std::marker::{Model, PhantomData};
use std::vec::IntoIter;

/// The links of a door in memory: those that are left to come, and those that were handed in.
#[derive(Drop)]
pub(crate) struct Links<L: Link, K: SessionKind> {
    left: IntoIter<L>,
    finished: Vec<Finished<L, K>>,
    tally: Tally,
}

impl<L: Link, K: SessionKind> Model for Links<L, K> {
    ghost use Rattle.std.specs.Prelude.{◌-◌, All, map, vec_len, vec_capacity};
    ghost use Rattle.std.specs.Vec.Iter.{into_iter_items};
    ghost use Rattle.an_session.specs.Session.{line};
    ghost use Rattle.an_door.specs.Ends.{IsFresh};
    ghost use Rattle.an_door.specs.Memory.{Waiting};

    ghost Value = { Waiting L };

    ghost view = { λ l. record {
      left = into_iter_items l.left;
      finished = map (λ f. record { link = f.link; ended = f.ended }) l.finished.items;
      room = vec_capacity l.finished - vec_len l.finished;
      tally = l.tally;
    } };

    ghost invariant = { λ l. All
        (λ link. IsFresh (line (L.traffic link) (L.read_faults link) (L.write_faults link)))
        (into_iter_items l.left) };
}

impl<L: Link, K: SessionKind> Links<L, K> {
    /// The links come in the order in which they are given. The memory to keep them is taken here.
    pub(crate) fn new(alloc: Global, links: Vec<L>) -> Result<Links<L, K>, AllocError>
        requires { All (λ link. IsFresh (line (L.traffic link)
            (L.read_faults link) (L.write_faults link))) links.items }
        ensures { IfOk result (λ door. door ≡ waiting_of links.items) }
    {
        let finished = Vec::with_capacity(alloc, links.len())?;
        Ok(Links {
            left: links.into_iter(),
            finished,
            tally: Tally {
                accepted: 0,
                finished: 0,
                ended: false,
                port: 0,
                most: 0,
            },
        })
    }

    pub(crate) fn bind(&mut self, port: u16, most: u32)
        ensures { self.new ≡ after_bind port most self.old }
    {
        self.tally.port = port;
        self.tally.most = most;
    }

    /// The link that comes next, if one comes.
    pub(crate) fn accept(&mut self) -> Option<L>
        ensures next { result ≡ next_of self.old }
        ensures after { self.new ≡ after_accept self.old }
        ensures fresh { IfSome result (λ link. IsFresh (line (L.traffic link)
            (L.read_faults link) (L.write_faults link))) }
    {
        if has_most(self.tally) {
            self.tally.ended = true;
            return None;
        }
        match self.left.next() {
            Some(link) => {
                self.tally.accepted = self.tally.accepted.saturating_add(1);
                Some(link)
            }
            None => {
                self.tally.ended = true;
                None
            }
        }
    }

    /// Keeps a link that is handed in, where there is room for it, and counts it.
    pub(crate) fn finish(&mut self, link: L, ended: Ended)
        requires held { ∥ Held K.ran ended (line (L.traffic link)
            (L.read_faults link) (L.write_faults link)) ∥₁ }
        requires borne { ∥ IsBorne ended (line (L.traffic link)
            (L.read_faults link) (L.write_faults link)) ∥₁ }
        ensures { self.new ≡ after_finish link ended self.old }
    {
        self.tally.finished = self.tally.finished.saturating_add(1);
        if self.finished.len() < self.finished.capacity() {
            self.finished.push_reserved(Finished {
                link,
                ended,
                kind: PhantomData,
            });
        }
    }

    /// The links that were handed in and are kept, in order.
    pub(crate) fn finished(&self) -> &[Finished<L, K>]
        ensures { map (λ f. record { link = f.link; ended = f.ended }) result.now
            ≡ self.now.finished }
    {
        self.finished.as_slice()
    }

    pub(crate) fn tally(&self) -> Tally
        ensures { result ≡ self.now.tally }
    {
        self.tally
    }
}

/// Whether as many links were accepted as the door is bound to.
fn has_most(tally: Tally) -> bool
    ensures { result ≡ has_most tally }
{
    tally.most != 0 && u64::from(tally.most) <= tally.accepted
}
