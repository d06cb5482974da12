ghost use Rattle.std.specs.Prelude.{◌≡◌, ◌<◌, ◌⊎◌, IfNone, IfSome, is_some, true, if◌then◌else◌};
ghost use Rattle.an_session.specs.Session.{line};
ghost use Rattle.an_world.specs.Calls.{next_count};
ghost use Rattle.an_door.specs.Ends.{IsFresh};

use crate::door::{Accepted, Door};
use crate::finished::Finished;
use crate::sessions::{SessionKind, Sessions};
use an_world::Link;
use std::alloc::Global;
use std::marker::PhantomData;
use std::sync::Wait;

/// A link that was accepted and isn't served yet. It is not `Drop`, so that no worker can lose it:
/// only its service ends it.
pub(crate) struct Owed<L> {
    link: L,
}

/// A link that was served and isn't handed in yet. It is not `Drop`, so that no worker can lose it:
/// only a turn ends it.
pub(crate) struct Due<L: Link, K: SessionKind> {
    done: Finished<L, K>,
}

impl<L: Link> Owed<L> {
    /// Serves the link at a seat, and closes it.
    pub(crate) fn serve<R: Wait, S: Sessions>(
        self,
        rt: &R,
        alloc: Global,
        sessions: &S,
        seat: S::Seat,
    ) -> (S::Seat, Due<L, S::Kind>)
        requires fresh { IsFresh (line (L.traffic self.link)
            (L.read_faults self.link) (L.write_faults self.link)) }
        requires seat { S.has_seat sessions.now seat }
        ensures seat { S.has_seat sessions.now result.0 }
    {
        let Owed { link } = self;
        let mut link = link;
        let served = sessions.session(rt, alloc, &mut link, seat);
        link.close();
        let done = Finished {
            link,
            ended: served.ended,
            kind: PhantomData,
        };
        (served.seat, Due { done })
    }
}

/// A door that workers share behind a lock, and whether it failed a call there.
#[derive(Drop)]
pub(crate) struct Gate<K: SessionKind, D: Door<K>> {
    pub(crate) door: D,
    pub(crate) failed: bool,
    kind: PhantomData<K>,
    ghost counted: { failed ≡ true → 0 < D.faults door },
}

impl<K: SessionKind, D: Door<K>> Gate<K, D> {
    pub(crate) fn new(door: D) -> Gate<K, D> {
        Gate {
            door,
            failed: false,
            kind: PhantomData,
        }
    }

    /// Hands in what was served, and accepts the next link, if one comes. Behind a failed call
    /// nothing is accepted any more.
    pub(crate) fn turn(&mut self, due: Option<Due<D::Link, K>>) -> Option<Owed<D::Link>>
        ensures handed_in { (D.counts self.new.door).finished ≡ (if is_some due
            then next_count (D.counts self.old.door).finished
            else (D.counts self.old.door).finished) }
        ensures accepted { (D.counts self.new.door).accepted ≡ (if is_some result
            then next_count (D.counts self.old.door).accepted
            else (D.counts self.old.door).accepted) }
        ensures fresh { IfSome result (λ owed. IsFresh (line (D.Link.traffic owed.link)
            (D.Link.read_faults owed.link) (D.Link.write_faults owed.link))) }
        ensures none { IfNone result
            ((self.new.failed ≡ true) ⊎ ((D.counts self.new.door).ended ≡ true)) }
    {
        match due {
            Some(due) => {
                let Due { done } = due;
                let Finished { link, ended, .. } = done;
                self.door.finish(link, ended)
            }
            None => {}
        }
        if self.failed {
            return None;
        }
        match self.door.accept() {
            Ok(Accepted::Link(link)) => Some(Owed { link }),
            Ok(Accepted::Ended) => None,
            Err(_) => {
                self.failed = true;
                None
            }
        }
    }
}
