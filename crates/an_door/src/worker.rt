ghost use Rattle.std.specs.Prelude.{IfSome};
ghost use Rattle.an_session.specs.Session.{line};
ghost use Rattle.an_door.specs.Ends.{IsFresh};

use crate::door::Door;
use crate::lock::{Due, Gate, Owed};
use crate::sessions::{SessionKind, Sessions};
use std::alloc::Global;
use std::sync::{Mutex, MutexGuard, Wait};

/// Takes the door's lock, hands in what was served, and accepts the next link.
fn turn<R: Wait, K: SessionKind, D: Door<K>>(
    rt: &R,
    gate: &Mutex<Gate<K, D>>,
    due: Option<Due<D::Link, K>>,
) -> Option<Owed<D::Link>>
    ensures fresh { IfSome result (λ owed. IsFresh (line (D.Link.traffic owed.link)
        (D.Link.read_faults owed.link) (D.Link.write_faults owed.link))) }
{
    let mut guard = gate.lock(rt);
    let next = guard.turn(due);
    MutexGuard::unlock(guard);
    next
}

/// Serves link behind link at a seat, until the door gives none.
fn work_at<R: Wait, K: SessionKind, S: Sessions<Kind = K>, D: Door<K>>(
    rt: &R,
    alloc: Global,
    sessions: &S,
    gate: &Mutex<Gate<K, D>>,
    seat: S::Seat,
) -> S::Seat
    requires { S.has_seat sessions.now seat }
    ensures { S.has_seat sessions.now result }
{
    let mut seat = seat;
    let mut due = None;
    for _ in rt.forever() {
        match turn(rt, gate, due) {
            Some(owed) => {
                let (after, served) = owed.serve(rt, alloc, sessions, seat);
                seat = after;
                due = Some(served);
            }
            None => return seat,
        }
    }
    unreachable!()
}

/// The same, for a seat that is lent.
pub(crate) fn work<R: Wait, K: SessionKind, S: Sessions<Kind = K>, D: Door<K>>(
    seat: S::Seat,
    lent: (&R, Global, &S, &Mutex<Gate<K, D>>),
) -> (S::Seat, ())
    requires { S.has_seat lent.2.now seat }
    ensures { S.has_seat lent.entry.2.now result.0 }
{
    (work_at(lent.0, lent.1, lent.2, lent.3, seat), ())
}
