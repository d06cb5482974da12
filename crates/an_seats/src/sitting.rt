ghost use Rattle.std.specs.Prelude.{◌≡◌, ◌≤◌, IsTrue};
ghost use Rattle.an_laws.specs.Events.{IsLegal};
ghost use Rattle.an_session.specs.Session.{ReadsRequests, line};
ghost use Rattle.an_published.specs.Lists.{Stands};
ghost use Rattle.an_seats.specs.Seats.{Sitting};

use crate::seat_context::SeatContext;
use crate::seat_service::SeatService;
use an_door::Served;
use an_keep::Keeper;
use an_list::Site;
use an_session::serve_link;
use an_store::{Naming, Seat, Store};
use an_world::{Clock, Link};
use std::alloc::Global;
use std::marker::PhantomData;
use std::sync::Wait;

/// Serves one connection at a seat of a store that others write to meanwhile, up to the
/// connection's end. A read is answered by what is published then, and waits for nobody; a write is
/// decided at the moment that the clock tells, at all that was accepted before, kept, published,
/// and only then answered.
///
/// Each request is answered at a list of events that goes on from all lists before, on this seat's
/// earlier connections too, and what the connection adds there is the seat's own.
pub fn session<R: Wait, L: Link, K: Keeper, J: Naming, C: Clock>(
    rt: &R,
    alloc: Global,
    link: &mut L,
    store: &Store<K, J>,
    seat: Seat,
    settings: &Site,
    clock: &C,
) -> Served<Seat>
    requires seat { seat.book ≡ J.book }
    ensures seat { result.seat.book ≡ J.book }
    ensures session { Sitting
        (¬ (IsTrue K.is_sure)) (C.answers clock.now) settings.now result.ended
        (line (L.traffic link.old) (L.read_faults link.old) (L.write_faults link.old))
        (line (L.traffic link.new) (L.read_faults link.new) (L.write_faults link.new))
        seat result.seat }
    ensures bounded { ReadsRequests (L.traffic link.old) (L.traffic link.new) }
    ensures read_faults_kept { L.read_faults link.old ≤ L.read_faults link.new }
    ensures write_faults_kept { L.write_faults link.old ≤ L.write_faults link.new }

    // What the seat saw is a legal list, in which its own writes stand.
    ensures legal { IsLegal result.seat.seen }
    ensures own { Stands result.seat.own result.seat.seen }
{
    let place = SeatContext::new(rt, store, settings, clock);
    let mut guest = SeatService {
        seat,
        of: PhantomData,
    };
    let ended = serve_link(alloc, link, &mut guest, &place);
    let SeatService { seat, of: _ } = guest;
    seat.stands();
    Served { seat, ended }
}
