use crate::sitting::session;
use an_door::{Served, SessionKind, Sessions};
use an_keep::Keeper;
use an_list::Site;
use an_store::{Naming, Seat, Store};
use an_world::{Clock, Link};
use std::alloc::Global;
use std::marker::{Brand, PhantomData};
use std::sync::Wait;

/// The sessions at stores with this kind of keeper.
#[derive(Drop)]
pub struct AtStores<K: Keeper> {
    of: PhantomData<K>,
}

impl<K: Keeper> SessionKind for AtStores<K> {
    ghost use Rattle.std.specs.Prelude.{IsTrue};
    ghost use Rattle.an_seats.specs.Seats.{SatSomewhere};

    ghost ran = { SatSomewhere (¬ (IsTrue K.is_sure)) };
}

/// Which lists the seats of a server go on from. A program has it for contracts only.
pub trait Since {
    ghost use Rattle.std.specs.Prelude.{List};
    ghost use Rattle.an_laws.specs.Events.{Event};

    // The list of each seat goes on from every list of which this holds.
    ghost since: { List Event → Type 0 };
}

impl Since for Brand {
    ghost since = { λ list. ⊥ };
}

/// A store that serves links at its seats, by these settings and this clock.
#[derive(Drop)]
pub struct Server<'a, K: Keeper, J: Naming, C: Clock, F: Since> {
    store: &'a Store<K, J>,
    settings: &'a Site,
    clock: &'a C,
    of: PhantomData<F>,
}

impl<'a, K: Keeper, J: Naming, C: Clock, F: Since> Server<'a, K, J, C, F> {
    pub fn new(store: &'a Store<K, J>, settings: &'a Site, clock: &'a C) -> Server<'a, K, J, C, F> {
        Server {
            store,
            settings,
            clock,
            of: PhantomData,
        }
    }
}

impl<'a, K: Keeper, J: Naming, C: Clock, F: Since> Sessions for Server<'a, K, J, C, F> {
    type Seat = Seat;

    type Kind = AtStores<K>;

    ghost use Rattle.std.specs.Prelude.{◌≡◌};
    ghost use Rattle.an_seats.specs.Seats.{GoesOn};

    // It is one of the store, and its list goes on from those lists.
    ghost has_seat = { λ server seat. (seat.book ≡ J.book) × GoesOn F.since seat };

    fn session<R: Wait, L: Link>(
        &self,
        rt: &R,
        alloc: Global,
        link: &mut L,
        seat: Seat,
    ) -> Served<Seat> {
        session(rt, alloc, link, self.store, seat, self.settings, self.clock)
    }
}
