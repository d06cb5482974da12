ghost use Rattle.an_door.specs.Ends.{IsCaused};
ghost use Rattle.an_session.specs.Session.{line};

use an_session::Ended;
use an_world::Link;
use std::alloc::Global;
use std::sync::Wait;

/// What sessions of one kind may come to, as those at stores with one kind of keeper. It names
/// that for contracts alone: what serves links and what accepts them and keeps them agree on it.
pub trait SessionKind {
    ghost use Rattle.an_session.specs.declared.ended.Ended.{Ended};
    ghost use Rattle.an_session.specs.Session.{Line};

    // A session may end so, where it finds the first line and leaves the second one: there are a
    // seat, a store and its settings, by which what went over the link in between is what was due.
    ghost ran: { Ended → Line → Line → Type 0 };
}

/// A seat that comes back from a session, and why the connection ended.
#[derive(Drop)]
pub struct Served<A> {
    pub seat: A,
    pub ended: Ended,
}

/// What serves links at seats, each seat one link after another, and several seats at once: a
/// store, say, with its settings and a clock.
pub trait Sessions {
    type Seat;

    type Kind: SessionKind;

    // This seat is one of its own.
    ghost has_seat: { Self → Self.Seat → Type 0 };

    /// Serves a link at a seat up to the connection's end. It leaves the link open.
    fn session<R: Wait, L: Link>(
        &self,
        rt: &R,
        alloc: Global,
        link: &mut L,
        seat: Self::Seat,
    ) -> Served<Self::Seat>
        requires { has_seat self.now seat }
        ensures seat { has_seat self.now result.seat }
        ensures ran { Self.Kind.ran result.ended
            (line (L.traffic link.old) (L.read_faults link.old) (L.write_faults link.old))
            (line (L.traffic link.new) (L.read_faults link.new) (L.write_faults link.new)) }
        ensures caused { IsCaused result.ended
            (line (L.traffic link.old) (L.read_faults link.old) (L.write_faults link.old))
            (line (L.traffic link.new) (L.read_faults link.new) (L.write_faults link.new)) };
}
