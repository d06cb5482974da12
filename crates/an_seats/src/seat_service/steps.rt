use crate::hearing::hear;
use crate::seat_context::SeatContext;
use crate::seat_service::SeatService;
use crate::writing::write;
use an_http::{Reply, Request};
use an_keep::Keeper;
use an_serve::Response;
use an_session::Service;
use an_store::Naming;
use an_world::Clock;
use std::alloc::{AllocError, Global};
use std::sync::Wait;

impl<'a, R: Wait, K: Keeper, J: Naming, C: Clock> Service<SeatContext<'a, R, K, J, C>>
    for SeatService<J> {
    ghost use Rattle.std.specs.Prelude.{IsTrue, ⊤};
    ghost use Rattle.an_laws.specs.Events.{Event};
    ghost use Rattle.an_seats.specs.Coming.{IsKnownAt};
    ghost use Rattle.an_seats.specs.Seats.{store_rules};

    ghost Entry = { Event };

    ghost rules = { λ place.
        store_rules (¬ (IsTrue K.is_sure)) (C.answers place.clock) place.site };

    ghost stands = { λ guest known. IsKnownAt guest.seat known };

    ghost kept = { λ old new. ⊤ };

    ghost kept_none = { λ guest. tt };

    ghost kept_then = { λ old mid new first next. tt };

    fn answer(
        &mut self,
        alloc: Global,
        place: &SeatContext<'a, R, K, J, C>,
        request: &Request,
    ) -> Result<Reply, AllocError> {
        match hear(place.rt(), alloc, &mut self.seat, place.settings(), request)? {
            Response::Ready(reply) => Ok(reply),
            Response::Write {
                allow,
                caller,
                command,
            } => write(alloc, &mut self.seat, place, allow, caller, command),
        }
    }
}
