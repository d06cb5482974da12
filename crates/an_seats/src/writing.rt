ghost use Rattle.std.specs.Prelude.{◌≡◌, IfOk, IsTrue, OnErr};
ghost use Rattle.an_serve.specs.declared.responding.Response.{Response};
ghost use Rattle.an_state.specs.Commands.{is_sendable};
ghost use Rattle.an_seats.specs.Coming.{SeatComes, SeatLoses};

use crate::seat_context::SeatContext;
use an_http::{Allow, Reply};
use an_keep::Keeper;
use an_policy::Caller;
use an_serve::{Response, reply_to_write};
use an_state::Command;
use an_store::{Naming, Seat};
use an_world::Clock;
use std::alloc::{AllocError, Global};
use std::sync::Wait;

/// Does a write at the moment that it is, and answers it. Where memory runs out it may be done all
/// the same.
pub(crate) fn write<R: Wait, K: Keeper, J: Naming, C: Clock>(
    alloc: Global,
    seat: &mut Seat,
    place: &SeatContext<'_, R, K, J, C>,
    allow: Allow,
    caller: Caller,
    command: Command,
) -> Result<Reply, AllocError>
    requires seat { seat.old.book ≡ J.book }
    requires sendable { IsTrue (is_sendable command) }
    ensures book { seat.new.book ≡ J.book }
    ensures comes { IfOk result (λ reply. SeatComes
        (¬ (IsTrue K.is_sure)) (C.answers place.now.clock) place.now.site
        (Response.Write allow caller command) seat.old reply seat.new) }
    ensures loses { OnErr result (SeatLoses
        (¬ (IsTrue K.is_sure)) (C.answers place.now.clock) place.now.site
        (Response.Write allow caller command) seat.old seat.new) }
{
    let moment = place.moment();
    let written = place
        .store()
        .write(place.rt(), alloc, seat, moment, &caller, command);
    reply_to_write(alloc, place.settings(), allow, written)
}
