//! What comes of a request at what is published.
ghost use Rattle.std.specs.Prelude.{◌≡◌, IfNone, IfOk, IfSome, OnSome};
ghost use Rattle.an_laws.specs.Events.{state_at};
ghost use Rattle.an_serve.specs.Respond.{response_of};
ghost use Rattle.an_seats.specs.Coming.{Looked};

use an_http::Request;
use an_list::Site;
use an_serve::{Response, respond};
use an_store::{Seat, Shown};
use core::mem::replace_with;
use std::alloc::{AllocError, Global};
use std::sync::Wait;

/// A request, and the settings by which it is answered.
#[derive(Drop)]
struct Asking<'a> {
    alloc: Global,
    settings: &'a Site,
    request: &'a Request,
}

/// What comes of a request at what is published, which the seat then has seen. It looks again where
/// a look gives nothing.
pub(crate) fn hear<R: Wait>(
    rt: &R,
    alloc: Global,
    seat: &mut Seat,
    settings: &Site,
    request: &Request,
) -> Result<Response, AllocError>
    ensures looked { Looked seat.old seat.new }
    ensures response { IfOk result (λ response. response
        ≡ response_of settings.now (state_at seat.new.seen) request.now) }
{
    let asking = Asking {
        alloc,
        settings,
        request,
    };
    for _ in rt.forever() {
        if let Some(heard) = replace_with(seat, &asking, hear_once) {
            return heard;
        }
    }
    unreachable!()
}

/// Looks once, and leaves what it was shown.
fn hear_once(seat: Seat, asking: &Asking<'_>) -> (Seat, Option<Result<Response, AllocError>>)
    ensures looked { OnSome result.1 (Looked seat result.0) }
    ensures response { IfSome result.1 (λ heard. IfOk heard (λ response. response
        ≡ response_of asking.now.settings.now (state_at result.0.seen) asking.now.request.now)) }
    ensures same { IfNone result.1 (result.0 ≡ seat) }
{
    match seat.look() {
        Ok(shown) => {
            let heard = respond_to(asking, &shown);
            (shown.leave(), Some(heard))
        }
        Err(seat) => (seat, None),
    }
}

fn respond_to(asking: &Asking<'_>, shown: &Shown) -> Result<Response, AllocError>
    ensures response { IfOk result (λ response. response
        ≡ response_of asking.now.settings.now shown.now.state asking.now.request.now) }
{
    respond(
        asking.alloc,
        shown.snapshot(),
        asking.settings,
        asking.request,
    )
}
