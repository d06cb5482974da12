//! Seats of one store: what one of them writes the other sees, and a read that fails at one.
ghost use Rattle.std.specs.Prelude.{◌≡◌, ◌<◌, length};

use crate::failing::status;
use crate::play::fresh_link;
use an_app::session;
use an_base::Bytes;
use an_calls::RowError;
use an_keep::MemKeeper;
use an_list::Site;
use an_policy::Who;
use an_state::Look;
use an_store::{Naming, Opened, Seat, Store, open_store};
use an_tables::noon;
use an_world::{MemLink, SetClock};
use std::alloc::{AllocError, Global};
use std::marker::Brand;
use std::sync::Wait;

/// How many bytes a reply has at most.
const ROOM: usize = 65_536;

/// A request comes over a link at the first of two seats of a store, and may fail to be read at the
/// call of this number. It is answered with how many changes the operator sees at the second seat
/// before, how the connection ends, the status of the reply, how many changes the second seat then
/// sees, and how many once both seats have met.
pub(crate) fn play_seats<R: Wait>(
    rt: &R,
    alloc: Global,
    keeper: MemKeeper,
    settings: &Site,
    request: &[u8],
    unread: u64,
) -> Result<String, RowError> {
    match open_store(rt, alloc, keeper, 2) {
        Ok(opened) => at_opened::<Brand, R>(rt, alloc, opened, settings, request, unread),
        Err(_) => Err(RowError::Form),
    }
}

fn at_opened<J: Naming, R: Wait>(
    rt: &R,
    alloc: Global,
    opened: Opened<MemKeeper>,
    settings: &Site,
    request: &[u8],
    unread: u64,
) -> Result<String, RowError>
    requires book { opened.book ≡ J.book }
    requires two { 1 < length opened.seats }
{
    let (store, mut seats) = opened.named::<J>();
    let second = seats.remove(1);
    let first = seats.remove(0);
    drop(seats);
    let (mut first, told) = ask_and_meet(
        rt, alloc, &store, first, second, settings, request, unread,
    );
    drop(store.close(rt, &mut first));
    drop(first);
    told
}

fn ask_and_meet<J: Naming, R: Wait>(
    rt: &R,
    alloc: Global,
    store: &Store<MemKeeper, J>,
    first: Seat,
    second: Seat,
    settings: &Site,
    request: &[u8],
    unread: u64,
) -> (Seat, Result<String, RowError>)
    requires first { first.book ≡ J.book }
    requires second { second.book ≡ J.book }
    ensures first { result.0.book ≡ J.book }
{
    let mut link = match link_of(alloc, request, unread) {
        Ok(link) => link,
        Err(_) => {
            drop(second);
            return (first, Err(RowError::Memory));
        }
    };
    let (second, before) = changes_at(second);
    let served = session(
        rt,
        alloc,
        &mut link,
        store,
        first,
        settings,
        &SetClock(noon()),
    );
    let (second, between) = changes_at(second);
    let (mut first, mut second) = (served.seat, second);
    store.meet(rt, &mut first, &mut second);
    let (second, after) = changes_at(second);
    drop(second);
    let told = match format!(in alloc;
        "{before} {:?} {} {between} {after}",
        served.ended,
        status(&link)
    ) {
        Ok(told) => Ok(told),
        Err(_) => Err(RowError::Memory),
    };
    (first, told)
}

/// A link with this input, whose read of this number fails, if any.
fn link_of(alloc: Global, request: &[u8], unread: u64) -> Result<MemLink, AllocError> {
    if unread == 0 {
        return fresh_link(alloc, request, ROOM);
    }
    let mut reads = Vec::new(alloc);
    reads.push(unread)?;
    let input = Bytes::new(alloc, request)?;
    let (cut, writes) = (Vec::new(alloc), Vec::new(alloc));
    MemLink::new(alloc, input, cut, reads, writes, ROOM)
}

/// How many changes the operator sees at a seat.
fn changes_at(seat: Seat) -> (Seat, usize)
    ensures book { result.0.book ≡ seat.book }
{
    match seat.look() {
        Ok(shown) => {
            let count = shown.snapshot().seen_count(&Who::Operator);
            (shown.leave(), count)
        }
        Err(seat) => (seat, 0),
    }
}
