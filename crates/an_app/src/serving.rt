//! Serving the connections that come in at a door.
ghost use Rattle.std.specs.Prelude.{◌≡◌, ◌<◌, ◌≤◌, length, All, IsSome, IsTrue, List, false};
ghost use mathlib.Core.List.{IsPrefix};
ghost use Rattle.an_base.specs.Faults.{Rises};
ghost use Rattle.an_laws.specs.Events.{Event};
ghost use Rattle.an_lines.specs.Status.{ReadsLittle};
ghost use Rattle.an_seats.specs.Seats.{GoesOn};
ghost use Rattle.an_app.specs.Outside.{outside_of};
ghost use Rattle.an_app.specs.Serving.{ServesAt, ServesTo, serving_status};
ghost use Rattle.an_store.specs.Opening.{Closes};

use crate::form::Serving;
use crate::ran::Ran;
use crate::stored::not_opened;
use an_door::{Door, Run};
use an_keep::Keeper;
use an_lines::Status;
use an_list::Site;
use an_seats::{AtStores, Server, Since};
use an_store::{Naming, Opened, Seat, Store, open_store};
use an_world::{Clock, Link};
use std::alloc::Global;
use std::marker::Brand;
use std::sync::Wait;
use std::thread::Threads;

/// Serves the connections that come in at a door at the store of a keeper.
pub(crate) fn serve_at<
    R: Threads + Wait + Sync,
    K: Keeper + Send,
    L: Link,
    T: Link + Send,
    D: Door<AtStores<K>, Link = T> + Send,
    C: Clock + Sync,
>(
    rt: &R,
    alloc: Global,
    keeper: K,
    line: &mut L,
    serving: &Serving,
    door: &mut D,
    clock: &C,
) -> Ran<K>
    requires port { 0 < serving.now.port }
    requires workers { 1 ≤ serving.now.workers }
    requires few { serving.now.workers ≤ 64 }
    requires unbound { (D.counts door.old).port ≡ 0 }
    ensures serves { ServesAt
        (outside_of (K.told keeper) (K.told result.keeper) (¬ (IsTrue K.is_sure))
        (Rises (L.read_faults line.old) (L.read_faults line.new))
        (Rises (L.write_faults line.old) (L.write_faults line.new)))
        (record { tally = D.counts door.new; faults = D.faults door.new })
        serving.now.port serving.now.connections
        (L.traffic line.old) (L.traffic line.new) result.status }
    ensures bounded { ReadsLittle (L.traffic line.old) (L.traffic line.new) }
    ensures never { K.may_begin ≡ false → IsSome (K.told result.keeper)
        → IsSome (K.told keeper) }
{
    match open_store(rt, alloc, keeper, serving.workers) {
        Ok(opened) => serve_opened::<Brand, R, K, L, T, D, C>(
            rt, alloc, opened, line, serving, door, clock,
        ),
        Err(refused) => not_opened(alloc, line, refused),
    }
}

/// The same at an open store, under the name of its history.
fn serve_opened<
    J: Naming + Send + Sync,
    R: Threads + Wait + Sync,
    K: Keeper + Send,
    L: Link,
    T: Link + Send,
    D: Door<AtStores<K>, Link = T> + Send,
    C: Clock + Sync,
>(
    rt: &R,
    alloc: Global,
    opened: Opened<K>,
    line: &mut L,
    serving: &Serving,
    door: &mut D,
    clock: &C,
) -> Ran<K>
    requires book { opened.book ≡ J.book }
    requires some { 0 < length opened.seats }
    requires port { 0 < serving.now.port }
    requires unbound { (D.counts door.old).port ≡ 0 }
    ensures serves { ServesTo (record { tally = D.counts door.new; faults = D.faults door.new })
        (Rises (L.write_faults line.old) (L.write_faults line.new))
        serving.now.port serving.now.connections
        (L.traffic line.old) (L.traffic line.new) result.status }
    ensures closes { Closes opened.list (K.told result.keeper) }
    ensures bounded { ReadsLittle (L.traffic line.old) (L.traffic line.new) }
{
    let (store, seats) = opened.named::<J>();
    serve(
        rt,
        alloc,
        line,
        store,
        seats,
        &serving.settings,
        serving.port,
        serving.connections,
        door,
        clock,
    )
}

/// Serves the connections that come in at a door, at as many of them at once as there are seats of
/// the store, until the door has ended and each of them is handed in, and prints `served N`, N
/// being their number. Where the door fails a call it prints `door failed`. Then the store is
/// closed, and its keeper given back. What was kept goes on from each list that all seats go on
/// from.
pub fn serve<
    J: Naming + Send + Sync,
    R: Threads + Wait + Sync,
    K: Keeper + Send,
    L: Link,
    T: Link + Send,
    D: Door<AtStores<K>, Link = T> + Send,
    C: Clock + Sync,
>(
    rt: &R,
    alloc: Global,
    line: &mut L,
    store: Store<K, J>,
    seats: Vec<Seat>,
    settings: &Site,
    port: u16,
    connections: u32,
    door: &mut D,
    clock: &C,
) -> Ran<K>
    requires port { 0 < port }
    requires unbound { (D.counts door.old).port ≡ 0 }
    requires some { 0 < length seats.items }
    requires seats { All (λ seat. seat.book ≡ J.book) seats.items }
    ensures serves { ServesTo (record { tally = D.counts door.new; faults = D.faults door.new })
        (Rises (L.write_faults line.old) (L.write_faults line.new))
        port connections (L.traffic line.old) (L.traffic line.new) result.status }
    ensures closes { (first : List Event) → All (λ seat. IsPrefix first seat.seen) seats.items
        → Closes first (K.told result.keeper) }
    ensures bounded { ReadsLittle (L.traffic line.old) (L.traffic line.new) }
{
    serve_since::<J, R, K, L, T, D, C, Brand>(
        rt,
        alloc,
        line,
        store,
        seats,
        settings,
        port,
        connections,
        door,
        clock,
    )
}

/// The same, where the seats go on from some lists.
fn serve_since<
    J: Naming + Send + Sync,
    R: Threads + Wait + Sync,
    K: Keeper + Send,
    L: Link,
    T: Link + Send,
    D: Door<AtStores<K>, Link = T> + Send,
    C: Clock + Sync,
    F: Since + Send + Sync,
>(
    rt: &R,
    alloc: Global,
    line: &mut L,
    store: Store<K, J>,
    seats: Vec<Seat>,
    settings: &Site,
    port: u16,
    connections: u32,
    door: &mut D,
    clock: &C,
) -> Ran<K>
    requires port { 0 < port }
    requires unbound { (D.counts door.old).port ≡ 0 }
    requires some { 0 < length seats.items }
    requires seats { All (λ seat. (seat.book ≡ J.book) × GoesOn F.since seat) seats.items }
    ensures serves { ServesTo (record { tally = D.counts door.new; faults = D.faults door.new })
        (Rises (L.write_faults line.old) (L.write_faults line.new))
        port connections (L.traffic line.old) (L.traffic line.new) result.status }
    ensures closes { (first : List Event) → F.since first → Closes first (K.told result.keeper) }
    ensures bounded { ReadsLittle (L.traffic line.old) (L.traffic line.new) }
{
    let server: Server<'_, K, J, C, F> = Server::new(&store, settings, clock);
    let Run { status, seats } = an_door::serve(
        rt,
        alloc,
        line,
        &server,
        seats,
        port,
        connections,
        door,
    );
    drop(server);
    Ran {
        status: status_of(status),
        keeper: close::<R, K, J, F>(rt, store, seats),
    }
}

/// Ends a store by the first of its seats, and gives its keeper back.
fn close<R: Wait, K: Keeper, J: Naming, F: Since>(rt: &R, store: Store<K, J>, seats: Vec<Seat>) -> K
    requires some { 0 < length seats.items }
    requires seats { All (λ seat. (seat.book ≡ J.book) × GoesOn F.since seat) seats.items }
    ensures closes { (first : List Event) → F.since first → Closes first (K.told result) }
{
    let mut seats = seats;
    close_at::<R, K, J, F>(rt, store, &mut seats[0])
}

fn close_at<R: Wait, K: Keeper, J: Naming, F: Since>(
    rt: &R,
    store: Store<K, J>,
    seat: &mut Seat,
) -> K
    requires seat { (seat.old.book ≡ J.book) × GoesOn F.since seat.old }
    ensures closes { (first : List Event) → F.since first → Closes first (K.told result) }
{
    store.close(rt, seat)
}

fn status_of(status: an_door::Status) -> Status
    ensures { result ≡ serving_status status }
{
    match status {
        an_door::Status::Done => Status::Done,
        an_door::Status::WriteFault => Status::WriteFault,
        an_door::Status::DoorFailed => Status::DoorFailed,
        an_door::Status::Memory => Status::Memory,
    }
}
