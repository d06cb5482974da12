ghost use Rattle.std.specs.Prelude.{◌≡◌, ◌≢◌, ◌<◌, ◌⊎◌, length, All, IfOk, IfSome, IfNone, IsTrue};
ghost use Rattle.std.specs.Prelude.{IsNone, IsSome, IsSomeAnd, string_bytes};
ghost use denote.Param.Send.{IsSend, IsSync};
ghost use Rattle.an_base.specs.Faults.{Rises};
ghost use Rattle.an_world.specs.Link.{Writes, WritesFront};
ghost use Rattle.an_door.specs.Doors.{Breaks, IsComplete, Serves, door_text, end_text, served_text};

use crate::door::{Door, Tally};
use crate::lock::Gate;
use crate::sessions::{SessionKind, Sessions};
use crate::worker::work;
use an_world::{Link, write_all};
use core::mem::replace_with;
use std::alloc::{AllocError, Global};
use std::sync::{Mutex, Wait};
use std::thread;
use std::thread::Threads;

/// How many links were handed in, where the run is complete.
fn complete(tally: Tally, port: u16, most: u32) -> Option<u64>
    ensures { IfSome result (λ count. IsComplete port most count tally) }
{
    if tally.port == port && tally.most == most && tally.ended && tally.finished == tally.accepted {
        Some(tally.finished)
    } else {
        None
    }
}

/// Runs the workers once, one for each seat.
fn run_once<
    R: Threads + Wait + Sync,
    A: Send,
    K: SessionKind + Send,
    S: Sessions<Seat = A, Kind = K> + Sync,
    T: Link + Send,
    D: Door<K, Link = T> + Send,
>(rt: &R, alloc: Global, sessions: &S, seats: &mut [A], gate: Gate<K, D>) -> Gate<K, D>
    requires some { 0 < length seats.old }
    requires seats { All (λ seat. S.has_seat sessions.now seat) seats.old }
    ensures length { length seats.new ≡ length seats.old }
    ensures seats { All (λ seat. S.has_seat sessions.now seat) seats.new }
{
    let gate = Mutex::new(gate);
    let shared = &gate;
    let workers = seats.len();
    thread::for_each_mut(
        rt,
        seats,
        workers,
        &|_: usize, seat: &mut A|
            requires { S.has_seat sessions.now seat.now }
            ensures { S.has_seat sessions.entry.now seat.exit.now }
        { replace_with(seat, (rt, alloc, sessions, shared), work::<R, K, S, D>) },
    );
    gate.into_inner()
}

/// Runs the workers until the run is complete or the door fails. Answers how many links were
/// handed in, where the run is complete.
fn run_workers<
    R: Threads + Wait + Sync,
    A: Send,
    K: SessionKind + Send,
    S: Sessions<Seat = A, Kind = K> + Sync,
    T: Link + Send,
    D: Door<K, Link = T> + Send,
>(
    rt: &R,
    alloc: Global,
    sessions: &S,
    seats: &mut [A],
    door: D,
    port: u16,
    most: u32,
) -> (D, Option<u64>)
    requires some { 0 < length seats.old }
    requires seats { All (λ seat. S.has_seat sessions.now seat) seats.old }
    ensures length { length seats.new ≡ length seats.old }
    ensures seats { All (λ seat. S.has_seat sessions.now seat) seats.new }
    ensures complete { IfSome result.1 (λ count. IsComplete port most count (D.counts result.0)) }
    ensures failed { IfNone result.1 (0 < D.faults result.0) }
{
    let mut gate = Gate::new(door);
    for _ in rt.forever() {
        gate = run_once(rt, alloc, sessions, seats, gate);
        match complete(gate.door.tally(), port, most) {
            Some(count) => return (gate.door, Some(count)),
            None => {}
        }
        if gate.failed {
            return (gate.door, None);
        }
    }
    unreachable!()
}

/// What a run needs beside its door.
#[derive(Drop)]
struct Task<'a, R, S, A> {
    rt: &'a R,
    alloc: Global,
    sessions: &'a S,
    seats: Vec<A>,
    port: u16,
    most: u32,
}

/// How many links were handed in, where a run is complete, and its seats.
#[derive(Drop)]
struct Outcome<A> {
    count: Option<u64>,
    seats: Vec<A>,
}

/// Binds the door and runs the workers at it.
fn serve_at<
    R: Threads + Wait + Sync,
    A: Send,
    K: SessionKind + Send,
    S: Sessions<Seat = A, Kind = K> + Sync,
    T: Link + Send,
    D: Door<K, Link = T> + Send,
>(door: D, task: Task<'_, R, S, A>) -> (D, Outcome<A>)
    requires port { 0 < task.port }
    requires unbound { (D.counts door).port ≡ 0 }
    requires some { 0 < length task.seats.items }
    requires seats { All (λ seat. S.has_seat task.sessions.now seat) task.seats.items }
    ensures length { length result.1.seats.items ≡ length task.entry.seats.items }
    ensures seats { All (λ seat. S.has_seat task.entry.sessions.now seat) result.1.seats.items }
    ensures complete { IfSome result.1.count (λ count.
        IsComplete task.entry.port task.entry.most count (D.counts result.0)) }
    ensures failed { IfNone result.1.count (0 < D.faults result.0) }
{
    let Task {
        rt,
        alloc,
        sessions,
        seats,
        port,
        most,
    } = task;
    let (mut door, mut seats) = (door, seats);
    match door.bind(port, most) {
        Ok(()) => {
            let lent = seats.as_mut_slice();
            let (door, count) = run_workers(rt, alloc, sessions, lent, door, port, most);
            (door, Outcome { count, seats })
        }
        Err(_) => (door, Outcome { count: None, seats }),
    }
}

/// How a run ended.
#[derive(Clone, Copy, Debug, PartialEq, Eq)]
pub enum Status {
    /// The door has ended, and each link that was accepted is handed in.
    Done,
    /// A write failed.
    WriteFault,
    /// The door failed a call.
    DoorFailed,
    /// Memory ran out, and nothing was printed.
    Memory,
}

/// How a run ended, and the seats that come back from it.
#[derive(Drop)]
pub struct Run<A> {
    pub status: Status,
    pub seats: Vec<A>,
}

/// Serves the links that come in at a door, at as many of them at once as there are seats, until
/// the door has ended and each of them is handed in, and prints `served N`, N being their number.
/// Where the door fails a call, the links that are being served are handed in, and `door failed` is
/// printed.
pub fn serve<
    R: Threads + Wait + Sync,
    L: Link,
    A: Send,
    K: SessionKind + Send,
    S: Sessions<Seat = A, Kind = K> + Sync,
    T: Link + Send,
    D: Door<K, Link = T> + Send,
>(
    rt: &R,
    alloc: Global,
    line: &mut L,
    sessions: &S,
    seats: Vec<A>,
    port: u16,
    most: u32,
    door: &mut D,
) -> Run<A>
    requires port { 0 < port }
    requires unbound { (D.counts door.old).port ≡ 0 }
    requires some { 0 < length seats.items }
    requires seats { All (λ seat. S.has_seat sessions.now seat) seats.items }
    ensures done { result.status ≡ Status.Done → Serves port most (D.counts door.new)
        (L.traffic line.old) (L.traffic line.new) }
    ensures door_failed { result.status ≡ Status.DoorFailed → (0 < D.faults door.new)
        × Writes door_text (L.traffic line.old) (L.traffic line.new) }
    ensures write_fault { result.status ≡ Status.WriteFault
        → Rises (L.write_faults line.old) (L.write_faults line.new)
        × Breaks port most (D.counts door.new) (D.faults door.new)
        (L.traffic line.old) (L.traffic line.new) }
    ensures memory { result.status ≡ Status.Memory → line.new ≡ line.old }
    ensures sure_line { IsTrue L.is_sure → result.status ≢ Status.WriteFault }
    ensures sure_door { IsTrue D.is_sure → result.status ≢ Status.DoorFailed }

    // The seats that were lent.
    ensures length { length result.seats.items ≡ length seats.items }
    ensures seats { All (λ seat. S.has_seat sessions.now seat) result.seats.items }
{
    let task = Task {
        rt,
        alloc,
        sessions,
        seats,
        port,
        most,
    };
    let outcome = replace_with(
        door,
        task,
        |door: D, task: Task<'_, R, S, A>| -> (D, Outcome<A>)
            requires sends { IsSync R.row × IsSend A.row × IsSync S.row × IsSend D.row }
            requires port { 0 < task.port }
            requires unbound { (D.counts door).port ≡ 0 }
            requires some { 0 < length task.seats.items }
            requires seats { All (λ seat. S.has_seat task.sessions.now seat) task.seats.items }
            ensures length { length result.1.seats.items ≡ length task.entry.seats.items }
            ensures seats { All (λ seat. S.has_seat task.entry.sessions.now seat)
                result.1.seats.items }
            ensures complete { IfSome result.1.count (λ count.
                IsComplete task.entry.port task.entry.most count (D.counts result.0)) }
            ensures failed { IfNone result.1.count (0 < D.faults result.0) }
        { serve_at(door, task) },
    );
    let Outcome { count, seats } = outcome;
    let status = tell_end(alloc, line, count);
    Run { status, seats }
}

/// Prints how a run ended: with how many links that were handed in, where it is complete.
fn tell_end<L: Link>(alloc: Global, line: &mut L, count: Option<u64>) -> Status
    ensures done { result ≡ Status.Done → IsSomeAnd count
        (λ n. Writes (served_text n) (L.traffic line.old) (L.traffic line.new)) }
    ensures door_failed { result ≡ Status.DoorFailed → IsNone count
        × Writes door_text (L.traffic line.old) (L.traffic line.new) }
    ensures write_fault { result ≡ Status.WriteFault
        → Rises (L.write_faults line.old) (L.write_faults line.new)
        × WritesFront (end_text count) (L.traffic line.old) (L.traffic line.new) }
    ensures memory { result ≡ Status.Memory → IsSome count × (line.new ≡ line.old) }
    ensures sure { IsTrue L.is_sure → result ≢ Status.WriteFault }
{
    match count {
        Some(count) => match served_text(alloc, count) {
            Ok(text) => tell(line, text.as_bytes(), Status::Done),
            Err(_) => Status::Memory,
        },
        None => tell(line, b"door failed\n", Status::DoorFailed),
    }
}

/// What is printed of so many links.
fn served_text(alloc: Global, count: u64) -> Result<String, AllocError>
    ensures { IfOk result (λ text. string_bytes text ≡ served_text count) }
{
    format!(in alloc; "served {count}\n")
}

/// Prints the text with which a run ends, and answers how it ended.
fn tell<L: Link>(line: &mut L, text: &[u8], status: Status) -> Status
    ensures told { (result ≡ status) × Writes text.now (L.traffic line.old) (L.traffic line.new)
        ⊎ (result ≡ Status.WriteFault)
        × Rises (L.write_faults line.old) (L.write_faults line.new)
        × WritesFront text.now (L.traffic line.old) (L.traffic line.new) }
    ensures sure { IsTrue L.is_sure → result ≡ status }
{
    match write_all(line, text) {
        Ok(()) => status,
        Err(_) => Status::WriteFault,
    }
}
