//! A run of which parts wait for each other.
ghost use Rattle.std.specs.Prelude.{◌≡◌, All, IfOk, Some};
ghost use Rattle.an_world.specs.Memory.{traffic_of};
ghost use Rattle.an_session.specs.Session.{line};
ghost use Rattle.an_door.specs.Ends.{IsFresh};

use crate::events::{Event, Events};
use crate::given::{input_of, noon, words};
use crate::waiting::{WaitingKeeper, WaitingLink};
use an_app::{AtStores, Finished, MemDoor, import, run};
use an_base::Bytes;
use an_keep::MemKeeper;
use an_shelf::Desk;
use an_world::{MemLink, SetClock, SureLink};
use std::alloc::{AllocError, Global};
use std::str::from_utf8;
use std::sync::{Arc, Wait};
use std::thread::Threads;

/// What each read of a link and each commit waits for.
#[derive(Clone, Copy)]
pub(crate) struct Waits {
    pub(crate) first: Option<Event>,
    pub(crate) second: Option<Event>,
    pub(crate) commit: Option<Event>,
}

/// Plays a run of two workers at a store with these lines, to whose door two links with these
/// requests come. Answers with the status, the first line of what is printed, and that of what is
/// written to each link; and `in vain` where somebody gave up waiting.
pub(crate) fn play_waits<R: Threads + Wait + Sync>(
    rt: &R,
    alloc: Global,
    lines: &str,
    waits: &Waits,
    first: &str,
    second: &str,
) -> Result<String, AllocError> {
    let events = Arc::new(alloc, Events::new())?;
    let keeper = waiting_keeper(alloc, &events, waits.commit, lines)?;
    let links = links_of(alloc, &events, waits, first, second)?;
    let mut told = serve(rt, alloc, keeper, links)?;
    if events.is_missed() {
        told.push_str("; in vain")?;
    }
    Ok(told)
}

/// How many bytes can be written to a link.
const ROOM: usize = 65_536;

/// Both links, over which nothing went yet.
fn links_of(
    alloc: Global,
    events: &Arc<Events, Global>,
    waits: &Waits,
    first: &str,
    second: &str,
) -> Result<Vec<WaitingLink>, AllocError>
    ensures fresh { IfOk result (λ links. All (λ link. IsFresh (line
        (Some (traffic_of link.within)) link.within.reads.faults link.within.writes.faults))
        links.items) }
{
    let (one, other) = (Event::FirstAnswered, Event::SecondAnswered);
    let mut links = Vec::new(alloc);
    links.push(waiting_link(alloc, events, waits.first, one, first)?)?;
    links.push(waiting_link(alloc, events, waits.second, other, second)?)?;
    Ok(links)
}

fn waiting_link(
    alloc: Global,
    events: &Arc<Events, Global>,
    waits_for: Option<Event>,
    answered: Event,
    requests: &str,
) -> Result<WaitingLink, AllocError>
    ensures fresh { IfOk result (λ link. IsFresh (line (Some (traffic_of link.within))
        link.within.reads.faults link.within.writes.faults)) }
{
    Ok(WaitingLink {
        within: fresh_link(alloc, requests)?,
        events: Arc::try_clone(events)?,
        waits_for,
        answered,
    })
}

/// A link that fails no call.
fn fresh_link(alloc: Global, requests: &str) -> Result<MemLink, AllocError>
    ensures fresh { IfOk result (λ link. IsFresh (line (Some (traffic_of link))
        link.reads.faults link.writes.faults)) }
{
    let input = input_of(alloc, requests)?;
    let (cut, reads, writes) = (Vec::new(alloc), Vec::new(alloc), Vec::new(alloc));
    MemLink::new(alloc, input, cut, reads, writes, ROOM)
}

fn waiting_keeper(
    alloc: Global,
    events: &Arc<Events, Global>,
    waits_for: Option<Event>,
    lines: &str,
) -> Result<WaitingKeeper, AllocError> {
    Ok(WaitingKeeper {
        within: keeper_with(alloc, lines)?,
        events: Arc::try_clone(events)?,
        waits_for,
    })
}

/// A keeper with what is kept of these lines. Where the store isn't opened it is empty.
fn keeper_with(alloc: Global, lines: &str) -> Result<MemKeeper, AllocError> {
    let keeper = MemKeeper::new(Vec::new(alloc), Vec::new(alloc));
    match Desk::open(alloc, keeper) {
        Ok(desk) => import_all(alloc, desk, lines),
        Err(_) => Ok(MemKeeper::new(Vec::new(alloc), Vec::new(alloc))),
    }
}

fn import_all(
    alloc: Global,
    mut desk: Desk<MemKeeper>,
    lines: &str,
) -> Result<MemKeeper, AllocError> {
    let mut link = SureLink::new(Bytes::new(alloc, lines.as_bytes())?, Vec::new(alloc));
    import(alloc, &mut link, &mut desk);
    Ok(desk.into_keeper())
}

type WaitingDoor = MemDoor<WaitingLink, AtStores<WaitingKeeper>>;

/// Serves both links.
fn serve<R: Threads + Wait + Sync>(
    rt: &R,
    alloc: Global,
    keeper: WaitingKeeper,
    links: Vec<WaitingLink>,
) -> Result<String, AllocError>
    requires fresh { All (λ link. IsFresh (line (Some (traffic_of link.within))
        link.within.reads.faults link.within.writes.faults)) links.items }
{
    let mut door = MemDoor::new(alloc, links, Vec::new(alloc))?;
    let mut told = serve_at(rt, alloc, keeper, &mut door)?;
    tell_reply(&mut told, door.finished(), Event::FirstAnswered)?;
    tell_reply(&mut told, door.finished(), Event::SecondAnswered)?;
    Ok(told)
}

/// Runs the server, and answers with the status and the first line of what is printed.
fn serve_at<R: Threads + Wait + Sync>(
    rt: &R,
    alloc: Global,
    keeper: WaitingKeeper,
    door: &mut WaitingDoor,
) -> Result<String, AllocError>
    requires unbound { door.old.waiting.tally.port ≡ 0 }
{
    let words = words(alloc)?;
    let mut line = fresh_link(alloc, "")?;
    let ran = run(
        rt,
        alloc,
        words.as_slice(),
        keeper,
        &mut line,
        door,
        &SetClock(noon()),
    );
    let status = ran.status.code();
    drop(ran);
    format!(in alloc; "{status} {}", first_line(line.written()))
}

/// Tells the first line of what was written to the link of which this event tells.
fn tell_reply(
    told: &mut String,
    finished: &[Finished<WaitingLink, AtStores<WaitingKeeper>>],
    answered: Event,
) -> Result<(), AllocError> {
    for done in finished {
        if done.link.answered == answered {
            told.push_str("; ")?;
            told.push_str(first_line(done.link.within.written()))?;
        }
    }
    Ok(())
}

fn first_line(written: &[u8]) -> &str {
    let text = from_utf8(written).unwrap_or("?");
    text.lines().next().unwrap_or("nothing")
}
