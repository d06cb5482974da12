//! A run over parts of which none ever fails a call.
ghost use Rattle.std.specs.Prelude.{◌≡◌, ◌≢◌, All, IfOk, Some};
ghost use Rattle.an_world.specs.Sure.{sure_traffic};
ghost use Rattle.an_session.specs.Session.{line};
ghost use Rattle.an_door.specs.Ends.{IsFresh};
ghost use Rattle.an_lines.specs.Status.{IsUnfailing};

use crate::given::{input_of, noon, words};
use an_app::{AtStores, Status, SureDoor, run};
use an_base::Bytes;
use an_keep::SureKeeper;
use an_world::{SetClock, SureLink};
use std::alloc::{AllocError, Global};
use std::sync::Wait;
use std::thread::Threads;

/// Plays a run at an empty store, to whose door links with these inputs come, none for an input
/// that is empty. Answers with the status, and how each connection ended; what is written to such a
/// link only contracts see.
pub(crate) fn play_sure<R: Threads + Wait + Sync>(
    rt: &R,
    alloc: Global,
    first: &str,
    second: &str,
) -> Result<String, AllocError> {
    let words = words(alloc)?;
    let mut door = SureDoor::new(alloc, sure_links(alloc, first, second)?)?;
    let status = run_sure(rt, alloc, words.as_slice(), &mut door);
    let mut told = format!(in alloc; "{}", status.code())?;
    for done in door.finished() {
        let ended = format!(in alloc; " {:?}", done.ended)?;
        told.push_str(ended.as_str())?;
    }
    Ok(told)
}

/// Runs the server. It isn't told that the link over which it prints, its keeper or its door has
/// failed.
fn run_sure<R: Threads + Wait + Sync>(
    rt: &R,
    alloc: Global,
    words: &[String],
    door: &mut SureDoor<SureLink, AtStores<SureKeeper>>,
) -> Status
    requires unbound { door.old.tally.port ≡ 0 }
    ensures link { IsUnfailing result }
    ensures keeper { result ≢ Status.KeeperFailed }
    ensures door { result ≢ Status.DoorFailed }
{
    let mut line = sure_link(alloc, Bytes::from_vec(Vec::new(alloc)));
    let keeper = SureKeeper::new(Vec::new(alloc));
    run(rt, alloc, words, keeper, &mut line, door, &SetClock(noon())).status
}

/// The links that have an input, over which nothing went yet.
fn sure_links(alloc: Global, first: &str, second: &str) -> Result<Vec<SureLink>, AllocError>
    ensures fresh { IfOk result (λ links. All (λ link.
        IsFresh (line (Some (sure_traffic link)) 0 0)) links.items) }
{
    let mut links = Vec::new(alloc);
    add_link(alloc, &mut links, first)?;
    add_link(alloc, &mut links, second)?;
    Ok(links)
}

/// Adds a link with this input, if there is one.
fn add_link(alloc: Global, links: &mut Vec<SureLink>, input: &str) -> Result<(), AllocError>
    requires fresh { All (λ link. IsFresh (line (Some (sure_traffic link)) 0 0)) links.old.items }
    ensures fresh { All (λ link. IsFresh (line (Some (sure_traffic link)) 0 0)) links.new.items }
{
    if input.is_empty() {
        return Ok(());
    }
    links.push(sure_link(alloc, input_of(alloc, input)?))?;
    Ok(())
}

fn sure_link(alloc: Global, input: Bytes) -> SureLink
    ensures fresh { IsFresh (line (Some (sure_traffic result)) 0 0) }
{
    SureLink::new(input, Vec::new(alloc))
}
