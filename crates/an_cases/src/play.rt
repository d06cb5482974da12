ghost use Rattle.std.specs.Prelude.{◌≡◌, All, IfOk, Some};
ghost use Rattle.an_world.specs.Memory.{traffic_of};
ghost use Rattle.an_session.specs.Session.{line};
ghost use Rattle.an_door.specs.Ends.{IsFresh};

use crate::failing::Failing;
use crate::stores::Stores;
use crate::sure_runs::SureRuns;
use an_app::{AtStores, Finished, MemDoor, import, run_in_memory};
use an_base::{Bytes, TryCopy};
use an_calls::{Answers, TwinRows};
use an_keep::{Cell, Change, KeepError, Keeper, MemKeeper};
use an_report::Outcome;
use an_shelf::Desk;
use an_tables::{Case, Kind, answer_rows};
use an_world::{MemLink, SetClock, SureLink};
use std::alloc::{AllocError, Global};
use std::sync::Wait;
use std::thread::Threads;

/// How many bytes more than are due can be written, where a case says nothing of it.
const SPARE: usize = 65_536;

/// Plays a case.
pub fn play<R: Threads + Wait + Sync>(
    rt: &R,
    alloc: Global,
    case: &Case,
) -> Result<Outcome, AllocError> {
    match case.kind {
        Kind::Run => play_run(rt, alloc, case),
        Kind::Rows(call) => play_rows(alloc, call, case),
        Kind::SureRuns => play_rows(alloc, SureRuns, case),
        Kind::Failing => play_rows(alloc, failing_of(rt, case), case),
        Kind::Store => play_rows(alloc, Stores::new(keeper_of(alloc, case)?), case),
        Kind::Snapshot => play_twins(alloc, case),
    }
}

fn play_rows<A: Answers + Drop>(
    alloc: Global,
    mut answers: A,
    case: &Case,
) -> Result<Outcome, AllocError> {
    let output = answer_rows(alloc, &mut answers, case.due.output.as_slice())?;
    Ok(Outcome { status: 0, output })
}

/// The lines of the store come first, those of the input are played in rounds.
fn play_twins(alloc: Global, case: &Case) -> Result<Outcome, AllocError> {
    let rows = TwinRows::new(alloc, case.imported.as_slice(), case.input.as_slice())?;
    play_rows(alloc, rows, case)
}

fn failing_of<'a, R: Threads + Wait + Sync>(rt: &'a R, case: &'a Case) -> Failing<'a, R> {
    Failing::new(rt, case.imported.as_slice(), case.links.as_slice())
}

/// Runs the server over a link and at a door in memory.
fn play_run<R: Threads + Wait + Sync>(
    rt: &R,
    alloc: Global,
    case: &Case,
) -> Result<Outcome, AllocError> {
    let mut link = link_of(alloc, case)?;
    let mut door = door_of(alloc, case)?;
    let keeper = with_lines(
        alloc,
        keeper_with_cells(alloc, case)?,
        case.imported.as_slice(),
    )?;
    let clock = SetClock(case.clock);
    let words = case.words.as_slice();
    let status = run_in_memory(rt, alloc, words, keeper, &mut link, &mut door, &clock)
        .status
        .code();
    what_came(alloc, status, link.written(), door.finished())
}

/// What was printed, and behind it how the connection over each link ended and what was written to
/// it, in the order in which the links were handed in.
fn what_came(
    alloc: Global,
    status: u8,
    written: &[u8],
    finished: &[Finished<MemLink, AtStores<MemKeeper>>],
) -> Result<Outcome, AllocError> {
    let mut output = Vec::from_slice(alloc, written)?;
    for done in finished {
        let ended = format!(in alloc; "{:?}\n", done.ended)?;
        output.extend_from_slice(ended.as_bytes())?;
        output.extend_from_slice(done.link.written())?;
    }
    Ok(Outcome { status, output })
}

/// A door to which the links of the case come, which isn't bound yet.
fn door_of(alloc: Global, case: &Case) -> Result<MemDoor<MemLink, AtStores<MemKeeper>>, AllocError>
    ensures unbound { IfOk result (λ door. door.waiting.tally.port ≡ 0) }
{
    let links = links_of(alloc, case.links.as_slice())?;
    let failing = Vec::from_slice(alloc, case.fail_door.as_slice())?;
    MemDoor::new(alloc, links, failing)
}

/// Links with these inputs, over which nothing went yet.
fn links_of(alloc: Global, inputs: &[Vec<u8>]) -> Result<Vec<MemLink>, AllocError>
    ensures fresh { IfOk result (λ links. All (λ link. IsFresh (line (Some (traffic_of link))
        link.reads.faults link.writes.faults)) links.items) }
{
    let mut links = Vec::new(alloc);
    for input in inputs {
        links.push(fresh_link(alloc, input.as_slice(), SPARE)?)?;
    }
    Ok(links)
}

/// A link with this input that fails no call.
pub(crate) fn fresh_link(alloc: Global, input: &[u8], room: usize) -> Result<MemLink, AllocError>
    ensures fresh { IfOk result (λ link. IsFresh (line (Some (traffic_of link))
        link.reads.faults link.writes.faults)) }
{
    let input = Bytes::new(alloc, input)?;
    let (cut, reads, writes) = (Vec::new(alloc), Vec::new(alloc), Vec::new(alloc));
    MemLink::new(alloc, input, cut, reads, writes, room)
}

/// A keeper without cells.
fn keeper_of(alloc: Global, case: &Case) -> Result<MemKeeper, AllocError> {
    let failing = Vec::from_slice(alloc, case.fail_keeps.as_slice())?;
    Ok(MemKeeper::new(Vec::new(alloc), failing))
}

/// The same with the cells of the case.
fn keeper_with_cells(alloc: Global, case: &Case) -> Result<MemKeeper, AllocError> {
    let mut keeper = keeper_of(alloc, case)?;
    for cell in case.cells.as_slice() {
        put_cell(&mut keeper, cell)?;
    }
    Ok(keeper)
}

/// The same with what is kept of lines. A store that isn't opened is gone.
pub(crate) fn with_lines(
    alloc: Global,
    keeper: MemKeeper,
    lines: &[u8],
) -> Result<MemKeeper, AllocError> {
    if lines.is_empty() {
        return Ok(keeper);
    }
    let mut link = SureLink::new(Bytes::new(alloc, lines)?, Vec::new(alloc));
    match Desk::open(alloc, keeper) {
        Ok(mut desk) => {
            import(alloc, &mut link, &mut desk);
            Ok(desk.into_keeper())
        }
        Err(_) => Ok(MemKeeper::new(Vec::new(alloc), Vec::new(alloc))),
    }
}

/// A call that is to fail puts nothing.
fn put_cell(keeper: &mut MemKeeper, cell: &Cell) -> Result<(), AllocError> {
    let change = Change {
        tab: cell.tab,
        key: cell.key,
        val: Some(cell.val.copy()?),
    };
    match keeper.commit(&[change]) {
        Ok(()) => Ok(()),
        Err(KeepError::Failed) => Ok(()),
        Err(KeepError::Memory) => Err(AllocError),
    }
}

fn link_of(alloc: Global, case: &Case) -> Result<MemLink, AllocError> {
    let input = Bytes::new(alloc, case.input.as_slice())?;
    let cut = Vec::from_slice(alloc, case.cut.as_slice())?;
    let fail_reads = Vec::from_slice(alloc, case.fail_reads.as_slice())?;
    let fail_writes = Vec::from_slice(alloc, case.fail_writes.as_slice())?;
    let room = case
        .room
        .unwrap_or(case.due.output.len().saturating_add(SPARE));
    MemLink::new(alloc, input, cut, fail_reads, fail_writes, room)
}
