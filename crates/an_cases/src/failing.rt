//! Requests at a desk and at a store of one seat, whose keeper fails a call; and one at the first
//! of two seats.
ghost use Rattle.std.specs.Prelude.{◌≡◌, ◌<◌, length};

use crate::play::{fresh_link, with_lines};
use crate::seats::play_seats;
use crate::stores::cells;
use an_app::{session, session_at_desk};
use an_calls::{Answers, RowError, number, two_words};
use an_keep::MemKeeper;
use an_list::{Site, read_site};
use an_shelf::Desk;
use an_store::{Naming, Opened, Seat, Store, open_store};
use an_tables::noon;
use an_world::{MemLink, SetClock};
use std::alloc::Global;
use std::marker::Brand;
use std::str::from_utf8;
use std::sync::Wait;

/// Answers rows by the requests of a case at a store into which its lines were imported, each over
/// a link of its own, and sent once more where the keeper failed: `desk 7` or `store 7`, where the
/// seventh call of the keeper fails, counted from the first of the import. It is answered with the
/// statuses, and whether the cells at the end are those of no failing call. Or by the first request
/// at the first of two seats: `seats 0`, or `seats 1`, where the first read of its link fails.
#[derive(Drop)]
pub struct Failing<'a, R: Wait> {
    rt: &'a R,
    lines: &'a [u8],
    requests: &'a [Vec<u8>],
}

impl<'a, R: Wait> Failing<'a, R> {
    pub fn new(rt: &'a R, lines: &'a [u8], requests: &'a [Vec<u8>]) -> Failing<'a, R> {
        Failing {
            rt,
            lines,
            requests,
        }
    }

    fn keeper(&self, alloc: Global, failing: u64) -> Result<MemKeeper, RowError> {
        let mut fail = Vec::new(alloc);
        fail.push(failing)?;
        let keeper = MemKeeper::new(Vec::new(alloc), fail);
        Ok(with_lines(alloc, keeper, self.lines)?)
    }

    fn play_at_seats(&self, alloc: Global, unread: u64) -> Result<String, RowError> {
        let keeper = self.keeper(alloc, 0)?;
        let Ok(settings) = read_site(alloc, "http://a.example", "10") else {
            return Err(RowError::Memory);
        };
        match self.requests.first() {
            Some(request) => play_seats(
                self.rt,
                alloc,
                keeper,
                &settings,
                request.as_slice(),
                unread,
            ),
            None => Err(RowError::Form),
        }
    }

    /// The statuses and the cells at the end.
    fn play(&self, alloc: Global, place: &str, failing: u64) -> Result<Played, RowError> {
        let keeper = self.keeper(alloc, failing)?;
        let Ok(settings) = read_site(alloc, "http://a.example", "10") else {
            return Err(RowError::Memory);
        };
        match place {
            "desk" => at_desk(alloc, keeper, &settings, self.requests),
            "store" => at_store(self.rt, alloc, keeper, &settings, self.requests),
            _ => Err(RowError::Form),
        }
    }
}

/// The statuses with which requests were answered, and the cells behind them.
#[derive(Drop)]
struct Played {
    statuses: String,
    cells: String,
}

impl<'a, R: Wait> Answers for Failing<'a, R> {
    fn answer(&mut self, alloc: Global, argument: &str) -> Result<String, RowError> {
        let (place, call) = two_words(argument)?;
        if place == "seats" {
            return self.play_at_seats(alloc, number(call)?);
        }
        let played = self.play(alloc, place, number(call)?)?;
        let due = self.play(alloc, place, 0)?;
        let cells = if played.cells.as_str() == due.cells.as_str() {
            "the same cells"
        } else {
            "other cells"
        };
        Ok(format!(in alloc; "{}{cells}", played.statuses)?)
    }
}

/// How many bytes a reply has at most.
const ROOM: usize = 65_536;

/// The status of the reply that was written.
pub(crate) fn status(link: &MemLink) -> &str {
    let line = from_utf8(link.written()).unwrap_or("?");
    line.split_ascii_whitespace().nth(1).unwrap_or("none")
}

/// Adds a status, and answers whether the request is to be sent again.
fn tell(statuses: &mut String, link: &MemLink) -> Result<bool, RowError> {
    let status = status(link);
    statuses.push_str(status)?;
    statuses.push_str(" ")?;
    Ok(status == "500")
}

// ---- a desk

fn at_desk(
    alloc: Global,
    keeper: MemKeeper,
    settings: &Site,
    requests: &[Vec<u8>],
) -> Result<Played, RowError> {
    match Desk::open(alloc, keeper) {
        Ok(mut desk) => {
            let statuses = ask_all_at_desk(alloc, &mut desk, settings, requests);
            what_is_left(alloc, statuses, desk.into_keeper())
        }
        Err(_) => Err(RowError::Form),
    }
}

fn what_is_left(
    alloc: Global,
    statuses: Result<String, RowError>,
    mut keeper: MemKeeper,
) -> Result<Played, RowError> {
    let cells = cells(alloc, &mut keeper);
    drop(keeper);
    Ok(Played {
        statuses: statuses?,
        cells: cells?,
    })
}

fn ask_all_at_desk(
    alloc: Global,
    desk: &mut Desk<MemKeeper>,
    settings: &Site,
    requests: &[Vec<u8>],
) -> Result<String, RowError> {
    let mut statuses = String::new(alloc);
    for request in requests {
        ask_desk(alloc, &mut statuses, desk, settings, request.as_slice())?;
    }
    Ok(statuses)
}

fn ask_desk(
    alloc: Global,
    statuses: &mut String,
    desk: &mut Desk<MemKeeper>,
    settings: &Site,
    request: &[u8],
) -> Result<(), RowError> {
    for _ in 0..2 {
        let mut link = fresh_link(alloc, request, ROOM)?;
        session_at_desk(alloc, &mut link, desk, settings, &SetClock(noon()));
        if !tell(statuses, &link)? {
            break;
        }
    }
    Ok(())
}

// ---- a store of one seat

fn at_store<R: Wait>(
    rt: &R,
    alloc: Global,
    keeper: MemKeeper,
    settings: &Site,
    requests: &[Vec<u8>],
) -> Result<Played, RowError> {
    match open_store(rt, alloc, keeper, 1) {
        Ok(opened) => at_opened::<Brand, R>(rt, alloc, opened, settings, requests),
        Err(_) => Err(RowError::Form),
    }
}

fn at_opened<J: Naming, R: Wait>(
    rt: &R,
    alloc: Global,
    opened: Opened<MemKeeper>,
    settings: &Site,
    requests: &[Vec<u8>],
) -> Result<Played, RowError>
    requires book { opened.book ≡ J.book }
    requires some { 0 < length opened.seats }
{
    let (store, mut seats) = opened.named::<J>();
    let seat = seats.remove(0);
    drop(seats);
    let (mut seat, statuses) = ask_all(rt, alloc, &store, seat, settings, requests);
    let keeper = store.close(rt, &mut seat);
    drop(seat);
    what_is_left(alloc, statuses, keeper)
}

fn ask_all<J: Naming, R: Wait>(
    rt: &R,
    alloc: Global,
    store: &Store<MemKeeper, J>,
    seat: Seat,
    settings: &Site,
    requests: &[Vec<u8>],
) -> (Seat, Result<String, RowError>)
    requires seat { seat.book ≡ J.book }
    ensures seat { result.0.book ≡ J.book }
{
    let mut seat = seat;
    let mut statuses = String::new(alloc);
    for request in requests {
        let (after, told) = ask(
            rt,
            alloc,
            &mut statuses,
            store,
            seat,
            settings,
            request.as_slice(),
        );
        seat = after;
        if let Err(error) = told {
            return (seat, Err(error));
        }
    }
    (seat, Ok(statuses))
}

fn ask<J: Naming, R: Wait>(
    rt: &R,
    alloc: Global,
    statuses: &mut String,
    store: &Store<MemKeeper, J>,
    seat: Seat,
    settings: &Site,
    request: &[u8],
) -> (Seat, Result<(), RowError>)
    requires seat { seat.book ≡ J.book }
    ensures seat { result.0.book ≡ J.book }
{
    let (seat, told) = ask_once(rt, alloc, statuses, store, seat, settings, request);
    match told {
        Ok(true) => ask_again(rt, alloc, statuses, store, seat, settings, request),
        Ok(false) => (seat, Ok(())),
        Err(error) => (seat, Err(error)),
    }
}

fn ask_again<J: Naming, R: Wait>(
    rt: &R,
    alloc: Global,
    statuses: &mut String,
    store: &Store<MemKeeper, J>,
    seat: Seat,
    settings: &Site,
    request: &[u8],
) -> (Seat, Result<(), RowError>)
    requires seat { seat.book ≡ J.book }
    ensures seat { result.0.book ≡ J.book }
{
    let (seat, told) = ask_once(rt, alloc, statuses, store, seat, settings, request);
    match told {
        Ok(_) => (seat, Ok(())),
        Err(error) => (seat, Err(error)),
    }
}

fn ask_once<J: Naming, R: Wait>(
    rt: &R,
    alloc: Global,
    statuses: &mut String,
    store: &Store<MemKeeper, J>,
    seat: Seat,
    settings: &Site,
    request: &[u8],
) -> (Seat, Result<bool, RowError>)
    requires seat { seat.book ≡ J.book }
    ensures seat { result.0.book ≡ J.book }
{
    let mut link = match fresh_link(alloc, request, ROOM) {
        Ok(link) => link,
        Err(_) => return (seat, Err(RowError::Memory)),
    };
    let clock = SetClock(noon());
    let served = session(rt, alloc, &mut link, store, seat, settings, &clock);
    (served.seat, tell(statuses, &link))
}
