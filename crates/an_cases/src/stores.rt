use an_app::{Status, import, session_at_desk};
use an_base::Bytes;
use an_calls::{Answers, RowError, cell_shown, look_at, number, two_parts, two_words};
use an_keep::{Cell, Change, KeepError, Keeper, MemKeeper};
use an_list::read_site;
use an_shelf::{Desk, NotOpened};
use an_tables::noon;
use an_world::{MemLink, SetClock};
use std::alloc::{AllocError, Global};
use std::str::from_utf8;

/// Answers rows on a store in memory, one after the other. The store is closed where there is a
/// keeper, and open where there is a desk.
#[derive(Drop)]
pub struct Stores {
    keeper: Option<MemKeeper>,
    desk: Option<Box<Desk<MemKeeper>>>,
}

impl Stores {
    /// A closed store.
    pub fn new(keeper: MemKeeper) -> Stores {
        Stores {
            keeper: Some(keeper),
            desk: None,
        }
    }
}

/// Of a closed store a row is `open`, `new`, which puts an empty one in its place, `cells`, which
/// shows them all, `put 1 0 | {}`, which puts a cell, or `faults`, which counts the calls of its
/// keeper that failed. Of an open one it is `close`, a look at its state, as `length 1`, `row 1 0`
/// or `changes 1 0 | {}`, `import TEXT`, whose lines end in `\n`, or `session TEXT`, whose lines
/// end in `\r\n`.
impl Answers for Stores {
    fn answer(&mut self, alloc: Global, argument: &str) -> Result<String, RowError> {
        match argument {
            "open" => self.open(alloc),
            "close" => self.close(alloc),
            "new" => self.begin(alloc),
            _ => self.call(alloc, argument),
        }
    }
}

impl Stores {
    /// An empty store takes the place of a closed one.
    fn begin(&mut self, alloc: Global) -> Result<String, RowError> {
        if self.desk.is_some() {
            return Err(RowError::Form);
        }
        self.keeper = Some(MemKeeper::new(Vec::new(alloc), Vec::new(alloc)));
        shown(alloc, "new")
    }

    /// Opens a closed store. One that isn't opened stays closed.
    fn open(&mut self, alloc: Global) -> Result<String, RowError> {
        let keeper = self.keeper.take().ok_or(RowError::Form)?;
        match open_desk(alloc, keeper)? {
            Ok(desk) => {
                drop(self.desk.replace(desk));
                shown(alloc, "opened")
            }
            Err(unopened) => {
                self.keeper = Some(unopened.keeper);
                Ok(format!(in alloc; "{:?}", unopened.why)?)
            }
        }
    }

    fn close(&mut self, alloc: Global) -> Result<String, RowError> {
        let desk = self.desk.take().ok_or(RowError::Form)?;
        self.keeper = Some(Box::into_inner(desk).into_keeper());
        shown(alloc, "closed")
    }

    fn call(&mut self, alloc: Global, argument: &str) -> Result<String, RowError> {
        if let Some(keeper) = &mut self.keeper {
            return call_of_keeper(alloc, keeper, argument);
        }
        let desk = self.desk.as_mut().ok_or(RowError::Form)?;
        call_of_desk(alloc, desk, argument)
    }
}

/// A desk in a box of its own, so that it is moved as a pointer.
fn open_desk(
    alloc: Global,
    keeper: MemKeeper,
) -> Result<Result<Box<Desk<MemKeeper>>, NotOpened<MemKeeper>>, AllocError> {
    match Desk::open(alloc, keeper) {
        Ok(desk) => Ok(Ok(Box::new(alloc, desk)?)),
        Err(unopened) => Ok(Err(unopened)),
    }
}

fn shown(alloc: Global, text: &str) -> Result<String, RowError> {
    Ok(String::from_str(alloc, text)?)
}

// ---- a closed store

fn call_of_keeper(
    alloc: Global,
    keeper: &mut MemKeeper,
    argument: &str,
) -> Result<String, RowError> {
    match argument {
        "cells" => cells(alloc, keeper),
        "faults" => Ok(format!(in alloc; "{}", keeper.faults())?),
        _ => put(alloc, keeper, argument),
    }
}

/// Puts a cell: `put 1 0 | {}`.
fn put(alloc: Global, keeper: &mut MemKeeper, argument: &str) -> Result<String, RowError> {
    let (place, val) = two_parts(argument.strip_prefix("put ").ok_or(RowError::Form)?)?;
    let (tab, key) = two_words(place)?;
    let change = Change {
        tab: number(tab)?,
        key: number(key)?,
        val: Some(Bytes::new(alloc, val.as_bytes())?),
    };
    Ok(format!(in alloc; "{:?}", keeper.commit(&[change]))?)
}

/// How many cells are shown at most.
const CELLS: usize = 20;

/// The cells in their order.
pub(crate) fn cells(alloc: Global, keeper: &mut MemKeeper) -> Result<String, RowError> {
    let mut found = String::new(alloc);
    let mut next = keeper.first();
    for _ in 0..CELLS {
        match add_cell(alloc, &mut found, &next)? {
            Some((tab, key)) => next = keeper.next_after(tab, key),
            None => break,
        }
    }
    Ok(found)
}

/// Adds a cell, and tells where it stands.
fn add_cell(
    alloc: Global,
    found: &mut String,
    cell: &Result<Option<Cell>, KeepError>,
) -> Result<Option<(u8, u64)>, RowError> {
    match cell {
        Ok(Some(cell)) => {
            found.push_str(cell_shown(alloc, cell)?.as_str())?;
            found.push_str("; ")?;
            Ok(Some((cell.tab, cell.key)))
        }
        Ok(None) => Ok(None),
        Err(_) => Err(RowError::Form),
    }
}

// ---- an open store

fn call_of_desk(
    alloc: Global,
    desk: &mut Desk<MemKeeper>,
    argument: &str,
) -> Result<String, RowError> {
    if let Some(lines) = argument.strip_prefix("import ") {
        return import_lines(alloc, desk, lines);
    }
    if let Some(requests) = argument.strip_prefix("session ") {
        return serve(alloc, desk, requests);
    }
    look_at(alloc, desk.look().book(), argument)
}

/// The status of an import, and what it prints.
fn import_lines(
    alloc: Global,
    desk: &mut Desk<MemKeeper>,
    lines: &str,
) -> Result<String, RowError> {
    let input = lines.replace(alloc, "\\n", "\n")?;
    let mut link = link_with(alloc, input.as_str(), PRINTED)?;
    let status = import(alloc, &mut link, desk);
    status_shown(alloc, status, &link)
}

/// How a connection ends, and what is written to it.
fn serve(alloc: Global, desk: &mut Desk<MemKeeper>, requests: &str) -> Result<String, RowError> {
    let Ok(settings) = read_site(alloc, "http://a.example", "10") else {
        return Err(RowError::Memory);
    };
    let input = requests.replace(alloc, "\\r\\n", "\r\n")?;
    let mut link = link_with(alloc, input.as_str(), REPLIED)?;
    let ended = session_at_desk(alloc, &mut link, desk, &settings, &SetClock(noon()));
    let replies = from_utf8(link.written()).unwrap_or("?");
    let replies = replies.replace(alloc, "\r\n", "\\r\\n")?;
    Ok(format!(in alloc; "{ended:?} {replies}")?)
}

/// How many bytes an import prints at most, and those of the replies of a connection.
const PRINTED: usize = 1_000;

const REPLIED: usize = 4_000_000;

fn link_with(alloc: Global, input: &str, room: usize) -> Result<MemLink, AllocError> {
    let input = Bytes::new(alloc, input.as_bytes())?;
    let (cut, reads, writes) = (Vec::new(alloc), Vec::new(alloc), Vec::new(alloc));
    MemLink::new(alloc, input, cut, reads, writes, room)
}

fn status_shown(alloc: Global, status: Status, link: &MemLink) -> Result<String, RowError> {
    let printed = from_utf8(link.written()).unwrap_or("?").trim_end();
    Ok(format!(in alloc; "{} {printed}", status.code())?)
}
