use an_base::Moment;
use an_calls::{Call, call_named};
use an_keep::Cell;
use an_report::Outcome;
use std::alloc::Global;

/// What a case plays.
#[derive(Clone, Copy)]
pub enum Kind {
    /// A run of the server over a link in memory, which is given the input, and at a door in memory
    /// with the links of the case.
    Run,
    /// A call of one of the crates below, once for each row that is due.
    Rows(Call),
    /// Runs over a link that never fails, each over a line, of which a row has the status.
    SureRuns,
    /// What is done with a store in memory, one after the other, a row each.
    Store,
    /// Requests at a desk and at a store of one seat, whose keeper fails a call.
    Failing,
    /// What a snapshot answers behind writes, beside a plain book.
    Snapshot,
}

/// What rows with this name play.
pub fn rows_named(name: &str) -> Option<Kind> {
    match name {
        "sure_run" => Some(Kind::SureRuns),
        "store" => Some(Kind::Store),
        "failing" => Some(Kind::Failing),
        "snapshot" => Some(Kind::Snapshot),
        _ => call_named(name).map(Kind::Rows),
    }
}

/// 2024-05-01T12:00:00Z, at which a clock stands where a case says nothing of it.
pub fn noon() -> Moment {
    match Moment::new(1_714_564_800) {
        Some(moment) => moment,
        None => unreachable!(),
    }
}

/// One case of a table: what is played, and what is due from it.
#[derive(Drop)]
pub struct Case {
    pub name: String,
    pub kind: Kind,
    /// The words of a run.
    pub words: Vec<String>,
    pub input: Vec<u8>,
    /// How many bytes each read of the input gives at most.
    pub cut: Vec<usize>,
    /// The numbers, from 1, of the reads and the writes that fail.
    pub fail_reads: Vec<u64>,
    pub fail_writes: Vec<u64>,
    /// What comes in over each link of the door of a run.
    pub links: Vec<Vec<u8>>,
    /// The numbers, from 1, of the calls of the door that fail.
    pub fail_door: Vec<u64>,
    /// The cells of the store that a run is given.
    pub cells: Vec<Cell>,
    /// The numbers, from 1, of the calls of the keeper that fail; the first ones put these cells.
    pub fail_keeps: Vec<u64>,
    /// The lines that are imported into the store before a run.
    pub imported: Vec<u8>,
    /// The moment at which the clock of a run stands.
    pub clock: Moment,
    /// How many bytes can be written, where it isn't more than enough.
    pub room: Option<usize>,
    /// What is due from it.
    pub due: Outcome,
}

impl Case {
    /// A run without words over an empty input, from which nothing is due.
    pub fn new(alloc: Global, name: String) -> Case {
        Case {
            name,
            kind: Kind::Run,
            words: Vec::new(alloc),
            input: Vec::new(alloc),
            cut: Vec::new(alloc),
            fail_reads: Vec::new(alloc),
            fail_writes: Vec::new(alloc),
            links: Vec::new(alloc),
            fail_door: Vec::new(alloc),
            cells: Vec::new(alloc),
            fail_keeps: Vec::new(alloc),
            imported: Vec::new(alloc),
            clock: noon(),
            room: None,
            due: Outcome {
                status: 0,
                output: Vec::new(alloc),
            },
        }
    }
}
