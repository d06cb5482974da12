//! A link and a keeper in memory that wait for what happens elsewhere, and tell what happens here.
ghost use Rattle.std.specs.Prelude.{◌≡◌};

use crate::events::{Event, Events};
use an_keep::{Cell, Change, KeepError, Keeper, MemKeeper};
use an_world::{Link, LinkFault, MemLink};
use std::alloc::Global;
use std::sync::Arc;

/// A link of which each read waits for an event, and which tells an event where bytes were written.
#[derive(Drop)]
pub struct WaitingLink {
    pub within: MemLink,
    pub events: Arc<Events, Global>,
    pub waits_for: Option<Event>,
    pub answered: Event,
}

impl Link for WaitingLink {
    ghost use Rattle.std.specs.Prelude.{Some, false};
    ghost use Rattle.an_world.specs.Memory.{traffic_of};

    ghost traffic = { λ link. Some (traffic_of link.within) };

    ghost read_faults = { λ link. link.within.reads.faults };

    ghost write_faults = { λ link. link.within.writes.faults };

    ghost is_sure = { false };

    ghost use Rattle.std.proofs.lemmas.Bool.{false≢true};

    // It claims no such thing.
    ghost sure_reads = { λ sure link. absurd (false≢true sure) };

    ghost sure_writes = { λ sure link. absurd (false≢true sure) };

    fn read(&mut self, into: &mut [u8]) -> Result<usize, LinkFault> {
        self.events.wait_for(self.waits_for);
        self.within.read(into)
    }

    fn write(&mut self, from: &[u8]) -> Result<usize, LinkFault> {
        let written = self.within.write(from);
        if written.is_ok() {
            self.events.tell(self.answered);
        }
        written
    }

    fn close(&mut self) {
        self.within.close()
    }
}

/// A keeper that tells where a commit is begun, and of which each commit then waits for an event.
#[derive(Drop)]
pub struct WaitingKeeper {
    pub within: MemKeeper,
    pub events: Arc<Events, Global>,
    pub waits_for: Option<Event>,
}

impl Keeper for WaitingKeeper {
    ghost use Rattle.std.specs.Prelude.{Some, false};

    ghost told = { λ keeper. Some keeper.within.cells };

    ghost faults = { λ keeper. keeper.within.faults };

    ghost is_sure = { false };

    ghost may_begin = { false };

    ghost use Rattle.std.proofs.lemmas.Bool.{false≢true};

    // It claims no such thing.
    ghost sure_keeps = { λ sure keeper. absurd (false≢true sure) };

    fn commit(&mut self, changes: &[Change]) -> Result<(), KeepError> {
        self.events.tell(Event::CommitBegun);
        self.events.wait_for(self.waits_for);
        self.within.commit(changes)
    }

    fn first(&mut self) -> Result<Option<Cell>, KeepError> {
        self.within.first()
    }

    fn next_after(&mut self, tab: u8, key: u64) -> Result<Option<Cell>, KeepError> {
        self.within.next_after(tab, key)
    }
}
