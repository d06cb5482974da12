//! What happens to a store. Contracts alone speak of it.
ghost use Rattle.std.specs.Prelude.{◌≡◌};
ghost use Rattle.an_laws.specs.Events.{Opened, Wrote};

use an_base::Moment;
use an_keep::Keeper;
use an_policy::Caller;
use an_state::{Book, Command, Entry};
use std::marker::Model;
use std::snapshot::Snapshot;

/// What happened to a store. No value of it is made.
pub struct Event {
    nothing: (),
}

impl Model for Event {
    ghost use Rattle.std.specs.Prelude.{None};
    ghost use Rattle.std.specs.Coded.{codes};
    ghost use Rattle.an_base.specs.TreeCode.{tree_code};
    ghost use Rattle.an_state.specs.State.{empty};
    ghost use Rattle.an_laws.specs.Events.{Event, Opened};

    ghost Value = { Event };

    ghost coded = { Prim.hlevel (codes, tree_code) };

    ghost view = { λ e. Opened empty None };
}

/// A store was opened. It has no bytes.
#[derive(Drop)]
pub(crate) struct OpeningEvent<K: Keeper> {
    book: Snapshot<Book>,
    keeper: Snapshot<K>,
}

impl<K: Keeper> Model for OpeningEvent<K> {
    ghost use Rattle.std.specs.Coded.{codes};
    ghost use Rattle.an_base.specs.TreeCode.{tree_code};
    ghost use Rattle.an_laws.specs.Events.{Event, Opened};

    ghost Value = { Event };

    ghost coded = { Prim.hlevel (codes, tree_code) };

    ghost view = { λ found. Opened found.book.value.state (K.told found.keeper.value) };
}

impl<K: Keeper> OpeningEvent<K> {
    pub(crate) fn new(book: &Book, keeper: &K) -> OpeningEvent<K>
        ensures { result ≡ Opened book.now.state (K.told keeper.now) }
    {
        OpeningEvent {
            book: Snapshot::of(book),
            keeper: Snapshot::of(keeper),
        }
    }
}

/// A write was accepted and kept. It has no bytes but its moment.
#[derive(Drop)]
pub struct KeptEvent<K: Keeper> {
    moment: Moment,
    caller: Snapshot<Caller>,
    command: Snapshot<Command>,
    entry: Snapshot<Entry>,
    keeper: Snapshot<K>,
}

impl<K: Keeper> Model for KeptEvent<K> {
    ghost use Rattle.std.specs.Coded.{codes};
    ghost use Rattle.an_base.specs.TreeCode.{tree_code};
    ghost use Rattle.an_laws.specs.Events.{Event, Wrote};

    ghost Value = { Event };

    ghost coded = { Prim.hlevel (codes, tree_code) };

    ghost view = { λ kept. Wrote (record {
      moment = kept.moment;
      caller = kept.caller.value;
      command = kept.command.value;
      entry = kept.entry.value;
    }) (K.told kept.keeper.value) };
}

impl<K: Keeper> KeptEvent<K> {
    /// The write, with the entry that was decided, and what the keeper tells behind it.
    pub fn new(
        moment: Moment,
        caller: &Caller,
        command: &Command,
        entry: &Entry,
        keeper: &K,
    ) -> KeptEvent<K>
        ensures { result ≡ Wrote (record {
          moment = moment;
          caller = caller.now;
          command = command.now;
          entry = entry.now;
        }) (K.told keeper.now) }
    {
        KeptEvent {
            moment,
            caller: Snapshot::of(caller),
            command: Snapshot::of(command),
            entry: Snapshot::of(entry),
            keeper: Snapshot::of(keeper),
        }
    }
}
