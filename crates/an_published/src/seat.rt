//! The seats of readers.
ghost use Rattle.std.specs.Prelude.{◌≡◌, true, [], ◌∷◌, ◌++◌, IfErr, IfOk, List};
ghost use mathlib.Core.List.{IsPrefix};
ghost use Rattle.left_right.specs.Sides.{view as known};
ghost use Rattle.an_laws.specs.Events.{Event, IsLegal};
ghost use Rattle.an_published.specs.Lists.{Sees, Stands, last_of, newly_seated};
ghost use Rattle.an_published.specs.Rule.{notice};

use crate::history::Mark;
use crate::lock::StoreWriter;
use crate::published::Published;
use crate::seat_knowledge::{Earning, Looking, OneList, SeatKnowledge, Telling};
use an_snapshot::Snapshot;
use left_right::reader::{Reader, Reading};
use std::alloc::AllocError;
use std::marker::Model;

/// A seat of a store, which isn't reading. Contracts see the store, the events that it saw, and
/// those of them that are its own writes.
#[derive(Drop)]
pub struct Seat {
    reader: Reader<Published, SeatKnowledge, OneList>,
    mark: Mark,
}

impl Model for Seat {
    ghost use Rattle.std.specs.Coded.{codes};
    ghost use Rattle.an_base.specs.TreeCode.{tree_code};
    ghost use Rattle.left_right.specs.Sides.{view as known};
    ghost use Rattle.an_published.specs.Known.{Sits};
    ghost use Rattle.an_published.specs.Lists.{Seated};

    ghost Value = { Seated };

    ghost coded = { Prim.hlevel (codes, tree_code) };

    ghost view = { λ s. record {
      book = s.mark.book;
      seen = s.mark.list;
      own = (known s.reader.place).own;
    } };

    ghost invariant = { λ s. Sits (known s.reader.place) s.mark };
}

/// A seat with what it is shown. It isn't `Drop`: end it by `leave`.
pub struct Shown {
    reading: Reading<Published, SeatKnowledge, OneList>,
    mark: Mark,
}

impl Model for Shown {
    ghost use Rattle.std.specs.Coded.{codes};
    ghost use Rattle.an_base.specs.TreeCode.{tree_code};
    ghost use Rattle.left_right.specs.Sides.{view as known};
    ghost use Rattle.an_published.specs.Known.{Sits};
    ghost use Rattle.an_published.specs.Lists.{Showing};

    ghost Value = { Showing };

    ghost coded = { Prim.hlevel (codes, tree_code) };

    ghost view = { λ s. record {
      seat = record {
        book = s.mark.book;
        seen = s.mark.list;
        own = (known s.reading.place).own;
      };
      state = s.reading.part.value.snapshot.state;
    } };

    ghost invariant = { λ s. Sits (known s.reading.place) s.mark };
}

impl Seat {
    /// A new seat, which saw what is published.
    pub fn new(writer: &mut StoreWriter) -> Result<Seat, AllocError>
        requires knows { known writer.old.desk.place ≡ notice writer.old.desk.shown.value }
        requires legal { IsLegal writer.old.desk.shown.value.mark.list }
        ensures seat { IfOk result (λ seat. seat
            ≡ newly_seated writer.old.desk.shown.value.mark.book
            writer.old.desk.shown.value.mark.list) }
        ensures knows { known writer.new.desk.place ≡ known writer.old.desk.place }
        ensures shown { writer.new.desk.shown ≡ writer.old.desk.shown }
        ensures log { writer.new.log ≡ writer.old.log }
        ensures behind { writer.new.behind ≡ writer.old.behind }
    {
        let mut reader = writer.factory().reader()?;
        let mark = writer.published().mark.again();
        reader.learn::<Telling>(writer.tell::<Telling>());
        Ok(Seat { reader, mark })
    }

    /// What holds of each seat.
    pub fn stands(&self)
        ensures legal { IsLegal self.now.seen }
        ensures own { Stands self.now.own self.now.seen }
    {
        let _ = &self.mark;
    }

    /// Takes what is published, and waits for nobody. It takes no memory. The seat comes back as it
    /// was where the store is closed.
    pub fn look(self) -> Result<Shown, Seat>
        ensures shown { IfOk result (Sees self) }
        ensures same { IfErr result (λ seat. seat ≡ self) }
    {
        let Seat { reader, mark } = self;
        match reader.enter_as::<Looking>() {
            Ok(reading) => {
                let mark = reading.get().mark.again();
                Ok(Shown { reading, mark })
            }
            Err(reader) => Err(Seat { reader, mark }),
        }
    }

    /// Looks once, and takes the last event that it saw before for its own. It comes back as it was
    /// where the store is closed.
    pub(crate) fn earn(self) -> Result<Seat, Seat>
        requires last { (before : List Event) × (event : Event)
            × (self.seen ≡ before ++ event ∷ []) × Stands self.own before }
        ensures book { IfOk result (λ seat. seat.book ≡ self.book) }
        ensures later { IfOk result (λ seat. IsPrefix self.seen seat.seen) }
        ensures own { IfOk result (λ seat. seat.own ≡ self.own ++ last_of self.seen) }
        ensures same { IfErr result (λ seat. seat ≡ self) }
    {
        let Seat { reader, mark } = self;
        match reader.enter_as::<Earning>() {
            Ok(reading) => {
                let mark = reading.get().mark.again();
                let reader = reading.leave();
                Ok(Seat { reader, mark })
            }
            Err(reader) => Err(Seat { reader, mark }),
        }
    }
}

impl Shown {
    /// It takes no memory.
    pub fn snapshot(&self) -> &Snapshot
        ensures state { result.now.state ≡ self.now.state }
    {
        &self.reading.get().snapshot
    }

    /// Whether it is as long as a list of this history: then it is that list.
    pub(crate) fn is_at(&self, mark: &Mark) -> bool
        requires book { self.now.seat.book ≡ mark.now.book }
        ensures same { result ≡ true → self.now.seat.seen ≡ mark.now.list }
    {
        self.mark.is_same(mark)
    }

    /// Ends the reading, and waits for nobody. It takes no memory.
    pub fn leave(self) -> Seat
        ensures seat { result ≡ self.seat }
    {
        let Shown { reading, mark } = self;
        Seat {
            reader: reading.leave(),
            mark,
        }
    }
}
