//! What readers are shown takes in entries.
ghost use Rattle.std.specs.Prelude.{◌≡◌};

use crate::history::Mark;
use an_snapshot::Snapshot;
use an_state::Entry;
use left_right::Absorb;
use std::alloc::AllocError;
use std::marker::Model;

/// A snapshot, and the beginning of the history that led to it.
#[derive(Drop)]
pub struct Published {
    pub snapshot: Snapshot,
    pub mark: Mark,
}

/// The entry of a write, and the beginning of the history that ends with the write.
#[derive(Drop)]
pub struct Addition {
    pub entry: Entry,
    pub mark: Mark,
}

/// What two copies of what is shown share: contracts alone speak of it, and no value of it is made.
pub struct LedState {
    nothing: (),
}

impl Model for LedState {
    ghost use Rattle.std.specs.Prelude.{[]};
    ghost use Rattle.std.specs.Coded.{codes};
    ghost use Rattle.an_base.specs.TreeCode.{tree_code};
    ghost use Rattle.an_state.specs.State.{empty};
    ghost use Rattle.an_published.specs.History.{Led};
    ghost use Rattle.an_published.specs.Lists.{no_book};

    ghost Value = { Led };

    ghost coded = { Prim.hlevel (codes, tree_code) };

    ghost view = { λ s. record { state = empty; mark = record { book = no_book; list = [] } } };
}

impl Absorb<Addition> for Published {
    ghost use Rattle.an_published.specs.Rule.{led, taking};

    type State = LedState;

    ghost state = { led };

    ghost applied = { taking };

    fn absorb_first(&mut self, operation: &Addition, _other: &Published) -> Result<(), AllocError> {
        self.snapshot.apply(&operation.entry)?;
        self.mark = operation.mark.again();
        Ok(())
    }
}
