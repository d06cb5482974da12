//! What a desk's requests are answered from.
ghost use Rattle.std.specs.Prelude.{◌≡◌, IsOk, IsTrue, None, OnErr, OnOk};
ghost use Rattle.an_snapshot.specs.Fits.{fits};
ghost use Rattle.an_state.specs.Entries.{after};
ghost use Rattle.an_shelf.specs.Front.{all_shown, behind, lacking};

use an_snapshot::Snapshot;
use an_state::Entry;
use std::alloc::AllocError;
use std::marker::Model;

/// The look of a desk. To show an entry may take memory, so that one that is kept already may wait
/// for it.
#[derive(Drop)]
pub(crate) struct LaggingLook {
    snapshot: Snapshot,
    waiting: Option<Entry>,
}

impl Model for LaggingLook {
    ghost use Rattle.std.specs.Coded.{codes};
    ghost use Rattle.an_base.specs.TreeCode.{tree_code};
    ghost use Rattle.an_shelf.specs.Front.{CanShow, Shown};

    ghost Value = { Shown };

    ghost coded = { Prim.hlevel (codes, tree_code) };

    ghost view = { λ f. record { state = f.snapshot.state; waiting = f.waiting } };

    ghost invariant = { λ f. CanShow f.waiting f.snapshot.state };
}

impl LaggingLook {
    /// Nothing waits.
    pub(crate) fn new(snapshot: Snapshot) -> LaggingLook
        ensures shown { result ≡ all_shown snapshot.state }
    {
        LaggingLook {
            snapshot,
            waiting: None,
        }
    }

    pub(crate) fn look(&self) -> &Snapshot
        ensures state { result.now.state ≡ self.now.state }
    {
        &self.snapshot
    }

    /// Shows the entry that waits, if one does.
    #[tactic(auto, using(crate::proofs::FrontLemmas::showing))]
    pub(crate) fn settle(&mut self) -> Result<(), AllocError>
        ensures shown { OnOk result (self.new ≡ all_shown (behind self.old)) }
        ensures same { OnErr result (self.new ≡ self.old) }
        ensures nothing { self.old.waiting ≡ None → IsOk result }
    {
        match &self.waiting {
            Some(entry) => {
                self.snapshot.apply(entry)?;
                self.waiting = None;
                Ok(())
            }
            None => Ok(()),
        }
    }

    /// Shows an entry. Where memory runs out it waits.
    pub(crate) fn show(&mut self, entry: Entry) -> Result<(), AllocError>
        requires nothing_waits { self.old.waiting ≡ None }
        requires fits { IsTrue (fits self.old.state entry) }
        ensures shown { OnOk result (self.new ≡ all_shown (after self.old.state entry)) }
        ensures waits { OnErr result (self.new ≡ lacking self.old.state entry) }
    {
        self.waiting = Some(entry);
        self.settle()
    }
}
