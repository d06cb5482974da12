ghost use Rattle.std.specs.Prelude.{◌≡◌, ◌≤◌, ◌↔◌, IfErr, IfOk, IsTrue, OnErr, OnOk, is_err};
ghost use Rattle.an_keep.specs.Cells.{Ascend, first_of, next_after, put_changes};
ghost use Rattle.an_base.specs.Faults.{Rises};
ghost use Rattle.an_keep.specs.Memory.{memory_of, is_next_failing, called};

use crate::cell::{Cell, Change};
use crate::cells::Cells;
use crate::keeper::{KeepError, Keeper};
use std::marker::Model;

/// A keeper whose cells stand in memory. It fails the calls that it is told to fail.
#[derive(Debug, Drop)]
pub struct MemKeeper {
    cells: Cells,
    made: u64,
    faults: u64,
    failing: Vec<u64>,
}

impl Model for MemKeeper {
    ghost use Rattle.an_keep.specs.Cells.{Ascend};
    ghost use Rattle.an_keep.specs.Memory.{Memory};

    ghost Value = { Memory };

    ghost view = { λ k. record {
      cells = k.cells;
      made = k.made;
      faults = k.faults;
      failing = k.failing.items;
    } };

    ghost invariant = { λ k. Ascend k.cells };
}

impl MemKeeper {
    /// A keeper of these cells, which ascend by table and then by key, none twice. The calls with
    /// the numbers of `fail` fail, all three kinds counted together, from 1. Takes no memory.
    pub fn new(cells: Vec<Cell>, fail: Vec<u64>) -> MemKeeper
        requires { Ascend cells.items }
        ensures start { result ≡ memory_of cells.items fail.items }
    {
        MemKeeper {
            cells: Cells::new(cells),
            made: 0,
            faults: 0,
            failing: fail,
        }
    }

    /// How many calls failed. The count stands still at `u64::MAX`.
    pub fn faults(&self) -> u64
        ensures { result ≡ self.now.faults }
    {
        self.faults
    }

    /// Counts a call, and fails it where it is listed.
    fn call(&mut self) -> Result<(), KeepError>
        ensures fails { is_err result ≡ is_next_failing self.old }
        ensures error { IfErr result (λ error. error ≡ KeepError.Failed) }
        ensures after { self.new ≡ called self.old }
        ensures rises { OnErr result (Rises self.old.faults self.new.faults) }
        ensures kept { self.old.faults ≤ self.new.faults }
        ensures ascend { Ascend self.new.cells }
    {
        let call = self.made.saturating_add(1);
        self.made = call;
        if self.failing.contains(&call) {
            self.faults = self.faults.saturating_add(1);
            return Err(KeepError::Failed);
        }
        Ok(())
    }
}

impl Keeper for MemKeeper {
    ghost use Rattle.std.specs.Prelude.{Some, false};

    ghost told = { λ keeper. Some keeper.cells };

    ghost faults = { λ keeper. keeper.faults };

    ghost is_sure = { false };

    ghost may_begin = { false };

    ghost use Rattle.std.proofs.lemmas.Bool.{false≢true};

    // It claims no such thing.
    ghost sure_keeps = { λ sure keeper. absurd (false≢true sure) };

    /// Does all of these changes; of two changes of one cell the later counts. It answers `Failed`
    /// exactly where the call is listed.
    fn commit(&mut self, changes: &[Change]) -> Result<(), KeepError>
        ensures fails { (result ≡ Err KeepError.Failed) ↔ IsTrue (is_next_failing self.old) }
        ensures ok { OnOk result (self.new
            ≡ record (called self.old) { cells = put_changes changes.now self.old.cells }) }
        ensures err { OnErr result (self.new ≡ called self.old) }

        // What each keeper ensures.
        ensures done { OnOk result (self.new.cells ≡ put_changes changes.now self.old.cells) }
        ensures still { OnErr result (self.new.cells ≡ self.old.cells) }
        ensures counted { result ≡ Err KeepError.Failed → Rises self.old.faults self.new.faults }
        ensures faults_kept { self.old.faults ≤ self.new.faults }
    {
        self.call()?;
        self.cells.put_changes(changes)?;
        Ok(())
    }

    /// The first cell. It answers `Failed` exactly where the call is listed.
    fn first(&mut self) -> Result<Option<Cell>, KeepError>
        ensures fails { (result ≡ Err KeepError.Failed) ↔ IsTrue (is_next_failing self.old) }
        ensures after { self.new ≡ called self.old }

        // What each keeper ensures.
        ensures cell { IfOk result (λ cell. cell ≡ first_of self.new.cells) }
        ensures ascend { Ascend self.new.cells }
        ensures stays { self.new.cells ≡ self.old.cells }
        ensures counted { result ≡ Err KeepError.Failed → Rises self.old.faults self.new.faults }
        ensures faults_kept { self.old.faults ≤ self.new.faults }
    {
        self.call()?;
        Ok(self.cells.first()?)
    }

    /// The first cell behind this table and key. It answers `Failed` exactly where the call is
    /// listed.
    fn next_after(&mut self, tab: u8, key: u64) -> Result<Option<Cell>, KeepError>
        ensures fails { (result ≡ Err KeepError.Failed) ↔ IsTrue (is_next_failing self.old) }
        ensures after { self.new ≡ called self.old }

        // What each keeper ensures.
        ensures cell { IfOk result (λ cell. cell ≡ next_after tab key self.new.cells) }
        ensures still { self.new.cells ≡ self.old.cells }
        ensures counted { result ≡ Err KeepError.Failed → Rises self.old.faults self.new.faults }
        ensures faults_kept { self.old.faults ≤ self.new.faults }
    {
        self.call()?;
        Ok(self.cells.next_after(tab, key)?)
    }
}
