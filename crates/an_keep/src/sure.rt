ghost use Rattle.std.specs.Prelude.{◌≡◌, IfErr, IfOk, OnErr, OnOk, List};
ghost use Rattle.an_keep.specs.Cells.{Ascend, first_of, next_after, put_changes};

use crate::cell::{Cell, Change};
use crate::cells::Cells;
use crate::keeper::{KeepError, Keeper};
use std::marker::Model;

/// A keeper whose cells stand in memory and which never fails a call. It may run out of memory.
#[derive(Debug, Drop)]
pub struct SureKeeper {
    cells: Cells,
}

impl Model for SureKeeper {
    ghost use Rattle.an_keep.specs.Memory.{Sure};

    ghost Value = { Sure };

    ghost view = { λ k. record { cells = k.cells } };
}

impl SureKeeper {
    /// A keeper of these cells, which ascend by table and then by key, none twice. Takes no memory.
    pub fn new(cells: Vec<Cell>) -> SureKeeper
        requires { Ascend cells.items }
        ensures start { result ≡ record { cells = cells.items } }
    {
        SureKeeper {
            cells: Cells::new(cells),
        }
    }
}

impl Keeper for SureKeeper {
    ghost use Rattle.std.specs.Prelude.{Some, false, true, refl};

    ghost told = { λ keeper. Some keeper.cells };

    ghost faults = { λ _. 0 };

    ghost is_sure = { true };

    ghost may_begin = { false };

    ghost sure_keeps = { λ sure keeper. refl };

    /// Does all of these changes; of two changes of one cell the later counts.
    fn commit(&mut self, changes: &[Change]) -> Result<(), KeepError>
        ensures done { OnOk result (self.new.cells ≡ put_changes changes.now self.old.cells) }
        ensures still { OnErr result (self.new.cells ≡ self.old.cells) }
        ensures sure { IfErr result (λ error. error ≡ KeepError.Memory) }
    {
        self.cells.put_changes(changes)?;
        Ok(())
    }

    /// The first cell.
    fn first(&mut self) -> Result<Option<Cell>, KeepError>
        ensures cell { IfOk result (λ cell. cell ≡ first_of self.old.cells) }
        ensures ascend { Ascend self.new.cells }
        ensures same { self.new ≡ self.old }
        ensures sure { IfErr result (λ error. error ≡ KeepError.Memory) }
    {
        Ok(self.cells.first()?)
    }

    /// The first cell behind this table and key.
    fn next_after(&mut self, tab: u8, key: u64) -> Result<Option<Cell>, KeepError>
        ensures cell { IfOk result (λ cell. cell ≡ next_after tab key self.old.cells) }
        ensures same { self.new ≡ self.old }
        ensures sure { IfErr result (λ error. error ≡ KeepError.Memory) }
    {
        Ok(self.cells.next_after(tab, key)?)
    }
}
