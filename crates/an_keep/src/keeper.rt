ghost use Rattle.std.specs.Prelude.{◌≡◌, ◌≤◌, IfOk, IfSome, OnOk, OnErr, false};
ghost use Rattle.an_keep.specs.Cells.{Ascend, first_of, next_after, put_changes};
ghost use Rattle.an_base.specs.Faults.{Rises};
ghost use Rattle.an_keep.specs.Keeper.{Turns, Stays, StaysOrBegins};

use crate::cell::{Cell, Change};
use std::alloc::AllocError;

/// Why a keeper didn't do what it was called for. Its cells are as they were.
#[derive(Clone, Copy, Debug, PartialEq, Eq)]
pub enum KeepError {
    /// The keeper failed, and has counted it.
    Failed,
    Memory,
}

impl From<AllocError> for KeepError {
    ghost use Rattle.an_keep.specs.declared.keeper.KeepError.TheVariants.{Memory};

    ghost from_gives = { λ e error. error ≡ Memory };

    fn from(_error: AllocError) -> KeepError {
        KeepError::Memory
    }
}

/// What keeps cells, each under a table and a key.
///
/// A keeper may tell its cells or not. One that doesn't begins to tell them in a call of `first`
/// only, whatever that answers, and only where keepers of its kind may begin to. It may stop
/// telling them in any call. A call answers `Failed` only where the count of faults rises, and the
/// count never falls. It stands still at `u64::MAX`.
pub trait Keeper: Drop {
    ghost use Rattle.std.specs.Prelude.{Bool, ℕ};
    ghost use Rattle.an_keep.specs.Keeper.{Told};

    // The cells, where the keeper tells them.
    ghost told: { Self → Told };

    ghost faults: { Self → ℕ };

    // Whether the count of this kind of keeper is 0 for good.
    ghost is_sure: { Bool };

    // Whether a keeper of this kind may begin to tell its cells.
    ghost may_begin: { Bool };

    /// Does all of these changes; of two changes of one cell the later counts. With an error it
    /// does none of them.
    fn commit(&mut self, changes: &[Change]) -> Result<(), KeepError>
        ensures done { OnOk result
            (Turns (put_changes changes.now) (told self.old) (told self.new)) }
        ensures still { OnErr result (Stays (told self.old) (told self.new)) }
        ensures counted { result ≡ Err KeepError.Failed
            → Rises (faults self.old) (faults self.new) }
        ensures faults_kept { faults self.old ≤ faults self.new };

    /// The first cell by table and then by key, or None where there is no cell.
    fn first(&mut self) -> Result<Option<Cell>, KeepError>
        ensures cell { IfOk result (λ cell. IfSome (told self.new) (λ cells. cell
            ≡ first_of cells)) }
        ensures ascend { IfSome (told self.new) Ascend }

        // No call of it changes a cell.
        ensures stays { StaysOrBegins (told self.old) (told self.new) }
        ensures never { may_begin ≡ false → Stays (told self.old) (told self.new) }
        ensures counted { result ≡ Err KeepError.Failed
            → Rises (faults self.old) (faults self.new) }
        ensures faults_kept { faults self.old ≤ faults self.new };

    /// The first cell behind this table and key, or None where there is no later cell.
    fn next_after(&mut self, tab: u8, key: u64) -> Result<Option<Cell>, KeepError>
        ensures cell { IfOk result
            (λ cell. IfSome (told self.new) (λ cells. cell ≡ next_after tab key cells)) }
        ensures still { Stays (told self.old) (told self.new) }
        ensures counted { result ≡ Err KeepError.Failed
            → Rises (faults self.old) (faults self.new) }
        ensures faults_kept { faults self.old ≤ faults self.new };

    ghost use Rattle.std.specs.Prelude.{IsTrue};

    // A sure keeper never failed a call, and so never fails one.
    ghost sure_keeps: { IsTrue is_sure → (keeper : Self) → faults keeper ≡ 0 };
}
