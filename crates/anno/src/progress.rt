ghost use Rattle.std.specs.Prelude.{◌≡◌, ◌≤◌, ◌^◌, IfOk, IfSome, IsSome, List, OnErr, OnOk, false};
ghost use Rattle.std.specs.Prelude.{nat_lt};
ghost use Rattle.std.specs.List.{list_all};
ghost use Rattle.an_base.specs.Faults.{Rises};
ghost use Rattle.an_keep.specs.Cells.{Ascend, first_of, next_after, put_changes};
ghost use Rattle.an_keep.specs.Keeper.{Stays, StaysOrBegins, Turns};
ghost use Rattle.an_keep.specs.declared.cell.Cell.{Cell};
ghost use Rattle.an_sqlite.specs.Connecting.{HoldsCells, IsClean, IsOpen, IsSettled, came_in, told_in};

use crate::clock::second_now;
use an_keep::{Cell, Change, KeepError, Keeper};
use an_sqlite::SqlKeeper;
use sqlite::Alter;

/// The keeper over a database, which says on standard error how far a long work at it is, once a
/// second from the second second on, and counts the commits. It promises what the keeper inside
/// promises.
#[derive(Drop)]
pub struct ToldKeeper<S: Alter + Drop> {
    keeper: SqlKeeper<S>,
    progress: Progress,
}

impl<S: Alter + Drop> ToldKeeper<S> {
    /// The cells that are read when the store is opened are always reported, and the writes that
    /// are kept where this says so.
    pub fn over(host: &HostRuntime, keeper: SqlKeeper<S>, are_writes_told: bool) -> ToldKeeper<S>
        ensures { result.keeper ≡ keeper }
    {
        let now = second_now(host);
        ToldKeeper {
            keeper,
            progress: Progress {
                host: *host,
                are_writes_told,
                cells: 0,
                commits: 0,
                told: now.saturating_add(1),
            },
        }
    }

    /// How many commits were kept: one for each write that was, and one where the cells of the
    /// first format were turned into today's.
    pub fn commits(&self) -> u64 {
        self.progress.commits
    }

    /// The keeper inside, as the last call left it.
    pub fn into_keeper(self) -> SqlKeeper<S>
        ensures { result ≡ self.keeper }
    {
        let ToldKeeper {
            keeper,
            progress: _,
        } = self;
        keeper
    }
}

impl<S: Alter + Drop> Keeper for ToldKeeper<S> {
    ghost use Rattle.std.specs.Prelude.{false};
    ghost use Rattle.std.proofs.Common.{rules};
    ghost use Rattle.an_sqlite.specs.Connecting.{told_in};

    // The cells that the keeper inside tells.
    ghost told = { λ k. told_in S.Store k.keeper.place };

    ghost faults = { λ k. k.keeper.faults };

    ghost is_sure = { false };

    ghost may_begin = { false };

    // It claims no such thing.
    ghost sure_keeps = { Prim.search rules };

    fn commit(&mut self, changes: &[Change]) -> Result<(), KeepError>
        ensures keys { list_all (λ change. nat_lt change.key (2 ^ 63)) changes.now ≡ false
            → (result ≡ Err KeepError.Failed) × (self.new.keeper.place ≡ self.old.keeper.place) }
        ensures came { came_in self.new.keeper.place ≡ came_in self.old.keeper.place }
        ensures held { IsClean S.Store self.new.keeper.place → (cells : List Cell)
            → HoldsCells S.Store self.old.keeper.place cells
            → OnOk result
            (HoldsCells S.Store self.new.keeper.place (put_changes changes.now cells)) }
        ensures kept { IsClean S.Store self.new.keeper.place → IsOpen S.Store self.new.keeper.place
            → (cells : List Cell) → HoldsCells S.Store self.old.keeper.place cells
            → OnErr result (HoldsCells S.Store self.new.keeper.place cells) }
        ensures settles { IsSettled S.Store self.old.keeper.place
            → IsSettled S.Store self.new.keeper.place }
        ensures settled { IsSome (told_in S.Store self.new.keeper.place)
            → IsSettled S.Store self.new.keeper.place }

        // What each keeper ensures.
        ensures done { OnOk result (Turns (put_changes changes.now)
            (told_in S.Store self.old.keeper.place) (told_in S.Store self.new.keeper.place)) }
        ensures still { OnErr result (Stays (told_in S.Store self.old.keeper.place)
            (told_in S.Store self.new.keeper.place)) }
        ensures counted { result ≡ Err KeepError.Failed
            → Rises self.old.keeper.faults self.new.keeper.faults }
        ensures faults_kept { self.old.keeper.faults ≤ self.new.keeper.faults }
    {
        let done = self.keeper.commit(changes);
        self.progress.count_commit(done.is_ok());
        done
    }

    fn first(&mut self) -> Result<Option<Cell>, KeepError>
        ensures came { came_in self.new.keeper.place ≡ came_in self.old.keeper.place }
        ensures least { IsClean S.Store self.new.keeper.place → (cells : List Cell)
            → HoldsCells S.Store self.old.keeper.place cells
            → IfOk result (λ cell. cell ≡ first_of cells) }
        ensures held { IsClean S.Store self.new.keeper.place → (cells : List Cell)
            → HoldsCells S.Store self.old.keeper.place cells
            → OnOk result (HoldsCells S.Store self.new.keeper.place cells) }
        ensures kept { IsClean S.Store self.new.keeper.place → IsOpen S.Store self.new.keeper.place
            → (cells : List Cell) → HoldsCells S.Store self.old.keeper.place cells
            → OnErr result (HoldsCells S.Store self.new.keeper.place cells) }
        ensures settles { IsSettled S.Store self.old.keeper.place
            → IsSettled S.Store self.new.keeper.place }
        ensures settled { IsSome (told_in S.Store self.new.keeper.place)
            → IsSettled S.Store self.new.keeper.place }

        // What each keeper ensures.
        ensures cell { IfOk result (λ cell. IfSome (told_in S.Store self.new.keeper.place)
            (λ cells. cell ≡ first_of cells)) }
        ensures ascend { IfSome (told_in S.Store self.new.keeper.place) Ascend }
        ensures stays { StaysOrBegins (told_in S.Store self.old.keeper.place)
            (told_in S.Store self.new.keeper.place) }
        ensures never { Stays (told_in S.Store self.old.keeper.place)
            (told_in S.Store self.new.keeper.place) }
        ensures counted { result ≡ Err KeepError.Failed
            → Rises self.old.keeper.faults self.new.keeper.faults }
        ensures faults_kept { self.old.keeper.faults ≤ self.new.keeper.faults }
    {
        self.progress.count_cell();
        self.keeper.first()
    }

    fn next_after(&mut self, tab: u8, key: u64) -> Result<Option<Cell>, KeepError>
        ensures came { came_in self.new.keeper.place ≡ came_in self.old.keeper.place }
        ensures next { IsClean S.Store self.new.keeper.place → (cells : List Cell)
            → HoldsCells S.Store self.old.keeper.place cells
            → IfOk result (λ cell. cell ≡ next_after tab key cells) }
        ensures held { IsClean S.Store self.new.keeper.place → (cells : List Cell)
            → HoldsCells S.Store self.old.keeper.place cells
            → OnOk result (HoldsCells S.Store self.new.keeper.place cells) }
        ensures kept { IsClean S.Store self.new.keeper.place → IsOpen S.Store self.new.keeper.place
            → (cells : List Cell) → HoldsCells S.Store self.old.keeper.place cells
            → OnErr result (HoldsCells S.Store self.new.keeper.place cells) }
        ensures settles { IsSettled S.Store self.old.keeper.place
            → IsSettled S.Store self.new.keeper.place }
        ensures settled { IsSome (told_in S.Store self.new.keeper.place)
            → IsSettled S.Store self.new.keeper.place }

        // What each keeper ensures.
        ensures cell { IfOk result (λ cell. IfSome (told_in S.Store self.new.keeper.place)
            (λ cells. cell ≡ next_after tab key cells)) }
        ensures still { Stays (told_in S.Store self.old.keeper.place)
            (told_in S.Store self.new.keeper.place) }
        ensures counted { result ≡ Err KeepError.Failed
            → Rises self.old.keeper.faults self.new.keeper.faults }
        ensures faults_kept { self.old.keeper.faults ≤ self.new.keeper.faults }
    {
        self.progress.count_cell();
        self.keeper.next_after(tab, key)
    }
}

/// How far a work is, and when that was last told.
#[derive(Drop)]
struct Progress {
    host: HostRuntime,
    are_writes_told: bool,
    cells: u64,
    commits: u64,
    told: u64,
}

impl Progress {
    fn count_cell(&mut self) {
        self.cells = self.cells.saturating_add(1);
        if self.is_time() {
            let cells = self.cells;
            let _ = eprintln!(&self.host; "opening the store: {cells} cells so far");
        }
    }

    fn count_commit(&mut self, is_kept: bool) {
        if is_kept {
            self.commits = self.commits.saturating_add(1);
        }
        if self.are_writes_told && self.is_time() {
            let commits = self.commits;
            let _ = eprintln!(&self.host; "{commits} lines are done so far");
        }
    }

    /// Whether the clock has come to another second, which then counts as told.
    fn is_time(&mut self) -> bool {
        let now = second_now(&self.host);
        let is_later = self.told < now;
        if is_later {
            self.told = now;
        }
        is_later
    }
}
