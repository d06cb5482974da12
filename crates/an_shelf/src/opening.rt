ghost use Rattle.std.specs.Prelude.{◌≡◌, ◌≤◌, Err, IfErr, IfOk, IfSome, IsTrue, OnErr, OnOk};
ghost use Rattle.std.specs.Prelude.{Some, [], false};
ghost use Rattle.an_keep.specs.Cells.{Ascend, first_of};
ghost use Rattle.an_base.specs.Faults.{Rises};
ghost use Rattle.an_keep.specs.Keeper.{Stays, StaysOrBegins, Turns};
ghost use Rattle.an_state.specs.Sound.{is_sound};
ghost use Rattle.an_state.specs.State.{empty};
ghost use Rattle.an_rows.specs.Cells.{cells, format_of};
ghost use Rattle.an_rows.specs.Valid.{is_valid};
ghost use Rattle.an_shelf.specs.Opening.{IsDamagedBy, RenewsOrBegins, StandFor, WasOpened};
ghost use Rattle.an_shelf.specs.Opening.{renewed};
ghost use Rattle.an_shelf.specs.Reading.{ComesNext, WasRead};

use crate::error::OpenError;
use crate::restoring::{damage, restore};
use an_keep::{Cell, KeepError, Keeper};
use an_rows::{Format, format_of, migration};
use an_snapshot::Snapshot;
use an_state::Book;
use std::alloc::Global;

/// The keys of a table end below this, so that no store has as many rows.
const MOST_ROWS: u64 = 4_611_686_018_427_387_904;

/// A look at the state of no cell. It takes no memory.
fn empty_look(alloc: Global) -> Snapshot
    ensures empty { result.state ≡ empty }
{
    Snapshot::new(alloc)
}

/// A look at the state that a keeper's cells stand for, or which of them is damaged, the first in
/// their order. Cells of the first format are turned into today's, by one commit that is made once
/// all are read: it holds the new texts of all annotations and activities at once. Cells of today's
/// format stay, and so do all where the answer is an error.
pub fn load<K: Keeper>(alloc: Global, keeper: &mut K) -> Result<Snapshot, OpenError>
    ensures state { IfOk result (λ its. StandFor (K.told keeper.new) its.state) }
    ensures opened { IfOk result
        (λ its. WasOpened (K.told keeper.old) (K.told keeper.new) its.state) }
    ensures renewed { IfOk result
        (λ its. RenewsOrBegins its.state (K.told keeper.old) (K.told keeper.new)) }
    ensures never { IfOk result (λ its. K.may_begin ≡ false
        → Turns (renewed its.state) (K.told keeper.old) (K.told keeper.new)) }

    // Where it is refused.
    ensures damaged { IfErr result (IsDamagedBy (K.told keeper.new)) }
    ensures kept { IfErr result (λ error. StaysOrBegins (K.told keeper.old) (K.told keeper.new)) }
    ensures never_refused { IfErr result (λ error. K.may_begin ≡ false
        → Stays (K.told keeper.old) (K.told keeper.new)) }
    ensures counted { result ≡ Err OpenError.Keeper
        → Rises (K.faults keeper.old) (K.faults keeper.new) }
    ensures faults_kept { K.faults keeper.old ≤ K.faults keeper.new }

    // The cells are those of the state, and whether they are told or not it is valid and sound.
    ensures cells { IfOk result (λ its. IfSome (K.told keeper.new)
        (λ found. found ≡ cells its.state)) }
    ensures valid { IfOk result (λ its. IsTrue (is_valid its.state)) }
    ensures sound { IfOk result (λ its. IsTrue (is_sound its.state)) }
{
    match keeper.first()? {
        Some(cell) => load_from(alloc, keeper, &cell),
        None => Ok(empty_look(alloc)),
    }
}

/// The state that the cells stand for of which this is the first, and which are renewed.
fn load_from<K: Keeper>(alloc: Global, keeper: &mut K, first: &Cell) -> Result<Snapshot, OpenError>
    requires first { IfSome (K.told keeper.old) (λ cells. Some first.now ≡ first_of cells) }
    requires ascend { IfSome (K.told keeper.old) Ascend }
    ensures state { IfOk result (λ its. StandFor (K.told keeper.new) its.state) }
    ensures opened { IfOk result
        (λ its. WasOpened (K.told keeper.old) (K.told keeper.new) its.state) }
    ensures renewed { IfOk result
        (λ its. Turns (renewed its.state) (K.told keeper.old) (K.told keeper.new)) }
    ensures cells { IfOk result (λ its. IfSome (K.told keeper.new)
        (λ found. found ≡ cells its.state)) }
    ensures valid { IfOk result (λ its. IsTrue (is_valid its.state)) }
    ensures sound { IfOk result (λ its. IsTrue (is_sound its.state)) }
    ensures damaged { IfErr result (IsDamagedBy (K.told keeper.new)) }
    ensures stays { IfErr result (λ error. Stays (K.told keeper.old) (K.told keeper.new)) }
    ensures counted { result ≡ Err OpenError.Keeper
        → Rises (K.faults keeper.old) (K.faults keeper.new) }
    ensures faults_kept { K.faults keeper.old ≤ K.faults keeper.new }
{
    match format_of(first) {
        Some(format) => load_in(alloc, keeper, format, first),
        None => Err(damage(first)),
    }
}

/// The same where the first cell names this format.
#[tactic(auto, using(crate::proofs::OpeningLemmas::reading_renewed))]
fn load_in<K: Keeper>(
    alloc: Global,
    keeper: &mut K,
    format: Format,
    first: &Cell,
) -> Result<Snapshot, OpenError>
    requires format { format_of first.now ≡ Some format }
    requires first { IfSome (K.told keeper.old) (λ cells. Some first.now ≡ first_of cells) }
    requires ascend { IfSome (K.told keeper.old) Ascend }
    ensures state { IfOk result (λ its. StandFor (K.told keeper.new) its.state) }
    ensures opened { IfOk result
        (λ its. WasOpened (K.told keeper.old) (K.told keeper.new) its.state) }
    ensures renewed { IfOk result
        (λ its. Turns (renewed its.state) (K.told keeper.old) (K.told keeper.new)) }
    ensures cells { IfOk result (λ its. IfSome (K.told keeper.new)
        (λ found. found ≡ cells its.state)) }
    ensures valid { IfOk result (λ its. IsTrue (is_valid its.state)) }
    ensures sound { IfOk result (λ its. IsTrue (is_sound its.state)) }
    ensures damaged { IfErr result (IsDamagedBy (K.told keeper.new)) }
    ensures stays { IfErr result (λ error. Stays (K.told keeper.old) (K.told keeper.new)) }
    ensures counted { result ≡ Err OpenError.Keeper
        → Rises (K.faults keeper.old) (K.faults keeper.new) }
    ensures faults_kept { K.faults keeper.old ≤ K.faults keeper.new }
{
    let snapshot = read_from(alloc, keeper, format, first)?;
    renew(alloc, keeper, format, snapshot.book())?;
    Ok(snapshot)
}

/// Turns the cells of the book's state into today's format. It calls the keeper only where they
/// are of the first.
#[tactic(auto, using(crate::proofs::OpeningLemmas::renewing))]
fn renew<K: Keeper>(
    alloc: Global,
    keeper: &mut K,
    format: Format,
    book: &Book,
) -> Result<(), KeepError>
    requires read { IfSome (K.told keeper.old) (WasRead format book.now.state) }
    ensures renewed { OnOk result
        (Turns (renewed book.now.state) (K.told keeper.old) (K.told keeper.new)) }
    ensures stays { OnErr result (Stays (K.told keeper.old) (K.told keeper.new)) }
    ensures counted { result ≡ Err KeepError.Failed
        → Rises (K.faults keeper.old) (K.faults keeper.new) }
    ensures faults_kept { K.faults keeper.old ≤ K.faults keeper.new }
{
    match format {
        Format::First => {
            let changes = migration(alloc, book)?;
            keeper.commit(changes.as_slice())
        }
        Format::Second => Ok(()),
    }
}

/// The state that the cells stand for of which this is the first, in this format.
fn read_from<K: Keeper>(
    alloc: Global,
    keeper: &mut K,
    format: Format,
    first: &Cell,
) -> Result<Snapshot, OpenError>
    requires format { format_of first.now ≡ Some format }
    requires first { IfSome (K.told keeper.old) (λ cells. Some first.now ≡ first_of cells) }
    requires ascend { IfSome (K.told keeper.old) Ascend }
    ensures state { IfOk result (λ its. StandFor (K.told keeper.new) its.state) }
    ensures read { IfOk result (λ its. IfSome (K.told keeper.new)
        (WasRead format its.state)) }
    ensures valid { IfOk result (λ its. IsTrue (is_valid its.state)) }
    ensures sound { IfOk result (λ its. IsTrue (is_sound its.state)) }
    ensures damaged { IfErr result (IsDamagedBy (K.told keeper.new)) }
    ensures stays { Stays (K.told keeper.old) (K.told keeper.new) }
    ensures counted { result ≡ Err OpenError.Keeper
        → Rises (K.faults keeper.old) (K.faults keeper.new) }
    ensures faults_kept { K.faults keeper.old ≤ K.faults keeper.new }
{
    match keeper.next_after(first.tab, first.key)? {
        Some(cell) => read_rows(alloc, keeper, format, cell),
        None => Err(damage(first)),
    }
}

/// The state of the rows from this cell on, which stands behind the first.
fn read_rows<K: Keeper>(
    alloc: Global,
    keeper: &mut K,
    format: Format,
    cell: Cell,
) -> Result<Snapshot, OpenError>
    requires next { IfSome (K.told keeper.old) (ComesNext format [] cell) }
    ensures state { IfOk result (λ its. StandFor (K.told keeper.new) its.state) }
    ensures read { IfOk result (λ its. IfSome (K.told keeper.new)
        (WasRead format its.state)) }
    ensures valid { IfOk result (λ its. IsTrue (is_valid its.state)) }
    ensures sound { IfOk result (λ its. IsTrue (is_sound its.state)) }
    ensures damaged { IfErr result (IsDamagedBy (K.told keeper.new)) }
    ensures stays { Stays (K.told keeper.old) (K.told keeper.new) }
    ensures counted { result ≡ Err OpenError.Keeper
        → Rises (K.faults keeper.old) (K.faults keeper.new) }
    ensures faults_kept { K.faults keeper.old ≤ K.faults keeper.new }
{
    let mut snapshot = empty_look(alloc);
    match restore_rows(alloc, keeper, &mut snapshot, format, cell) {
        Ok(()) => Ok(snapshot),
        Err(error) => Err(error),
    }
}

/// Puts the rows of this cell and of those after it into an empty look.
fn restore_rows<K: Keeper>(
    alloc: Global,
    keeper: &mut K,
    snapshot: &mut Snapshot,
    format: Format,
    cell: Cell,
) -> Result<(), OpenError>
    requires next { IfSome (K.told keeper.old) (ComesNext format [] cell) }
    requires empty { snapshot.old.state ≡ empty }
    ensures state { OnOk result (StandFor (K.told keeper.new) snapshot.new.state) }
    ensures read { OnOk result (IfSome (K.told keeper.new)
        (WasRead format snapshot.new.state)) }
    ensures valid { OnOk result (IsTrue (is_valid snapshot.new.state)) }
    ensures sound { OnOk result (IsTrue (is_sound snapshot.new.state)) }
    ensures damaged { IfErr result (IsDamagedBy (K.told keeper.new)) }
    ensures stays { Stays (K.told keeper.old) (K.told keeper.new) }
    ensures counted { result ≡ Err OpenError.Keeper
        → Rises (K.faults keeper.old) (K.faults keeper.new) }
    ensures faults_kept { K.faults keeper.old ≤ K.faults keeper.new }
{
    let mut cell = cell;
    for _ in 0..MOST_ROWS {
        restore(alloc, snapshot, format, &cell)?;
        match keeper.next_after(cell.tab, cell.key)? {
            Some(next) => cell = next,
            None => return Ok(()),
        }
    }
    Err(OpenError::Memory)
}
