//! Opening a store.
ghost use Rattle.std.specs.Prelude.{◌≡◌, ◌≤◌, ◌∷◌, [], All, IfErr, IfOk, IfSome, IsSome, IsTrue};
ghost use Rattle.std.specs.Prelude.{drop, false, length};
ghost use Rattle.left_right.specs.Sides.{view};
ghost use Rattle.an_keep.specs.Keeper.{StaysOrBegins, Turns};
ghost use Rattle.an_rows.specs.Cells.{cells};
ghost use Rattle.an_rows.specs.Valid.{is_valid};
ghost use Rattle.an_shelf.specs.Opening.{IsDamagedBy, RenewsOrBegins, StandFor, StaysOrRenews};
ghost use Rattle.an_shelf.specs.Opening.{WasDamagedBy, WasOpened, renewed};
ghost use Rattle.an_shelf.specs.Store.{Stands};
ghost use Rattle.an_state.specs.Sound.{is_sound};
ghost use Rattle.an_laws.specs.Events.{Opened as Begins, IsLegal};
ghost use Rattle.an_published.specs.Lists.{newly_seated};
ghost use Rattle.an_store.specs.Opening.{Begun, IsStart};
ghost use Rattle.an_published.specs.Rule.{Ready, Shows, notice};

use crate::store::Store;
use crate::under_lock::UnderLock;
use an_base::TryCopy;
use an_keep::Keeper;
use an_published::{Head, Naming, Published, Seat, StoreWriter, begin, publish};
use an_shelf::{NotOpened, OpenError, load};
use an_snapshot::Snapshot;
use std::alloc::{AllocError, Global};
use std::marker::Model;
use std::sync::Wait;

/// A store that was opened, which has no name yet, and its seats. It isn't `Drop`.
pub struct Opened<K: Keeper> {
    keeper: K,
    head: Head,
    writer: StoreWriter,
    seats: Vec<Seat>,
}

impl<K: Keeper> Model for Opened<K> {
    ghost use Rattle.std.specs.Prelude.{drop};
    ghost use Rattle.std.specs.Coded.{codes};
    ghost use Rattle.an_base.specs.TreeCode.{tree_code};
    ghost use Rattle.left_right.specs.Sides.{view as known};
    ghost use Rattle.an_store.specs.Opening.{Begun, IsStart, Start};

    ghost Value = { Start };

    ghost coded = { Prim.hlevel (codes, tree_code) };

    ghost view = { λ o. record {
      book = o.writer.desk.shown.value.mark.book;
      list = o.writer.desk.shown.value.mark.list;
      seats = o.seats.items;
      state = o.writer.desk.shown.value.snapshot.state;
      told = K.told o.keeper;
      faults = K.faults o.keeper;
    } };

    ghost invariant = { λ o. Begun (known o.writer.desk.place) o.head
        (drop o.writer.behind o.writer.log.items) o.writer.desk.shown.value
        (K.told o.keeper)
        × IsStart (record {
          book = o.writer.desk.shown.value.mark.book;
          list = o.writer.desk.shown.value.mark.list;
          seats = o.seats.items;
          state = o.writer.desk.shown.value.snapshot.state;
          told = K.told o.keeper;
          faults = K.faults o.keeper;
        }) };
}

/// Opens a keeper for so many seats: the state is the one that its cells stand for. Cells of the
/// first format are turned into today's. Where it is refused, the keeper is given back, and no cell
/// of it was changed, unless memory ran out once they were turned.
pub fn open_store<K: Keeper, R: Wait>(
    rt: &R,
    alloc: Global,
    mut keeper: K,
    seats: u32,
) -> Result<Opened<K>, NotOpened<K>>
    requires some { 1 ≤ seats }
    requires few { seats ≤ 64 }
    ensures state { IfOk result (λ store. StandFor store.told store.state) }
    ensures renewed { IfOk result
        (λ store. RenewsOrBegins store.state (K.told keeper) store.told) }
    ensures cells { IfOk result (λ store. IfSome store.told (λ found. found
        ≡ cells store.state)) }
    ensures opened { IfOk result (λ store. WasOpened (K.told keeper) store.told store.state) }
    ensures never { IfOk result
        (λ store. K.may_begin ≡ false → Turns (renewed store.state) (K.told keeper) store.told) }

    // Where it is refused.
    ensures refused { IfErr result (λ its. IsDamagedBy (K.told its.keeper) its.why) }
    ensures kept { IfErr result (λ its. StaysOrRenews (K.told keeper) (K.told its.keeper)) }
    ensures unchanged { IfErr result (λ its. ¬ (its.why ≡ OpenError.Memory)
        → StaysOrBegins (K.told keeper) (K.told its.keeper)) }
    ensures damaged { IfErr result
        (λ its. WasDamagedBy (K.told keeper) (K.told its.keeper) its.why) }
    ensures never_refused { IfErr result
        (λ its. K.may_begin ≡ false → IsSome (K.told its.keeper) → IsSome (K.told keeper)) }
    ensures sure { IfErr result (λ its. IsTrue K.is_sure → ¬ (its.why ≡ OpenError.Keeper)) }

    // Whether the cells are told or not.
    ensures valid { IfOk result (λ store. IsTrue (is_valid store.state)) }
    ensures sound { IfOk result (λ store. IsTrue (is_sound store.state)) }

    // Each seat has seen the opening, and has nothing of its own.
    ensures list { IfOk result (λ store. store.list ≡ Begins store.state store.told ∷ []) }
    ensures number { IfOk result (λ store. length store.seats ≡ seats) }
    ensures seats { IfOk result (λ store. All
        (λ seat. seat ≡ newly_seated store.book store.list) store.seats) }
{
    match load(alloc, &mut keeper) {
        Ok(snapshot) => match begin_store(rt, alloc, keeper, snapshot, seats) {
            Ok(store) => Ok(store),
            Err(keeper) => Err(NotOpened {
                why: OpenError::Memory,
                keeper,
            }),
        },
        Err(why) => Err(NotOpened { why, keeper }),
    }
}

/// The store of what was loaded, or the keeper as it was, where memory runs out.
fn begin_store<K: Keeper, R: Wait>(
    rt: &R,
    alloc: Global,
    keeper: K,
    snapshot: Snapshot,
    seats: u32,
) -> Result<Opened<K>, K>
    requires some { 1 ≤ seats }
    requires few { seats ≤ 64 }
    requires stands { Stands (K.told keeper) snapshot.state }
    ensures state { IfOk result (λ store. store.state ≡ snapshot.state) }
    ensures told { IfOk result (λ store. store.told ≡ K.told keeper) }
    ensures faults { IfOk result (λ store. store.faults ≡ K.faults keeper) }
    ensures list { IfOk result (λ store. store.list ≡ Begins store.state store.told ∷ []) }
    ensures number { IfOk result (λ store. length store.seats ≡ seats) }
    ensures seats { IfOk result (λ store. All
        (λ seat. seat ≡ newly_seated store.book store.list) store.seats) }
    ensures same { IfErr result (λ its. K.told its ≡ K.told keeper) }
{
    let (head, mut writer) = match begin_writer(rt, alloc, &keeper, snapshot, seats) {
        Ok(begun) => begun,
        Err(_) => return Err(keeper),
    };
    match make_seats(alloc, &mut writer, seats) {
        Ok(seats) => Ok(Opened {
            keeper,
            head,
            writer,
            seats,
        }),
        Err(_) => {
            drop(writer.take(rt));
            Err(keeper)
        }
    }
}

/// A history that begins here, and a writer that shows this state and knows it.
fn begin_writer<K: Keeper, R: Wait>(
    rt: &R,
    alloc: Global,
    keeper: &K,
    snapshot: Snapshot,
    seats: u32,
) -> Result<(Head, StoreWriter), AllocError>
    requires some { 1 ≤ seats }
    requires few { seats ≤ 64 }
    requires stands { Stands (K.told keeper.now) snapshot.state }
    ensures begun { IfOk result (λ made. Begun (view made.1.desk.place) made.0
        (drop made.1.behind made.1.log.items) made.1.desk.shown.value (K.told keeper.now)) }
    ensures state { IfOk result
        (λ made. made.1.desk.shown.value.snapshot.state ≡ snapshot.state) }
{
    let other = match snapshot.copy() {
        Ok(other) => other,
        Err(error) => {
            drop(snapshot);
            return Err(error);
        }
    };
    let (head, mark) = begin(snapshot.book(), keeper);
    let first = Published {
        snapshot,
        mark: mark.again(),
    };
    let second = Published {
        snapshot: other,
        mark,
    };
    let writer = StoreWriter::new(alloc, first, second, seats as usize)?;
    Ok((head, shown(rt, writer)?))
}

/// The writer, which has published what pends. It is ended where memory runs out.
fn shown<R: Wait>(rt: &R, mut writer: StoreWriter) -> Result<StoreWriter, AllocError>
    requires ready { Ready writer.desk.shown.value (drop writer.behind writer.log.items) }
    ensures shown { IfOk result (λ its. Shows writer.desk.shown.value
        (drop writer.behind writer.log.items) its.desk.shown.value) }
    ensures none_pends { IfOk result (λ its. drop its.behind its.log.items ≡ []) }
    ensures knows { IfOk result (λ its. view its.desk.place ≡ notice its.desk.shown.value) }
{
    match publish(rt, &mut writer) {
        Ok(()) => Ok(writer),
        Err(error) => {
            drop(writer.take(rt));
            Err(error)
        }
    }
}

/// So many seats, which have seen what is published.
fn make_seats(alloc: Global, writer: &mut StoreWriter, seats: u32) -> Result<Vec<Seat>, AllocError>
    requires knows { view writer.old.desk.place ≡ notice writer.old.desk.shown.value }
    requires legal { IsLegal writer.old.desk.shown.value.mark.list }
    ensures seats { IfOk result (λ seats. All (λ seat. seat
        ≡ newly_seated writer.old.desk.shown.value.mark.book
        writer.old.desk.shown.value.mark.list) seats.items) }
    ensures number { IfOk result (λ made. length made.items ≡ seats) }
    ensures knows { view writer.new.desk.place ≡ view writer.old.desk.place }
    ensures shown { writer.new.desk.shown ≡ writer.old.desk.shown }
    ensures log { writer.new.log ≡ writer.old.log }
    ensures behind { writer.new.behind ≡ writer.old.behind }
{
    let mut all = Vec::new(alloc);
    for _ in 0..seats {
        all.reserve(1)?;
        let seat = Seat::new(writer)?;
        all.push_reserved(seat);
    }
    Ok(all)
}

impl<K: Keeper> Opened<K> {
    /// The store under a name, and its seats. It takes no memory.
    pub fn named<J: Naming>(self) -> (Store<K, J>, Vec<Seat>)
        requires book { self.book ≡ J.book }
        ensures seats { result.1.items ≡ self.seats }
        ensures seated { All (λ seat. seat ≡ newly_seated J.book self.list) result.1.items }
    {
        let Opened {
            keeper,
            head,
            writer,
            seats,
        } = self;
        (Store::over(UnderLock::new(keeper, head, writer)), seats)
    }
}
