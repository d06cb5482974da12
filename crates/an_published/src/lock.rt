//! What is done to the writer and to a seat under the lock of a store.
ghost use Rattle.std.specs.Prelude.{◌≡◌, [], ◌∷◌, ◌++◌, true, false, IsTrue, List, OnErr, OnOk};
ghost use Rattle.std.specs.Prelude.{drop};
ghost use mathlib.Core.List.{IsPrefix};
ghost use Rattle.left_right.specs.Sides.{view};
ghost use Rattle.an_laws.specs.Events.{Event};
ghost use Rattle.an_published.specs.Lists.{Stands, last_of};
ghost use Rattle.an_published.specs.Rule.{Ready, Shows, notice};

use crate::history::Mark;
use crate::published::{Addition, Published};
use crate::seat::Seat;
use crate::seat_knowledge::{OneList, Publishing, SeatKnowledge};
use core::mem::replace_with;
use left_right::writer::Writer;
use std::alloc::AllocError;
use std::sync::Wait;

/// Who publishes.
pub type StoreWriter = Writer<Published, Addition, SeatKnowledge, OneList>;

/// Publishes what is pending: readers are shown it from then on. It waits for those who are still
/// reading what was shown before the last time. Where memory runs out it still pends.
pub fn publish<R: Wait>(rt: &R, writer: &mut StoreWriter) -> Result<(), AllocError>
    requires ready { Ready writer.old.desk.shown.value
        (drop writer.old.behind writer.old.log.items) }
    ensures shown { OnOk result (Shows writer.old.desk.shown.value
        (drop writer.old.behind writer.old.log.items) writer.new.desk.shown.value) }
    ensures none_pends { OnOk result (drop writer.new.behind writer.new.log.items ≡ []) }
    ensures knows { OnOk result (view writer.new.desk.place ≡ notice writer.new.desk.shown.value) }
    ensures same { OnErr result (writer.new.desk.shown.value ≡ writer.old.desk.shown.value) }
    ensures pends { OnErr result (drop writer.new.behind writer.new.log.items
        ≡ drop writer.old.behind writer.old.log.items) }
{
    replace_with(writer, rt, publish_pending::<R>)
}

fn publish_pending<R: Wait>(writer: StoreWriter, rt: &R) -> (StoreWriter, Result<(), AllocError>)
    requires ready { Ready writer.desk.shown.value (drop writer.behind writer.log.items) }
    ensures shown { OnOk result.1 (Shows writer.desk.shown.value
        (drop writer.behind writer.log.items) result.0.desk.shown.value) }
    ensures none_pends { OnOk result.1 (drop result.0.behind result.0.log.items ≡ []) }
    ensures knows { OnOk result.1 (view result.0.desk.place ≡ notice result.0.desk.shown.value) }
    ensures same { OnErr result.1 (result.0.desk.shown.value ≡ writer.desk.shown.value) }
    ensures pends { OnErr result.1 (drop result.0.behind result.0.log.items
        ≡ drop writer.behind writer.log.items) }
{
    writer.publish_as::<Publishing, R>(rt)
}

/// Looks once. The second answer is whether the seat saw the list of this mark.
fn look_at(seat: Seat, mark: &Mark) -> (Seat, bool)
    requires book { seat.book ≡ mark.now.book }
    ensures later { IsPrefix seat.seen result.0.seen }
    ensures same { (result.0.book ≡ seat.book) × (result.0.own ≡ seat.own) }
    ensures found { result.1 ≡ true → result.0.seen ≡ mark.now.list }
    ensures stands { Stands result.0.own result.0.seen }
{
    match seat.look() {
        Ok(shown) => {
            let found = shown.is_at(mark);
            (shown.leave(), found)
        }
        Err(seat) => {
            seat.stands();
            (seat, false)
        }
    }
}

/// The seat sees the list of this mark, which is published. It looks again until that is shown.
pub fn align<R: Wait>(rt: &R, mark: &Mark, seat: &mut Seat)
    requires book { seat.old.book ≡ mark.now.book }
    ensures seat { seat.new ≡ record seat.old { seen = mark.now.list } }
    ensures later { IsPrefix seat.old.seen mark.now.list }
    ensures stands { Stands seat.old.own mark.now.list }
{
    for _ in rt.forever() {
        if replace_with(seat, mark, look_at) {
            return;
        }
    }
    unreachable!()
}

/// Earns once, whether it did is the second answer.
fn try_earn(seat: Seat, _way: ()) -> (Seat, bool)
    requires last { (before : List Event) × (event : Event)
        × (seat.seen ≡ before ++ event ∷ []) × Stands seat.own before }
    ensures book { result.0.book ≡ seat.book }
    ensures earned { IsTrue result.1 → IsPrefix seat.seen result.0.seen
        × (result.0.own ≡ seat.own ++ last_of seat.seen) }
    ensures same { result.1 ≡ false → result.0 ≡ seat }
{
    match seat.earn() {
        Ok(seat) => (seat, true),
        Err(seat) => (seat, false),
    }
}

/// The last event that the seat saw is its own from then on. It looks again until it is shown one
/// list.
pub fn earn<R: Wait>(rt: &R, seat: &mut Seat)
    requires last { (before : List Event) × (event : Event)
        × (seat.old.seen ≡ before ++ event ∷ []) × Stands seat.old.own before }
    ensures book { seat.new.book ≡ seat.old.book }
    ensures later { IsPrefix seat.old.seen seat.new.seen }
    ensures own { seat.new.own ≡ seat.old.own ++ last_of seat.old.seen }
{
    for _ in rt.forever() {
        if replace_with(seat, (), try_earn) {
            return;
        }
    }
    unreachable!()
}
