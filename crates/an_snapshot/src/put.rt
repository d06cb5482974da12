ghost use Rattle.std.specs.Prelude.{◌≡◌, ◌+◌, ◌++◌, ◌<◌, ◌≤◌, ◌∷◌, [], All, List, flat_map};
ghost use Rattle.std.specs.Prelude.{length, map, unwrap_or};
ghost use Rattle.an_keyed.specs.Rows.{place_of};
ghost use Rattle.an_policy.specs.declared.group.Audience.{Audience};
ghost use Rattle.an_state.specs.Entries.{with_row, with_rows};
ghost use Rattle.an_state.specs.State.{State, note_key};
ghost use Rattle.an_state.specs.declared.entry.Row.TheVariants as kept;
ghost use Rattle.an_listed.specs.Room.{HasRoom};
ghost use Rattle.an_listed.specs.declared.filed.Filed.{Filed as FiledRow};
ghost use Rattle.an_snapshot.specs.Listing.{IsFiled};
ghost use Rattle.an_snapshot.specs.Steps.{HasStepRoom, IsSame, filed_in, row_of_step};

use crate::planned_row::PlannedRow;
use an_base::Shared;
use an_keyed::Keyed;
use an_listed::{Filed, Listed};
use an_state::{Activity, Book, Entry, NoteRow, Row};

/// Puts the rows of steps in order. It takes no memory.
pub(crate) fn put_steps(book: &mut Book, listed: &mut Listed, steps: Vec<PlannedRow>)
    requires room { length steps.items ≤ book.old.room }
    requires lists { HasRoom (flat_map filed_in steps.items) listed.old }
    requires notes { map (λ filed. filed.note) listed.old.rows ≡ book.old.state.notes }
    requires same { All IsSame steps.items }
    ensures state { book.new.state ≡ with_rows (map row_of_step steps.items) book.old.state }
    ensures room { book.new.room + length steps.items ≡ book.old.room }
    ensures notes { map (λ filed. filed.note) listed.new.rows ≡ book.new.state.notes }
    ensures filed { (s : State) (classes : List Audience)
        → All (IsFiled s classes) (flat_map filed_in steps.items)
        → All (IsFiled s classes) listed.old.rows → All (IsFiled s classes) listed.new.rows }
{
    for step in steps {
        put_step(book, listed, step);
    }
}

fn put_step(book: &mut Book, listed: &mut Listed, step: PlannedRow)
    requires room { 0 < book.old.room }
    requires lists { HasStepRoom step listed.old }
    requires notes { map (λ filed. filed.note) listed.old.rows ≡ book.old.state.notes }
    requires same { IsSame step }
    ensures state { book.new.state ≡ with_row book.old.state (row_of_step step) }
    ensures room { book.new.room + 1 ≡ book.old.room }
    ensures notes { map (λ filed. filed.note) listed.new.rows ≡ book.new.state.notes }
    ensures filed { (s : State) (classes : List Audience)
        → All (IsFiled s classes) (filed_in step)
        → All (IsFiled s classes) listed.old.rows → All (IsFiled s classes) listed.new.rows }
    ensures rest { (rest : List FiledRow) → HasRoom (filed_in step ++ rest) listed.old
        → HasRoom rest listed.new }
{
    match step {
        PlannedRow::Other(row) => book.apply(Entry::Restored(row)),
        PlannedRow::Note(row, filed) => put_note(book, listed, row, filed),
    }
}

fn put_note(book: &mut Book, listed: &mut Listed, row: Shared<NoteRow>, filed: Filed)
    requires room { 0 < book.old.room }
    requires lists { HasRoom (filed ∷ []) listed.old }
    requires notes { map (λ filed. filed.note) listed.old.rows ≡ book.old.state.notes }
    requires same { filed.note ≡ row }
    ensures state { book.new.state ≡ with_row book.old.state (kept.Note row) }
    ensures room { book.new.room + 1 ≡ book.old.room }
    ensures notes { map (λ filed. filed.note) listed.new.rows ≡ book.new.state.notes }
    ensures filed { (s : State) (classes : List Audience) → IsFiled s classes filed
        → All (IsFiled s classes) listed.old.rows → All (IsFiled s classes) listed.new.rows }
    ensures rest { (rest : List FiledRow) → HasRoom (filed ∷ rest) listed.old
        → HasRoom rest listed.new }
{
    let place = place_of(book, row.get());
    listed.put(place, filed);
    book.apply(Entry::Restored(Row::Note(row)));
}

/// Where the row of this annotation stands, or is to stand.
fn place_of(book: &Book, row: &NoteRow) -> usize
    ensures { result ≡ unwrap_or (place_of note_key (note_key row.now) book.now.state.notes)
        (length book.now.state.notes) }
{
    match book.note_place(row.owned_by(), row.name()) {
        Some(place) => place,
        None => book.notes().len(),
    }
}

/// Adds the activities in order. It takes no memory.
pub(crate) fn add_all(book: &mut Book, activities: Vec<Shared<Activity>>)
    requires room { length activities.items ≤ book.old.room }
    ensures state { book.new.state
        ≡ record book.old.state { activities = book.old.state.activities ++ activities.items } }
{
    for activity in activities {
        book.apply(Entry::Restored(Row::Activity(activity)));
    }
}
