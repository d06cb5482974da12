ghost use Rattle.std.specs.Prelude.{◌≡◌, ◌+◌, ◌≤◌, All, List, OnErr, OnOk, flat_map, length, map};
ghost use Rattle.an_listed.specs.Room.{HasRoom};
ghost use Rattle.an_policy.specs.declared.group.Audience.{Audience};
ghost use Rattle.an_state.specs.State.{State};
ghost use Rattle.an_snapshot.specs.Absorbed.{state_with};
ghost use Rattle.an_snapshot.specs.Changes.{AreChanges};
ghost use Rattle.an_snapshot.specs.Listing.{IsFiled, IsListing};
ghost use Rattle.an_snapshot.specs.Plan.{state_behind};
ghost use Rattle.an_snapshot.specs.Steps.{IsSame, filed_in, row_of_step};

use crate::changes::{Changes, add_changes};
use crate::filing::changes_of;
use crate::prepare::{Prepared, prepare};
use crate::put::{add_all, put_steps};
use an_listed::Listed;
use an_policy::Classes;
use an_state::{Book, Entry};
use std::alloc::{AllocError, Global};

/// Takes all memory that the entry needs.
#[tactic(auto, using(crate::proofs::AddedLemmas::kept_changes))]
pub(crate) fn take_room(
    alloc: Global,
    book: &mut Book,
    classes: &mut Classes,
    listed: &mut Listed,
    changes: &mut Changes,
    entry: &Entry,
) -> Result<(), AllocError>
    requires listing { IsListing book.old.state classes.old listed.old.rows }
    requires changes { AreChanges book.old.state classes.old changes.old }
    ensures listing { IsListing book.new.state classes.new listed.new.rows }
    ensures changes { AreChanges book.new.state classes.new changes.new }
    ensures state { book.new.state ≡ book.old.state }
{
    changes_of(alloc, classes, changes, entry)?;
    prepare(alloc, book, classes, listed, entry)?;
    Ok(())
}

/// Puts the entry's rows and adds its activities, where the entry fits. All memory is taken before.
#[tactic(auto, using(crate::proofs::AddedLemmas::kept_changes))]
pub(crate) fn absorb(
    alloc: Global,
    book: &mut Book,
    classes: &mut Classes,
    listed: &mut Listed,
    changes: &mut Changes,
    entry: &Entry,
) -> Result<(), AllocError>
    requires listing { IsListing book.old.state classes.old listed.old.rows }
    requires changes { AreChanges book.old.state classes.old changes.old }
    ensures listing { IsListing book.new.state classes.new listed.new.rows }
    ensures changes { AreChanges book.new.state classes.new changes.new }
    ensures ok { OnOk result (book.new.state ≡ state_with book.old.state entry.now) }
    ensures err { OnErr result (book.new.state ≡ book.old.state) }
{
    let added = changes_of(alloc, classes, changes, entry)?;
    match prepare(alloc, book, classes, listed, entry)? {
        Some(prepared) => {
            put(book, listed, prepared);
            add_changes(changes, added);
            Ok(())
        }
        None => Ok(()),
    }
}

/// Puts what an entry comes to, and gives back the memory of what is gone. It takes no memory.
fn put(book: &mut Book, listed: &mut Listed, prepared: Prepared)
    requires room { length prepared.steps.items + length prepared.activities.items
        ≤ book.old.room }
    requires lists { HasRoom (flat_map filed_in prepared.steps.items) listed.old }
    requires notes { map (λ filed. filed.note) listed.old.rows ≡ book.old.state.notes }
    requires same { All IsSame prepared.steps.items }
    ensures state { book.new.state ≡ state_behind book.old.state
        (map row_of_step prepared.steps.items) prepared.activities.items }
    ensures notes { map (λ filed. filed.note) listed.new.rows ≡ book.new.state.notes }
    ensures filed { (s : State) (classes : List Audience)
        → All (IsFiled s classes) (flat_map filed_in prepared.steps.items)
        → All (IsFiled s classes) listed.old.rows → All (IsFiled s classes) listed.new.rows }
{
    put_steps(book, listed, prepared.steps);
    listed.let_go();
    add_all(book, prepared.activities);
}
