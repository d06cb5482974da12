ghost use Rattle.std.specs.Prelude.{◌≡◌, ◌∷◌, [], IfOk, OnOk, flat_map};
ghost use Rattle.an_policy.specs.Classes.{Grows};
ghost use Rattle.an_listed.specs.Room.{HasRoom};
ghost use Rattle.an_snapshot.specs.Fits.{activities_of, rows_of};
ghost use Rattle.an_snapshot.specs.Listing.{IsListing};
ghost use Rattle.an_snapshot.specs.Plan.{HasAllRoom, IsPlanned};
ghost use Rattle.an_snapshot.specs.Steps.{filed_in};

use crate::plan::plan;
use crate::planned_row::PlannedRow;
use an_base::{Shared, TryCopy};
use an_listed::{Filed, Listed};
use an_policy::Classes;
use an_state::{Activity, Book, Entry, Row};
use std::alloc::{AllocError, Global};

/// What an entry comes to, for which all memory is taken.
#[derive(Drop)]
pub(crate) struct Prepared {
    pub steps: Vec<PlannedRow>,
    pub activities: Vec<Shared<Activity>>,
}

/// Takes all memory that the entry needs; none where it doesn't fit.
pub(crate) fn prepare(
    alloc: Global,
    book: &mut Book,
    classes: &mut Classes,
    listed: &mut Listed,
    entry: &Entry,
) -> Result<Option<Prepared>, AllocError>
    requires listing { IsListing book.old.state classes.old listed.old.rows }
    ensures state { book.new.state ≡ book.old.state }
    ensures rows { listed.new.rows ≡ listed.old.rows }
    ensures grows { Grows classes.old classes.new }
    ensures planned { IfOk result (λ prepared.
        IsPlanned book.old.state classes.new entry.now prepared) }
    ensures room { IfOk result (λ prepared. HasAllRoom book.new listed.new entry.now prepared) }
{
    match planned(alloc, book, classes, listed, entry)? {
        Some(prepared) => {
            book.room(entry)?;
            make_room(alloc, listed, prepared.steps.as_slice())?;
            Ok(Some(prepared))
        }
        None => Ok(None),
    }
}

fn planned(
    alloc: Global,
    book: &Book,
    classes: &mut Classes,
    listed: &Listed,
    entry: &Entry,
) -> Result<Option<Prepared>, AllocError>
    requires listing { IsListing book.now.state classes.old listed.now.rows }
    ensures grows { Grows classes.old classes.new }
    ensures planned { IfOk result (λ prepared.
        IsPlanned book.now.state classes.new entry.now prepared) }
{
    let rows = rows_of(alloc, entry)?;
    match plan(alloc, book, classes, listed, rows)? {
        Some(steps) => {
            let activities = activities_of(alloc, entry)?;
            Ok(Some(Prepared { steps, activities }))
        }
        None => Ok(None),
    }
}

/// Copies of the entry's rows.
fn rows_of(alloc: Global, entry: &Entry) -> Result<Vec<Row>, AllocError>
    ensures { IfOk result (λ rows. rows.items ≡ rows_of entry.now) }
{
    match entry {
        Entry::Restored(row) => one_row(alloc, row),
        Entry::Done { rows, .. } => Ok(rows.copy()?.into_vec()),
    }
}

fn one_row(alloc: Global, row: &Row) -> Result<Vec<Row>, AllocError>
    ensures { IfOk result (λ rows. rows.items ≡ row.now ∷ []) }
{
    let mut rows = Vec::new(alloc);
    rows.push(row.copy()?)?;
    Ok(rows)
}

/// Copies of the entry's activities.
fn activities_of(alloc: Global, entry: &Entry) -> Result<Vec<Shared<Activity>>, AllocError>
    ensures { IfOk result (λ activities. activities.items ≡ activities_of entry.now) }
{
    match entry {
        Entry::Restored(_) => Ok(Vec::new(alloc)),
        Entry::Done { activities, .. } => Ok(activities.copy()?.into_vec()),
    }
}

fn make_room(alloc: Global, listed: &mut Listed, steps: &[PlannedRow]) -> Result<(), AllocError>
    ensures room { OnOk result (HasRoom (flat_map filed_in steps.now) listed.new) }
    ensures rows { listed.new.rows ≡ listed.old.rows }
{
    let filed = filed_in(alloc, steps)?;
    listed.room(filed.as_slice())
}

/// Copies of what is filed in steps.
fn filed_in(alloc: Global, steps: &[PlannedRow]) -> Result<Vec<Filed>, AllocError>
    ensures { IfOk result (λ filed. filed.items ≡ flat_map filed_in steps.now) }
{
    let mut filed = Vec::new(alloc);
    for step in steps {
        match step {
            PlannedRow::Other(_) => {}
            PlannedRow::Note(_, row) => filed.push(row.copy()?)?,
        }
    }
    Ok(filed)
}
