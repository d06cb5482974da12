ghost use Rattle.std.specs.Prelude.{◌≡◌, All, IfOk, Some, map, option_map, true};
ghost use Rattle.an_policy.specs.Classes.{Grows};
ghost use Rattle.an_state.specs.State.{is_distinct};
ghost use Rattle.an_snapshot.specs.Fits.{notes_stand};
ghost use Rattle.an_snapshot.specs.Listing.{IsListing};
ghost use Rattle.an_snapshot.specs.Plan.{AreLeft, LeavesFitting, Plans};
ghost use Rattle.an_snapshot.specs.Steps.{IsFiledOver, IsStepOver};
ghost use Rattle.an_snapshot.specs.Steps.{row_of_step};
ghost use Rattle.an_snapshot.specs.declared.planned_row.PlannedRow.TheVariants.{Note};

use crate::deciding::deciding_class;
use crate::fits::notes_keep_live_manifests;
use crate::last_rows::{LastRows, left_of};
use crate::planned_row::PlannedRow;
use an_base::{Shared, TryCopy};
use an_listed::{Filed, Listed};
use an_policy::Classes;
use an_state::{Book, NoteRow, Row};
use std::alloc::{AllocError, Global};

/// The steps that rows come to; none where they don't fit.
pub(crate) fn plan(
    alloc: Global,
    book: &Book,
    classes: &mut Classes,
    listed: &Listed,
    rows: Vec<Row>,
) -> Result<Option<Vec<PlannedRow>>, AllocError>
    requires listing { IsListing book.now.state classes.old listed.now.rows }
    ensures grows { Grows classes.old classes.new }
    ensures plan { IfOk result (λ steps.
        Plans book.now.state classes.new rows.items (option_map (λ v. v.items) steps)) }
{
    match left_by(alloc, book, listed, rows.as_slice())? {
        Some(left) => {
            let steps = steps_of(alloc, book, classes, &left, rows)?;
            Ok(Some(steps))
        }
        None => Ok(None),
    }
}

/// What is left of rows; none where they don't fit.
fn left_by(
    alloc: Global,
    book: &Book,
    listed: &Listed,
    rows: &[Row],
) -> Result<Option<LastRows>, AllocError>
    requires notes { map (λ filed. filed.note) listed.now.rows ≡ book.now.state.notes }
    requires distinct { is_distinct book.now.state ≡ true }
    requires stand { notes_stand book.now.state ≡ true }
    ensures left { IfOk result (λ left. LeavesFitting book.now.state rows.now left) }
{
    match left_of(alloc, book, rows)? {
        Some(left) => if notes_keep_live_manifests(alloc, book, listed, &left)? {
            Ok(Some(left))
        } else {
            Ok(None)
        },
        None => Ok(None),
    }
}

/// The steps of rows, of which this is left.
fn steps_of(
    alloc: Global,
    book: &Book,
    classes: &mut Classes,
    left: &LastRows,
    rows: Vec<Row>,
) -> Result<Vec<PlannedRow>, AllocError>
    ensures grows { Grows classes.old classes.new }
    ensures rows { IfOk result (λ steps. map row_of_step steps.items ≡ rows.items) }
    ensures steps { IfOk result (λ steps. All
        (IsStepOver book.now.state left.now.manifests.rows classes.new) steps.items) }
{
    let mut steps = Vec::with_capacity(alloc, rows.len())?;
    for row in rows {
        steps.push(step_of(book, classes, left, row)?)?;
    }
    Ok(steps)
}

fn step_of(
    book: &Book,
    classes: &mut Classes,
    left: &LastRows,
    row: Row,
) -> Result<PlannedRow, AllocError>
    ensures grows { Grows classes.old classes.new }
    ensures row { IfOk result (λ step. row_of_step step ≡ row) }
    ensures step { IfOk result
        (λ step. IsStepOver book.now.state left.now.manifests.rows classes.new step) }
{
    match row {
        Row::Note(row) => {
            let class = class_in(book, classes, left, row.get())?;
            note_step(row, class)
        }
        Row::Reader(row) => Ok(PlannedRow::Other(Row::Reader(row))),
        Row::Manifest(row) => Ok(PlannedRow::Other(Row::Manifest(row))),
        Row::Activity(activity) => Ok(PlannedRow::Other(Row::Activity(activity))),
    }
}

fn note_step(row: Shared<NoteRow>, class: usize) -> Result<PlannedRow, AllocError>
    ensures { IfOk result (λ step. step ≡ Note row (record { note = row; class = class })) }
{
    let note = row.copy()?;
    Ok(PlannedRow::Note(row, Filed { note, class }))
}

/// The class of what decides who may read an annotation, which has one then where the annotation is
/// live and its manifest has a row.
fn class_in(
    book: &Book,
    classes: &mut Classes,
    left: &LastRows,
    row: &NoteRow,
) -> Result<usize, AllocError>
    ensures grows { Grows classes.old classes.new }
    ensures class { IfOk result (λ class.
        IsFiledOver book.now.state left.now.manifests.rows classes.new row.now class) }
{
    match row.live() {
        Some(live) => match left.manifest(book, live.manifest) {
            Some(manifest) => {
                let owner = Some(row.owned_by());
                deciding_class(classes, manifest.group(), live.group, owner)
            }
            None => Ok(0),
        },
        None => Ok(0),
    }
}
