ghost use Rattle.std.specs.Prelude.{◌≡◌, ◌++◌, ◌≤◌, ◌∷◌, [], All, IfOk, OnOk};
ghost use Rattle.std.specs.Prelude.{flat_map, length};
ghost use Rattle.std.specs.Option.{option_copied};
ghost use Rattle.an_policy.specs.Classes.{Grows};
ghost use Rattle.an_snapshot.specs.Changes.{IsChangeFiled, IsClassOf, activities_in, added_by};
ghost use Rattle.an_snapshot.specs.Changes.{added_by_row};
ghost use Rattle.an_snapshot.specs.Pairs.{Extends};

use crate::change::{ClassChange, FiledChange};
use crate::changes::Changes;
use crate::deciding::deciding_class;
use an_base::{Shared, TryCopy, to_u32};
use an_policy::{Audience, Classes};
use an_state::{Activity, Entry, Row};
use std::alloc::{AllocError, Global};

/// The changes that the entry adds, each with its pair. Takes all memory that they need.
pub(crate) fn changes_of(
    alloc: Global,
    classes: &mut Classes,
    changes: &mut Changes,
    entry: &Entry,
) -> Result<Vec<FiledChange>, AllocError>
    ensures grows { Grows classes.old classes.new }
    ensures rows { changes.new.rows ≡ changes.old.rows }
    ensures extends { Extends changes.old.pairs changes.new.pairs }
    ensures added { IfOk result (λ added. activities_in added.items ≡ added_by entry.now) }
    ensures filed { IfOk result
        (λ added. All (IsChangeFiled classes.new changes.new.pairs) added.items) }
    ensures room { IfOk result (λ added. length added.items ≤ changes.new.room) }
{
    let activities = added_by(alloc, entry)?;
    let added = file_all(alloc, classes, changes, activities)?;
    changes.make_room(added.len())?;
    Ok(added)
}

/// The activities that the entry adds.
fn added_by(alloc: Global, entry: &Entry) -> Result<Vec<Shared<Activity>>, AllocError>
    ensures { IfOk result (λ added. added.items ≡ added_by entry.now) }
{
    let mut added = Vec::new(alloc);
    match entry {
        Entry::Restored(row) => add_row(&mut added, row)?,
        Entry::Done {
            rows,
            activities,
            ..
        } => {
            add_rows(&mut added, rows.as_slice())?;
            add_activities(&mut added, activities.as_slice())?;
        }
    }
    Ok(added)
}

fn add_row(added: &mut Vec<Shared<Activity>>, row: &Row) -> Result<(), AllocError>
    ensures { OnOk result (added.new.items ≡ added.old.items ++ added_by_row row.now) }
{
    match row {
        Row::Reader(_) => Ok(()),
        Row::Manifest(_) => Ok(()),
        Row::Note(_) => Ok(()),
        Row::Activity(activity) => add_activity(added, activity),
    }
}

fn add_rows(added: &mut Vec<Shared<Activity>>, rows: &[Row]) -> Result<(), AllocError>
    ensures { OnOk result (added.new.items ≡ added.old.items ++ flat_map added_by_row rows.now) }
{
    for row in rows {
        add_row(added, row)?;
    }
    Ok(())
}

pub(crate) fn add_activities(
    added: &mut Vec<Shared<Activity>>,
    activities: &[Shared<Activity>],
) -> Result<(), AllocError>
    ensures { OnOk result (added.new.items ≡ added.old.items ++ activities.now) }
{
    for activity in activities {
        add_activity(added, activity)?;
    }
    Ok(())
}

fn add_activity(
    added: &mut Vec<Shared<Activity>>,
    activity: &Shared<Activity>,
) -> Result<(), AllocError>
    ensures { OnOk result (added.new.items ≡ added.old.items ++ activity.now ∷ []) }
{
    added.push(activity.copy()?)?;
    Ok(())
}

/// Each of the activities with its pair.
pub(crate) fn file_all(
    alloc: Global,
    classes: &mut Classes,
    changes: &mut Changes,
    activities: Vec<Shared<Activity>>,
) -> Result<Vec<FiledChange>, AllocError>
    ensures grows { Grows classes.old classes.new }
    ensures rows { changes.new.rows ≡ changes.old.rows }
    ensures extends { Extends changes.old.pairs changes.new.pairs }
    ensures added { IfOk result (λ added. activities_in added.items ≡ activities.items) }
    ensures filed { IfOk result
        (λ added. All (IsChangeFiled classes.new changes.new.pairs) added.items) }
{
    let mut added = Vec::with_capacity(alloc, activities.len())?;
    for activity in activities {
        added.push(file(classes, changes, activity)?)?;
    }
    Ok(added)
}

fn file(
    classes: &mut Classes,
    changes: &mut Changes,
    activity: Shared<Activity>,
) -> Result<FiledChange, AllocError>
    ensures grows { Grows classes.old classes.new }
    ensures rows { changes.new.rows ≡ changes.old.rows }
    ensures extends { Extends changes.old.pairs changes.new.pairs }
    ensures activity { IfOk result (λ change. change.activity ≡ activity) }
    ensures filed { IfOk result (λ change. IsChangeFiled classes.new changes.new.pairs change) }
{
    let pair = changes.number_of(classes_of(classes, activity.get())?)?;
    Ok(FiledChange { activity, pair })
}

/// The classes of an activity's audiences, which have them then.
fn classes_of(classes: &mut Classes, activity: &Activity) -> Result<ClassChange, AllocError>
    ensures grows { Grows classes.old classes.new }
    ensures before { IfOk result
        (λ change. IsClassOf classes.new activity.now.before change.before) }
    ensures after { IfOk result
        (λ change. IsClassOf classes.new activity.now.after change.after) }
{
    let before = class_of(classes, activity.before.as_ref())?;
    let after = class_of(classes, activity.after.as_ref())?;
    Ok(ClassChange { before, after })
}

/// The class of what of an audience decides who may read, if there is one, which has one then. Want
/// of memory is its only error, which more than 2^32 classes are answered with too.
fn class_of(classes: &mut Classes, audience: Option<&Audience>) -> Result<Option<u32>, AllocError>
    ensures grows { Grows classes.old classes.new }
    ensures class { IfOk result
        (λ class. IsClassOf classes.new (option_copied audience.entry) class) }
{
    match audience {
        Some(audience) => {
            let owner = audience.owner.as_ref();
            let class = deciding_class(classes, &audience.outer, &audience.inner, owner)?;
            Ok(Some(to_u32(class)?))
        }
        None => Ok(None),
    }
}
