//! What a write changes.
ghost use Rattle.std.specs.Prelude.{◌≡◌, [], ◌∷◌, IfOk, unwrap_or};
ghost use Rattle.an_machine.specs.Accepted.{changed};

use an_base::{List, Moment, Shared};
use an_state::{Activity, ReaderRow, Row};
use std::alloc::{AllocError, Global};

/// What the next write of an object changes.
#[derive(Drop)]
pub struct Effect {
    /// Whether the object is there now and wasn't before.
    pub made: bool,
    /// The new rows, in the order in which they change.
    pub rows: List<Row>,
    /// The activities that are added.
    pub activities: List<Shared<Activity>>,
}

/// What a write changes that puts one row and adds one activity.
pub(crate) fn change(
    alloc: Global,
    made: bool,
    row: Row,
    activity: Shared<Activity>,
) -> Result<Effect, AllocError>
    ensures { IfOk result (λ effect. effect
        ≡ record { made = made; rows = row ∷ []; activities = activity ∷ [] }) }
{
    Ok(Effect {
        made,
        rows: one(alloc, row)?,
        activities: one(alloc, activity)?,
    })
}

/// What a write of a reader changes. It makes no activity.
pub(crate) fn reader_change(alloc: Global, made: bool, row: ReaderRow) -> Result<Effect, AllocError>
    ensures { IfOk result (λ effect. effect
        ≡ record { made = made; rows = Row.Reader row ∷ []; activities = [] }) }
{
    Ok(Effect {
        made,
        rows: one(alloc, Row::Reader(row))?,
        activities: List::new(alloc),
    })
}

/// The list of this item alone.
fn one<T: Drop>(alloc: Global, item: T) -> Result<List<T>, AllocError>
    ensures { IfOk result (λ list. list ≡ item ∷ []) }
{
    let mut items = Vec::with_capacity(alloc, 1)?;
    items.push(item)?;
    Ok(List::from_vec(items))
}

/// When what is put was made, and when it was changed: what was live was made before, and is
/// changed now.
pub(crate) fn moments(at: Moment, made: Option<Moment>) -> (Moment, Option<Moment>)
    ensures created { result.0 ≡ unwrap_or made at }
    ensures modified { result.1 ≡ changed made at }
{
    match made {
        Some(created) => (created, Some(at)),
        None => (at, None),
    }
}
