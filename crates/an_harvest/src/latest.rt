ghost use Rattle.std.specs.Prelude.{◌≡◌, ◌≤◌, ◌+◌, ◌∷◌, [], ◌++◌, ◌-◌, ℕ, List, length, drop};
ghost use Rattle.std.specs.Prelude.{map, bytes_eq, Some, None, OnOk, IfOk, if◌then◌else◌};
ghost use Rattle.std.specs.Option.{option_or};
ghost use Rattle.std.specs.BTreeMap.{get_by_text};
ghost use Rattle.serde_json.specs.View.{view};
ghost use Rattle.an_harvest.specs.Feed.{Change, changes_of, page_items};
ghost use Rattle.an_harvest.specs.Live.{Tells, IsLive};

use crate::feed::{change_in, page_items};
use crate::known::Known;
use crate::merging::living;
use serde_json::Value;
use std::alloc::{AllocError, Global};
use std::collections::BTreeMap;

/// Notes the changes of a page after those that are known.
pub(crate) fn note_page(
    alloc: Global,
    latest: &mut BTreeMap<String, Option<bool>>,
    known: u64,
    start: u64,
    tree: &Value,
) -> Result<(), AllocError>
    requires within { known ≤ start + length (page_items (view tree.now)) }
    ensures noted { OnOk result ((later : List Change) → Tells later latest.old
        → Tells (changes_of (drop (known - start) (page_items (view tree.now))) ++ later)
        latest.new) }
{
    let items = page_items(tree);
    let from = known.saturating_sub(start) as usize;
    note_from(alloc, latest, items, from)
}

/// Notes what the items from a place on leave of their objects, unless a later change of an object
/// is noted.
fn note_from(
    alloc: Global,
    latest: &mut BTreeMap<String, Option<bool>>,
    items: &[Value],
    from: usize,
) -> Result<(), AllocError>
    requires within { from ≤ length items.now }
    ensures noted { OnOk result ((later : List Change) → Tells later latest.old
        → Tells (changes_of (drop from (map view items.now)) ++ later) latest.new) }
{
    let mut at = items.len();
    while at > from {
        at -= 1;
        note(alloc, latest, &items[at])?;
    }
    Ok(())
}

/// Notes what an item leaves of its object, unless a later change of the object is noted.
fn note(
    alloc: Global,
    latest: &mut BTreeMap<String, Option<bool>>,
    item: &Value,
) -> Result<(), AllocError>
    ensures { OnOk result ((later : List Change) → Tells later latest.old
        → Tells (changes_of (view item.now ∷ []) ++ later) latest.new) }
{
    match change_in(item) {
        Some((id, left)) => {
            set_new(alloc, latest, id, left)?;
            Ok(())
        }
        None => Ok(()),
    }
}

/// Sets what is left of an object that isn't in the map.
fn set_new(
    alloc: Global,
    latest: &mut BTreeMap<String, Option<bool>>,
    id: &str,
    left: Option<bool>,
) -> Result<(), AllocError>
    ensures { OnOk result ((other : List ℕ) → get_by_text latest.new other
        ≡ option_or (get_by_text latest.old other)
        (if bytes_eq id.now other then Some left else None)) }
{
    if latest.contains_key(id) {
        return Ok(());
    }
    let id = String::from_str(alloc, id)?;
    latest.insert(id, left)?;
    Ok(())
}

/// What lives after changes, of which the last of each object is noted, with what was known and
/// isn't changed.
pub(crate) fn merged(
    alloc: Global,
    known: &Known,
    latest: BTreeMap<String, Option<bool>>,
    total: u64,
) -> Result<Known, AllocError>
    ensures live { IfOk result (λ found. (changes : List Change) → Tells changes latest
        → IsLive known.now.objects changes found.objects) }
    ensures total { IfOk result (λ found. found.items ≡ total) }
{
    let objects = living(alloc, known.objects(), latest)?;
    Ok(Known::of(objects, total))
}
