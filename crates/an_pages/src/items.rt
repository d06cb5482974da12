ghost use Rattle.std.specs.Prelude.{◌≡◌, ◌+◌, ◌≤◌, List, ◌++◌, length, map, slice_get};
ghost use Rattle.std.specs.Prelude.{IfOk, OnOk};
ghost use Rattle.std.specs.List.{filter_map};
ghost use Rattle.serde_json.specs.View.{items_of};
ghost use Rattle.an_base.specs.Write.{item_commas, item_text};
ghost use Rattle.an_state.specs.State.{NoteState};
ghost use Rattle.an_list.specs.Listed.{StandAt};
ghost use Rattle.an_pages.specs.Container.{iri_item, items_on};

use an_base::Steps;
use an_iri::note_iri;
use an_keyed::Keyed;
use an_list::{PageItems, list_items, push_text_item};
use an_state::{Look, NoteRow};
use std::alloc::{AllocError, Global};
use std::sync::ledger::Ledger;

/// The annotations at these places as items, each behind a comma: whole, or by their IRIs. There
/// are no more of them than a page has. It takes a step for each.
pub(crate) fn items_at<T: Look, L: Ledger>(
    alloc: Global,
    look: &T,
    places: &[usize],
    base: &str,
    iris: bool,
    steps: &mut Steps<L>,
) -> Result<Vec<u8>, AllocError>
    requires few { length places.now ≤ 100 }
    ensures items { IfOk result (λ items. (rows : List NoteState)
        → StandAt (T.state look.now).notes places.now rows
        → items.items ≡ item_commas (items_on base.now iris rows)) }
    ensures steps { OnOk result (steps.new ≡ steps.old
        + length places.now) }
    ensures steps_most { steps.new ≤ steps.old
        + length places.now }
    ensures steps_least { steps.old ≤ steps.new }
{
    if iris {
        let items = iris_at(alloc, look, places, base, steps)?;
        Ok(items)
    } else {
        let listed = list_items(alloc, look, places, &[], base, "", steps)?;
        let PageItems { items, marks } = listed;
        drop(marks);
        Ok(items)
    }
}

/// Their IRIs.
#[tactic(auto, using(an_list::proofs::PieceLemmas::pieces_left))]
fn iris_at<T: Look, L: Ledger>(
    alloc: Global,
    look: &T,
    places: &[usize],
    base: &str,
    steps: &mut Steps<L>,
) -> Result<Vec<u8>, AllocError>
    ensures items { IfOk result (λ items. items.items ≡ item_commas (items_of (map
        (iri_item base.now) (filter_map (slice_get (T.state look.now).notes) places.now)))) }
    ensures steps { OnOk result (steps.new ≡ steps.old
        + length places.now) }
    ensures steps_most { steps.new ≤ steps.old
        + length places.now }
    ensures steps_least { steps.old ≤ steps.new }
{
    let mut items = Vec::new(alloc);
    for place in places {
        match look.note_at(*place, steps) {
            Some(row) => items = push_iri(alloc, items, row, base)?,
            None => {}
        }
    }
    Ok(items)
}

fn push_iri(alloc: Global, out: Vec<u8>, row: &NoteRow, base: &str) -> Result<Vec<u8>, AllocError>
    ensures text { IfOk result
        (λ v. v.items ≡ out.items ++ item_text (iri_item base.now row.now)) }
{
    let iri = note_iri(alloc, base, row.owned_by(), row.name())?;
    let out = push_text_item(out, iri.as_str())?;
    Ok(out)
}
