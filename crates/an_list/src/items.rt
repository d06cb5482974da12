ghost use Rattle.std.specs.Prelude.{◌≡◌, ℕ, ◌+◌, ◌*◌, ◌<◌, ◌≤◌, ◌^◌, List, ◌∷◌, ◌++◌, []};
ghost use Rattle.std.specs.Prelude.{length, IfOk, OnOk};
ghost use Rattle.serde_json.specs.View.{items_of};
ghost use Rattle.an_base.specs.Write.{item_commas};
ghost use Rattle.an_iri.specs.Iris.{note_iri};
ghost use Rattle.an_state.specs.State.{NoteState};
ghost use Rattle.an_list.specs.Marks.{highlights_of};
ghost use Rattle.an_list.specs.Listed.{HasListed, StandAt, row_marks};

use crate::listed::push_listed;
use crate::marked::{Marks, highlight};
use an_base::{Steps, Text, TextSet};
use an_iri::note_iri;
use an_keyed::Keyed;
use an_state::{LiveNote, Look, NoteRow};
use std::alloc::{AllocError, Global};
use std::sync::ledger::Ledger;

/// How much room an annotation usually takes on a page, and how much its marks do.
const USUAL: usize = 1024;

/// The annotations of a page as lists give them, each behind a comma, and the marks in them.
#[derive(Drop)]
pub struct PageItems {
    pub items: Vec<u8>,
    pub marks: Marks,
}

/// What a page shows of the annotations at these places, of which there are no more than a page
/// has. It takes a step for each. The terms are put in order once for all of them.
pub fn list_items<T: Look, L: Ledger>(
    alloc: Global,
    look: &T,
    places: &[usize],
    terms: &[Text],
    base: &str,
    page: &str,
    steps: &mut Steps<L>,
) -> Result<PageItems, AllocError>
    requires few { length places.now ≤ 100 }
    ensures listed { IfOk result (λ listed. (rows : List NoteState)
        → StandAt (T.state look.now).notes places.now rows
        → HasListed base.now terms.now page.now rows listed) }
    ensures steps { OnOk result (steps.new ≡ steps.old + length places.now) }
    ensures steps_most { steps.new ≤ steps.old + length places.now }
    ensures steps_least { steps.old ≤ steps.new }
{
    let sought = TextSet::of(alloc, terms)?;
    list_rows(alloc, look, places, &sought, base, page, steps)
}

fn list_rows<T: Look, L: Ledger>(
    alloc: Global,
    look: &T,
    places: &[usize],
    terms: &TextSet,
    base: &str,
    page: &str,
    steps: &mut Steps<L>,
) -> Result<PageItems, AllocError>
    requires few { length places.now ≤ 100 }
    ensures listed { IfOk result (λ listed. (rows : List NoteState)
        → StandAt (T.state look.now).notes places.now rows
        → HasListed base.now terms.now page.now rows listed) }
    ensures steps { OnOk result (steps.new ≡ steps.old + length places.now) }
    ensures steps_most { steps.new ≤ steps.old + length places.now }
    ensures steps_least { steps.old ≤ steps.new }
{
    let room = places.len() * USUAL;
    let marks_room = if terms.len() == 0 { 0 } else { room };
    let mut listed = nothing_listed(alloc, room, marks_room)?;
    for place in places {
        match look.note_at(*place, steps) {
            Some(row) => listed = list_row(alloc, listed, row, terms, base, page)?,
            None => {}
        }
    }
    Ok(listed)
}

/// Nothing yet, with room for items and for marks.
fn nothing_listed(alloc: Global, items: usize, marks: usize) -> Result<PageItems, AllocError>
    ensures nothing { (base : List ℕ) (terms : List (List ℕ)) (page : List ℕ)
        → IfOk result (λ listed. HasListed base terms page [] listed) }
    ensures none { IfOk result (λ listed. listed.marks.count ≡ 0) }
{
    let items = Vec::with_capacity(alloc, items)?;
    let text = Vec::with_capacity(alloc, marks)?;
    Ok(PageItems {
        items,
        marks: Marks { text, count: 0 },
    })
}

fn list_row(
    alloc: Global,
    listed: PageItems,
    row: &NoteRow,
    terms: &TextSet,
    base: &str,
    page: &str,
) -> Result<PageItems, AllocError>
    requires numbers { listed.marks.count + 11 < 2 ^ 64 }
    ensures row { IfOk result (λ new. (rows : List NoteState)
        → HasListed base.now terms.now page.now rows listed
        → HasListed base.now terms.now page.now (rows ++ row.now ∷ []) new) }
    ensures few { IfOk result (λ new. new.marks.count ≤ listed.marks.count + 10) }
{
    let PageItems { items, marks } = listed;
    let items = push_listed(alloc, items, base, row)?;
    let marks = push_marks(alloc, marks, row, terms, base, page)?;
    Ok(PageItems { items, marks })
}

/// Adds the marks in an annotation, numbered on. Without terms nothing is marked.
fn push_marks(
    alloc: Global,
    marks: Marks,
    row: &NoteRow,
    terms: &TextSet,
    base: &str,
    page: &str,
) -> Result<Marks, AllocError>
    requires numbers { marks.count + 11 < 2 ^ 64 }
    ensures text { IfOk result (λ new. new.text.items ≡ marks.text.items ++ item_commas
        (items_of (row_marks base.now terms.now page.now (marks.count + 1) row.now))) }
    ensures count { IfOk result (λ new. new.count ≡ marks.count
        + length (row_marks base.now terms.now page.now (marks.count + 1) row.now)) }
    ensures few { IfOk result (λ new. new.count ≤ marks.count + 10) }
{
    if terms.len() == 0 {
        return Ok(marks);
    }
    match row.live() {
        Some(live) => push_live_marks(alloc, marks, row, &live, terms, base, page),
        None => Ok(marks),
    }
}

fn push_live_marks(
    alloc: Global,
    marks: Marks,
    row: &NoteRow,
    live: &LiveNote<'_>,
    terms: &TextSet,
    base: &str,
    page: &str,
) -> Result<Marks, AllocError>
    requires numbers { marks.count + 11 < 2 ^ 64 }
    ensures text { IfOk result (λ new. new.text.items ≡ marks.text.items ++ item_commas
        (items_of (highlights_of live.now.tree.now (note_iri base.now row.now.owner row.now.name)
        terms.now page.now (marks.count + 1)))) }
    ensures count { IfOk result (λ new. new.count ≡ marks.count
        + length (highlights_of live.now.tree.now (note_iri base.now row.now.owner row.now.name)
        terms.now page.now (marks.count + 1))) }
    ensures few { IfOk result (λ new. new.count ≤ marks.count + 10) }
{
    let iri = note_iri(alloc, base, row.owned_by(), row.name())?;
    highlight(alloc, marks, live.tree, iri.as_str(), terms, page)
}
