ghost use Rattle.std.specs.Prelude.{◌≡◌, ◌+◌, ◌≤◌, List, length, IfOk, OnOk};
ghost use Rattle.std.specs.List.{filter_map};
ghost use Rattle.serde_json.specs.View.{items_of};
ghost use Rattle.serde_json.specs.Written.{compact_text};
ghost use Rattle.an_base.specs.Outcome.{Gives};
ghost use Rattle.an_state.specs.State.{NoteState};
ghost use Rattle.an_list.specs.Cost.{Takes, page_cost};
ghost use Rattle.an_list.specs.Listed.{StandAt, listed_note, marks_of};
ghost use Rattle.an_list.specs.Notes.{notes_text};
ghost use Rattle.an_list.specs.Page.{list_page, page_iri};

use crate::error::ReadError;
use crate::items::list_items;
use crate::page::{PagedList, Paging, page_iri, page_of, page_text};
use crate::site::Site;
use an_base::{Bytes, Steps, Text};
use an_state::Look;
use std::alloc::{AllocError, Global};
use std::sync::ledger::Ledger;

/// A list of annotations that is served in pages, and what its pages say besides.
#[derive(Clone, Copy)]
pub struct NoteList<'a> {
    pub whole: &'a PagedList,
    /// The context of its pages.
    pub context: &'a str,
    /// The terms whose words are marked.
    pub terms: &'a [Text],
    /// The names of parameters that were ignored.
    pub ignored: &'a [Text],
}

/// The page of this number of a list of annotations, which stand at these places. It takes a step
/// for each that the page has.
pub fn page_of_notes<T: Look, L: Ledger>(
    alloc: Global,
    look: &T,
    site: &Site,
    list: &NoteList<'_>,
    page: u32,
    places: &[usize],
    steps: &mut Steps<L>,
) -> Result<Bytes, ReadError>
    ensures page { (notes : List NoteState) → StandAt (T.state look.now).notes places.now notes
        → Gives (λ body. body) ReadError.Memory result (notes_text site.now list.now.context.now
        list.now.whole.now page list.now.terms.now list.now.ignored.now notes) }
    ensures steps { Takes ReadError.Memory result steps.old steps.new
        (page_cost page site.now.size places.now) }
    ensures steps_most { steps.new ≤ steps.old + page_cost page site.now.size places.now }
    ensures steps_least { steps.old ≤ steps.new }
{
    match Paging::checked(site, page, places.len()) {
        Ok(paging) => {
            let shown = page_of(places, paging);
            Ok(write_page(alloc, look, site.base(), list, paging, shown, steps)?)
        }
        Err(error) => Err(error),
    }
}

/// The text of the page that has the annotations at these places.
fn write_page<T: Look, L: Ledger>(
    alloc: Global,
    look: &T,
    base: &str,
    list: &NoteList<'_>,
    paging: Paging,
    places: &[usize],
    steps: &mut Steps<L>,
) -> Result<Bytes, AllocError>
    requires few { length places.now ≤ 100 }
    requires page { 1 ≤ paging.page }
    requires size { 1 ≤ paging.size }
    ensures page { (notes : List NoteState) → StandAt (T.state look.now).notes places.now notes
        → IfOk result (λ text. text ≡ compact_text (list_page list.now.context.now
        list.now.whole.now paging.page paging.size paging.total
        (items_of (filter_map (listed_note base.now) notes))
        (items_of (marks_of base.now list.now.terms.now
        (page_iri list.now.whole.now paging.page) 1 notes)) list.now.ignored.now)) }
    ensures steps { OnOk result (steps.new ≡ steps.old + length places.now) }
    ensures steps_most { steps.new ≤ steps.old + length places.now }
    ensures steps_least { steps.old ≤ steps.new }
{
    let iri = page_iri(alloc, list.whole, paging.page as usize)?;
    let listed = list_items(alloc, look, places, list.terms, base, iri.as_str(), steps)?;
    let items = listed.items.as_slice();
    let marks = listed.marks.text.as_slice();
    let text = page_text(
        alloc,
        list.context,
        list.whole,
        paging,
        items,
        marks,
        list.ignored,
    )?;
    Ok(text)
}
