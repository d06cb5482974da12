ghost use Rattle.std.specs.Prelude.{◌≡◌, ◌+◌, ◌≤◌, List, length, IfOk, OnOk};
ghost use Rattle.std.specs.Prelude.{if◌then◌else◌};
ghost use Rattle.serde_json.specs.Data.{string};
ghost use Rattle.serde_json.specs.Written.{compact_text};
ghost use Rattle.an_base.specs.Outcome.{Gives};
ghost use Rattle.an_policy.specs.Audience.{identity};
ghost use Rattle.an_state.specs.State.{NoteState};
ghost use Rattle.an_state.specs.View.{view_of};
ghost use Rattle.an_list.specs.Cost.{Takes, page_cost};
ghost use Rattle.an_list.specs.Listed.{StandAt};
ghost use Rattle.an_list.specs.Page.{page_iri, page_of};
ghost use Rattle.an_pages.specs.Container.{container_body, container_of};
ghost use Rattle.an_pages.specs.Container.{container_page_of, container_whole, first_page};
ghost use Rattle.an_pages.specs.Container.{iris_form, items_on, notes_on, own_page, own_text};
ghost use Rattle.an_pages.specs.Cost.{container_cost, container_page_cost, first_cost};

use crate::items::items_at;
use crate::written::{container_text, held_text, own_text};
use an_base::{Bytes, Name, Prefer, Steps, Text, push_text};
use an_iri::container_iri;
use an_list::{PagedList, Paging, ReadError, Site, page_iri, page_of};
use an_policy::Who;
use an_state::{Look, shown_manifest};
use std::alloc::{AllocError, Global};
use std::sync::ledger::Ledger;

/// The container of the annotations on a manifest that the caller may read (Web Annotation
/// Protocol, section 4), with its first page unless only the container is preferred. A hidden
/// manifest is answered as one that never was.
#[tactic(auto, unfolding(crate::specs::Container::container_of))]
pub fn container<T: Look, L: Ledger>(
    alloc: Global,
    look: &T,
    who: &Who<'_>,
    name: &Name,
    prefer: Prefer,
    site: &Site,
    steps: &mut Steps<L>,
) -> Result<Bytes, ReadError>
    ensures answer { Gives (λ body. body) ReadError.Memory result (container_of site.now
        (view_of (T.state look.now) (identity who.now)) name.now prefer) }
    ensures steps { Takes ReadError.Memory result steps.old steps.new
        (container_cost site.now (view_of (T.state look.now) (identity who.now)) name.now
        prefer) }
    ensures steps_most { steps.new ≤ steps.old
        + container_cost site.now (view_of (T.state look.now) (identity who.now)) name.now
        prefer }
    ensures steps_least { steps.old ≤ steps.new }
{
    match shown_manifest(look, who, name) {
        Some(_) => Ok(container_body(alloc, look, who, name, prefer, site, steps)?),
        None => Err(ReadError::Absent),
    }
}

fn container_body<T: Look, L: Ledger>(
    alloc: Global,
    look: &T,
    who: &Who<'_>,
    name: &Name,
    prefer: Prefer,
    site: &Site,
    steps: &mut Steps<L>,
) -> Result<Bytes, AllocError>
    ensures body { IfOk result (λ body. body ≡ container_body site.now
        (container_whole site.now.base name.now prefer.iris) prefer
        (notes_on (view_of (T.state look.now) (identity who.now)) name.now)) }
    ensures steps { OnOk result (steps.new ≡ steps.old
        + first_cost site.now.size prefer.minimal
        (notes_on (view_of (T.state look.now) (identity who.now)) name.now)) }
    ensures steps_most { steps.new ≤ steps.old
        + first_cost site.now.size prefer.minimal
        (notes_on (view_of (T.state look.now) (identity who.now)) name.now) }
    ensures steps_least { steps.old ≤ steps.new }
{
    let whole = container_whole(alloc, site.base(), name, prefer.iris)?;
    let places = look.readable(alloc, who, Some(name))?;
    let body = container_at(alloc, look, &whole, prefer, places.as_slice(), site, steps)?;
    Ok(body)
}

/// The container of the annotations at these places.
fn container_at<T: Look, L: Ledger>(
    alloc: Global,
    look: &T,
    whole: &PagedList,
    prefer: Prefer,
    places: &[usize],
    site: &Site,
    steps: &mut Steps<L>,
) -> Result<Bytes, AllocError>
    ensures body { (rows : List NoteState) → StandAt (T.state look.now).notes places.now rows
        → IfOk result (λ body. body ≡ container_body site.now whole.now prefer rows) }
    ensures steps { OnOk result (steps.new ≡ steps.old
        + first_cost site.now.size prefer.minimal places.now) }
    ensures steps_most { steps.new ≤ steps.old
        + first_cost site.now.size prefer.minimal places.now }
    ensures steps_least { steps.old ≤ steps.new }
{
    let paging = Paging {
        page: 1,
        size: site.size(),
        total: places.len(),
    };
    let shown = page_of(places, paging);
    let base = site.base();
    let first = first_text(alloc, look, whole, paging, shown, base, prefer, steps)?;
    let body = container_text(alloc, whole, paging, first.as_slice())?;
    Ok(body)
}

/// The text of the first page, which has the annotations at these places, or of its IRI.
fn first_text<T: Look, L: Ledger>(
    alloc: Global,
    look: &T,
    whole: &PagedList,
    paging: Paging,
    places: &[usize],
    base: &str,
    prefer: Prefer,
    steps: &mut Steps<L>,
) -> Result<Vec<u8>, AllocError>
    requires few { length places.now ≤ 100 }
    requires page { paging.page ≡ 1 }
    requires size { 1 ≤ paging.size }
    ensures text { (rows : List NoteState) → StandAt (T.state look.now).notes places.now rows
        → IfOk result (λ text. text.items ≡ compact_text (first_page whole.now prefer.minimal
        paging.size paging.total (items_on base.now prefer.iris rows))) }
    ensures steps { OnOk result (steps.new ≡ steps.old
        + (if prefer.minimal then 0 else length places.now)) }
    ensures steps_most { steps.new ≤ steps.old
        + (if prefer.minimal then 0 else length places.now) }
    ensures steps_least { steps.old ≤ steps.new }
{
    if prefer.minimal {
        let text = first_iri(alloc, whole)?;
        Ok(text)
    } else {
        let items = items_at(alloc, look, places, base, prefer.iris, steps)?;
        let text = held_text(alloc, whole, paging, items.as_slice())?;
        Ok(text)
    }
}

fn first_iri(alloc: Global, whole: &PagedList) -> Result<Vec<u8>, AllocError>
    ensures { IfOk result (λ text. text.items ≡ compact_text (string (page_iri whole.now 1))) }
{
    let iri = page_iri(alloc, whole, 1)?;
    let text = push_text(Vec::new(alloc), iri.as_str())?;
    Ok(text)
}

/// A page of the container of the annotations on a manifest that the caller may read, served on its
/// own: of whole annotations, or of their IRIs.
#[tactic(auto, unfolding(crate::specs::Container::container_page_of))]
pub fn container_page<T: Look, L: Ledger>(
    alloc: Global,
    look: &T,
    who: &Who<'_>,
    name: &Name,
    page: u32,
    iris: bool,
    site: &Site,
    steps: &mut Steps<L>,
) -> Result<Bytes, ReadError>
    ensures answer { Gives (λ body. body) ReadError.Memory result (container_page_of site.now
        (view_of (T.state look.now) (identity who.now)) name.now page iris) }
    ensures steps { Takes ReadError.Memory result steps.old steps.new
        (container_page_cost site.now (view_of (T.state look.now) (identity who.now))
        name.now page) }
    ensures steps_most { steps.new ≤ steps.old
        + container_page_cost site.now (view_of (T.state look.now) (identity who.now))
        name.now page }
    ensures steps_least { steps.old ≤ steps.new }
{
    match shown_manifest(look, who, name) {
        Some(_) => page_shown(alloc, look, who, name, page, iris, site, steps),
        None => Err(ReadError::Absent),
    }
}

fn page_shown<T: Look, L: Ledger>(
    alloc: Global,
    look: &T,
    who: &Who<'_>,
    name: &Name,
    page: u32,
    iris: bool,
    site: &Site,
    steps: &mut Steps<L>,
) -> Result<Bytes, ReadError>
    ensures body { Gives (λ body. body) ReadError.Memory result (own_text site.now
        (container_whole site.now.base name.now iris) iris page
        (notes_on (view_of (T.state look.now) (identity who.now)) name.now)) }
    ensures steps { Takes ReadError.Memory result steps.old steps.new
        (page_cost page site.now.size (notes_on (view_of (T.state look.now) (identity who.now))
        name.now)) }
    ensures steps_most { steps.new ≤ steps.old
        + page_cost page site.now.size (notes_on (view_of (T.state look.now) (identity who.now))
        name.now) }
    ensures steps_least { steps.old ≤ steps.new }
{
    let whole = container_whole(alloc, site.base(), name, iris)?;
    let places = look.readable(alloc, who, Some(name))?;
    page_at(
        alloc,
        look,
        &whole,
        iris,
        page,
        places.as_slice(),
        site,
        steps,
    )
}

/// The page of this number of the annotations at these places.
fn page_at<T: Look, L: Ledger>(
    alloc: Global,
    look: &T,
    whole: &PagedList,
    iris: bool,
    page: u32,
    places: &[usize],
    site: &Site,
    steps: &mut Steps<L>,
) -> Result<Bytes, ReadError>
    ensures body { (rows : List NoteState) → StandAt (T.state look.now).notes places.now rows
        → Gives (λ body. body) ReadError.Memory result
        (own_text site.now whole.now iris page rows) }
    ensures steps { Takes ReadError.Memory result steps.old steps.new
        (page_cost page site.now.size places.now) }
    ensures steps_most { steps.new ≤ steps.old
        + page_cost page site.now.size places.now }
    ensures steps_least { steps.old ≤ steps.new }
{
    match Paging::checked(site, page, places.len()) {
        Ok(paging) => {
            let shown = page_of(places, paging);
            Ok(write_page(alloc, look, whole, paging, shown, site.base(), iris, steps)?)
        }
        Err(error) => Err(error),
    }
}

/// The text of the page that has the annotations at these places.
fn write_page<T: Look, L: Ledger>(
    alloc: Global,
    look: &T,
    whole: &PagedList,
    paging: Paging,
    places: &[usize],
    base: &str,
    iris: bool,
    steps: &mut Steps<L>,
) -> Result<Bytes, AllocError>
    requires few { length places.now ≤ 100 }
    requires page { 1 ≤ paging.page }
    requires size { 1 ≤ paging.size }
    ensures text { (rows : List NoteState) → StandAt (T.state look.now).notes places.now rows
        → IfOk result (λ text. text ≡ compact_text (own_page whole.now paging.page paging.size
        paging.total (items_on base.now iris rows))) }
    ensures steps { OnOk result (steps.new ≡ steps.old
        + length places.now) }
    ensures steps_most { steps.new ≤ steps.old
        + length places.now }
    ensures steps_least { steps.old ≤ steps.new }
{
    let items = items_at(alloc, look, places, base, iris, steps)?;
    let text = own_text(alloc, whole, paging, items.as_slice())?;
    Ok(text)
}

/// The container's list, of whole annotations or of their IRIs.
fn container_whole(
    alloc: Global,
    base: &str,
    name: &Name,
    iris: bool,
) -> Result<PagedList, AllocError>
    ensures { IfOk result (λ whole. whole ≡ container_whole base.now name.now iris) }
{
    let path = container_iri(alloc, base, name.as_str())?;
    let parameters = Text::new(alloc, iris_form(iris))?;
    Ok(PagedList {
        path: Text::from_string(path),
        parameters,
    })
}

fn iris_form(iris: bool) -> &'static str
    ensures { result.now ≡ iris_form iris }
{
    if iris { "iris=1" } else { "" }
}
