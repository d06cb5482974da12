ghost use Rattle.std.specs.Prelude.{◌≡◌, ◌+◌, ◌≤◌, List, length, string_bytes};
ghost use Rattle.std.specs.Prelude.{IfOk, OnOk, fold};
ghost use Rattle.an_base.specs.Outcome.{Gives};
ghost use Rattle.an_policy.specs.Audience.{identity};
ghost use Rattle.an_state.specs.State.{NoteState};
ghost use Rattle.an_state.specs.View.{view_of};
ghost use Rattle.an_list.specs.Cost.{Takes, page_cost};
ghost use Rattle.an_search.specs.Cost.{find_cost, search_cost, shown_cost};
ghost use Rattle.an_list.specs.Listed.{StandAt};
ghost use Rattle.an_search.specs.Search.{found_text, hits, query_form, search_of};
ghost use Rattle.an_query.specs.Form.{with_given};
ghost use Rattle.an_search.specs.Search.{query_parameters, whole_of};
ghost use Rattle.an_search.specs.Wanted.{wanted_of, wanted_terms};

use crate::hits::hit_places;
use crate::wanted::wanted_of;
use an_base::{Bytes, Name, Steps, Text};
use an_code::Parameter;
use an_iri::search_iri;
use an_list::{NoteList, PagedList, ReadError, Site, page_of_notes};
use an_policy::Who;
use an_query::{Query, append_filters, append_given};
use an_state::{Look, shown_manifest};
use form_urlencoded::Serializer;
use std::alloc::{AllocError, Global};
use std::sync::ledger::Ledger;

/// The context of searches (IIIF Content Search API 2.0).
pub const SEARCH_CONTEXT: &str = "http://iiif.io/api/search/2/context.json";

/// A page of a search in the annotations on a manifest (IIIF Content Search API 2.0): those that
/// the caller may read and that are wanted, in their order, and the words that were found in them.
/// Each that has the first word is fetched once, and each on the page once more.
pub fn search<T: Look, L: Ledger>(
    alloc: Global,
    look: &T,
    who: &Who<'_>,
    manifest: &Name,
    query: &Query,
    site: &Site,
    steps: &mut Steps<L>,
) -> Result<Bytes, ReadError>
    ensures answer { Gives (λ page. page) ReadError.Memory result (search_of site.now
        (view_of (T.state look.now) (identity who.now)) manifest.now query.now) }
    ensures steps { Takes ReadError.Memory result steps.old steps.new (search_cost site.now
        (view_of (T.state look.now) (identity who.now)) manifest.now query.now) }
    ensures steps_most { steps.new ≤ steps.old + search_cost site.now
        (view_of (T.state look.now) (identity who.now)) manifest.now query.now }
    ensures steps_least { steps.old ≤ steps.new }
{
    match shown_manifest(look, who, manifest) {
        Some(_) => search_shown(alloc, look, who, manifest, query, site, steps),
        None => Err(ReadError::Absent),
    }
}

/// How many annotations a search finds on a manifest, on all its pages together.
pub fn found_total<T: Look, L: Ledger>(
    alloc: Global,
    look: &T,
    who: &Who<'_>,
    manifest: &Name,
    query: &Query,
    steps: &mut Steps<L>,
) -> Result<usize, AllocError>
    ensures total { IfOk result (λ total. total ≡ length
        (hits (view_of (T.state look.now) (identity who.now)) manifest.now
        (wanted_of query.now))) }
    ensures steps { OnOk result (steps.new ≡ steps.old + find_cost
        (view_of (T.state look.now) (identity who.now)) manifest.now query.now) }
    ensures steps_most { steps.new ≤ steps.old + find_cost
        (view_of (T.state look.now) (identity who.now)) manifest.now query.now }
    ensures steps_least { steps.old ≤ steps.new }
{
    let wanted = wanted_of(alloc, query)?;
    let places = hit_places(alloc, look, who, manifest, &wanted, steps)?;
    Ok(places.as_slice().len())
}

fn search_shown<T: Look, L: Ledger>(
    alloc: Global,
    look: &T,
    who: &Who<'_>,
    manifest: &Name,
    query: &Query,
    site: &Site,
    steps: &mut Steps<L>,
) -> Result<Bytes, ReadError>
    ensures answer { Gives (λ page. page) ReadError.Memory result
        (found_text site.now (whole_of site.now.base manifest.now query.now) query.now
        (hits (view_of (T.state look.now) (identity who.now)) manifest.now
        (wanted_of query.now))) }
    ensures steps { Takes ReadError.Memory result steps.old steps.new (shown_cost site.now
        (view_of (T.state look.now) (identity who.now)) manifest.now query.now) }
    ensures steps_most { steps.new ≤ steps.old + shown_cost site.now
        (view_of (T.state look.now) (identity who.now)) manifest.now query.now }
    ensures steps_least { steps.old ≤ steps.new }
{
    let whole = whole_of(alloc, site.base(), manifest, query)?;
    let wanted = wanted_of(alloc, query)?;
    let places = hit_places(alloc, look, who, manifest, &wanted, steps)?;
    let terms = wanted.terms.as_slice();
    page_at(
        alloc,
        look,
        &whole,
        query,
        site,
        places.as_slice(),
        terms,
        steps,
    )
}

/// The page that a query asks for of what was found at these places, which is served in pages as
/// `whole`.
pub(crate) fn page_at<T: Look, L: Ledger>(
    alloc: Global,
    look: &T,
    whole: &PagedList,
    query: &Query,
    site: &Site,
    places: &[usize],
    terms: &[Text],
    steps: &mut Steps<L>,
) -> Result<Bytes, ReadError>
    requires terms { terms.now ≡ wanted_terms query.now.q }
    ensures answer { (rows : List NoteState) → StandAt (T.state look.now).notes places.now rows
        → Gives (λ page. page) ReadError.Memory result
        (found_text site.now whole.now query.now rows) }
    ensures steps { Takes ReadError.Memory result steps.old steps.new
        (page_cost query.now.page site.now.size places.now) }
    ensures steps_most { steps.new ≤ steps.old
        + page_cost query.now.page site.now.size places.now }
    ensures steps_least { steps.old ≤ steps.new }
{
    let list = NoteList {
        whole,
        context: SEARCH_CONTEXT,
        terms,
        ignored: query.ignored(),
    };
    page_of_notes(alloc, look, site, &list, query.page(), places, steps)
}

/// All that a search finds.
fn whole_of(
    alloc: Global,
    base: &str,
    manifest: &Name,
    query: &Query,
) -> Result<PagedList, AllocError>
    ensures { IfOk result (λ whole. whole ≡ whole_of base.now manifest.now query.now) }
{
    let path = search_iri(alloc, base, manifest.as_str())?;
    let parameters = query_form(alloc, query)?;
    Ok(PagedList {
        path: Text::from_string(path),
        parameters: Text::from_string(parameters),
    })
}

/// The parameters of a query that choose what is found, as a form.
fn query_form(alloc: Global, query: &Query) -> Result<String, AllocError>
    ensures { IfOk result (λ form. string_bytes form ≡ query_form query.now) }
{
    let mut form = Serializer::new(String::new(alloc));
    append_query(&mut form, query)?;
    Ok(form.finish())
}

/// Writes behind a form the parameters of a query that choose what is found.
pub fn append_query(form: &mut Serializer, query: &Query) -> Result<(), AllocError>
    ensures written { OnOk result (form.new ≡ record form.old {
      form = fold with_given form.old.form (query_parameters query.now);
    }) }
{
    append_given(form, Parameter::Q, query.q())?;
    append_filters(form, query.filters())
}
