ghost use Rattle.std.specs.Prelude.{◌≡◌, ◌+◌, ◌≤◌, IfOk, string_bytes};
ghost use Rattle.an_base.specs.Outcome.{Gives};
ghost use Rattle.an_list.specs.Cost.{Takes};
ghost use Rattle.an_policy.specs.Audience.{identity};
ghost use Rattle.an_state.specs.View.{view_of};
ghost use Rattle.an_gather.specs.Chosen.{gather_form, gather_search_of, gather_whole};
ghost use Rattle.an_gather.specs.Cost.{gather_search_cost};

use crate::choosing::chosen;
use crate::gather::Gather;
use an_base::{Bytes, Steps, Text};
use an_code::Parameter;
use an_iri::gather_search_iri;
use an_list::{PagedList, ReadError, Site};
use an_policy::Who;
use an_query::append_given;
use an_search::{append_query, search_on};
use an_state::Look;
use form_urlencoded::Serializer;
use std::alloc::{AllocError, Global};
use std::sync::ledger::Ledger;

/// A page of a search in the annotations on all manifests that the caller may read, or on those of
/// them that are named (IIIF Content Search API 2.0). A name that is no such manifest's adds
/// nothing. Each annotation on them that has the first word is fetched once, and each on the page
/// once more. `Absent` is never the answer.
pub fn gather_search<T: Look, L: Ledger>(
    alloc: Global,
    look: &T,
    who: &Who<'_>,
    gather: &Gather,
    site: &Site,
    steps: &mut Steps<L>,
) -> Result<Bytes, ReadError>
    ensures answer { Gives (λ page. page) ReadError.Memory result (gather_search_of site.now
        (view_of (T.state look.now) (identity who.now)) gather.now) }
    ensures steps { Takes ReadError.Memory result steps.old steps.new (gather_search_cost site.now
        (view_of (T.state look.now) (identity who.now)) gather.now) }
    ensures steps_most { steps.new ≤ steps.old + gather_search_cost site.now
        (view_of (T.state look.now) (identity who.now)) gather.now }
    ensures steps_least { steps.old ≤ steps.new }
{
    let whole = gather_whole(alloc, site.base(), gather)?;
    let chosen = chosen(alloc, look, who, gather.manifests())?;
    search_on(
        alloc,
        look,
        who,
        chosen.scope,
        chosen.names.as_slice(),
        &whole,
        gather.query(),
        site,
        steps,
    )
}

/// All that the search finds.
fn gather_whole(alloc: Global, base: &str, gather: &Gather) -> Result<PagedList, AllocError>
    ensures { IfOk result (λ whole. whole ≡ gather_whole base.now gather.now) }
{
    let path = gather_search_iri(alloc, base)?;
    let parameters = gather_form(alloc, gather)?;
    Ok(PagedList {
        path: Text::from_string(path),
        parameters: Text::from_string(parameters),
    })
}

fn gather_form(alloc: Global, gather: &Gather) -> Result<String, AllocError>
    ensures { IfOk result (λ form. string_bytes form ≡ gather_form gather.now) }
{
    let mut form = Serializer::new(String::new(alloc));
    append_given(&mut form, Parameter::Manifests, gather.manifests())?;
    append_query(&mut form, gather.query())?;
    Ok(form.finish())
}
