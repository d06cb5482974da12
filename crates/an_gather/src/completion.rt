ghost use Rattle.std.specs.Prelude.{◌≡◌, ◌+◌, ◌≤◌, IfOk, Ok, OnOk, string_bytes};
ghost use Rattle.an_base.specs.Outcome.{Gives};
ghost use Rattle.an_list.specs.Cost.{Takes};
ghost use Rattle.an_policy.specs.Audience.{identity};
ghost use Rattle.an_state.specs.View.{view_of};
ghost use Rattle.an_gather.specs.Chosen.{gather_ask_form, gather_ask_iri, gather_complete_of};
ghost use Rattle.an_gather.specs.Cost.{gather_complete_cost};

use crate::ask::GatherAsk;
use crate::choosing::chosen;
use an_base::{Bytes, Steps};
use an_code::Parameter;
use an_complete::{append_ask, asked_terms_on, terms_text};
use an_iri::gather_complete_iri;
use an_list::{ReadError, Site};
use an_policy::Who;
use an_query::append_given;
use an_state::Look;
use form_urlencoded::Serializer;
use std::alloc::{AllocError, Global};
use std::sync::ledger::Ledger;

/// The terms that complete a prefix (IIIF Content Search API 2.0) in the annotations on all
/// manifests that the caller may read, or on those of them that are named: the first 100 of those
/// that occur often enough in all of these annotations together, each with its total. A name that
/// is no such manifest's adds nothing. Without a filter no annotation is fetched, and with one each
/// that the caller may read is fetched once.
pub fn gather_complete<T: Look, L: Ledger>(
    alloc: Global,
    look: &T,
    who: &Who<'_>,
    ask: &GatherAsk,
    site: &Site,
    steps: &mut Steps<L>,
) -> Result<Bytes, ReadError>
    ensures answer { Gives (λ page. page) ReadError.Memory result (Ok (gather_complete_of site.now
        (view_of (T.state look.now) (identity who.now)) ask.now)) }
    ensures steps { Takes ReadError.Memory result steps.old steps.new (gather_complete_cost
        (view_of (T.state look.now) (identity who.now)) ask.now) }
    ensures steps_most { steps.new ≤ steps.old + gather_complete_cost
        (view_of (T.state look.now) (identity who.now)) ask.now }
    ensures steps_least { steps.old ≤ steps.new }
{
    match page_of_terms(alloc, look, who, ask, site, steps) {
        Ok(page) => Ok(page),
        Err(_) => Err(ReadError::Memory),
    }
}

#[tactic(auto, unfolding(crate::specs::Chosen::gather_complete_of))]
fn page_of_terms<T: Look, L: Ledger>(
    alloc: Global,
    look: &T,
    who: &Who<'_>,
    ask: &GatherAsk,
    site: &Site,
    steps: &mut Steps<L>,
) -> Result<Bytes, AllocError>
    ensures page { IfOk result (λ page. page ≡ gather_complete_of site.now
        (view_of (T.state look.now) (identity who.now)) ask.now) }
    ensures steps { OnOk result (steps.new ≡ steps.old + gather_complete_cost
        (view_of (T.state look.now) (identity who.now)) ask.now) }
    ensures steps_most { steps.new ≤ steps.old + gather_complete_cost
        (view_of (T.state look.now) (identity who.now)) ask.now }
    ensures steps_least { steps.old ≤ steps.new }
{
    let iri = gather_ask_iri(alloc, site.base(), ask)?;
    let chosen = chosen(alloc, look, who, ask.manifests())?;
    let terms = asked_terms_on(
        alloc,
        look,
        who,
        chosen.scope,
        chosen.names.as_slice(),
        ask.ask(),
        steps,
    )?;
    terms_text(alloc, iri.as_str(), ask.ask().ignored(), terms.as_slice())
}

/// The IRI of the completion.
fn gather_ask_iri(alloc: Global, base: &str, ask: &GatherAsk) -> Result<String, AllocError>
    ensures { IfOk result (λ iri. string_bytes iri ≡ gather_ask_iri base.now ask.now) }
{
    let service = gather_complete_iri(alloc, base)?;
    let form = gather_ask_form(alloc, ask)?;
    format!(in alloc; "{service}?{form}")
}

fn gather_ask_form(alloc: Global, ask: &GatherAsk) -> Result<String, AllocError>
    ensures { IfOk result (λ form. string_bytes form ≡ gather_ask_form ask.now) }
{
    let mut form = Serializer::new(String::new(alloc));
    append_given(&mut form, Parameter::Manifests, ask.manifests())?;
    append_ask(alloc, &mut form, ask.ask())?;
    Ok(form.finish())
}
