ghost use Rattle.std.specs.Prelude.{◌≡◌, ◌+◌, ◌≤◌, IfOk, IsTrue, OnOk};
ghost use Rattle.serde_json.specs.Written.{compact_text};
ghost use Rattle.an_base.specs.Outcome.{Gives};
ghost use Rattle.an_policy.specs.Audience.{identity};
ghost use Rattle.an_state.specs.View.{view_of};
ghost use Rattle.an_search.specs.Gathered.{each_once, lent_names, searched};
ghost use Rattle.an_complete.specs.Complete.{ask_iri, asked_terms, asked_terms_on, complete_of};
ghost use Rattle.an_complete.specs.Complete.{filters_of, terms_page};
ghost use Rattle.an_complete.specs.Cost.{complete_cost, terms_cost, terms_cost_on};
ghost use Rattle.an_list.specs.Cost.{Takes};

use crate::ask::Ask;
use crate::page::{ask_iri, terms_text};
use crate::totals::{asked_totals, first_terms, totals_among};
use an_base::{Bytes, Name, Steps, TermTotal};
use an_list::{ReadError, Site};
use an_policy::Who;
use an_search::{Scope, Wanted, wanted_by};
use an_state::{Look, shown_manifest};
use an_terms::term_of;
use std::alloc::{AllocError, Global};
use std::sync::ledger::Ledger;

/// The terms that complete a prefix (IIIF Content Search API 2.0): the first 100 of those that
/// begin with it and occur often enough in the annotations on a manifest that the caller may read
/// and that pass the filters, each with its total. Without a filter no annotation is fetched, and
/// with one each that the caller may read is fetched once.
pub fn complete<T: Look, L: Ledger>(
    alloc: Global,
    look: &T,
    who: &Who<'_>,
    manifest: &Name,
    ask: &Ask,
    site: &Site,
    steps: &mut Steps<L>,
) -> Result<Bytes, ReadError>
    ensures answer { Gives (λ page. page) ReadError.Memory result (complete_of site.now
        (view_of (T.state look.now) (identity who.now)) manifest.now ask.now) }
    ensures steps { Takes ReadError.Memory result steps.old steps.new (complete_cost
        (view_of (T.state look.now) (identity who.now)) manifest.now ask.now) }
    ensures steps_most { steps.new ≤ steps.old + complete_cost
        (view_of (T.state look.now) (identity who.now)) manifest.now ask.now }
    ensures steps_least { steps.old ≤ steps.new }
{
    match shown_manifest(look, who, manifest) {
        Some(_) => match page_of_terms(alloc, look, who, manifest, ask, site, steps) {
            Ok(page) => Ok(page),
            Err(_) => Err(ReadError::Memory),
        },
        None => Err(ReadError::Absent),
    }
}

fn page_of_terms<T: Look, L: Ledger>(
    alloc: Global,
    look: &T,
    who: &Who<'_>,
    manifest: &Name,
    ask: &Ask,
    site: &Site,
    steps: &mut Steps<L>,
) -> Result<Bytes, AllocError>
    ensures page { IfOk result (λ page. page ≡ compact_text
        (terms_page (ask_iri site.now.base manifest.now ask.now) ask.now.ignored
        (asked_terms (view_of (T.state look.now) (identity who.now)) manifest.now ask.now))) }
    ensures steps { OnOk result (steps.new ≡ steps.old + terms_cost
        (view_of (T.state look.now) (identity who.now)) manifest.now ask.now) }
    ensures steps_most { steps.new ≤ steps.old + terms_cost
        (view_of (T.state look.now) (identity who.now)) manifest.now ask.now }
    ensures steps_least { steps.old ≤ steps.new }
{
    let terms = asked_terms(alloc, look, who, manifest, ask, steps)?;
    let iri = ask_iri(alloc, site.base(), manifest, ask)?;
    terms_text(alloc, iri.as_str(), ask.ignored(), terms.as_slice())
}

/// The terms that a completion gives, each with its total.
pub fn asked_terms<T: Look, L: Ledger>(
    alloc: Global,
    look: &T,
    who: &Who<'_>,
    manifest: &Name,
    ask: &Ask,
    steps: &mut Steps<L>,
) -> Result<Vec<TermTotal>, AllocError>
    ensures terms { IfOk result (λ terms. terms.items ≡ asked_terms
        (view_of (T.state look.now) (identity who.now)) manifest.now ask.now) }
    ensures steps { OnOk result (steps.new ≡ steps.old + terms_cost
        (view_of (T.state look.now) (identity who.now)) manifest.now ask.now) }
    ensures steps_most { steps.new ≤ steps.old + terms_cost
        (view_of (T.state look.now) (identity who.now)) manifest.now ask.now }
    ensures steps_least { steps.old ≤ steps.new }
{
    let prefix = term_of(alloc, ask.q())?;
    let filters = filters_of(alloc, ask)?;
    let totals = asked_totals(alloc, look, who, manifest, prefix.as_str(), &filters, steps)?;
    first_terms(alloc, ask.min(), totals)
}

/// The terms that a completion gives in the annotations on all manifests that the caller may read,
/// or on these, each of which is named once and which it may read, each term with its total.
pub fn asked_terms_on<T: Look, L: Ledger>(
    alloc: Global,
    look: &T,
    who: &Who<'_>,
    scope: Scope,
    manifests: &[&Name],
    ask: &Ask,
    steps: &mut Steps<L>,
) -> Result<Vec<TermTotal>, AllocError>
    requires once { IsTrue (each_once (lent_names manifests.now)) }
    ensures terms { IfOk result (λ terms. terms.items ≡ asked_terms_on
        (view_of (T.state look.now) (identity who.now))
        (searched (view_of (T.state look.now) (identity who.now)) scope manifests.now)
        ask.now) }
    ensures steps { OnOk result (steps.new ≡ steps.old + terms_cost_on
        (view_of (T.state look.now) (identity who.now))
        (searched (view_of (T.state look.now) (identity who.now)) scope manifests.now)
        ask.now) }
    ensures steps_most { steps.new ≤ steps.old + terms_cost_on
        (view_of (T.state look.now) (identity who.now))
        (searched (view_of (T.state look.now) (identity who.now)) scope manifests.now)
        ask.now }
    ensures steps_least { steps.old ≤ steps.new }
{
    let prefix = term_of(alloc, ask.q())?;
    let filters = filters_of(alloc, ask)?;
    let totals = totals_among(
        alloc,
        look,
        who,
        scope,
        manifests,
        prefix.as_str(),
        &filters,
        steps,
    )?;
    first_terms(alloc, ask.min(), totals)
}

/// What the filters want of an annotation.
fn filters_of(alloc: Global, ask: &Ask) -> Result<Wanted, AllocError>
    ensures { IfOk result (λ filters. filters ≡ filters_of ask.now) }
{
    wanted_by(alloc, None, ask.filters())
}
