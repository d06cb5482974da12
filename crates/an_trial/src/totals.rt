//! What searches and completions count for a caller.
ghost use Rattle.std.specs.Prelude.{◌≡◌, IfOk, bytes_eq, find};
ghost use Rattle.std.specs.Option.{option_copied};
ghost use Rattle.an_terms.specs.Terms.{term_of};
ghost use Rattle.an_policy.specs.Audience.{identity};
ghost use Rattle.an_state.specs.View.{view_of};
ghost use Rattle.an_trial.specs.Trial.{found_total, listed_total, total_in};

use crate::names::name;
use an_base::{Steps, TermTotal};
use an_complete::{AskError, asked_terms, read_ask};
use an_policy::{Caller, Who};
use an_query::{QueryError, SEARCH_PARAMETERS, read_query};
use an_snapshot::Snapshot;
use an_state::Look;
use an_terms::term_of;
use std::alloc::{AllocError, Global};
use std::sync::ledger::Ledger;

/// How many annotations a search with these parameters finds.
#[tactic(auto, unfolding(crate::specs::Trial::found_total))]
pub(crate) fn found_total<L: Ledger>(
    alloc: Global,
    look: &Snapshot,
    who: &Who<'_>,
    parameters: &str,
    steps: &mut Steps<L>,
) -> Result<usize, AllocError>
    ensures total { IfOk result (λ total. total
        ≡ found_total (view_of look.now.state (identity who.now)) parameters.now) }
{
    let manifest = name(alloc, "m1")?;
    match read_query(alloc, &SEARCH_PARAMETERS, parameters) {
        Ok(query) => an_search::found_total(alloc, look, who, &manifest, &query, steps),
        Err(QueryError::Memory) => Err(AllocError),
        Err(_) => Ok(0),
    }
}

/// The total of a word's term in a completion with these parameters.
#[tactic(auto, unfolding(crate::specs::Trial::listed_total))]
pub(crate) fn listed_total<L: Ledger>(
    alloc: Global,
    look: &Snapshot,
    who: &Who<'_>,
    parameters: &str,
    word: &str,
    steps: &mut Steps<L>,
) -> Result<u64, AllocError>
    ensures total { IfOk result (λ total. total
        ≡ listed_total (view_of look.now.state (identity who.now)) parameters.now word.now) }
{
    let manifest = name(alloc, "m1")?;
    match read_ask(alloc, parameters) {
        Ok(ask) => {
            let terms = asked_terms(alloc, look, who, &manifest, &ask, steps)?;
            total_of_word(alloc, word, terms.as_slice())
        }
        Err(AskError::Memory) => Err(AllocError),
        Err(_) => Ok(0),
    }
}

fn total_of_word(alloc: Global, word: &str, terms: &[TermTotal]) -> Result<u64, AllocError>
    ensures { IfOk result (λ total. total ≡ total_in (term_of word.now) terms.now) }
{
    let term = term_of(alloc, word)?;
    Ok(total_in(term.as_str(), terms))
}

/// The total of a term, 0 where it isn't listed.
fn total_in(term: &str, terms: &[TermTotal]) -> u64
    ensures { result ≡ total_in term.now terms.now }
{
    match listed_in(term, terms) {
        Some(listed) => listed.total,
        None => 0,
    }
}

fn listed_in<'a>(term: &str, terms: &'a [TermTotal]) -> Option<&'a TermTotal>
    ensures { option_copied result ≡ find (λ listed. bytes_eq listed.term term.now) terms.now }
{
    terms.iter().find(|listed| listed.term.as_str() == term)
}
