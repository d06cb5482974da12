ghost use Rattle.std.specs.Prelude.{◌≡◌, ◌+◌, ◌≤◌, List, [], ◌∷◌, ◌++◌, filter, length, slice_get};
ghost use Rattle.std.specs.Prelude.{IfOk, IsTrue, OnOk};
ghost use Rattle.std.specs.List.{filter_map};
ghost use Rattle.std.specs.Option.{option_copied};
ghost use Rattle.an_policy.specs.Audience.{identity};
ghost use Rattle.an_state.specs.State.{NoteState};
ghost use Rattle.an_state.specs.Terms.{totals_in};
ghost use Rattle.an_state.specs.View.{is_sought, view_of};
ghost use Rattle.an_search.specs.Known.{AreKnown};
ghost use Rattle.an_search.specs.Wanted.{matches};
ghost use Rattle.an_search.specs.Gathered.{all_names, each_once, lent_names, searched};
ghost use Rattle.an_complete.specs.Complete.{asked_notes, asked_notes_on, first_terms, is_enough};
ghost use Rattle.an_complete.specs.Cost.{filter_cost, filter_cost_on, sought_cost};

use an_base::{Name, Steps, TermTotal, TermTotals};
use an_policy::Who;
use an_search::{Last, Scope, Wanted, known_first, matches_after, wants_nothing};
use an_state::{Look, NoteRow, add_terms_of, manifests_are_distinct};
use std::alloc::{AllocError, Global};
use std::sync::ledger::Ledger;

/// How many terms are given at most.
const MOST_TERMS: usize = 100;

/// How often each term with this prefix occurs in the annotations on a manifest that the caller may
/// read and that the filters let pass. Without a filter it takes no step, and else one for each
/// annotation on the manifest that the caller may read.
pub(crate) fn asked_totals<T: Look, L: Ledger>(
    alloc: Global,
    look: &T,
    who: &Who<'_>,
    manifest: &Name,
    prefix: &str,
    filters: &Wanted,
    steps: &mut Steps<L>,
) -> Result<Vec<TermTotal>, AllocError>
    ensures totals { IfOk result (λ totals. totals.items ≡ totals_in prefix.now
        (asked_notes (view_of (T.state look.now) (identity who.now)) manifest.now filters.now)) }
    ensures steps { OnOk result (steps.new ≡ steps.old + filter_cost
        (view_of (T.state look.now) (identity who.now)) manifest.now filters.now) }
    ensures steps_most { steps.new ≤ steps.old + filter_cost
        (view_of (T.state look.now) (identity who.now)) manifest.now filters.now }
    ensures steps_least { steps.old ≤ steps.new }
{
    totals_within(alloc, look, who, Some(manifest), prefix, filters, steps)
}

/// The same on all manifests that the caller may read, or on these, each of which is named once.
pub(crate) fn totals_among<T: Look, L: Ledger>(
    alloc: Global,
    look: &T,
    who: &Who<'_>,
    scope: Scope,
    manifests: &[&Name],
    prefix: &str,
    filters: &Wanted,
    steps: &mut Steps<L>,
) -> Result<Vec<TermTotal>, AllocError>
    requires once { IsTrue (each_once (lent_names manifests.now)) }
    ensures totals { IfOk result (λ totals. totals.items ≡ totals_in prefix.now (asked_notes_on
        (view_of (T.state look.now) (identity who.now))
        (searched (view_of (T.state look.now) (identity who.now)) scope manifests.now)
        filters.now)) }
    ensures steps { OnOk result (steps.new ≡ steps.old + filter_cost_on
        (view_of (T.state look.now) (identity who.now)) filters.now
        (searched (view_of (T.state look.now) (identity who.now)) scope manifests.now)) }
    ensures steps_most { steps.new ≤ steps.old + filter_cost_on
        (view_of (T.state look.now) (identity who.now)) filters.now
        (searched (view_of (T.state look.now) (identity who.now)) scope manifests.now) }
    ensures steps_least { steps.old ≤ steps.new }
{
    match scope {
        Scope::All => all_totals(alloc, look, who, prefix, filters, steps),
        Scope::Named => totals_on(alloc, look, who, manifests, prefix, filters, steps),
    }
}

/// The same on these manifests.
fn totals_on<T: Look, L: Ledger>(
    alloc: Global,
    look: &T,
    who: &Who<'_>,
    manifests: &[&Name],
    prefix: &str,
    filters: &Wanted,
    steps: &mut Steps<L>,
) -> Result<Vec<TermTotal>, AllocError>
    requires once { IsTrue (each_once (lent_names manifests.now)) }
    ensures totals { IfOk result (λ totals. totals.items ≡ totals_in prefix.now
        (asked_notes_on (view_of (T.state look.now) (identity who.now)) (lent_names manifests.now)
        filters.now)) }
    ensures steps { OnOk result (steps.new ≡ steps.old + filter_cost_on
        (view_of (T.state look.now) (identity who.now)) filters.now (lent_names manifests.now)) }
    ensures steps_most { steps.new ≤ steps.old + filter_cost_on
        (view_of (T.state look.now) (identity who.now)) filters.now (lent_names manifests.now) }
    ensures steps_least { steps.old ≤ steps.new }
{
    let mut totals = TermTotals::new(alloc);
    for manifest in manifests {
        let more = asked_totals(alloc, look, who, manifest, prefix, filters, steps)?;
        totals.add_totals(more.as_slice())?;
    }
    totals.into_vec()
}

/// The same on all manifests that the caller may read, which are not asked one by one.
fn all_totals<T: Look, L: Ledger>(
    alloc: Global,
    look: &T,
    who: &Who<'_>,
    prefix: &str,
    filters: &Wanted,
    steps: &mut Steps<L>,
) -> Result<Vec<TermTotal>, AllocError>
    ensures totals { IfOk result (λ totals. totals.items ≡ totals_in prefix.now
        (asked_notes_on (view_of (T.state look.now) (identity who.now))
        (all_names (view_of (T.state look.now) (identity who.now))) filters.now)) }
    ensures steps { OnOk result (steps.new ≡ steps.old + filter_cost_on
        (view_of (T.state look.now) (identity who.now)) filters.now
        (all_names (view_of (T.state look.now) (identity who.now)))) }
    ensures steps_most { steps.new ≤ steps.old + filter_cost_on
        (view_of (T.state look.now) (identity who.now)) filters.now
        (all_names (view_of (T.state look.now) (identity who.now))) }
    ensures steps_least { steps.old ≤ steps.new }
{
    manifests_are_distinct(look);
    totals_within(alloc, look, who, None, prefix, filters, steps)
}

/// The same on this manifest, or where none is named on any that the caller may read.
fn totals_within<T: Look, L: Ledger>(
    alloc: Global,
    look: &T,
    who: &Who<'_>,
    manifest: Option<&Name>,
    prefix: &str,
    filters: &Wanted,
    steps: &mut Steps<L>,
) -> Result<Vec<TermTotal>, AllocError>
    ensures totals { IfOk result (λ totals. totals.items ≡ totals_in prefix.now
        (filter (matches filters.now) (filter (is_sought (T.state look.now) (identity who.now)
        (option_copied manifest.entry)) (T.state look.now).notes))) }
    ensures steps { OnOk result (steps.new ≡ steps.old + sought_cost (T.state look.now)
        (identity who.now) (option_copied manifest.entry) filters.now) }
    ensures steps_most { steps.new ≤ steps.old + sought_cost (T.state look.now)
        (identity who.now) (option_copied manifest.entry) filters.now }
    ensures steps_least { steps.old ≤ steps.new }
{
    if wants_nothing(filters) {
        look.terms_from(alloc, who, manifest, prefix)
    } else {
        let places = look.readable(alloc, who, manifest)?;
        count(alloc, look, places.as_slice(), prefix, filters, steps)
    }
}

/// The same of the annotations at these places.
fn count<T: Look, L: Ledger>(
    alloc: Global,
    look: &T,
    places: &[usize],
    prefix: &str,
    filters: &Wanted,
    steps: &mut Steps<L>,
) -> Result<Vec<TermTotal>, AllocError>
    ensures totals { IfOk result (λ totals. totals.items ≡ totals_in prefix.now
        (filter (matches filters.now)
        (filter_map (slice_get (T.state look.now).notes) places.now))) }
    ensures steps { OnOk result (steps.new ≡ steps.old + length places.now) }
    ensures steps_most { steps.new ≤ steps.old + length places.now }
    ensures steps_least { steps.old ≤ steps.new }
{
    let mut totals = TermTotals::new(alloc);
    let mut last = known_first(filters);
    for place in places {
        match look.note_at(*place, steps) {
            Some(row) => try_row(&mut totals, row, prefix, filters, &mut last)?,
            None => {}
        }
    }
    totals.into_vec()
}

/// Counts the terms of the annotation if the filters let it pass.
fn try_row<'a>(
    totals: &mut TermTotals,
    row: &'a NoteRow,
    prefix: &str,
    filters: &Wanted,
    last: &mut Last<'a>,
) -> Result<(), AllocError>
    requires known { AreKnown filters.now last.old }
    ensures row { OnOk result ((rows : List NoteState) → totals.old ≡ totals_in prefix.now rows
        → totals.new ≡ totals_in prefix.now (rows ++ filter (matches filters.now) (row.now ∷ []))) }
    ensures known { OnOk result (AreKnown filters.now last.new) }
{
    if matches_after(row, filters, last) {
        add_terms_of(totals, row, prefix)
    } else {
        Ok(())
    }
}

/// The first of the terms that occur often enough.
pub(crate) fn first_terms(
    alloc: Global,
    min: Option<u32>,
    terms: Vec<TermTotal>,
) -> Result<Vec<TermTotal>, AllocError>
    ensures first { IfOk result (λ first. first.items ≡ first_terms min terms.items) }
{
    terms
        .into_iter()
        .filter(|term| is_enough(min, term))
        .take(MOST_TERMS)
        .collect(alloc)
}

/// Whether the term occurs often enough: once, where no number is given.
fn is_enough(min: Option<u32>, term: &TermTotal) -> bool
    ensures { result ≡ is_enough min term.now }
{
    match min {
        Some(min) => u64::from(min) <= term.total,
        None => 1 <= term.total,
    }
}
