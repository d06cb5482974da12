ghost use Rattle.std.specs.Prelude.{◌≡◌, ℕ, ◌+◌, ◌≤◌, ◌++◌, ◌&&◌, List, filter, length, map, not};
ghost use Rattle.std.specs.Prelude.{IfOk, OnOk, slice_get};
ghost use Rattle.std.specs.Option.{option_copied};
ghost use Rattle.an_base.specs.Outcome.{passes};
ghost use Rattle.an_base.specs.TextSet.{ascending, has_text};
ghost use Rattle.an_policy.specs.Audience.{identity};
ghost use Rattle.an_state.specs.Places.{Rises};
ghost use Rattle.an_state.specs.View.{readable_places, sought_places, view_of};
ghost use Rattle.an_search.specs.Cost.{candidates};
ghost use Rattle.an_search.specs.Found.{candidate_places, is_first, is_suited_at, is_wanted_at};
ghost use Rattle.an_search.specs.Found.{suits, with_terms};
ghost use Rattle.an_search.specs.Held.{suited_of};
ghost use Rattle.an_search.specs.Known.{AreKnown};

use crate::known::{Last, known_first};
use crate::pieces::Pieces;
use crate::wanted::{Wanted, fits_but_terms, wants_terms_alone};
use an_base::{Name, Steps, Text};
use an_policy::Who;
use an_state::{Look, NoteRow};
use std::alloc::{AllocError, Global};
use std::sync::ledger::Ledger;

/// How many annotations are fetched before the first of them is judged.
const TOGETHER: usize = 64;

/// The places of the annotations on a manifest that the caller may read and that are wanted,
/// ascending. Each that has the first term is fetched once.
pub(crate) fn hit_places<T: Look, L: Ledger>(
    alloc: Global,
    look: &T,
    who: &Who<'_>,
    manifest: &Name,
    wanted: &Wanted,
    steps: &mut Steps<L>,
) -> Result<Vec<usize>, AllocError>
    ensures places { IfOk result (λ places. places.items
        ≡ filter (is_wanted_at (T.state look.now).notes wanted.now)
        (readable_places (T.state look.now) (identity who.now) manifest.now)) }
    ensures steps { OnOk result (steps.new ≡ steps.old + length (candidates
        (view_of (T.state look.now) (identity who.now)) manifest.now wanted.now.terms)) }
    ensures steps_most { steps.new ≤ steps.old + length (candidates
        (view_of (T.state look.now) (identity who.now)) manifest.now wanted.now.terms) }
    ensures steps_least { steps.old ≤ steps.new }
{
    hits_within(alloc, look, who, Some(manifest), wanted, steps)
}

/// The places of the wanted annotations that the caller may read, on this manifest, or where none
/// is named on any that it may read, ascending. Each that has the first term is fetched once. The
/// lists of the other terms say which of them have these, the shortest first, up to the first that
/// leaves none.
pub(crate) fn hits_within<T: Look, L: Ledger>(
    alloc: Global,
    look: &T,
    who: &Who<'_>,
    manifest: Option<&Name>,
    wanted: &Wanted,
    steps: &mut Steps<L>,
) -> Result<Vec<usize>, AllocError>
    ensures places { IfOk result (λ places. places.items
        ≡ filter (is_wanted_at (T.state look.now).notes wanted.now) (sought_places
        (T.state look.now) (identity who.now) (option_copied manifest.entry))) }
    ensures steps { OnOk result (steps.new ≡ steps.old + length (candidate_places
        (T.state look.now) (identity who.now) (option_copied manifest.entry) wanted.now.terms)) }
    ensures steps_most { steps.new ≤ steps.old + length (candidate_places
        (T.state look.now) (identity who.now) (option_copied manifest.entry) wanted.now.terms) }
    ensures steps_least { steps.old ≤ steps.new }
{
    let suited = suited_places(alloc, look, who, manifest, wanted, steps)?;
    let others = other_terms(alloc, look, who, manifest, &wanted.terms)?;
    with_terms(alloc, look, who, manifest, suited, others.as_slice())
}

/// The places of those of the candidates that have what is wanted but for terms. Where only terms
/// are wanted that are all of them: each is fetched, and none is read.
fn suited_places<T: Look, L: Ledger>(
    alloc: Global,
    look: &T,
    who: &Who<'_>,
    manifest: Option<&Name>,
    wanted: &Wanted,
    steps: &mut Steps<L>,
) -> Result<Vec<usize>, AllocError>
    ensures places { IfOk result (λ places. places.items
        ≡ filter (is_suited_at (T.state look.now).notes wanted.now) (candidate_places
        (T.state look.now) (identity who.now) (option_copied manifest.entry) wanted.now.terms)) }
    ensures steps { OnOk result (steps.new ≡ steps.old + length (candidate_places
        (T.state look.now) (identity who.now) (option_copied manifest.entry) wanted.now.terms)) }
    ensures steps_most { steps.new ≤ steps.old + length (candidate_places
        (T.state look.now) (identity who.now) (option_copied manifest.entry) wanted.now.terms) }
    ensures steps_least { steps.old ≤ steps.new }
{
    let terms = wanted.terms.as_slice();
    let places = candidate_places(alloc, look, who, manifest, terms)?;
    if wants_terms_alone(wanted) {
        fetch_each(look, places.as_slice(), steps);
        return Ok(places);
    }
    together(alloc, look, places.as_slice(), wanted, steps)
}

/// Fetches the annotation at each of these places, of which nothing has to be read.
fn fetch_each<T: Look, L: Ledger>(look: &T, places: &[usize], steps: &mut Steps<L>)
    ensures steps { steps.new ≡ steps.old + length places.now }
{
    for place in places {
        let _ = look.note_at(*place, steps);
    }
}

/// The places of the annotations that the caller may read and that have the first of the terms, or
/// of all where there is no term.
fn candidate_places<T: Look>(
    alloc: Global,
    look: &T,
    who: &Who<'_>,
    manifest: Option<&Name>,
    terms: &[Text],
) -> Result<Vec<usize>, AllocError>
    ensures { IfOk result (λ places. places.items
        ≡ candidate_places (T.state look.now) (identity who.now) (option_copied manifest.entry)
        terms.now) }
{
    match terms.first() {
        Some(term) => look.with_term(alloc, who, manifest, term.as_str()),
        None => look.readable(alloc, who, manifest),
    }
}

/// A place, and the annotation's row there.
#[derive(Clone, Copy)]
pub(crate) struct Held<'a> {
    pub(crate) place: usize,
    pub(crate) row: Option<&'a NoteRow>,
}

/// Those of the places where the annotations have what is wanted but for terms. Some are fetched
/// before the first of them is judged.
fn together<T: Look, L: Ledger>(
    alloc: Global,
    look: &T,
    places: &[usize],
    wanted: &Wanted,
    steps: &mut Steps<L>,
) -> Result<Vec<usize>, AllocError>
    ensures places { IfOk result (λ suited. suited.items
        ≡ filter (is_suited_at (T.state look.now).notes wanted.now) places.now) }
    ensures steps { OnOk result (steps.new ≡ steps.old + length places.now) }
    ensures steps_most { steps.new ≤ steps.old + length places.now }
    ensures steps_least { steps.old ≤ steps.new }
{
    let mut suited = Vec::with_capacity(alloc, places.len())?;
    let mut held = Vec::with_capacity(alloc, TOGETHER)?;
    let mut last = known_first(wanted);
    for place in places {
        held.push(held_at(look, *place, steps))?;
        if held.len() >= TOGETHER {
            suited = with_suited(suited, held.as_slice(), wanted, &mut last)?;
            held.clear();
        }
    }
    with_suited(suited, held.as_slice(), wanted, &mut last)
}

fn held_at<'a, T: Look, L: Ledger>(look: &'a T, place: usize, steps: &mut Steps<L>) -> Held<'a>
    ensures place { result.place ≡ place }
    ensures row { option_copied result.row ≡ slice_get (T.state look.now).notes place }
    ensures step { steps.new ≡ steps.old + 1 }
{
    let row = look.note_at(place, steps);
    Held { place, row }
}

/// The places, and those of these where the annotations have what is wanted but for terms.
#[tactic(auto, using(an_list::proofs::PieceLemmas::pieces_left))]
fn with_suited<'a>(
    suited: Vec<usize>,
    held: &[Held<'a>],
    wanted: &Wanted,
    last: &mut Last<'a>,
) -> Result<Vec<usize>, AllocError>
    requires known { AreKnown wanted.now last.old }
    ensures suited { IfOk result
        (λ places. places.items ≡ suited.items ++ suited_of wanted.now held.now) }
    ensures known { OnOk result (AreKnown wanted.now last.new) }
{
    let mut suited = suited;
    suited.reserve(read_ahead(held, wanted))?;
    for one in held {
        if is_suited(one.row, wanted, last) {
            suited.push(one.place)?;
        }
    }
    Ok(suited)
}

/// About how many of them may suit. Nothing is promised of it. What is read here of an annotation
/// isn't waited for when it is judged; and these reads, unlike those of one annotation after the
/// other, don't wait for each other.
fn read_ahead(held: &[Held<'_>], wanted: &Wanted) -> usize {
    if wants_terms_alone(wanted) {
        return 0;
    }
    let live = live_count(held);
    if wanted.iris.as_slice().is_empty() && wanted.motivations.as_slice().is_empty() {
        return live;
    }
    live.min(motivation_count(held))
}

fn live_count(held: &[Held<'_>]) -> usize {
    let mut count = 0usize;
    for one in held {
        match one.row {
            Some(row) => count = count.saturating_add(one_if(row.live().is_some())),
            None => {}
        }
    }
    count
}

fn one_if(test: bool) -> usize {
    if test { 1 } else { 0 }
}

fn motivation_count(held: &[Held<'_>]) -> usize {
    let mut count = 0usize;
    for one in held {
        match one.row {
            Some(row) => count = count.saturating_add(motivation_count_of(row)),
            None => {}
        }
    }
    count
}

fn motivation_count_of(row: &NoteRow) -> usize {
    match row.live() {
        Some(live) => live.tree.motivations().len(),
        None => 0,
    }
}

/// Whether there is an annotation that was deleted or has what is wanted but for terms.
fn is_suited<'a>(row: Option<&'a NoteRow>, wanted: &Wanted, last: &mut Last<'a>) -> bool
    requires known { AreKnown wanted.now last.old }
    ensures suited { result ≡ passes (suits wanted.now) (option_copied row.entry) }
    ensures known { AreKnown wanted.now last.new }
{
    match row {
        Some(row) => suits(row, wanted, last),
        None => false,
    }
}

/// Whether the annotation was deleted or has what is wanted but for terms. Where only terms are
/// wanted nothing of it is read.
fn suits<'a>(row: &'a NoteRow, wanted: &Wanted, last: &mut Last<'a>) -> bool
    requires known { AreKnown wanted.now last.old }
    ensures suits { result ≡ suits wanted.now row.now }
    ensures known { AreKnown wanted.now last.new }
{
    if wants_terms_alone(wanted) {
        return true;
    }
    match row.live() {
        Some(live) => fits_but_terms(&live, wanted, last),
        None => true,
    }
}

/// A term, and how long its lists are.
#[derive(Drop)]
struct Weighed {
    term: Text,
    weight: usize,
}

/// The terms but for the first, each once, those with the shortest lists first.
fn other_terms<T: Look>(
    alloc: Global,
    look: &T,
    who: &Who<'_>,
    manifest: Option<&Name>,
    terms: &Pieces,
) -> Result<Vec<Weighed>, AllocError>
    ensures { IfOk result (λ others. (term : List ℕ)
        → has_text term (map (λ other. other.term) others.items)
        ≡ (has_text term terms.now && not (is_first term terms.now))) }
{
    let mut others = weighed_terms(alloc, look, who, manifest, terms)?;
    others.sort_unstable_by_key(|other| other.weight);
    Ok(others)
}

/// The terms but for the first, each once.
#[tactic(auto, using(an_list::proofs::PieceLemmas::pieces_left))]
fn weighed_terms<T: Look>(
    alloc: Global,
    look: &T,
    who: &Who<'_>,
    manifest: Option<&Name>,
    terms: &Pieces,
) -> Result<Vec<Weighed>, AllocError>
    ensures { IfOk result (λ others. map (λ other. other.term) others.items
        ≡ filter (λ term. not (is_first term terms.now)) (ascending terms.now)) }
{
    let ordered = terms.ordered();
    let mut others = Vec::new(alloc);
    for place in 0..ordered.len() {
        let term = ordered.text(place);
        if !is_first(terms.as_slice(), term) {
            others.push(with_weight(alloc, look, who, manifest, term)?)?;
        }
    }
    Ok(others)
}

fn with_weight<T: Look>(
    alloc: Global,
    look: &T,
    who: &Who<'_>,
    manifest: Option<&Name>,
    term: &str,
) -> Result<Weighed, AllocError>
    ensures { IfOk result (λ weighed. weighed.term ≡ term.now) }
{
    let weight = look.term_weight(who, manifest, term);
    let term = Text::new(alloc, term)?;
    Ok(Weighed { term, weight })
}

/// Whether the term is the first of these.
fn is_first(terms: &[Text], term: &str) -> bool
    ensures { result ≡ is_first term.now terms.now }
{
    match terms.first() {
        Some(first) => first.as_str() == term,
        None => false,
    }
}

/// Those of the places, which rise, where the annotations have each of the terms. Once none is left
/// no more terms are looked at.
fn with_terms<T: Look>(
    alloc: Global,
    look: &T,
    who: &Who<'_>,
    manifest: Option<&Name>,
    places: Vec<usize>,
    terms: &[Weighed],
) -> Result<Vec<usize>, AllocError>
    requires rise { Rises 0 places.items }
    ensures { IfOk result (λ having. having.items ≡ with_terms (T.state look.now)
        (identity who.now) (option_copied manifest.entry) places.items
        (map (λ other. other.term) terms.now)) }
{
    let mut having = places;
    for other in terms {
        if having.is_empty() {
            return Ok(having);
        }
        let term = other.term.as_str();
        having = look.among_with_term(alloc, who, manifest, term, having.as_slice())?;
    }
    Ok(having)
}
