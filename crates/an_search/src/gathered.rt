ghost use Rattle.std.specs.Prelude.{◌≡◌, ◌+◌, ◌≤◌, IfOk, OnOk};
ghost use Rattle.std.specs.List.{flat_map};
ghost use Rattle.an_base.specs.Outcome.{Gives};
ghost use Rattle.an_list.specs.Cost.{Takes};
ghost use Rattle.an_policy.specs.Audience.{identity};
ghost use Rattle.an_slots.specs.Places.{ascending};
ghost use Rattle.an_state.specs.View.{view_of};
ghost use Rattle.an_list.specs.Listed.{StandAt};
ghost use Rattle.an_search.specs.Gathered.{all_names, find_cost_on, hits_at, hits_on, lent_names};
ghost use Rattle.an_search.specs.Gathered.{search_cost_on, searched};
ghost use Rattle.an_search.specs.Search.{found_text};
ghost use Rattle.an_search.specs.Wanted.{wanted_of};

use crate::hits::{hit_places, hits_within};
use crate::searching::page_at;
use crate::wanted::{Wanted, wanted_of};
use an_base::{Bytes, Name, Steps};
use an_list::{PagedList, ReadError, Site};
use an_policy::Who;
use an_query::Query;
use an_slots::merge;
use an_state::{Look, manifests_are_distinct};
use std::alloc::{AllocError, Global};
use std::sync::ledger::Ledger;

/// The manifests whose annotations are searched: all that the caller may read, or those that are
/// named beside it.
#[derive(Clone, Copy)]
pub enum Scope {
    All,
    Named,
}

/// A page of a search in the annotations on all manifests that the caller may read, or on these,
/// each of which it may read (IIIF Content Search API 2.0). It is served as a page of `whole`. Each
/// that has the first word is fetched once, and each on the page once more. `Absent` is never the
/// answer.
pub fn search_on<T: Look, L: Ledger>(
    alloc: Global,
    look: &T,
    who: &Who<'_>,
    scope: Scope,
    manifests: &[&Name],
    whole: &PagedList,
    query: &Query,
    site: &Site,
    steps: &mut Steps<L>,
) -> Result<Bytes, ReadError>
    ensures answer { Gives (λ page. page) ReadError.Memory result
        (found_text site.now whole.now query.now (hits_on
        (view_of (T.state look.now) (identity who.now))
        (searched (view_of (T.state look.now) (identity who.now)) scope manifests.now)
        (wanted_of query.now))) }
    ensures steps { Takes ReadError.Memory result steps.old steps.new (search_cost_on site.now
        (view_of (T.state look.now) (identity who.now))
        (searched (view_of (T.state look.now) (identity who.now)) scope manifests.now)
        query.now) }
    ensures steps_most { steps.new ≤ steps.old + search_cost_on site.now
        (view_of (T.state look.now) (identity who.now))
        (searched (view_of (T.state look.now) (identity who.now)) scope manifests.now)
        query.now }
    ensures steps_least { steps.old ≤ steps.new }
{
    let wanted = wanted_of(alloc, query)?;
    let places = hits_among(alloc, look, who, scope, manifests, &wanted, steps)?;
    let terms = wanted.terms.as_slice();
    page_at(
        alloc,
        look,
        whole,
        query,
        site,
        places.as_slice(),
        terms,
        steps,
    )
}

/// The places of the wanted annotations on all manifests that the caller may read, or on these.
fn hits_among<T: Look, L: Ledger>(
    alloc: Global,
    look: &T,
    who: &Who<'_>,
    scope: Scope,
    manifests: &[&Name],
    wanted: &Wanted,
    steps: &mut Steps<L>,
) -> Result<Vec<usize>, AllocError>
    ensures stand { IfOk result (λ places. StandAt (T.state look.now).notes places.items (hits_on
        (view_of (T.state look.now) (identity who.now))
        (searched (view_of (T.state look.now) (identity who.now)) scope manifests.now)
        wanted.now)) }
    ensures steps { OnOk result (steps.new ≡ steps.old + find_cost_on
        (view_of (T.state look.now) (identity who.now))
        (searched (view_of (T.state look.now) (identity who.now)) scope manifests.now)
        wanted.now.terms) }
    ensures steps_most { steps.new ≤ steps.old + find_cost_on
        (view_of (T.state look.now) (identity who.now))
        (searched (view_of (T.state look.now) (identity who.now)) scope manifests.now)
        wanted.now.terms }
    ensures steps_least { steps.old ≤ steps.new }
{
    match scope {
        Scope::All => all_hits(alloc, look, who, wanted, steps),
        Scope::Named => hits_on(alloc, look, who, manifests, wanted, steps),
    }
}

/// The places of the wanted annotations on all manifests that the caller may read, which are found
/// without a walk over these.
fn all_hits<T: Look, L: Ledger>(
    alloc: Global,
    look: &T,
    who: &Who<'_>,
    wanted: &Wanted,
    steps: &mut Steps<L>,
) -> Result<Vec<usize>, AllocError>
    ensures stand { IfOk result (λ places. StandAt (T.state look.now).notes places.items (hits_on
        (view_of (T.state look.now) (identity who.now))
        (all_names (view_of (T.state look.now) (identity who.now))) wanted.now)) }
    ensures steps { OnOk result (steps.new ≡ steps.old + find_cost_on
        (view_of (T.state look.now) (identity who.now))
        (all_names (view_of (T.state look.now) (identity who.now))) wanted.now.terms) }
    ensures steps_most { steps.new ≤ steps.old + find_cost_on
        (view_of (T.state look.now) (identity who.now))
        (all_names (view_of (T.state look.now) (identity who.now))) wanted.now.terms }
    ensures steps_least { steps.old ≤ steps.new }
{
    manifests_are_distinct(look);
    hits_within(alloc, look, who, None, wanted, steps)
}

/// The places of the annotations on these manifests that the caller may read and that are wanted,
/// ascending: those of each half of the manifests, merged.
fn hits_on<T: Look, L: Ledger>(
    alloc: Global,
    look: &T,
    who: &Who<'_>,
    manifests: &[&Name],
    wanted: &Wanted,
    steps: &mut Steps<L>,
) -> Result<Vec<usize>, AllocError>
    ensures places { IfOk result (λ places. places.items ≡ ascending (flat_map
        (hits_at (T.state look.now) (identity who.now) wanted.now) (lent_names manifests.now))) }
    ensures steps { OnOk result (steps.new ≡ steps.old + find_cost_on
        (view_of (T.state look.now) (identity who.now)) (lent_names manifests.now)
        wanted.now.terms) }
    ensures steps_most { steps.new ≤ steps.old + find_cost_on
        (view_of (T.state look.now) (identity who.now)) (lent_names manifests.now)
        wanted.now.terms }
    ensures steps_least { steps.old ≤ steps.new }
{
    let count = manifests.len();
    if count == 0 {
        return Ok(Vec::new(alloc));
    }
    if count == 1 {
        return hit_places(alloc, look, who, manifests[0], wanted, steps);
    }
    let half = count / 2;
    let front = hits_on(alloc, look, who, &manifests[..half], wanted, steps)?;
    let back = hits_on(alloc, look, who, &manifests[half..], wanted, steps)?;
    merge(alloc, front.as_slice(), back.as_slice())
}
