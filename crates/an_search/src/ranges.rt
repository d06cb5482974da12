ghost use Rattle.std.specs.Prelude.{◌≡◌, ℤ, IfOk, int_le, slice_get, true};
ghost use Rattle.std.specs.List.{list_any};
ghost use Rattle.an_base.specs.Outcome.{passes};
ghost use Rattle.an_search.specs.Ordered.{Joins, are_ordered, begin_in_order, joined_from};
ghost use Rattle.an_query.specs.Dates.{is_in};

use an_base::{List, Moment};
use an_query::DateRange;
use std::alloc::{AllocError, Global};
use std::marker::Model;

/// Ranges of moments, and others that have the same moments, of which each begins and ends no
/// earlier than those before it, so that a moment is found among many in few steps. Contracts see
/// the ranges that were given.
#[derive(Debug, Drop)]
pub struct Ranges {
    given: List<DateRange>,
    joined: List<DateRange>,
}

impl Model for Ranges {
    ghost use Rattle.std.specs.Prelude.{List};
    ghost use Rattle.an_search.specs.Ordered.{Joins};
    ghost use Rattle.an_query.specs.declared.dates.DateRange.{DateRange};

    ghost Value = { List DateRange };

    ghost view = { λ r. r.given };

    ghost invariant = { λ r. Joins r.given r.joined };
}

impl Ranges {
    pub(crate) fn of(alloc: Global, given: List<DateRange>) -> Result<Ranges, AllocError>
        ensures value { IfOk result (λ ranges. ranges ≡ given) }
    {
        let joined = joined(alloc, given.as_slice())?;
        Ok(Ranges { given, joined })
    }

    /// The ranges as they were given.
    pub fn as_slice(&self) -> &[DateRange]
        ensures value { result.now ≡ self.now }
    {
        self.given.as_slice()
    }

    /// Whether the moment lies in one of them.
    pub fn has(&self, moment: Moment) -> bool
        ensures found { result ≡ list_any (is_in moment) self.now }
    {
        lies_in(self.joined.as_slice(), moment)
    }
}

/// Ranges that have the same moments, of which each begins and ends no earlier than those before
/// it.
fn joined(alloc: Global, ranges: &[DateRange]) -> Result<List<DateRange>, AllocError>
    ensures { IfOk result (λ joined. Joins ranges.now joined) }
{
    let ordered = ordered(alloc, ranges)?;
    match ordered.first() {
        Some(first) => joined_from(alloc, first.to, ordered.as_slice()),
        None => Ok(List::new(alloc)),
    }
}

/// The ranges in the order in which they begin.
fn ordered(alloc: Global, ranges: &[DateRange]) -> Result<Vec<DateRange>, AllocError>
    ensures order { IfOk result (λ ordered. begin_in_order ordered.items ≡ true) }
    ensures same { IfOk result (λ ordered. (moment : ℤ)
        → list_any (is_in moment) ordered.items ≡ list_any (is_in moment) ranges.now) }
{
    let mut ordered = Vec::from_slice(alloc, ranges)?;
    ordered.sort_unstable_by_key(|range| range.from.seconds());
    Ok(ordered)
}

/// The ranges, each up to the latest end so far, of which the first is `reach`.
#[tactic(auto, using(an_list::proofs::PieceLemmas::pieces_left))]
fn joined_from(
    alloc: Global,
    reach: Moment,
    ranges: &[DateRange],
) -> Result<List<DateRange>, AllocError>
    ensures { IfOk result (λ joined. joined ≡ joined_from reach ranges.now) }
{
    let mut joined = Vec::with_capacity(alloc, ranges.len())?;
    let mut reach = reach;
    for range in ranges {
        reach = reach.later(range.to);
        joined.push(DateRange {
            from: range.from,
            to: reach,
        })?;
    }
    Ok(List::from_vec(joined))
}

/// Whether the moment lies in one of the ranges: in the first that doesn't end before it, or in
/// none.
fn lies_in(ranges: &[DateRange], moment: Moment) -> bool
    requires ordered { are_ordered ranges.now ≡ true }
    ensures { result ≡ list_any (is_in moment) ranges.now }
{
    let place = ranges.partition_point(|range| range.to < moment);
    has_begun_at(ranges, place, moment)
}

/// Whether there is a range at the place that begins at the moment or before.
fn has_begun_at(ranges: &[DateRange], place: usize, moment: Moment) -> bool
    ensures { result
        ≡ passes (λ range. int_le range.from moment) (slice_get ranges.now place) }
{
    match ranges.get(place) {
        Some(range) => range.from <= moment,
        None => false,
    }
}
