ghost use Rattle.std.specs.Prelude.{◌≡◌, fold};
ghost use Rattle.an_anchor.specs.Resolve.{distance, nearer, nearest};

use crate::anchored::AnchorPlace;

/// The place that begins nearest to the start, the first of equals.
#[tactic(auto, using(crate::proofs::NearLemmas::walks))]
pub(crate) fn nearest(start: usize, places: &[AnchorPlace]) -> Option<AnchorPlace>
    ensures { result ≡ nearest start places.now }
{
    match places.split_first() {
        Some((first, others)) => Some(nearest_of(start, *first, others)),
        None => None,
    }
}

/// The one of a place and of others after it that begins nearest to the start.
fn nearest_of(start: usize, first: AnchorPlace, others: &[AnchorPlace]) -> AnchorPlace
    ensures { result ≡ fold (nearer start) first others.now }
{
    let mut best = first;
    for other in others {
        best = nearer(start, best, *other);
    }
    best
}

/// The one of two that begins nearer, the first of equals.
fn nearer(start: usize, one: AnchorPlace, other: AnchorPlace) -> AnchorPlace
    ensures { result ≡ nearer start one other }
{
    if distance(start, other) < distance(start, one) {
        other
    } else {
        one
    }
}

/// How far from a start a place begins.
fn distance(start: usize, place: AnchorPlace) -> usize
    ensures { result ≡ distance start place }
{
    place.span.start.abs_diff(start)
}
