ghost use Rattle.std.specs.Prelude.{◌≡◌, ◌<◌, IfOk, filter};
ghost use Rattle.std.specs.List.{All};
ghost use Rattle.an_slots.specs.Places.{Rises, has};
ghost use Rattle.an_postings.specs.Walk.{is_first, not_below};

use crate::marks::{common_by_marks, push_if};
use std::alloc::{AllocError, Global};

/// A table is made where it has at most so many places for each that is looked at.
const DENSE: usize = 8;

/// Those of the places that are among others. Both ascend. They are looked up in a table where they
/// are dense, and else walked along.
pub(crate) fn common(
    alloc: Global,
    places: &[usize],
    others: &[u32],
) -> Result<Vec<usize>, AllocError>
    requires places { Rises 0 places.now }
    requires others { Rises 0 others.now }
    ensures common { IfOk result (λ common. common.items
        ≡ filter (λ place. has place others.now) places.now) }
{
    let end = end_of(others);
    if end / DENSE > places.len() + others.len() {
        return walked(alloc, places, others);
    }
    common_by_marks(alloc, places, others, end)
}

/// One more than the last of the places, which ascend.
fn end_of(places: &[u32]) -> usize
    requires rises { Rises 0 places.now }
    ensures below { All (λ place. place < result) places.now }
{
    let count = places.len();
    if count == 0 {
        return 0;
    }
    places[count - 1] as usize + 1
}

/// The same by one walk along both.
fn walked(alloc: Global, places: &[usize], others: &[u32]) -> Result<Vec<usize>, AllocError>
    requires places { Rises 0 places.now }
    requires others { Rises 0 others.now }
    ensures common { IfOk result (λ common. common.items
        ≡ filter (λ place. has place others.now) places.now) }
{
    let mut common = Vec::with_capacity(alloc, places.len())?;
    let mut rest = others;
    for place in places {
        rest = not_below(rest, *place);
        push_if(&mut common, *place, is_first(rest, *place));
    }
    Ok(common)
}

/// The places from the first on that isn't below this one.
fn not_below(places: &[u32], least: usize) -> &[u32]
    ensures { result.now ≡ not_below least places.now }
{
    for (at, place) in places.iter().enumerate() {
        if *place as usize >= least {
            return &places[at..];
        }
    }
    &[]
}

/// Whether the place is the first of these.
fn is_first(places: &[u32], place: usize) -> bool
    ensures { result ≡ is_first place places.now }
{
    match places.first() {
        Some(first) => *first as usize == place,
        None => false,
    }
}
