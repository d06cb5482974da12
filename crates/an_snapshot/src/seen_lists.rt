ghost use Rattle.std.specs.Prelude.{◌≡◌, ◌^◌, ◌<◌, ◌≤◌, All, IfOk, ℕ, map, max};
ghost use Rattle.an_slots.specs.Places.{Rises};
ghost use Rattle.an_snapshot.specs.PairLists.{all_below, count_below, lists_seen};

use crate::pair_lists::PairLists;
use an_policy::Kind;
use std::alloc::{AllocError, Global};

/// The lists of what is of some kind for the caller.
pub(crate) fn lists_seen<'a>(
    alloc: Global,
    lists: &'a PairLists,
    kinds: &[Option<Kind>],
) -> Result<Vec<&'a [u32]>, AllocError>
    ensures lists { IfOk result
        (λ seen. map (λ l. l.now) seen.items ≡ lists_seen kinds.now lists.now.lists) }
{
    let mut seen = Vec::new(alloc);
    for (number, kind) in kinds.iter().enumerate() {
        let Some(list) = lists.list(number) else {
            return Ok(seen);
        };
        if kind.is_some() {
            seen.push(list)?;
        }
    }
    Ok(seen)
}

/// A place up to the end that no more than so many places of the lists stand below: the last such.
pub(crate) fn place_with(lists: &[&[u32]], end: usize, count: usize) -> usize
    requires rise { All (λ list. Rises 0 list.now) lists.now }
    requires few { (place : ℕ) → all_below place (map (λ l. l.now) lists.now) < 2 ^ 64 }
    ensures within { result ≤ end }
    ensures few { all_below result (map (λ l. l.now) lists.now) ≤ count }
{
    let mut low = 0;
    let mut high = end;
    while low < high {
        let middle = high - (high - low) / 2;
        if all_below(lists, middle) <= count {
            low = middle;
        } else {
            high = middle - 1;
        }
    }
    low
}

/// The next place from this one on that is in the lists and before the end, or else the end. From
/// the end on it is this one itself.
pub(crate) fn next_place(lists: &[&[u32]], end: usize, place: usize) -> usize
    requires rise { All (λ list. Rises 0 list.now) lists.now }
    requires few { (place : ℕ) → all_below place (map (λ l. l.now) lists.now) < 2 ^ 64 }
    ensures after { place ≤ result }
    ensures within { result ≤ max place end }
    ensures few { all_below result (map (λ l. l.now) lists.now)
        ≤ all_below place (map (λ l. l.now) lists.now) }
{
    let next = place_with(lists, end, all_below(lists, place));
    if place < next { next } else { place }
}

/// How many places of the lists stand below this one.
pub(crate) fn all_below(lists: &[&[u32]], place: usize) -> usize
    requires rise { All (λ list. Rises 0 list.now) lists.now }
    requires few { all_below place (map (λ l. l.now) lists.now) < 2 ^ 64 }
    ensures count { result ≡ all_below place (map (λ l. l.now) lists.now) }
{
    let mut count = 0;
    for list in lists {
        count += count_below(list, place);
    }
    count
}

fn count_below(places: &[u32], place: usize) -> usize
    requires rises { Rises 0 places.now }
    ensures { result ≡ count_below place places.now }
{
    places.partition_point(|p| (*p as usize) < place)
}
