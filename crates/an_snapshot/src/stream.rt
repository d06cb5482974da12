ghost use Rattle.std.specs.Prelude.{◌≡◌, ◌^◌, ◌<◌, ◌≤◌, IfOk, drop, length, take};
ghost use Rattle.an_snapshot.specs.Changes.{seen_by_kinds};
ghost use Rattle.an_snapshot.specs.PairLists.{kind_at};
ghost use Rattle.an_snapshot.specs.Stream.{IsStream};

use crate::change::FiledChange;
use crate::pair_lists::PairLists;
use crate::seen_lists::{all_below, next_place, place_with};
use an_policy::Kind;
use an_state::Seen;
use std::alloc::{AllocError, Global};

/// So many changes in a row that aren't seen are walked over for each list, before the next that is
/// seen is looked for in the lists: it takes about as long.
const REACH: usize = 256;

/// Changes, what those of each pair are for a caller, and the lists of what it sees.
#[derive(Drop)]
pub(crate) struct Stream<'a> {
    pub rows: &'a [FiledChange],
    pub kinds: &'a [Option<Kind>],
    pub filed: &'a PairLists,
    pub lists: &'a [&'a [u32]],
}

/// Of the changes that the caller sees those from `start` on, and at most `count` of them.
pub(crate) fn page(
    alloc: Global,
    stream: &Stream<'_>,
    start: usize,
    count: usize,
) -> Result<Vec<Seen>, AllocError>
    requires stream { IsStream stream.now }
    ensures page { IfOk result (λ seen. seen.items ≡ take count (drop start
        (seen_by_kinds stream.now.kinds.now stream.now.rows.now))) }
{
    let place = place_behind(stream, start);
    first_seen(alloc, stream, place, count)
}

/// Where the changes begin that come after so many which the caller sees.
fn place_behind(stream: &Stream<'_>, count: usize) -> usize
    requires stream { IsStream stream.now }
    ensures within { result ≤ length stream.now.rows.now }
    ensures behind { seen_by_kinds stream.now.kinds.now (drop result stream.now.rows.now)
        ≡ drop count (seen_by_kinds stream.now.kinds.now stream.now.rows.now) }
{
    let place = place_with(stream.lists, stream.filed.count(), count);
    let left = count - all_below(stream.lists, place);
    place + walk_past(&stream.rows[place..], stream.kinds, left)
}

/// The same by a walk over the changes.
fn walk_past(changes: &[FiledChange], kinds: &[Option<Kind>], count: usize) -> usize
    ensures within { result ≤ length changes.now }
    ensures behind { seen_by_kinds kinds.now (drop result changes.now)
        ≡ drop count (seen_by_kinds kinds.now changes.now) }
{
    let mut left = count;
    for (at, change) in changes.iter().enumerate() {
        if left == 0 {
            return at;
        }
        if kind_at(kinds, change.pair).is_some() {
            left -= 1;
        }
    }
    changes.len()
}

/// The first of the changes from a place on that the caller sees, at most so many.
fn first_seen(
    alloc: Global,
    stream: &Stream<'_>,
    from: usize,
    count: usize,
) -> Result<Vec<Seen>, AllocError>
    requires stream { IsStream stream.now }
    ensures { IfOk result (λ seen. seen.items ≡ take count
        (seen_by_kinds stream.now.kinds.now (drop from stream.now.rows.now))) }
{
    let mut seen = Vec::new(alloc);
    let mut place = next_seen(stream, from);
    while place < stream.rows.len() && seen.len() < count {
        let change = &stream.rows[place];
        let kind = kind_at(stream.kinds, change.pair);
        if let Some(one) = change.activity.get().seen_as(kind)? {
            seen.push(one)?;
        }
        place = next_seen(stream, place + 1);
    }
    Ok(seen)
}

/// Where the next change from a place on stands that the caller sees, or a place that no such
/// stands before.
fn next_seen(stream: &Stream<'_>, from: usize) -> usize
    requires stream { IsStream stream.now }
    ensures after { from ≤ result }
    ensures seen { seen_by_kinds stream.now.kinds.now (drop result stream.now.rows.now)
        ≡ seen_by_kinds stream.now.kinds.now (drop from stream.now.rows.now) }
{
    let reach = REACH.saturating_mul(stream.lists.len());
    let place = walk_unseen(stream.rows, stream.kinds, from, reach);
    if place - from < reach {
        place
    } else {
        next_place(stream.lists, stream.filed.count(), place)
    }
}

/// Where the first of the changes from a place on stands that is of some kind; it goes no farther
/// than so many.
fn walk_unseen(changes: &[FiledChange], kinds: &[Option<Kind>], from: usize, reach: usize) -> usize
    ensures after { from ≤ result }
    ensures seen { seen_by_kinds kinds.now (drop result changes.now)
        ≡ seen_by_kinds kinds.now (drop from changes.now) }
{
    let mut place = from;
    while place < changes.len()
        && place - from < reach
        && kind_at(kinds, changes[place].pair).is_none()
    {
        place += 1;
    }
    place
}

/// Of what kind the changes of the pair of this number are.
fn kind_at(kinds: &[Option<Kind>], number: u32) -> Option<Kind>
    ensures { result ≡ kind_at kinds.now number }
{
    match kinds.get(number as usize) {
        Some(kind) => *kind,
        None => None,
    }
}
