ghost use Rattle.std.specs.Prelude.{◌≡◌, ◌^◌, ◌<◌, All, IfOk, drop, is_some, length, take};
ghost use Rattle.std.specs.List.{count_by, sum_by};
ghost use Rattle.std.specs.Option.{option_copied};
ghost use Rattle.an_policy.specs.Audience.{identity};
ghost use Rattle.an_snapshot.specs.Changes.{IsChangeFiled, audience_in, kind_in, kinds_in};
ghost use Rattle.an_snapshot.specs.Changes.{numbers_in, seen_in};
ghost use Rattle.an_snapshot.specs.PairLists.{kind_at, lists_seen};

use crate::change::{ClassChange, FiledChange};
use crate::changes::Changes;
use crate::pair_lists::PairLists;
use crate::seen_lists::lists_seen;
use crate::stream::{Stream, page};
use an_policy::{Audience, Classes, Kind, Who, as_seen};
use an_state::Seen;
use std::alloc::{AllocError, Global};

/// Of the changes that the caller sees those from `start` on, and at most `count` of them.
pub(crate) fn slice_seen(
    alloc: Global,
    classes: &Classes,
    changes: &Changes,
    who: &Who<'_>,
    start: usize,
    count: usize,
) -> Result<Vec<Seen>, AllocError>
    requires filed { All (IsChangeFiled classes.now changes.now.pairs) changes.now.rows }
    ensures seen { IfOk result (λ seen. seen.items
        ≡ take count (drop start (seen_in (identity who.now) changes.now.rows))) }
{
    let kinds = kinds_in(alloc, classes, changes.pairs(), who)?;
    let filed = changes.lists();
    let lists = lists_seen(alloc, filed, kinds.as_slice())?;
    let stream = Stream {
        rows: changes.as_slice(),
        kinds: kinds.as_slice(),
        filed,
        lists: lists.as_slice(),
    };
    page(alloc, &stream, start, count)
}

/// How many of the changes the caller sees.
pub(crate) fn count_seen(classes: &Classes, changes: &Changes, who: &Who<'_>) -> usize
    requires filed { All (IsChangeFiled classes.now changes.now.pairs) changes.now.rows }
    ensures count { result ≡ length (seen_in (identity who.now) changes.now.rows) }
{
    let lists = changes.lists();
    let rest = &changes.as_slice()[lists.count()..];
    count_listed(classes, changes.pairs(), lists, who)
        + count_rest(classes, changes.pairs(), rest, who)
}

/// How many places the lists of what the caller sees have.
fn count_listed(classes: &Classes, pairs: &[ClassChange], lists: &PairLists, who: &Who<'_>) -> usize
    requires few { sum_by (λ list. length list) (lists_seen
        (kinds_in (identity who.now) classes.now pairs.now) lists.now.lists) < 2 ^ 64 }
    ensures { result ≡ sum_by (λ list. length list) (lists_seen
        (kinds_in (identity who.now) classes.now pairs.now) lists.now.lists) }
{
    let mut count = 0;
    for (number, pair) in pairs.iter().enumerate() {
        let Some(list) = lists.list(number) else {
            return count;
        };
        if kind_in(classes, who, *pair).is_some() {
            count += list.len();
        }
    }
    count
}

/// How many of these changes the caller sees.
fn count_rest(
    classes: &Classes,
    pairs: &[ClassChange],
    changes: &[FiledChange],
    who: &Who<'_>,
) -> usize
    ensures { result ≡ count_by (λ number. is_some (kind_at
        (kinds_in (identity who.now) classes.now pairs.now) number)) (numbers_in changes.now) }
{
    let mut count = 0;
    for change in changes {
        if kind_of(classes, pairs, who, change.pair).is_some() {
            count += 1;
        }
    }
    count
}

/// What the changes of each pair are for the caller.
fn kinds_in(
    alloc: Global,
    classes: &Classes,
    pairs: &[ClassChange],
    who: &Who<'_>,
) -> Result<Vec<Option<Kind>>, AllocError>
    ensures { IfOk result
        (λ kinds. kinds.items ≡ kinds_in (identity who.now) classes.now pairs.now) }
{
    let mut kinds = Vec::with_capacity(alloc, pairs.len())?;
    for pair in pairs {
        kinds.push(kind_in(classes, who, *pair))?;
    }
    Ok(kinds)
}

/// What the changes of the pair of this number are for the caller.
fn kind_of(classes: &Classes, pairs: &[ClassChange], who: &Who<'_>, number: u32) -> Option<Kind>
    ensures { result
        ≡ kind_at (kinds_in (identity who.now) classes.now pairs.now) number }
{
    match pairs.get(number as usize) {
        Some(pair) => kind_in(classes, who, *pair),
        None => None,
    }
}

/// What a change of these classes is for the caller.
fn kind_in(classes: &Classes, who: &Who<'_>, change: ClassChange) -> Option<Kind>
    ensures { result ≡ kind_in (identity who.now) classes.now change }
{
    as_seen(
        who,
        audience_in(classes, change.before),
        audience_in(classes, change.after),
    )
}

/// The audience of a class.
fn audience_in(classes: &Classes, class: Option<u32>) -> Option<&Audience>
    ensures { option_copied result ≡ audience_in classes.now class }
{
    match class {
        Some(class) => classes.as_slice().get(class as usize),
        None => None,
    }
}
