ghost use Rattle.std.specs.Prelude.{◌≡◌, [], ◌++◌, IfOk, OnOk, filter, map, flat_map, ℕ, false};
ghost use Rattle.an_slots.specs.Places.{Rises, ascending, has};
ghost use Rattle.an_postings.specs.Gather.{AllRise, RunsRise, picked, places_of_run};
ghost use Rattle.an_postings.specs.Lists.{IsOrdered, class_of, places_at};

use crate::class_postings::ClassPostings;
use crate::kept::Places;
use crate::merge::{merged, wide};
use crate::sorted::sorted;
use crate::walk::common;
use an_slots::is_among;
use std::alloc::{AllocError, Global};

/// The places of these classes, ascending, each once.
pub(crate) fn places_in(
    alloc: Global,
    lists: &[ClassPostings],
    classes: &[usize],
) -> Result<Vec<usize>, AllocError>
    requires ordered { IsOrdered lists.now }
    requires rises { Rises 0 classes.now }
    ensures places { IfOk result (λ places. places.items
        ≡ ascending (flat_map (places_at lists.now) classes.now)) }
{
    let chosen = chosen(alloc, lists, classes)?;
    let slices = slices(alloc, chosen.as_slice())?;
    widened(alloc, slices.as_slice())
}

/// Places of a list: where they stand in memory, or a copy, where some that stand there are gone.
#[derive(Drop)]
enum Run<'a> {
    There(&'a [u32]),
    Copy(Vec<u32>),
}

/// The lists of these classes, each as its runs.
fn chosen<'a>(
    alloc: Global,
    lists: &'a [ClassPostings],
    classes: &[usize],
) -> Result<Vec<Run<'a>>, AllocError>
    requires ordered { IsOrdered lists.now }
    requires rises { Rises 0 classes.now }
    ensures chosen { IfOk result (λ chosen. flat_map places_of_run chosen.items
        ≡ flat_map (picked classes.now) lists.now) }
    ensures rise { IfOk result (λ chosen. RunsRise chosen.items) }
{
    let mut chosen = Vec::new(alloc);
    for list in lists {
        if is_among(classes, list.class) {
            choose(alloc, &mut chosen, &list.places)?;
        }
    }
    Ok(chosen)
}

/// Adds the runs of a list.
fn choose<'a>(alloc: Global, chosen: &mut Vec<Run<'a>>, list: &'a Places) -> Result<(), AllocError>
    requires list { Rises 0 list.now.items }
    requires chosen { RunsRise chosen.old.items }
    ensures added { OnOk result (flat_map places_of_run chosen.new.items
        ≡ flat_map places_of_run chosen.old.items ++ list.now.items) }
    ensures rise { OnOk result (RunsRise chosen.new.items) }
{
    match list.runs() {
        Some((front, back)) => choose_there(chosen, front, back),
        None => {
            let copy = list.copied(alloc)?;
            chosen.push(Run::Copy(copy))?;
            Ok(())
        }
    }
}

/// Adds the two runs in which a list stands in memory, the second where it isn't empty.
fn choose_there<'a>(
    chosen: &mut Vec<Run<'a>>,
    front: &'a [u32],
    back: &'a [u32],
) -> Result<(), AllocError>
    requires list { Rises 0 (front.now ++ back.now) }
    requires chosen { RunsRise chosen.old.items }
    ensures added { OnOk result (flat_map places_of_run chosen.new.items
        ≡ flat_map places_of_run chosen.old.items ++ (front.now ++ back.now)) }
    ensures rise { OnOk result (RunsRise chosen.new.items) }
{
    chosen.push(Run::There(front))?;
    if back.is_empty() {
        return Ok(());
    }
    chosen.push(Run::There(back))?;
    Ok(())
}

/// The places of each run.
fn slices<'a>(alloc: Global, runs: &'a [Run<'a>]) -> Result<Vec<&'a [u32]>, AllocError>
    requires rise { RunsRise runs.now }
    ensures slices { IfOk result (λ slices. flat_map (λ l. l.now) slices.items
        ≡ flat_map places_of_run runs.now) }
    ensures rise { IfOk result (λ slices. AllRise slices.items) }
{
    let mut slices = Vec::new(alloc);
    slices.reserve(runs.len())?;
    for run in runs {
        slices.push_reserved(slice_of(run));
    }
    Ok(slices)
}

fn slice_of<'a>(run: &'a Run<'a>) -> &'a [u32]
    ensures { result.now ≡ places_of_run run.now }
{
    match run {
        Run::There(places) => places,
        Run::Copy(places) => places.as_slice(),
    }
}

/// Those of the places, which ascend, that stand in a list of one of these classes.
pub(crate) fn common_in(
    alloc: Global,
    lists: &[ClassPostings],
    classes: &[usize],
    places: &[usize],
) -> Result<Vec<usize>, AllocError>
    requires ordered { IsOrdered lists.now }
    requires rises { Rises 0 classes.now }
    requires places { Rises 0 places.now }
    ensures common { IfOk result (λ common. common.items ≡ filter
        (λ place. has place (ascending (flat_map (places_at lists.now) classes.now)))
        places.now) }
{
    let chosen = chosen(alloc, lists, classes)?;
    let slices = slices(alloc, chosen.as_slice())?;
    common_among(alloc, slices.as_slice(), places)
}

/// One list is walked along where it stands.
fn common_among(alloc: Global, lists: &[&[u32]], places: &[usize]) -> Result<Vec<usize>, AllocError>
    requires rise { AllRise lists.now }
    requires places { Rises 0 places.now }
    ensures common { IfOk result (λ common. common.items ≡ filter
        (λ place. has place (ascending (flat_map (λ l. l.now) lists.now))) places.now) }
{
    let count = lists.len();
    if count == 1 {
        return common(alloc, places, lists[0]);
    }
    let others = joined(alloc, lists)?;
    common(alloc, places, others.as_slice())
}

/// The same places as indices. One list is copied.
fn widened(alloc: Global, lists: &[&[u32]]) -> Result<Vec<usize>, AllocError>
    requires rise { AllRise lists.now }
    ensures places { IfOk result (λ places. places.items
        ≡ ascending (flat_map (λ l. l.now) lists.now)) }
{
    let count = lists.len();
    if count == 1 {
        return wide(alloc, lists[0]);
    }
    let joined = joined(alloc, lists)?;
    wide(alloc, joined.as_slice())
}

/// A few lists are merged, and many, which are mostly short, are sorted.
fn joined(alloc: Global, lists: &[&[u32]]) -> Result<Vec<u32>, AllocError>
    requires rise { AllRise lists.now }
    ensures places { IfOk result (λ places. places.items
        ≡ ascending (flat_map (λ l. l.now) lists.now)) }
{
    if lists.len() > 32 {
        sorted(alloc, lists)
    } else {
        merged(alloc, lists)
    }
}

/// The classes that have a list, ascending.
pub(crate) fn classes_of(alloc: Global, lists: &[ClassPostings]) -> Result<Vec<usize>, AllocError>
    requires ordered { IsOrdered lists.now }
    ensures classes { IfOk result (λ classes. classes.items ≡ map class_of lists.now) }
    ensures rises { Rises 0 (map class_of lists.now) }
    ensures others { (class : ℕ) → has class (map class_of lists.now) ≡ false
        → places_at lists.now class ≡ [] }
{
    lists.iter().map(|list| list.class).collect(alloc)
}
