//! Rows on what lists of annotations are made of: classes of audiences, places and counts. A row is
//! a script, whose steps stand between `; `; what each of them tells stands before a `;`.
ghost use Rattle.std.specs.Prelude.{◌<◌, ◌^◌, IfOk};
ghost use Rattle.an_slots.specs.Places.{Rises};

use crate::numbers::number;
use crate::policy_calls::owned_audience;
use crate::rows::{RowError, two_words};
use an_base::TermTotal;
use an_policy::Classes;
use an_postings::Postings;
use std::alloc::{AllocError, Global};

/// The class of each audience, which is added: `public a mara; public b mara`.
pub fn classes(alloc: Global, argument: &str) -> Result<String, RowError> {
    let mut classes = Classes::new(alloc);
    let mut told = String::new(alloc);
    for text in argument.split("; ") {
        let (groups, owner) = text.rsplit_once(" ").ok_or(RowError::Form)?;
        let audience = owned_audience(alloc, groups, owner)?;
        write!(told, "{};", classes.add(&audience)?)?;
    }
    Ok(told)
}

// ---- places

/// What lists of places tell: `add m1 heron 0 4` puts the place 4 into the list of class 0,
/// `remove` takes it out, `places m1 heron 0 1` tells the places of two classes, and
/// `classes m1 heron` the classes of a term.
pub fn postings(alloc: Global, argument: &str) -> Result<String, RowError> {
    let mut postings = Postings::new(alloc);
    let mut told = String::new(alloc);
    for step in argument.split("; ") {
        place_step(alloc, &mut postings, &mut told, step)?;
    }
    Ok(told)
}

fn place_step(
    alloc: Global,
    postings: &mut Postings,
    told: &mut String,
    step: &str,
) -> Result<(), RowError> {
    let (verb, rest) = two_words(step)?;
    let (manifest, rest) = two_words(rest)?;
    let (term, numbers) = rest.split_once(" ").unwrap_or((rest, ""));
    match verb {
        "add" => add_place(postings, manifest, term, numbers),
        "remove" => remove_place(postings, manifest, term, numbers),
        "places" => tell_places(alloc, told, postings, manifest, term, numbers),
        "classes" => tell_classes(alloc, told, postings, manifest, term),
        _ => Err(RowError::Form),
    }
}

fn add_place(
    postings: &mut Postings,
    manifest: &str,
    term: &str,
    numbers: &str,
) -> Result<(), RowError> {
    let (class, place) = two_numbers(numbers)?;
    postings.room_add(manifest, term, class, 1)?;
    postings.add(manifest, term, class, place, 0);
    Ok(())
}

fn remove_place(
    postings: &mut Postings,
    manifest: &str,
    term: &str,
    numbers: &str,
) -> Result<(), RowError> {
    let (class, place) = two_numbers(numbers)?;
    postings.remove(manifest, term, class, place);
    Ok(())
}

fn tell_places(
    alloc: Global,
    told: &mut String,
    postings: &Postings,
    manifest: &str,
    term: &str,
    numbers: &str,
) -> Result<(), RowError> {
    let classes = two_classes(numbers)?;
    let places = postings.places(alloc, manifest, term, &classes)?;
    Ok(write!(told, "{places:?};")?)
}

fn tell_classes(
    alloc: Global,
    told: &mut String,
    postings: &Postings,
    manifest: &str,
    term: &str,
) -> Result<(), RowError> {
    let classes = postings.classes(alloc, manifest, term)?;
    Ok(write!(told, "{classes:?};")?)
}

// ---- counts

/// What counts tell: `add m1 heron 0 2` counts a term twice more in class 0, `take` less, `total m1
/// heron 0 1` tells how often it is counted in two classes, and `terms m1 he 0 1` the terms that
/// begin so.
pub fn counts(alloc: Global, argument: &str) -> Result<String, RowError> {
    let mut counts = Postings::new(alloc);
    let mut told = String::new(alloc);
    for step in argument.split("; ") {
        count_step(alloc, &mut counts, &mut told, step)?;
    }
    Ok(told)
}

fn count_step(
    alloc: Global,
    counts: &mut Postings,
    told: &mut String,
    step: &str,
) -> Result<(), RowError> {
    let (verb, rest) = two_words(step)?;
    let (manifest, rest) = two_words(rest)?;
    let (term, numbers) = two_words(rest)?;
    match verb {
        "add" => add_count(counts, manifest, term, numbers),
        "take" => take_count(counts, manifest, term, numbers),
        "total" => {
            let total = counts.total(manifest, term, &two_classes(numbers)?);
            Ok(write!(told, "{total};")?)
        }
        "terms" => tell_terms(alloc, told, counts, manifest, term, numbers),
        _ => Err(RowError::Form),
    }
}

/// Counts a term more often, in a list with the place 0.
fn add_count(
    counts: &mut Postings,
    manifest: &str,
    term: &str,
    numbers: &str,
) -> Result<(), RowError> {
    let (class, more) = two_words(numbers)?;
    let (class, more) = (number::<usize>(class)?, number::<u64>(more)?);
    counts.room_add(manifest, term, class, 1)?;
    counts.add(manifest, term, class, 0, more);
    Ok(())
}

/// Counts a term less often, which is counted as often at least.
#[tactic(auto, unfolding(an_base::specs::Totals::capped))]
fn take_count(
    counts: &mut Postings,
    manifest: &str,
    term: &str,
    numbers: &str,
) -> Result<(), RowError> {
    let (class, less) = two_words(numbers)?;
    let (class, less) = (number::<usize>(class)?, number::<u64>(less)?);
    if counts.total(manifest, term, &[class]) < less {
        return Err(RowError::Form);
    }
    counts.take(manifest, term, class, less);
    Ok(())
}

fn tell_terms(
    alloc: Global,
    told: &mut String,
    counts: &Postings,
    manifest: &str,
    prefix: &str,
    numbers: &str,
) -> Result<(), RowError> {
    let classes = two_classes(numbers)?;
    let terms = counts.from_prefix(alloc, manifest, prefix, &classes)?;
    add_terms(told, terms.as_slice())?;
    Ok(write!(told, ";")?)
}

/// Adds each term with its total, before a comma.
pub fn add_terms(told: &mut String, terms: &[TermTotal]) -> Result<(), AllocError> {
    for term in terms {
        write!(told, "{} {},", term.term.as_str(), term.total)?;
    }
    Ok(())
}

// ---- numbers

/// Two numbers of 32 bits: a class, and a place or another class.
fn two_numbers(numbers: &str) -> Result<(usize, usize), RowError>
    ensures { IfOk result (λ numbers. numbers.1 < 2 ^ 32) }
{
    let (first, second) = two_words(numbers)?;
    Ok((
        number::<u32>(first)? as usize,
        number::<u32>(second)? as usize,
    ))
}

/// Two classes, of which the second is greater.
fn two_classes(numbers: &str) -> Result<[usize; 2], RowError>
    ensures { IfOk result (λ classes. Rises 0 classes) }
{
    let (first, second) = two_numbers(numbers)?;
    if first < second {
        Ok([first, second])
    } else {
        Err(RowError::Form)
    }
}
