//! Where the answers of a plain book and of a snapshot differ. They are compared as they are shown.
ghost use Rattle.std.specs.Prelude.{◌≡◌, ◌<◌};

use crate::shown::written;
use an_base::{Name, Shared, Steps, TermTotal, TermTotals, TryCopy};
use an_policy::{Caller, Who};
use an_snapshot::Snapshot;
use an_state::{Book, Look, NoteRow, ReaderRow, add_terms_of};
use std::alloc::{AllocError, Global};
use std::fmt::Debug;
use std::marker::Brand;
use std::sync::ledger::{Blank, Ledger};

/// Where they differ, if they do: in a row, or in what a caller may read, finds by a word or a
/// prefix on a manifest, or sees of the changes.
pub fn differences(alloc: Global, plain: &Book, listed: &Snapshot) -> Result<String, AllocError> {
    let mut found = String::new(alloc);
    compare_rows::<Brand>(alloc, Blank::new(1), plain, listed, &mut found)?;
    compare_manifests(alloc, plain, listed, &mut found)?;
    compare_callers(alloc, plain, listed, &mut found)?;
    Ok(found)
}

// ---- rows

fn compare_rows<L: Ledger>(
    alloc: Global,
    blank: Blank,
    plain: &Book,
    listed: &Snapshot,
    found: &mut String,
) -> Result<(), AllocError>
    requires name { blank.name ≡ L.name }
    requires parts { blank.parts ≡ L.parts }
    requires some { 0 < blank.parts }
{
    let mut steps = Steps::<L>::new(blank);
    for (place, row) in plain.notes().iter().enumerate() {
        let row = Some(row.get());
        add_difference(
            alloc,
            found,
            "row",
            "",
            &row,
            &listed.note_at(place, &mut steps),
        )?;
    }
    Ok(())
}

fn compare_manifests(
    alloc: Global,
    plain: &Book,
    listed: &Snapshot,
    found: &mut String,
) -> Result<(), AllocError> {
    for (place, row) in plain.manifests().iter().enumerate() {
        let row = row.get();
        add_difference(
            alloc,
            found,
            "manifest",
            "",
            &Some(row),
            &listed.manifest_at(place),
        )?;
        add_difference(
            alloc,
            found,
            "named",
            "",
            &Some(row),
            &listed.manifest(&row.name),
        )?;
    }
    Ok(())
}

// ---- callers

fn compare_callers(
    alloc: Global,
    plain: &Book,
    listed: &Snapshot,
    found: &mut String,
) -> Result<(), AllocError> {
    let words = words_in(alloc, plain.notes())?;
    let words = words.as_slice();
    compare_caller(alloc, plain, listed, &Caller::Anonymous, words, found)?;
    compare_caller(alloc, plain, listed, &Caller::Operator, words, found)?;
    for row in plain.readers() {
        compare_token(alloc, plain, listed, row, found)?;
        let caller = Caller::Named(row.name.copy()?);
        compare_caller(alloc, plain, listed, &caller, words, found)?;
    }
    Ok(())
}

/// All words of the annotations.
fn words_in(alloc: Global, notes: &[Shared<NoteRow>]) -> Result<Vec<TermTotal>, AllocError> {
    let mut words = TermTotals::new(alloc);
    for row in notes {
        add_terms_of(&mut words, row.get(), "")?;
    }
    words.into_vec()
}

fn compare_token(
    alloc: Global,
    plain: &Book,
    listed: &Snapshot,
    row: &ReaderRow,
    found: &mut String,
) -> Result<(), AllocError> {
    let Some(reader) = row.reader() else {
        return Ok(());
    };
    let caller = Caller::Token(reader.token.copy()?);
    add_difference(
        alloc,
        found,
        "signer",
        "",
        &plain.who(&caller),
        &listed.who(&caller),
    )
}

fn compare_caller(
    alloc: Global,
    plain: &Book,
    listed: &Snapshot,
    caller: &Caller,
    words: &[TermTotal],
    found: &mut String,
) -> Result<(), AllocError> {
    let before = found.as_str().len();
    let who = plain.who(caller);
    add_difference(alloc, found, "who", "", &who, &listed.who(caller))?;
    if let Some(who) = &who {
        compare_changes(alloc, plain, listed, who, found)?;
        compare_kinds(alloc, plain, listed, who, found)?;
        for row in plain.manifests() {
            let manifest = Some(&row.get().name);
            compare_manifest(alloc, plain, listed, who, manifest, words, found)?;
        }
        compare_manifest(alloc, plain, listed, who, None, words, found)?;
    }
    add_subject(found, before, caller)
}

// ---- what a caller is answered

fn compare_changes(
    alloc: Global,
    plain: &Book,
    listed: &Snapshot,
    who: &Who<'_>,
    found: &mut String,
) -> Result<(), AllocError> {
    let count = plain.seen_count(who);
    add_difference(alloc, found, "changes", "", &count, &listed.seen_count(who))?;
    let start = count.saturating_sub(5);
    let seen = plain.seen_slice(alloc, who, start, 9)?;
    let other = listed.seen_slice(alloc, who, start, 9)?;
    add_difference(alloc, found, "last changes", "", &seen, &other)
}

fn compare_kinds(
    alloc: Global,
    plain: &Book,
    listed: &Snapshot,
    who: &Who<'_>,
    found: &mut String,
) -> Result<(), AllocError> {
    for row in plain.notes() {
        let owner = row.get().owned_by();
        let name = &row.get().name;
        let kind = plain.last_change(who, Some(owner), name);
        let other = listed.last_change(who, Some(owner), name);
        add_difference(alloc, found, "last of", name.as_str(), &kind, &other)?;
    }
    Ok(())
}

/// Compares what is found on a manifest, or on any that the caller may read.
fn compare_manifest(
    alloc: Global,
    plain: &Book,
    listed: &Snapshot,
    who: &Who<'_>,
    manifest: Option<&Name>,
    words: &[TermTotal],
    found: &mut String,
) -> Result<(), AllocError> {
    let before = found.as_str().len();
    compare_readable(alloc, plain, listed, who, manifest, found)?;
    compare_word(alloc, plain, listed, who, manifest, "", found)?;
    for word in words {
        compare_word(
            alloc,
            plain,
            listed,
            who,
            manifest,
            word.term.as_str(),
            found,
        )?;
    }
    add_subject(found, before, &manifest)
}

fn compare_readable(
    alloc: Global,
    plain: &Book,
    listed: &Snapshot,
    who: &Who<'_>,
    manifest: Option<&Name>,
    found: &mut String,
) -> Result<(), AllocError> {
    let places = plain.readable(alloc, who, manifest)?;
    let other = listed.readable(alloc, who, manifest)?;
    add_difference(alloc, found, "readable", "", &places, &other)
}

/// Compares the places with a word, and the words that begin with it.
fn compare_word(
    alloc: Global,
    plain: &Book,
    listed: &Snapshot,
    who: &Who<'_>,
    manifest: Option<&Name>,
    word: &str,
    found: &mut String,
) -> Result<(), AllocError> {
    compare_places(alloc, plain, listed, who, manifest, word, found)?;
    let terms = plain.terms_from(alloc, who, manifest, word)?;
    let other = listed.terms_from(alloc, who, manifest, word)?;
    add_difference(alloc, found, "from", word, &terms, &other)
}

fn compare_places(
    alloc: Global,
    plain: &Book,
    listed: &Snapshot,
    who: &Who<'_>,
    manifest: Option<&Name>,
    word: &str,
    found: &mut String,
) -> Result<(), AllocError> {
    let places = plain.with_term(alloc, who, manifest, word)?;
    let other = listed.with_term(alloc, who, manifest, word)?;
    add_difference(alloc, found, "with", word, &places, &other)
}

// ---- differences

fn add_difference<T: Debug>(
    alloc: Global,
    found: &mut String,
    what: &str,
    of: &str,
    plain: &T,
    listed: &T,
) -> Result<(), AllocError> {
    let plain = written(alloc, plain)?;
    let listed = written(alloc, listed)?;
    if plain.as_str() != listed.as_str() {
        write!(
            found,
            "; {what} {of}: {} and {}",
            plain.as_str(),
            listed.as_str()
        )?;
    }
    Ok(())
}

/// Says whose the differences are that were found since, if some were.
fn add_subject<T: Debug>(found: &mut String, before: usize, of: &T) -> Result<(), AllocError> {
    if before < found.as_str().len() {
        write!(found, " of {of:?}")?;
    }
    Ok(())
}
