ghost use Rattle.std.specs.Prelude.{◌≡◌, IfOk, filter};
ghost use Rattle.std.specs.Option.{option_copied};
ghost use Rattle.an_policy.specs.Audience.{identity};
ghost use Rattle.an_state.specs.Terms.{has_term, places_with_term, terms_with_prefix, totals_in};
ghost use Rattle.an_state.specs.View.{is_on, is_on_shown, is_sought, is_within, shows_note};
ghost use Rattle.an_state.specs.View.{sought_places};

use crate::book::Book;
use crate::row::NoteRow;
use crate::shown::{is_manifest_shown, is_read_below};
use crate::totals::add_terms_of;
use an_base::{Name, TermTotal, TermTotals};
use an_policy::Who;
use std::alloc::{AllocError, Global};

/// The places of the live annotations that the caller may read, on this manifest, or where none is
/// named on any that it may read.
pub fn readable_in(
    alloc: Global,
    book: &Book,
    who: &Who<'_>,
    manifest: Option<&Name>,
) -> Result<Vec<usize>, AllocError>
    ensures { IfOk result (λ places. places.items
        ≡ sought_places book.now.state (identity who.now) (option_copied manifest.entry)) }
{
    let mut places = Vec::new(alloc);
    for (place, row) in book.notes().iter().enumerate() {
        if is_sought(book, who, manifest, row.get()) {
            places.push(place)?;
        }
    }
    Ok(places)
}

/// The places of those of them that have a term.
pub fn with_term_in(
    alloc: Global,
    book: &Book,
    who: &Who<'_>,
    manifest: Option<&Name>,
    term: &str,
) -> Result<Vec<usize>, AllocError>
    ensures { IfOk result (λ places. places.items ≡ places_with_term book.now.state
        (identity who.now) (option_copied manifest.entry) term.now) }
{
    let mut places = Vec::new(alloc);
    for (place, row) in book.notes().iter().enumerate() {
        if is_sought(book, who, manifest, row.get()) && has_term(row.get(), term) {
            places.push(place)?;
        }
    }
    Ok(places)
}

/// Their terms that begin so, and how often each occurs.
pub fn terms_from_in(
    alloc: Global,
    book: &Book,
    who: &Who<'_>,
    manifest: Option<&Name>,
    prefix: &str,
) -> Result<Vec<TermTotal>, AllocError>
    ensures { IfOk result (λ terms. terms.items ≡ terms_with_prefix book.now.state
        (identity who.now) (option_copied manifest.entry) prefix.now) }
{
    let totals = sought_totals(alloc, book, who, manifest, prefix)?;
    totals.into_vec()
}

fn sought_totals(
    alloc: Global,
    book: &Book,
    who: &Who<'_>,
    manifest: Option<&Name>,
    prefix: &str,
) -> Result<TermTotals, AllocError>
    ensures { IfOk result (λ totals. totals ≡ totals_in prefix.now (filter (is_sought book.now.state
        (identity who.now) (option_copied manifest.entry)) book.now.state.notes)) }
{
    let mut totals = TermTotals::new(alloc);
    for row in book.notes() {
        if is_sought(book, who, manifest, row.get()) {
            add_terms_of(&mut totals, row.get(), prefix)?;
        }
    }
    Ok(totals)
}

/// Whether the caller may read the annotation, which is on this manifest, or where none is named on
/// any that it may read.
pub(crate) fn is_sought(book: &Book, who: &Who<'_>, manifest: Option<&Name>, row: &NoteRow) -> bool
    ensures { result ≡ is_sought book.now.state (identity who.now) (option_copied manifest.entry)
        row.now }
{
    is_within(book, who, manifest, row) && shows_note(book, who, row)
}

/// Whether the annotation is live, and the caller may read it.
fn shows_note(book: &Book, who: &Who<'_>, row: &NoteRow) -> bool
    ensures { result ≡ shows_note book.now.state (identity who.now) row.now }
{
    match row.live() {
        Some(live) => is_read_below(
            who,
            book.manifest_row(live.manifest),
            live.group,
            row.owned_by(),
        ),
        None => false,
    }
}

fn is_within(book: &Book, who: &Who<'_>, manifest: Option<&Name>, row: &NoteRow) -> bool
    ensures { result ≡ is_within book.now.state (identity who.now) (option_copied manifest.entry)
        row.now }
{
    match manifest {
        Some(manifest) => is_on(row, manifest),
        None => is_on_shown(book, who, row),
    }
}

/// Whether the annotation is live, and so is its manifest, which the caller may read.
fn is_on_shown(book: &Book, who: &Who<'_>, row: &NoteRow) -> bool
    ensures { result ≡ is_on_shown book.now.state (identity who.now) row.now }
{
    match row.live() {
        Some(live) => match book.manifest_row(live.manifest) {
            Some(manifest) => is_manifest_shown(who, manifest),
            None => false,
        },
        None => false,
    }
}

/// Whether the annotation is live, and on this manifest.
pub fn is_on(row: &NoteRow, manifest: &Name) -> bool
    ensures { result ≡ is_on manifest.now row.now }
{
    match row.live() {
        Some(live) => live.manifest == manifest,
        None => false,
    }
}

/// Whether the annotation is live, and has the term.
pub(crate) fn has_term(row: &NoteRow, term: &str) -> bool
    ensures { result ≡ has_term term.now row.now }
{
    match row.live() {
        Some(live) => live.tree.has_term(term),
        None => false,
    }
}
