ghost use Rattle.std.specs.Prelude.{◌≡◌, ◌==◌, [], IfOk, codes, filter, map, if◌then◌else◌};
ghost use Rattle.std.specs.List.{filter_map, list_any, slice_split};
ghost use Rattle.std.specs.Option.{option_copied};
ghost use Rattle.an_terms.specs.Terms.{terms_of};
ghost use Rattle.an_base.specs.TextSet.{has_text};
ghost use Rattle.an_state.specs.Live.{lent_note};
ghost use Rattle.an_model.specs.Bodies.{iris_of, note_terms};
ghost use Rattle.an_model.specs.Note.{motivations_of};
ghost use Rattle.an_query.specs.Dates.{pieces_of, range_of};
ghost use Rattle.an_search.specs.Known.{AreKnown, IsKnown};
ghost use Rattle.an_search.specs.Wanted.{fits, fits_but_terms, fits_motivations, fits_ranges};
ghost use Rattle.an_search.specs.Wanted.{fits_users, given_pieces, has_all, is_iri};
ghost use Rattle.an_search.specs.Wanted.{matches, wanted_by, wanted_iris, wanted_of, wanted_ranges};
ghost use Rattle.an_search.specs.Wanted.{wanted_terms, wants_nothing, wants_terms_alone, words_of};

use crate::known::{Known, Last, is_piece, known_first};
use crate::pieces::{Pieces, share_one};
use crate::ranges::Ranges;
use an_base::{List, Moment, Text, TextSet, TryCopy};
use an_model::KeptNote;
use an_query::{DateRange, Filters, Query, range_of};
use an_state::{LiveNote, NoteRow};
use an_terms::occurrences;
use std::alloc::{AllocError, Global};

/// What a query wants of an annotation. No piece of a kind sets no condition.
#[derive(Debug, Drop)]
pub struct Wanted {
    /// The IRIs that its bodies have to have.
    pub iris: Pieces,
    /// The terms that its texts have to have.
    pub terms: Pieces,
    pub motivations: Pieces,
    /// When it has to have been made.
    pub ranges: Ranges,
    /// Who may have made it.
    pub users: Pieces,
}

/// What a query wants.
pub(crate) fn wanted_of(alloc: Global, query: &Query) -> Result<Wanted, AllocError>
    ensures { IfOk result (λ wanted. wanted ≡ wanted_of query.now) }
{
    wanted_by(alloc, query.q(), query.filters())
}

/// What is wanted where this value and these filters are given.
pub fn wanted_by(alloc: Global, q: Option<&Text>, filters: &Filters) -> Result<Wanted, AllocError>
    ensures wanted { IfOk result
        (λ wanted. wanted ≡ wanted_by (option_copied q.entry) filters.now) }
{
    let (iris, terms) = sought(alloc, q)?;
    let ranges = wanted_ranges(alloc, filters.date())?;
    Ok(Wanted {
        iris,
        terms,
        motivations: ordered_pieces(alloc, filters.motivation())?,
        ranges,
        users: ordered_pieces(alloc, filters.user())?,
    })
}

/// Whether nothing is wanted, so that every annotation fits.
pub fn wants_nothing(wanted: &Wanted) -> bool
    ensures nothing { result ≡ wants_nothing wanted.now }
{
    wanted.terms.as_slice().is_empty() && wants_terms_alone(wanted)
}

/// Whether nothing but terms is wanted.
pub(crate) fn wants_terms_alone(wanted: &Wanted) -> bool
    ensures alone { result ≡ wants_terms_alone wanted.now }
{
    wanted.iris.as_slice().is_empty()
        && wanted.motivations.as_slice().is_empty()
        && wanted.ranges.as_slice().is_empty()
        && wanted.users.as_slice().is_empty()
}

/// The IRIs and the terms that are sought.
fn sought(alloc: Global, q: Option<&Text>) -> Result<(Pieces, Pieces), AllocError>
    ensures iris { IfOk result (λ both. both.0 ≡ wanted_iris (option_copied q.entry)) }
    ensures terms { IfOk result (λ both. both.1 ≡ wanted_terms (option_copied q.entry)) }
{
    let pieces = given_pieces(alloc, q)?;
    let iris = iris_among(alloc, pieces.as_slice())?;
    let terms = words_of(alloc, pieces.as_slice())?;
    Ok((iris, terms))
}

#[tactic(auto, using(an_list::proofs::PieceLemmas::pieces_left))]
fn iris_among(alloc: Global, pieces: &[Text]) -> Result<Pieces, AllocError>
    ensures { IfOk result (λ iris. iris ≡ filter is_iri pieces.now) }
{
    let mut iris = Vec::new(alloc);
    for piece in pieces {
        if is_iri(piece.as_str().as_bytes()) {
            iris.push(piece.copy()?)?;
        }
    }
    Pieces::of(alloc, List::from_vec(iris))
}

/// Whether `://` stands in the bytes.
fn is_iri(bytes: &[u8]) -> bool
    ensures { result ≡ is_iri bytes.now }
{
    for at in 0..bytes.len() {
        if bytes[at..].starts_with(b"://") {
            return true;
        }
    }
    false
}

/// The terms of the pieces that are words.
#[tactic(auto, using(an_list::proofs::PieceLemmas::pieces_left))]
fn words_of(alloc: Global, pieces: &[Text]) -> Result<Pieces, AllocError>
    ensures { IfOk result (λ terms. terms ≡ words_of pieces.now) }
{
    let mut terms = Vec::new(alloc);
    for piece in pieces {
        let mut more = terms_of_piece(alloc, piece.as_str())?;
        terms.append(&mut more)?;
    }
    Pieces::of(alloc, List::from_vec(terms))
}

/// An IRI has no terms.
fn terms_of_piece(alloc: Global, piece: &str) -> Result<Vec<Text>, AllocError>
    ensures { IfOk result (λ v. v.items
        ≡ (if is_iri piece.now then [] else terms_of piece.now)) }
{
    if is_iri(piece.as_bytes()) {
        return Ok(Vec::new(alloc));
    }
    terms_of(alloc, piece)
}

#[tactic(auto, unfolding(an_terms::specs::Terms::terms_of))]
fn terms_of(alloc: Global, text: &str) -> Result<Vec<Text>, AllocError>
    ensures { IfOk result (λ v. v.items ≡ terms_of text.now) }
{
    occurrences(alloc, text)?
        .into_iter()
        .map(|occurrence| occurrence.term)
        .collect(alloc)
}

/// The pieces of a value that may be given, to be looked up.
fn ordered_pieces(alloc: Global, given: Option<&Text>) -> Result<Pieces, AllocError>
    ensures { IfOk result (λ pieces. pieces ≡ given_pieces (option_copied given.entry)) }
{
    Pieces::of(alloc, given_pieces(alloc, given)?)
}

/// The pieces of a value that may be given, between its spaces.
pub fn given_pieces(alloc: Global, given: Option<&Text>) -> Result<List<Text>, AllocError>
    ensures pieces { IfOk result (λ pieces. pieces ≡ given_pieces (option_copied given.entry)) }
{
    match given {
        Some(value) => pieces_of(alloc, value.as_str()),
        None => Ok(List::new(alloc)),
    }
}

#[tactic(auto, using(an_list::proofs::PieceLemmas::pieces_left))]
fn pieces_of(alloc: Global, value: &str) -> Result<List<Text>, AllocError>
    ensures { IfOk result (λ pieces. pieces ≡ pieces_of value.now) }
{
    let cut = cut_pieces(alloc, value)?;
    let mut pieces = Vec::new(alloc);
    for piece in cut.as_slice() {
        if !piece.is_empty() {
            pieces.push(Text::new(alloc, piece)?)?;
        }
    }
    Ok(List::from_vec(pieces))
}

/// What stands between the spaces, also where that is nothing.
fn cut_pieces(alloc: Global, value: &str) -> Result<Vec<&str>, AllocError>
    ensures { IfOk result (λ v. map (λ x. x.now) v.items
        ≡ slice_split (λ b. b == 32) value.now) }
{
    value.split(' ').collect(alloc)
}

/// The ranges of a date.
fn wanted_ranges(alloc: Global, date: Option<&Text>) -> Result<Ranges, AllocError>
    ensures { IfOk result (λ ranges. ranges ≡ wanted_ranges (option_copied date.entry)) }
{
    let pieces = given_pieces(alloc, date)?;
    let ranges = ranges_among(alloc, pieces.as_slice())?;
    Ranges::of(alloc, ranges)
}

#[tactic(auto, using(an_list::proofs::PieceLemmas::pieces_left))]
fn ranges_among(alloc: Global, pieces: &[Text]) -> Result<List<DateRange>, AllocError>
    ensures { IfOk result (λ ranges. ranges ≡ filter_map range_of pieces.now) }
{
    let mut ranges = Vec::new(alloc);
    for piece in pieces {
        match range_of(piece.as_str()) {
            Some(range) => ranges.push(range)?,
            None => {}
        }
    }
    Ok(List::from_vec(ranges))
}

// ---- what fits

/// Whether the annotation is live, and is wanted. Takes no memory.
pub fn matches(row: &NoteRow, wanted: &Wanted) -> bool
    ensures fits { result ≡ matches wanted.now row.now }
{
    let mut last = known_first(wanted);
    matches_after(row, wanted, &mut last)
}

/// The same of an annotation after others, of which it is known what was looked up last.
pub fn matches_after<'a>(row: &'a NoteRow, wanted: &Wanted, last: &mut Last<'a>) -> bool
    requires known { AreKnown wanted.now last.old }
    ensures fits { result ≡ matches wanted.now row.now }
    ensures known { AreKnown wanted.now last.new }
{
    match row.live() {
        Some(live) => fits(&live, wanted, last),
        None => false,
    }
}

fn fits<'a>(live: &LiveNote<'a>, wanted: &Wanted, last: &mut Last<'a>) -> bool
    requires known { AreKnown wanted.now last.old }
    ensures fits { result ≡ fits wanted.now (lent_note live.now) }
    ensures known { AreKnown wanted.now last.new }
{
    if !has_terms(live.tree, &wanted.terms) {
        return false;
    }
    fits_but_terms(live, wanted, last)
}

/// Whether the annotation has the IRIs, and fits the filters. Takes no memory.
pub(crate) fn fits_but_terms<'a>(live: &LiveNote<'a>, wanted: &Wanted, last: &mut Last<'a>) -> bool
    requires known { AreKnown wanted.now last.old }
    ensures fits { result ≡ fits_but_terms wanted.now (lent_note live.now) }
    ensures known { AreKnown wanted.now last.new }
{
    if !has_iris(live.tree, &wanted.iris) {
        return false;
    }
    if !fits_motivations(
        live.tree,
        &wanted.motivations,
        last.wants_others,
        &mut last.motivation,
    ) {
        return false;
    }
    if !fits_ranges(&wanted.ranges, live.created) {
        return false;
    }
    fits_users(&wanted.users, live.creator.get(), &mut last.creator)
}

/// Whether the annotation has the IRIs. Each is looked up once, up to the first that it lacks, so
/// no more of them than it has itself and one.
fn has_iris(note: &KeptNote, iris: &Pieces) -> bool
    ensures { result ≡ has_all iris.now (iris_of note.now) }
{
    has_each_iri(note, iris.ordered())
}

fn has_each_iri(note: &KeptNote, iris: &TextSet) -> bool
    ensures { result ≡ has_all iris.now (iris_of note.now) }
{
    for place in 0..iris.len() {
        if !note.has_iri(iris.text(place)) {
            return false;
        }
    }
    true
}

/// Whether the annotation has the terms, which are looked up as IRIs are.
fn has_terms(note: &KeptNote, terms: &Pieces) -> bool
    ensures { result ≡ has_all terms.now (note_terms note.now) }
{
    has_each_term(note, terms.ordered())
}

fn has_each_term(note: &KeptNote, terms: &TextSet) -> bool
    ensures { result ≡ has_all terms.now (note_terms note.now) }
{
    for place in 0..terms.len() {
        if !note.has_term(terms.text(place)) {
            return false;
        }
    }
    true
}

fn fits_motivations<'a>(
    note: &'a KeptNote,
    pieces: &Pieces,
    wants_others: bool,
    known: &mut Known<'a>,
) -> bool
    requires known { IsKnown pieces.now known.old }
    requires others { wants_others ≡ has_text (codes "non-painting") pieces.now }
    ensures fits { result ≡ fits_motivations pieces.now (motivations_of note.now) }
    ensures known { IsKnown pieces.now known.new }
{
    if pieces.as_slice().is_empty() {
        return true;
    }
    if has_one_motivation(note, pieces, known) {
        return true;
    }
    wants_others && !note.has_motivation("painting")
}

/// Whether one of its motivations is a piece. Most annotations have one.
fn has_one_motivation<'a>(note: &'a KeptNote, pieces: &Pieces, known: &mut Known<'a>) -> bool
    requires known { IsKnown pieces.now known.old }
    ensures found { result
        ≡ list_any (λ piece. has_text piece (motivations_of note.now)) pieces.now }
    ensures known { IsKnown pieces.now known.new }
{
    let own = note.motivations();
    if own.len() == 1 {
        return is_piece(pieces, known, own.text(0));
    }
    share_one(pieces.ordered(), own)
}

fn fits_ranges(ranges: &Ranges, moment: Moment) -> bool
    ensures { result ≡ fits_ranges ranges.now moment }
{
    ranges.as_slice().is_empty() || ranges.has(moment)
}

fn fits_users<'a>(users: &Pieces, creator: &'a Text, known: &mut Known<'a>) -> bool
    requires known { IsKnown users.now known.old }
    ensures fits { result ≡ fits_users users.now creator.now }
    ensures known { IsKnown users.now known.new }
{
    if users.as_slice().is_empty() {
        return true;
    }
    is_piece(users, known, creator.as_str())
}
