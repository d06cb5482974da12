ghost use Rattle.std.specs.Prelude.{◌≡◌, ◌<◌, false, length, map, option_map, IfOk};
ghost use Rattle.std.specs.List.{All, range_with_len};
ghost use Rattle.std.specs.List.Sorted.{IsPermutation};
ghost use Rattle.an_model.specs.Bodies.{texts_of};
ghost use Rattle.an_policy.specs.Audience.{identity};
ghost use Rattle.an_state.specs.View.{view_of};
ghost use Rattle.an_anchor.specs.Comments.{is_lost_in, is_orphan, texts_in};
ghost use Rattle.an_anchor.specs.Walk.{IsJudged, IsKnown, is_lost, texts_at};

use crate::anchored::AnchorState;
use crate::comment::Comment;
use crate::resolving::resolve;
use an_base::{List, Name, Text};
use an_iri::names_in;
use an_policy::Who;
use an_state::{Look, NoteRow, shown_note};
use std::alloc::{AllocError, Global};

/// An annotation that was looked up: the IRI by which it was, and its texts, where the caller may
/// read it.
#[derive(Drop)]
struct Known {
    source: Text,
    texts: Option<List<Text>>,
}

/// Whether each of the comments is lost in the texts of what it is about. They are judged in the
/// order of their sources, so that each annotation is read back once.
pub(crate) fn lost_among<T: Look>(
    alloc: Global,
    look: &T,
    who: &Who<'_>,
    base: &str,
    comments: &[Comment],
) -> Result<Vec<bool>, AllocError>
    ensures lost { IfOk result (λ lost. lost.items ≡ map
        (is_lost base.now (view_of (T.state look.now) (identity who.now))) comments.now) }
{
    let order = by_source(alloc, comments)?;
    let lost = judge(alloc, look, who, base, comments, order.as_slice())?;
    Ok(lost)
}

/// The places of the comments, in the order of their sources.
fn by_source(alloc: Global, comments: &[Comment]) -> Result<Vec<usize>, AllocError>
    ensures { IfOk result (λ order.
        IsPermutation (range_with_len 0 (length comments.now)) order.items) }
{
    let mut order = places(alloc, comments.len())?;
    order.sort_unstable_by_key(|place| source_at(comments, *place));
    Ok(order)
}

fn places(alloc: Global, count: usize) -> Result<Vec<usize>, AllocError>
    ensures { IfOk result (λ places. places.items ≡ range_with_len 0 count) }
{
    let mut places = Vec::with_capacity(alloc, count)?;
    for place in 0..count {
        places.push(place)?;
    }
    Ok(places)
}

fn source_at(comments: &[Comment], place: usize) -> &str {
    match comments.get(place) {
        Some(comment) => comment.target.source.as_str(),
        None => "",
    }
}

/// Whether each of the comments at these places is lost. What neighbours are about is looked up
/// once.
fn judge<T: Look>(
    alloc: Global,
    look: &T,
    who: &Who<'_>,
    base: &str,
    comments: &[Comment],
    order: &[usize],
) -> Result<Vec<bool>, AllocError>
    requires within { All (λ place. place < length comments.now) order.now }
    ensures all { IfOk result (λ lost. length lost.items ≡ length comments.now) }
    ensures judged { IfOk result (λ lost. All (IsJudged
        (is_lost base.now (view_of (T.state look.now) (identity who.now)))
        comments.now lost.items) order.now) }
{
    let mut lost = vec![in alloc; false; comments.len()]?;
    let mut known = look_up(alloc, look, who, base, "")?;
    for place in order {
        let comment = &comments[*place];
        known = known_at(
            alloc,
            look,
            who,
            base,
            known,
            comment.target.source.as_str(),
        )?;
        lost[*place] = is_lost_in(alloc, &known, comment)?;
    }
    Ok(lost)
}

/// Whether the comment is lost in the texts of what it is about.
fn is_lost_in(alloc: Global, known: &Known, comment: &Comment) -> Result<bool, AllocError>
    ensures { IfOk result (λ lost. lost ≡ is_lost_in known.now.texts comment.now) }
{
    match &known.texts {
        Some(texts) => {
            let selectors = comment.target.selectors.as_slice();
            Ok(is_orphan(resolve(alloc, texts.as_slice(), selectors)?.state))
        }
        None => Ok(true),
    }
}

fn is_orphan(state: AnchorState) -> bool
    ensures { result ≡ is_orphan state }
{
    matches!(state, AnchorState::Orphan)
}

/// The annotation of this IRI, which is looked up unless it is the one that is known.
fn known_at<T: Look>(
    alloc: Global,
    look: &T,
    who: &Who<'_>,
    base: &str,
    known: Known,
    source: &str,
) -> Result<Known, AllocError>
    requires known { IsKnown base.now (view_of (T.state look.now) (identity who.now)) known }
    ensures known { IfOk result
        (IsKnown base.now (view_of (T.state look.now) (identity who.now))) }
    ensures source { IfOk result (λ known. known.source ≡ source.now) }
{
    if known.source.as_str() == source {
        Ok(known)
    } else {
        look_up(alloc, look, who, base, source)
    }
}

fn look_up<T: Look>(
    alloc: Global,
    look: &T,
    who: &Who<'_>,
    base: &str,
    source: &str,
) -> Result<Known, AllocError>
    ensures known { IfOk result
        (IsKnown base.now (view_of (T.state look.now) (identity who.now))) }
    ensures source { IfOk result (λ known. known.source ≡ source.now) }
{
    let texts = texts_at(alloc, look, who, base, source)?;
    let source = Text::new(alloc, source)?;
    Ok(Known { source, texts })
}

/// The texts of the annotation of this IRI, where the caller may read it.
fn texts_at<T: Look>(
    alloc: Global,
    look: &T,
    who: &Who<'_>,
    base: &str,
    iri: &str,
) -> Result<Option<List<Text>>, AllocError>
    ensures { IfOk result (λ texts. texts
        ≡ texts_at base.now (view_of (T.state look.now) (identity who.now)) iri.now) }
{
    match names_in(alloc, base, iri)? {
        Some((owner, name)) => texts_of(alloc, look, who, &owner, &name),
        None => Ok(None),
    }
}

fn texts_of<T: Look>(
    alloc: Global,
    look: &T,
    who: &Who<'_>,
    owner: &Name,
    name: &Name,
) -> Result<Option<List<Text>>, AllocError>
    ensures { IfOk result (λ texts. texts
        ≡ texts_in (view_of (T.state look.now) (identity who.now)) (owner.now, name.now)) }
{
    match shown_note(look, who, owner, name) {
        Some(row) => row_texts(alloc, row),
        None => Ok(None),
    }
}

fn row_texts(alloc: Global, row: &NoteRow) -> Result<Option<List<Text>>, AllocError>
    ensures { IfOk result (λ texts. texts
        ≡ option_map (λ live. texts_of live.tree) row.now.live) }
{
    match row.live() {
        Some(live) => Ok(Some(live.tree.texts(alloc)?)),
        None => Ok(None),
    }
}
