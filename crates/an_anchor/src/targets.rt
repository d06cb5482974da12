ghost use Rattle.std.specs.Prelude.{◌≡◌, ◌+◌, ◌≤◌, [], ◌∷◌, ◌++◌, filter, is_some, length};
ghost use Rattle.std.specs.Prelude.{slice_get, IfOk, OnOk};
ghost use Rattle.std.specs.List.{filter_map, flat_map, list_any};
ghost use Rattle.an_iri.specs.Names.{names_in};
ghost use Rattle.an_model.specs.Targets.{targets_of};
ghost use Rattle.an_policy.specs.Audience.{identity};
ghost use Rattle.an_state.specs.View.{view_of};
ghost use Rattle.an_pages.specs.Container.{notes_on};
ghost use Rattle.an_anchor.specs.Comments.{numbered, row_targets, targets_on};
ghost use Rattle.an_anchor.specs.Walk.{is_comment, is_kept_comment};

use crate::comment::Comment;
use an_base::{Name, Steps, TryCopy};
use an_iri::names_in;
use an_keyed::Keyed;
use an_model::{KeptNote, KeptTarget, Target};
use an_policy::Who;
use an_state::{Look, NoteRow};
use std::alloc::{AllocError, Global};
use std::sync::ledger::Ledger;

/// The comments among the annotations on a manifest that the caller may read: their targets whose
/// source is the IRI of an annotation. It takes a step for each annotation.
pub(crate) fn comments_on<T: Look, L: Ledger>(
    alloc: Global,
    look: &T,
    who: &Who<'_>,
    manifest: &Name,
    base: &str,
    steps: &mut Steps<L>,
) -> Result<Vec<Comment>, AllocError>
    ensures comments { IfOk result (λ comments. comments.items ≡ filter (is_comment base.now)
        (targets_on (view_of (T.state look.now) (identity who.now)) manifest.now)) }
    ensures steps { OnOk result (steps.new ≡ steps.old + length
        (notes_on (view_of (T.state look.now) (identity who.now)) manifest.now)) }
    ensures steps_most { steps.new ≤ steps.old + length
        (notes_on (view_of (T.state look.now) (identity who.now)) manifest.now) }
    ensures steps_least { steps.old ≤ steps.new }
{
    let places = look.readable(alloc, who, Some(manifest))?;
    let comments = comments_at(alloc, look, places.as_slice(), base, steps)?;
    Ok(comments)
}

fn comments_at<T: Look, L: Ledger>(
    alloc: Global,
    look: &T,
    places: &[usize],
    base: &str,
    steps: &mut Steps<L>,
) -> Result<Vec<Comment>, AllocError>
    ensures comments { IfOk result (λ comments. comments.items ≡ filter (is_comment base.now)
        (flat_map row_targets (filter_map (slice_get (T.state look.now).notes) places.now))) }
    ensures steps { OnOk result (steps.new ≡ steps.old + length places.now) }
    ensures steps_most { steps.new ≤ steps.old + length places.now }
    ensures steps_least { steps.old ≤ steps.new }
{
    let mut comments = Vec::new(alloc);
    for place in places {
        match look.note_at(*place, steps) {
            Some(row) => push_comments(alloc, &mut comments, row, base)?,
            None => {}
        }
    }
    Ok(comments)
}

fn push_comments(
    alloc: Global,
    comments: &mut Vec<Comment>,
    row: &NoteRow,
    base: &str,
) -> Result<(), AllocError>
    ensures { OnOk result (comments.new.items
        ≡ comments.old.items ++ filter (is_comment base.now) (row_targets row.now)) }
{
    match row.live() {
        Some(live) => push_from(alloc, comments, row, live.tree, base),
        None => Ok(()),
    }
}

/// Adds the comments of an annotation, which is read back only where it has some.
fn push_from(
    alloc: Global,
    comments: &mut Vec<Comment>,
    row: &NoteRow,
    kept: &KeptNote,
    base: &str,
) -> Result<(), AllocError>
    ensures { OnOk result (comments.new.items ≡ comments.old.items
        ++ filter (is_comment base.now) (numbered row.now 0 (targets_of kept.now))) }
{
    if has_comment(alloc, kept.targets(), base)? {
        let targets = kept.whole_targets(alloc)?;
        push_targets(alloc, comments, row, targets.as_slice(), base)
    } else {
        Ok(())
    }
}

fn has_comment(alloc: Global, targets: &[KeptTarget], base: &str) -> Result<bool, AllocError>
    ensures { IfOk result (λ has. has ≡ list_any (is_kept_comment base.now) targets.now) }
{
    for target in targets {
        if is_note_iri(alloc, base, target.source.as_str())? {
            return Ok(true);
        }
    }
    Ok(false)
}

fn push_targets(
    alloc: Global,
    comments: &mut Vec<Comment>,
    row: &NoteRow,
    targets: &[Target],
    base: &str,
) -> Result<(), AllocError>
    ensures { OnOk result (comments.new.items ≡ comments.old.items
        ++ filter (is_comment base.now) (numbered row.now 0 targets.now)) }
{
    let mut number = 0;
    for target in targets {
        if is_note_iri(alloc, base, target.source.as_str())? {
            comments.push(comment(row, number, target)?)?;
        }
        number += 1;
    }
    Ok(())
}

fn comment(row: &NoteRow, number: usize, target: &Target) -> Result<Comment, AllocError>
    ensures { IfOk result (λ comment. comment ∷ [] ≡ numbered row.now number (target.now ∷ [])) }
{
    let target = target.copy()?;
    Ok(Comment {
        owner: row.owned_by().copy()?,
        name: row.name().copy()?,
        number,
        target,
    })
}

/// Whether a text is the IRI of an annotation.
fn is_note_iri(alloc: Global, base: &str, iri: &str) -> Result<bool, AllocError>
    ensures { IfOk result (λ is. is ≡ is_some (names_in base.now iri.now)) }
{
    match names_in(alloc, base, iri)? {
        Some(_) => Ok(true),
        None => Ok(false),
    }
}
