ghost use Rattle.std.specs.Prelude.{◌≡◌, ◌+◌, ◌≤◌, List, [], ◌∷◌, ◌++◌, filter, length};
ghost use Rattle.std.specs.Prelude.{slice_get, IfOk, OnOk};
ghost use Rattle.std.specs.List.{filter_map, flat_map};
ghost use Rattle.an_model.specs.Targets.{targets_of};
ghost use Rattle.an_policy.specs.Audience.{identity};
ghost use Rattle.an_state.specs.View.{view_of};
ghost use Rattle.an_pages.specs.Container.{notes_on};
ghost use Rattle.an_anchor.specs.Comments.{anchor_item, is_about, numbered, row_targets};
ghost use Rattle.an_anchor.specs.Comments.{targets_on};
ghost use Rattle.an_anchor.specs.Walk.{HasCounted, is_kept_about};
ghost use Rattle.an_anchor.specs.declared.comment.Comment.{Comment};

use crate::counted::{Counted, Window, none_counted, pass_by, write_counted};
use crate::resolving::resolve;
use an_base::{Name, Steps, Text};
use an_keyed::Keyed;
use an_model::{KeptNote, KeptTarget, Target};
use an_policy::Who;
use an_state::{Look, NoteRow};
use std::alloc::{AllocError, Global};
use std::sync::ledger::Ledger;

/// Of which annotation comments are wanted, and which of them stand on the page.
#[derive(Clone, Copy)]
pub(crate) struct Asked<'a> {
    pub base: &'a str,
    /// Its IRI.
    pub iri: &'a str,
    /// Its texts.
    pub texts: &'a [Text],
    pub window: Window,
}

/// Walks over the annotations on a manifest that the caller may read. It takes a step for each.
pub(crate) fn count_on<T: Look, L: Ledger>(
    alloc: Global,
    look: &T,
    who: &Who<'_>,
    manifest: &Name,
    asked: &Asked<'_>,
    steps: &mut Steps<L>,
) -> Result<Counted, AllocError>
    ensures counted { IfOk result (HasCounted (anchor_item asked.now.base.now asked.now.texts.now)
        asked.now.window (filter (is_about asked.now.iri.now) (targets_on
        (view_of (T.state look.now) (identity who.now)) manifest.now))) }
    ensures steps { OnOk result (steps.new ≡ steps.old + length
        (notes_on (view_of (T.state look.now) (identity who.now)) manifest.now)) }
    ensures steps_most { steps.new ≤ steps.old + length
        (notes_on (view_of (T.state look.now) (identity who.now)) manifest.now) }
    ensures steps_least { steps.old ≤ steps.new }
{
    let places = look.readable(alloc, who, Some(manifest))?;
    let counted = count_at(alloc, look, places.as_slice(), asked, steps)?;
    Ok(counted)
}

/// Walks over the annotations at these places.
fn count_at<T: Look, L: Ledger>(
    alloc: Global,
    look: &T,
    places: &[usize],
    asked: &Asked<'_>,
    steps: &mut Steps<L>,
) -> Result<Counted, AllocError>
    ensures counted { IfOk result (HasCounted (anchor_item asked.now.base.now asked.now.texts.now)
        asked.now.window (filter (is_about asked.now.iri.now) (flat_map row_targets
        (filter_map (slice_get (T.state look.now).notes) places.now)))) }
    ensures steps { OnOk result (steps.new ≡ steps.old + length places.now) }
    ensures steps_most { steps.new ≤ steps.old + length places.now }
    ensures steps_least { steps.old ≤ steps.new }
{
    let mut counted = none_counted(alloc);
    for place in places {
        match look.note_at(*place, steps) {
            Some(row) => counted = count_row(alloc, counted, row, asked)?,
            None => {}
        }
    }
    Ok(counted)
}

fn count_row(
    alloc: Global,
    counted: Counted,
    row: &NoteRow,
    asked: &Asked<'_>,
) -> Result<Counted, AllocError>
    ensures counted { IfOk result (λ new. (comments : List Comment)
        → HasCounted (anchor_item asked.now.base.now asked.now.texts.now) asked.now.window
        comments counted
        → HasCounted (anchor_item asked.now.base.now asked.now.texts.now) asked.now.window
        (comments ++ filter (is_about asked.now.iri.now) (row_targets row.now)) new) }
{
    match row.live() {
        Some(live) => count_note(alloc, counted, row, live.tree, asked),
        None => Ok(counted),
    }
}

/// Counts the comments of an annotation. It is read back only where one of them stands on the page.
fn count_note(
    alloc: Global,
    counted: Counted,
    row: &NoteRow,
    kept: &KeptNote,
    asked: &Asked<'_>,
) -> Result<Counted, AllocError>
    ensures counted { IfOk result (λ new. (comments : List Comment)
        → HasCounted (anchor_item asked.now.base.now asked.now.texts.now) asked.now.window
        comments counted
        → HasCounted (anchor_item asked.now.base.now asked.now.texts.now) asked.now.window
        (comments ++ filter (is_about asked.now.iri.now)
        (numbered row.now 0 (targets_of kept.now))) new) }
{
    let count = count_about(kept.targets(), asked.iri);
    if asked.window.meets(counted.total, count) {
        let targets = kept.whole_targets(alloc)?;
        let counted = count_targets(alloc, counted, row, targets.as_slice(), asked)?;
        Ok(counted)
    } else {
        let counted = pass_by(counted, count)?;
        Ok(counted)
    }
}

/// How many of the targets are about the annotation of this IRI.
fn count_about(targets: &[KeptTarget], iri: &str) -> usize
    ensures { result ≡ length (filter (is_kept_about iri.now) targets.now) }
{
    targets
        .iter()
        .filter(|target| is_kept_about(target, iri))
        .count()
}

fn is_kept_about(target: &KeptTarget, iri: &str) -> bool
    ensures { result ≡ is_kept_about iri.now target.now }
{
    target.source.as_str() == iri
}

/// Counts those of an annotation's targets that are comments.
fn count_targets(
    alloc: Global,
    counted: Counted,
    row: &NoteRow,
    targets: &[Target],
    asked: &Asked<'_>,
) -> Result<Counted, AllocError>
    ensures counted { IfOk result (λ new. (comments : List Comment)
        → HasCounted (anchor_item asked.now.base.now asked.now.texts.now) asked.now.window
        comments counted
        → HasCounted (anchor_item asked.now.base.now asked.now.texts.now) asked.now.window
        (comments ++ filter (is_about asked.now.iri.now)
        (numbered row.now 0 targets.now)) new) }
{
    let mut counted = counted;
    let mut number = 0;
    for target in targets {
        counted = count_target(alloc, counted, row, number, target, asked)?;
        number += 1;
    }
    Ok(counted)
}

fn count_target(
    alloc: Global,
    counted: Counted,
    row: &NoteRow,
    number: usize,
    target: &Target,
    asked: &Asked<'_>,
) -> Result<Counted, AllocError>
    ensures counted { IfOk result (λ new. (comments : List Comment)
        → HasCounted (anchor_item asked.now.base.now asked.now.texts.now) asked.now.window
        comments counted
        → HasCounted (anchor_item asked.now.base.now asked.now.texts.now) asked.now.window
        (comments ++ filter (is_about asked.now.iri.now)
        (numbered row.now number (target.now ∷ []))) new) }
{
    if target.source.as_str() == asked.iri {
        count_comment(alloc, counted, row, number, target, asked)
    } else {
        Ok(counted)
    }
}

/// Counts a comment. Its selectors are resolved only where it stands on the page.
fn count_comment(
    alloc: Global,
    counted: Counted,
    row: &NoteRow,
    number: usize,
    target: &Target,
    asked: &Asked<'_>,
) -> Result<Counted, AllocError>
    ensures counted { IfOk result (λ new. (comments : List Comment)
        → HasCounted (anchor_item asked.now.base.now asked.now.texts.now) asked.now.window
        comments counted
        → HasCounted (anchor_item asked.now.base.now asked.now.texts.now) asked.now.window
        (comments ++ numbered row.now number (target.now ∷ [])) new) }
{
    if asked.window.has_place(counted.total) {
        let anchor = resolve(alloc, asked.texts, target.selectors.as_slice())?;
        let counted = write_counted(
            alloc,
            counted,
            asked.base,
            row.owned_by(),
            row.name(),
            number,
            &anchor,
        )?;
        Ok(counted)
    } else {
        let counted = pass_by(counted, 1)?;
        Ok(counted)
    }
}
