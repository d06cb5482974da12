ghost use Rattle.std.specs.Prelude.{◌≡◌, ◌+◌, ◌≤◌, filter, length, IfOk, OnOk};
ghost use Rattle.an_policy.specs.Audience.{identity};
ghost use Rattle.an_state.specs.View.{readable_places, view_of};
ghost use Rattle.an_pages.specs.Canvas.{is_about, is_row_about, passes_at};
ghost use Rattle.an_pages.specs.Container.{notes_on};

use crate::region::has_target_in;
use an_base::{Name, Steps};
use an_model::KeptNote;
use an_policy::Who;
use an_selectors::Xywh;
use an_state::{Look, NoteRow};
use std::alloc::{AllocError, Global};
use std::sync::ledger::Ledger;

/// The places of the annotations on a manifest that the caller may read and that are about a canvas
/// or a region of it, ascending. It takes a step for each that the caller may read.
pub(crate) fn places_about<T: Look, L: Ledger>(
    alloc: Global,
    look: &T,
    who: &Who<'_>,
    manifest: &Name,
    canvas: &str,
    region: Option<Xywh>,
    steps: &mut Steps<L>,
) -> Result<Vec<usize>, AllocError>
    ensures places { IfOk result (λ places. places.items
        ≡ filter (passes_at (is_row_about canvas.now region) (T.state look.now).notes)
        (readable_places (T.state look.now) (identity who.now) manifest.now)) }
    ensures steps { OnOk result (steps.new ≡ steps.old
        + length (notes_on (view_of (T.state look.now) (identity who.now)) manifest.now)) }
    ensures steps_most { steps.new ≤ steps.old
        + length (notes_on (view_of (T.state look.now) (identity who.now)) manifest.now) }
    ensures steps_least { steps.old ≤ steps.new }
{
    let places = look.readable(alloc, who, Some(manifest))?;
    let found = places_among(alloc, look, places.as_slice(), canvas, region, steps)?;
    Ok(found)
}

#[tactic(auto, using(an_list::proofs::PieceLemmas::pieces_left))]
fn places_among<T: Look, L: Ledger>(
    alloc: Global,
    look: &T,
    places: &[usize],
    canvas: &str,
    region: Option<Xywh>,
    steps: &mut Steps<L>,
) -> Result<Vec<usize>, AllocError>
    ensures places { IfOk result (λ found. found.items
        ≡ filter (passes_at (is_row_about canvas.now region) (T.state look.now).notes) places.now) }
    ensures steps { OnOk result (steps.new ≡ steps.old
        + length places.now) }
    ensures steps_most { steps.new ≤ steps.old
        + length places.now }
    ensures steps_least { steps.old ≤ steps.new }
{
    let mut found = Vec::new(alloc);
    for place in places {
        if is_place_about(look, *place, canvas, region, steps) {
            found.push(*place)?;
        }
    }
    Ok(found)
}

/// Whether there is an annotation at the place, and it is about the canvas or the region of it.
fn is_place_about<T: Look, L: Ledger>(
    look: &T,
    place: usize,
    canvas: &str,
    region: Option<Xywh>,
    steps: &mut Steps<L>,
) -> bool
    ensures about { result
        ≡ passes_at (is_row_about canvas.now region) (T.state look.now).notes place }
    ensures step { steps.new ≡ steps.old + 1 }
{
    match look.note_at(place, steps) {
        Some(row) => is_row_about(row, canvas, region),
        None => false,
    }
}

fn is_row_about(row: &NoteRow, canvas: &str, region: Option<Xywh>) -> bool
    ensures { result ≡ is_row_about canvas.now region row.now }
{
    match row.live() {
        Some(live) => is_about(live.tree, canvas, region),
        None => false,
    }
}

/// Whether one of the targets is on the canvas and, where a region is asked for, meets that.
fn is_about(note: &KeptNote, canvas: &str, region: Option<Xywh>) -> bool
    ensures { result ≡ is_about canvas.now region note.now }
{
    has_target_in(note.targets(), canvas, region)
}
