ghost use Rattle.std.specs.Prelude.{◌≡◌, ◌+◌, ◌++◌, [], if◌then◌else◌, filter, length, map};
ghost use Rattle.std.specs.Prelude.{IfOk, OnOk};
ghost use Rattle.std.specs.List.{flat_map};
ghost use Rattle.an_policy.specs.Audience.{identity};
ghost use Rattle.an_state.specs.View.{shows_note, view_of};
ghost use Rattle.an_export.specs.Export.{manifest_line, note_line};

use crate::line::{push_manifest, push_note};
use an_base::Steps;
use an_policy::Who;
use an_state::{Look, ManifestRow, NoteRow, is_note_shown, shown_manifests};
use std::alloc::{AllocError, Global};
use std::sync::ledger::Ledger;

/// Writes the lines of the live manifests that the caller may read, in the order of their rows.
pub(crate) fn push_manifests<T: Look>(
    alloc: Global,
    out: Vec<u8>,
    look: &T,
    who: &Who<'_>,
) -> Result<Vec<u8>, AllocError>
    ensures text { IfOk result (λ v. v.items ≡ out.items ++ flat_map manifest_line
        (view_of (T.state look.now) (identity who.now)).manifests) }
{
    let rows = shown_manifests(alloc, look, who)?;
    push_rows(out, rows.as_slice())
}

/// Writes the lines of these manifests.
fn push_rows(out: Vec<u8>, rows: &[&ManifestRow]) -> Result<Vec<u8>, AllocError>
    ensures text { IfOk result (λ v. v.items
        ≡ out.items ++ flat_map manifest_line (map (λ row. row.now) rows.now)) }
{
    let mut out = out;
    for row in rows {
        out = push_manifest(out, row)?;
    }
    Ok(out)
}

/// Writes the lines of the live annotations that the caller may read, in the order of their rows.
/// Each row is fetched, and there is one step more, which finds no row.
pub(crate) fn push_notes<T: Look, L: Ledger>(
    out: Vec<u8>,
    look: &T,
    who: &Who<'_>,
    steps: &mut Steps<L>,
) -> Result<Vec<u8>, AllocError>
    ensures text { IfOk result (λ v. v.items ≡ out.items ++ flat_map note_line
        (filter (shows_note (T.state look.now) (identity who.now)) (T.state look.now).notes)) }
    ensures steps { OnOk result (steps.new ≡ steps.old + length (T.state look.now).notes + 1) }
{
    let mut out = out;
    for place in 0..usize::MAX {
        match look.note_at(place, steps) {
            Some(row) => out = push_shown_note(out, look, who, row)?,
            None => return Ok(out),
        }
    }
    // No memory holds so many rows.
    Err(AllocError)
}

/// Writes the line of an annotation if it is live and the caller may read it.
fn push_shown_note<T: Look>(
    out: Vec<u8>,
    look: &T,
    who: &Who<'_>,
    row: &NoteRow,
) -> Result<Vec<u8>, AllocError>
    ensures text { IfOk result (λ v. v.items ≡ out.items
        ++ (if shows_note (T.state look.now) (identity who.now) row.now
        then note_line row.now else [])) }
{
    if is_note_shown(look, who, row) {
        push_note(out, row)
    } else {
        Ok(out)
    }
}
