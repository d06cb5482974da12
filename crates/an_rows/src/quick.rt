//! Most rows are read without a JSON value of them: their parts are cut out of the bytes, and what
//! is made of these is the row where it is a valid one and the bytes are its text. Else nothing is
//! known.
ghost use Rattle.std.specs.Prelude.{◌≡◌, IfOk, IfSome, Ok, true};
ghost use Rattle.an_state.specs.declared.entry.Row.TheVariants as kept;
ghost use Rattle.an_rows.specs.RowRead.{row_of_text};
ghost use Rattle.an_rows.specs.RowTree.{row_text};
ghost use Rattle.an_rows.specs.declared.format.Format.{Format};

use crate::activities::push_activity;
use crate::cut::{CutActivity, CutAudience, CutNote, cut_activity, cut_note};
use crate::fields::{creator_of, group_of, moment_of};
use crate::format::Format;
use crate::notes::{ReadNote, live_row, note_of, push_note};
use crate::refusal::RowError;
use crate::valid::{is_valid_activity, is_valid_live_row};
use an_base::{
    Moment, Name, NameError, TreeError, TryCopy, close_members, read_decimal, read_tree,
};
use an_policy::{Audience, Inner, inner_of};
use an_state::{Activity, NoteRow};
use std::alloc::{AllocError, Global};
use std::str::from_utf8;

/// The activity whose text these bytes are, where that is told so.
pub(crate) fn quick_activity(alloc: Global, bytes: &[u8]) -> Result<Option<Activity>, AllocError>
    ensures activity { IfOk result (λ found. IfSome found (λ activity.
        row_of_text Format.Second 4 bytes.now ≡ Ok (kept.Activity activity))) }
{
    match made_activity(alloc, bytes) {
        Ok(activity) => activity_if(alloc, bytes, activity),
        Err(RowError::Memory) => Err(AllocError),
        Err(_) => Ok(None),
    }
}

#[tactic(auto, using(crate::proofs::QuickLemmas::quick_rows))]
fn activity_if(
    alloc: Global,
    bytes: &[u8],
    activity: Activity,
) -> Result<Option<Activity>, AllocError>
    ensures { IfOk result (λ found. IfSome found (λ activity.
        row_of_text Format.Second 4 bytes.now ≡ Ok (kept.Activity activity))) }
{
    if is_valid_activity(&activity) && is_activity_text(alloc, bytes, &activity)? {
        return Ok(Some(activity));
    }
    Ok(None)
}

fn is_activity_text(alloc: Global, bytes: &[u8], activity: &Activity) -> Result<bool, AllocError>
    ensures { IfOk result (λ is. is ≡ true
        → row_text Format.Second (kept.Activity activity.now) ≡ bytes.now) }
{
    let text = activity_bytes(alloc, activity, bytes.len())?;
    Ok(text.as_slice() == bytes)
}

/// The text of an activity's row, for which so much memory is taken at once.
#[tactic(auto, unfolding(crate::specs::RowTree::row_text))]
fn activity_bytes(alloc: Global, activity: &Activity, room: usize) -> Result<Vec<u8>, AllocError>
    ensures { IfOk result
        (λ text. text.items ≡ row_text Format.Second (kept.Activity activity.now)) }
{
    let out = Vec::with_capacity(alloc, room)?;
    let out = push_activity(alloc, Format::Second, out, activity)?;
    let out = close_members(out, 0)?;
    Ok(out)
}

/// The row of a live annotation whose text these bytes are, where that is told so.
pub(crate) fn quick_note(alloc: Global, bytes: &[u8]) -> Result<Option<NoteRow>, AllocError>
    ensures note { IfOk result (λ found. IfSome found (λ row.
        row_of_text Format.Second 3 bytes.now ≡ Ok (kept.Note row))) }
{
    match made_note(alloc, bytes) {
        Ok(row) => note_if(alloc, bytes, row),
        Err(RowError::Memory) => Err(AllocError),
        Err(_) => Ok(None),
    }
}

#[tactic(auto, using(crate::proofs::QuickLemmas::quick_rows))]
fn note_if(alloc: Global, bytes: &[u8], row: NoteRow) -> Result<Option<NoteRow>, AllocError>
    ensures { IfOk result (λ found. IfSome found (λ row.
        row_of_text Format.Second 3 bytes.now ≡ Ok (kept.Note row))) }
{
    if is_valid_live_row(&row) && is_note_text(alloc, bytes, &row)? {
        return Ok(Some(row));
    }
    Ok(None)
}

fn is_note_text(alloc: Global, bytes: &[u8], row: &NoteRow) -> Result<bool, AllocError>
    ensures { IfOk result (λ is. is ≡ true
        → row_text Format.Second (kept.Note row.now) ≡ bytes.now) }
{
    let text = note_bytes(alloc, row, bytes.len())?;
    Ok(text.as_slice() == bytes)
}

/// The text of an annotation's row, for which so much memory is taken at once.
#[tactic(auto, unfolding(crate::specs::RowTree::row_text))]
fn note_bytes(alloc: Global, row: &NoteRow, room: usize) -> Result<Vec<u8>, AllocError>
    ensures { IfOk result (λ text. text.items ≡ row_text Format.Second (kept.Note row.now)) }
{
    let out = Vec::with_capacity(alloc, room)?;
    let out = push_note(alloc, Format::Second, out, row)?;
    let out = close_members(out, 0)?;
    Ok(out)
}

/// An activity of the parts that are cut out of bytes.
fn made_activity(alloc: Global, bytes: &[u8]) -> Result<Activity, RowError> {
    let text = from_utf8(bytes).ok().ok_or(RowError::Bytes)?;
    let cut = cut_activity(text).ok_or(RowError::Bytes)?;
    activity_of(alloc, cut)
}

fn activity_of(alloc: Global, cut: CutActivity<'_>) -> Result<Activity, RowError> {
    let at = moment_in(cut.at).ok_or(RowError::Bytes)?;
    let owner = name_if(alloc, cut.owner, None)?;
    let by = by_of(alloc, cut.by, copied(&owner)?)?;
    let before = audience_if(alloc, cut.before, copied(&owner)?)?;
    let after = audience_if(alloc, cut.after, copied(&owner)?)?;
    let name = name_of(alloc, cut.name, None)?;
    Ok(Activity {
        at,
        by,
        owner,
        name,
        before,
        after,
    })
}

fn copied(name: &Option<Name>) -> Result<Option<Name>, RowError> {
    match name {
        Some(name) => match name.copy() {
            Ok(name) => Ok(Some(name)),
            Err(_) => Err(RowError::Memory),
        },
        None => Ok(None),
    }
}

/// Who did it; the operator has no name.
fn by_of(alloc: Global, text: &str, known: Option<Name>) -> Result<Option<Name>, RowError> {
    if text == "-" {
        return Ok(None);
    }
    name_if(alloc, Some(text), known)
}

fn audience_if(
    alloc: Global,
    cut: Option<CutAudience<'_>>,
    owner: Option<Name>,
) -> Result<Option<Audience>, RowError> {
    match cut {
        Some(cut) => {
            let audience = audience_of(alloc, cut, owner)?;
            Ok(Some(audience))
        }
        None => Ok(None),
    }
}

fn audience_of(
    alloc: Global,
    cut: CutAudience<'_>,
    owner: Option<Name>,
) -> Result<Audience, RowError> {
    let outer = group_of(alloc, cut.outer)?;
    let inner = inner_alone(alloc, cut.inner)?;
    let owner = name_if(alloc, cut.owner, owner)?;
    Ok(Audience {
        outer,
        inner,
        owner,
    })
}

/// The inner groups that one text says.
fn inner_alone(alloc: Global, text: &str) -> Result<Inner, RowError> {
    match inner_of(alloc, &[text]) {
        Ok(inner) => inner.ok_or(RowError::Bytes),
        Err(_) => Err(RowError::Memory),
    }
}

fn name_if(
    alloc: Global,
    text: Option<&str>,
    known: Option<Name>,
) -> Result<Option<Name>, RowError> {
    match text {
        Some(text) => {
            let name = name_of(alloc, text, known)?;
            Ok(Some(name))
        }
        None => Ok(None),
    }
}

/// The name that a text is: the one that is known, where that is it.
fn name_of(alloc: Global, text: &str, known: Option<Name>) -> Result<Name, RowError> {
    if let Some(known) = known {
        if known.as_str() == text {
            return Ok(known);
        }
    }
    match Name::new(alloc, text) {
        Ok(name) => Ok(name),
        Err(NameError::Memory) => Err(RowError::Memory),
        Err(_) => Err(RowError::Bytes),
    }
}

/// The moment of so many seconds.
fn moment_in(text: &str) -> Option<Moment> {
    let seconds = text.parse::<i64>().ok()?;
    moment_of(seconds)
}

/// The row of a live annotation of the parts that are cut out of bytes.
fn made_note(alloc: Global, bytes: &[u8]) -> Result<NoteRow, RowError> {
    let text = from_utf8(bytes).ok().ok_or(RowError::Bytes)?;
    let cut = cut_note(text).ok_or(RowError::Bytes)?;
    let version = read_decimal(cut.version, 999_999_999).ok_or(RowError::Bytes)?;
    let live = live_of(alloc, &cut)?;
    let owner = name_of(alloc, cut.owner, None)?;
    let name = name_of(alloc, cut.name, None)?;
    Ok(live_row(owner, name, version, live))
}

fn live_of(alloc: Global, cut: &CutNote<'_>) -> Result<ReadNote, RowError> {
    let value = match read_tree(alloc, cut.tree.as_bytes()) {
        Ok(value) => value,
        Err(TreeError::Memory) => return Err(RowError::Memory),
        Err(_) => return Err(RowError::Bytes),
    };
    let tree = note_of(alloc, &value)?;
    let created = moment_in(cut.created).ok_or(RowError::Bytes)?;
    Ok(ReadNote {
        manifest: name_of(alloc, cut.manifest, None)?,
        group: inner_alone(alloc, cut.group)?,
        creator: creator_of(alloc, cut.creator)?,
        created,
        modified: cut.modified.and_then(moment_in),
        tree,
    })
}
