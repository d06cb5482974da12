ghost use Rattle.std.specs.Prelude.{◌≡◌, ◌++◌, IfErr, IfOk, IfSome, Ok};
ghost use Rattle.std.specs.Option.{ok_or};
ghost use Rattle.std.specs.Result.{result_ok};
ghost use Rattle.serde_json.specs.View.{view};
ghost use Rattle.an_base.specs.Outcome.{Gives};
ghost use Rattle.an_base.specs.Value.{value_of};
ghost use Rattle.an_base.specs.Write.{commas};
ghost use Rattle.an_rows.specs.RowRead.{row_in, if_its_text, row_of_text, row_of_cell};
ghost use Rattle.an_rows.specs.RowTree.{row_members, row_text};
ghost use Rattle.an_rows.specs.declared.format.Format.{Format};

use crate::activities::{activity_in, push_activity};
use crate::format::Format;
use crate::manifests::{manifest_row_in, push_manifest};
use crate::notes::{note_row_in, push_note};
use crate::quick::{quick_activity, quick_note};
use crate::readers::{push_reader, reader_row_in};
use crate::refusal::RowError;
use an_base::{Bytes, Shared, TreeError, close_members, read_value};
use an_state::{Activity, NoteRow, Row};
use serde_json::Value;
use std::alloc::{AllocError, Global};

/// The one text of a row in a format. The text of a tree that it keeps goes into it as it is.
/// Written in the first format a row reads back only where each annotation and audience in it has
/// one inner group.
#[tactic(auto, unfolding(crate::specs::RowTree::row_text))]
pub fn row_text(alloc: Global, format: Format, row: &Row) -> Result<Bytes, AllocError>
    ensures text { IfOk result (λ text. text ≡ row_text format row.now) }
{
    let out = push_row(alloc, format, Vec::new(alloc), row)?;
    let out = close_members(out, 0)?;
    Ok(Bytes::from_vec(out))
}

/// The text of an annotation's row as it is written today.
#[tactic(auto, unfolding(crate::specs::RowTree::row_text))]
pub(crate) fn note_text(alloc: Global, row: &NoteRow) -> Result<Bytes, AllocError>
    ensures text { IfOk result (λ text. text ≡ row_text Format.Second (Row.Note row.now)) }
{
    let out = push_note(alloc, Format::Second, Vec::new(alloc), row)?;
    let out = close_members(out, 0)?;
    Ok(Bytes::from_vec(out))
}

/// The text of an activity's row as it is written today.
#[tactic(auto, unfolding(crate::specs::RowTree::row_text))]
pub(crate) fn activity_text(alloc: Global, activity: &Activity) -> Result<Bytes, AllocError>
    ensures text { IfOk result (λ text. text
        ≡ row_text Format.Second (Row.Activity activity.now)) }
{
    let out = push_activity(alloc, Format::Second, Vec::new(alloc), activity)?;
    let out = close_members(out, 0)?;
    Ok(Bytes::from_vec(out))
}

/// Writes the members of a row, each behind a comma.
fn push_row(alloc: Global, format: Format, out: Vec<u8>, row: &Row) -> Result<Vec<u8>, AllocError>
    ensures text { IfOk result (λ v. v.items ≡ out.items ++ commas (row_members format row.now)) }
{
    match row {
        Row::Reader(row) => push_reader(alloc, out, row),
        Row::Manifest(row) => push_manifest(out, row.get()),
        Row::Note(row) => push_note(alloc, format, out, row.get()),
        Row::Activity(activity) => push_activity(alloc, format, out, activity.get()),
    }
}

/// The row of a cell in a format, or the first of the refusals in their order. The bytes have to be
/// the row's one text in the format, to the last byte.
#[tactic(auto, unfolding(crate::specs::RowRead::row_of_cell))]
pub fn read_row(
    alloc: Global,
    format: Format,
    tab: u8,
    key: u64,
    bytes: &[u8],
) -> Result<Row, RowError>
    ensures row { Gives (λ r. r) RowError.Memory result (row_of_cell format tab key bytes.now) }
{
    if tab < 1 || tab > 4 {
        return Err(RowError::Table);
    }
    if key >= 4_611_686_018_427_387_904 {
        return Err(RowError::Key);
    }
    row_of_text(alloc, format, tab, bytes)
}

fn row_of_text(alloc: Global, format: Format, tab: u8, bytes: &[u8]) -> Result<Row, RowError>
    ensures row { Gives (λ r. r) RowError.Memory result (row_of_text format tab bytes.now) }
{
    match quick_row(alloc, format, tab, bytes)? {
        Some(row) => Ok(row),
        None => whole_row(alloc, format, tab, bytes),
    }
}

/// The row, where it is one of the many that are written today and cut easily.
fn quick_row(alloc: Global, format: Format, tab: u8, bytes: &[u8]) -> Result<Option<Row>, RowError>
    ensures row { IfOk result (λ found. IfSome found
        (λ row. row_of_text format tab bytes.now ≡ Ok row)) }
    ensures memory { IfErr result (λ e. e ≡ RowError.Memory) }
{
    match format {
        Format::First => Ok(None),
        Format::Second => quick_row_of(alloc, tab, bytes),
    }
}

fn quick_row_of(alloc: Global, tab: u8, bytes: &[u8]) -> Result<Option<Row>, RowError>
    ensures row { IfOk result (λ found. IfSome found
        (λ row. row_of_text Format.Second tab bytes.now ≡ Ok row)) }
    ensures memory { IfErr result (λ e. e ≡ RowError.Memory) }
{
    match tab {
        3 => match quick_note(alloc, bytes) {
            Ok(Some(row)) => Ok(Some(Row::Note(shared(alloc, row)?))),
            Ok(None) => Ok(None),
            Err(_) => Err(RowError::Memory),
        },
        4 => match quick_activity(alloc, bytes) {
            Ok(Some(activity)) => Ok(Some(Row::Activity(shared(alloc, activity)?))),
            Ok(None) => Ok(None),
            Err(_) => Err(RowError::Memory),
        },
        _ => Ok(None),
    }
}

/// The row as its JSON value says it.
#[tactic(auto, unfolding(crate::specs::RowRead::row_of_text))]
fn whole_row(alloc: Global, format: Format, tab: u8, bytes: &[u8]) -> Result<Row, RowError>
    ensures row { Gives (λ r. r) RowError.Memory result (row_of_text format tab bytes.now) }
{
    let tree = value_in(alloc, bytes)?;
    let row = row_in(alloc, format, tab, &tree)?;
    if_its_text(alloc, format, bytes, row)
}

fn value_in(alloc: Global, bytes: &[u8]) -> Result<Value, RowError>
    ensures { Gives view RowError.Memory result
        (ok_or (result_ok (value_of bytes.now)) RowError.Bytes) }
{
    match read_value(alloc, bytes) {
        Ok(value) => Ok(value),
        Err(TreeError::Memory) => Err(RowError::Memory),
        Err(_) => Err(RowError::Bytes),
    }
}

/// The row, where these bytes are its text.
fn if_its_text(alloc: Global, format: Format, bytes: &[u8], row: Row) -> Result<Row, RowError>
    ensures { Gives (λ r. r) RowError.Memory result (if_its_text format bytes.now row) }
{
    match row_text(alloc, format, &row) {
        Ok(text) => if text.as_slice() == bytes {
            Ok(row)
        } else {
            Err(RowError::Bytes)
        },
        Err(_) => Err(RowError::Memory),
    }
}

/// The row of a table that a value says.
fn row_in(alloc: Global, format: Format, tab: u8, tree: &Value) -> Result<Row, RowError>
    ensures { Gives (λ r. r) RowError.Memory result (row_in format tab (view tree.now)) }
{
    match tab {
        1 => {
            let row = reader_row_in(alloc, tree)?;
            Ok(Row::Reader(row))
        }
        2 => {
            let row = manifest_row_in(alloc, tree)?;
            Ok(Row::Manifest(shared(alloc, row)?))
        }
        3 => {
            let row = note_row_in(alloc, format, tree)?;
            Ok(Row::Note(shared(alloc, row)?))
        }
        4 => {
            let activity = activity_in(alloc, format, tree)?;
            Ok(Row::Activity(shared(alloc, activity)?))
        }
        _ => Err(RowError::Table),
    }
}

/// The row, which its copies will share. Its only error is want of memory.
fn shared<R: Drop>(alloc: Global, row: R) -> Result<Shared<R>, RowError>
    ensures row { Gives (λ r. r) RowError.Memory result (Ok row) }
    ensures memory { IfErr result (λ e. e ≡ RowError.Memory) }
{
    match Shared::new(alloc, row) {
        Ok(shared) => Ok(shared),
        Err(_) => Err(RowError::Memory),
    }
}
