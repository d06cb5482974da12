ghost use Rattle.std.specs.Prelude.{◌≡◌, ◌++◌, ◌∷◌, [], IfOk};
ghost use Rattle.an_rows.specs.Cells.{first_cell};
ghost use Rattle.an_rows.specs.Changes.{put};
ghost use Rattle.an_rows.specs.Migration.{migration, rewritten_note, rewritten_notes};
ghost use Rattle.an_rows.specs.declared.format.Format.{Format};

use crate::changes::{first_change, push_activities};
use crate::row::note_text;
use an_base::Shared;
use an_keep::Change;
use an_state::{Book, NoteRow};
use std::alloc::{AllocError, Global};

/// The changes that turn the cells of the book's state from the first format into the second: the
/// cell that names the format, the live annotations and the activities are put anew, in their
/// places. A keeper does all of its changes or none, so they are one list, which holds the new
/// texts of all these rows at once: about as much memory as their cells take in the keeper.
#[tactic(auto, unfolding(crate::specs::Migration::migration))]
pub fn migration(alloc: Global, book: &Book) -> Result<Vec<Change>, AllocError>
    ensures changes { IfOk result (λ v. v.items ≡ migration book.now.state) }
{
    let changes = first_of_all(alloc)?;
    let changes = push_notes(alloc, changes, book.notes())?;
    let changes = push_activities(alloc, changes, 0, book.activities())?;
    Ok(changes)
}

fn first_of_all(alloc: Global) -> Result<Vec<Change>, AllocError>
    ensures { IfOk result (λ v. v.items ≡ put (first_cell Format.Second) ∷ []) }
{
    let change = first_change(alloc)?;
    let mut changes = Vec::new(alloc);
    changes.push(change)?;
    Ok(changes)
}

/// Puts the live annotations, each in its place.
fn push_notes(
    alloc: Global,
    changes: Vec<Change>,
    rows: &[Shared<NoteRow>],
) -> Result<Vec<Change>, AllocError>
    ensures { IfOk result (λ v. v.items ≡ changes.items ++ rewritten_notes 0 rows.now) }
{
    let mut changes = changes;
    let mut key = 0;
    for row in rows {
        changes = push_note(alloc, changes, key, row.get())?;
        key += 1;
    }
    Ok(changes)
}

fn push_note(
    alloc: Global,
    changes: Vec<Change>,
    key: u64,
    row: &NoteRow,
) -> Result<Vec<Change>, AllocError>
    ensures { IfOk result (λ v. v.items ≡ changes.items ++ rewritten_note key row.now) }
{
    if row.live().is_none() {
        return Ok(changes);
    }
    let text = note_text(alloc, row)?;
    let mut changes = changes;
    changes.push(Change {
        tab: 3,
        key,
        val: Some(text),
    })?;
    Ok(changes)
}
