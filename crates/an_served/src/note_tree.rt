ghost use Rattle.std.specs.Prelude.{◌≡◌, false, IfOk};
ghost use Rattle.serde_json.specs.View.{view};
ghost use Rattle.serde_json.specs.Written.{has_float};
ghost use Rattle.an_served.specs.Note.{dressed};

use crate::note::push_dressed;
use an_base::{KeptTree, Moment};
use an_model::{KeptNote, Note};
use serde_json::Value;
use std::alloc::{AllocError, Global};

/// An annotation as it is served: the tree that is kept, with `created`, `creator` and `id`, and
/// with `modified` where it was changed (Web Annotation Data Model, sections 3.1 and 3.3.1). It is
/// read back from the text that is served.
#[tactic(auto, using(crate::proofs::NoteTreeLemmas::no_float))]
pub fn dress(
    alloc: Global,
    note: &Note,
    id: &str,
    creator: &str,
    created: Moment,
    modified: Option<Moment>,
) -> Result<Value, AllocError>
    ensures tree { IfOk result (λ v. view v
        ≡ dressed id.now creator.now created modified note.now) }
    ensures no_float { IfOk result (λ v. has_float (view v) ≡ false) }
{
    let note = KeptNote::keep(alloc, note)?;
    let tree = served_tree(alloc, &note, id, creator, created, modified)?;
    let value = tree.to_value(alloc)?;
    Ok(value)
}

/// The tree whose text is served.
fn served_tree(
    alloc: Global,
    note: &KeptNote,
    id: &str,
    creator: &str,
    created: Moment,
    modified: Option<Moment>,
) -> Result<KeptTree, AllocError>
    ensures { IfOk result (λ tree. tree ≡ dressed id.now creator.now created modified note.now) }
{
    let _kept = note.kept_tree();
    let text = push_dressed(Vec::new(alloc), note, id, creator, created, modified)?;
    KeptTree::from_text(text)
}
