ghost use Rattle.std.specs.Prelude.{◌≡◌, ◌++◌, codes, IfOk};
ghost use Rattle.serde_json.specs.Data.{string};
ghost use Rattle.serde_json.specs.Written.{compact_text};
ghost use Rattle.an_base.specs.Cut.{below, above, members_in, spliced};
ghost use Rattle.an_base.specs.Object.{with_member};
ghost use Rattle.an_base.specs.Write.{member_text, commas};
ghost use Rattle.an_served.specs.Note.{dressed, moment_string};
ghost use Rattle.an_model.specs.Cuts.{HasCuts};
ghost use Rattle.an_served.specs.NoteParts.{modified_member, id_member, served};

use an_base::{KeptTree, Moment, close_members, moment_text, push_text_member};
use an_model::{KeptNote, NoteCuts};
use std::alloc::AllocError;

/// Writes an annotation as lists give it: with `created`, `creator` and `id`, and with `modified`
/// where it was changed (Web Annotation Data Model, sections 3.1 and 3.3.1).
pub fn push_dressed(
    out: Vec<u8>,
    note: &KeptNote,
    id: &str,
    creator: &str,
    created: Moment,
    modified: Option<Moment>,
) -> Result<Vec<u8>, AllocError>
    ensures text { IfOk result (λ v. v.items
        ≡ out.items ++ compact_text (dressed id.now creator.now created modified note.now)) }
{
    let start = out.len();
    let cuts = note.cuts();
    let out = note
        .kept_tree()
        .push_between(out, 0, cuts.created as usize)?;
    let out = push_served(out, note, id, creator, created, modified)?;
    let out = close_members(out, start)?;
    Ok(out)
}

/// Writes an annotation as its own route shows it: as lists do, and with its context.
pub fn push_shown(
    out: Vec<u8>,
    note: &KeptNote,
    context: &str,
    id: &str,
    creator: &str,
    created: Moment,
    modified: Option<Moment>,
) -> Result<Vec<u8>, AllocError>
    ensures text { IfOk result (λ v. v.items ≡ out.items
        ++ compact_text (with_member (codes "@context") (string context.now)
        (dressed id.now creator.now created modified note.now))) }
{
    let start = out.len();
    let out = push_context(out, note.kept_tree(), note.cuts(), context)?;
    let out = push_served(out, note, id, creator, created, modified)?;
    let out = close_members(out, start)?;
    Ok(out)
}

/// Writes what stands up to `created`, with the context.
fn push_context(
    out: Vec<u8>,
    tree: &KeptTree,
    cuts: NoteCuts,
    context: &str,
) -> Result<Vec<u8>, AllocError>
    requires cuts { HasCuts cuts (members_in tree.now) }
    ensures text { IfOk result (λ v. v.items ≡ out.items
        ++ (commas (below (codes "@context") (members_in tree.now))
        ++ (member_text (codes "@context") (string context.now)
        ++ commas (below (codes "created") (above (codes "@context") (members_in tree.now)))))) }
{
    let out = tree.push_between(out, 0, cuts.context as usize)?;
    let out = push_text_member(out, "@context", context)?;
    let out = tree.push_between(out, cuts.context as usize, cuts.created as usize)?;
    Ok(out)
}

/// Writes what stands from `created` on.
fn push_served(
    out: Vec<u8>,
    note: &KeptNote,
    id: &str,
    creator: &str,
    created: Moment,
    modified: Option<Moment>,
) -> Result<Vec<u8>, AllocError>
    ensures text { IfOk result (λ v. v.items ≡ out.items
        ++ (member_text (codes "created") (moment_string created)
        ++ (commas (below (codes "creator") (above (codes "created") (members_in note.now)))
        ++ (member_text (codes "creator") (string creator.now)
        ++ spliced (codes "creator") (id_member id.now modified) (members_in note.now))))) }
{
    let out = push_creation(out, note.kept_tree(), note.cuts(), creator, created)?;
    let out = push_id(out, note.kept_tree(), note.cuts(), id, modified)?;
    Ok(out)
}

/// Writes `created`, what stands up to `creator`, and `creator`.
fn push_creation(
    out: Vec<u8>,
    tree: &KeptTree,
    cuts: NoteCuts,
    creator: &str,
    created: Moment,
) -> Result<Vec<u8>, AllocError>
    requires cuts { HasCuts cuts (members_in tree.now) }
    ensures text { IfOk result (λ v. v.items ≡ out.items
        ++ (member_text (codes "created") (moment_string created)
        ++ (commas (below (codes "creator") (above (codes "created") (members_in tree.now)))
        ++ member_text (codes "creator") (string creator.now)))) }
{
    let out = push_moment(out, "created", created)?;
    let out = tree.push_between(out, cuts.created as usize, cuts.creator as usize)?;
    let out = push_text_member(out, "creator", creator)?;
    Ok(out)
}

/// Writes what stands behind `creator`, with `id` and `modified`.
fn push_id(
    out: Vec<u8>,
    tree: &KeptTree,
    cuts: NoteCuts,
    id: &str,
    modified: Option<Moment>,
) -> Result<Vec<u8>, AllocError>
    requires cuts { HasCuts cuts (members_in tree.now) }
    ensures text { IfOk result (λ v. v.items ≡ out.items
        ++ spliced (codes "creator") (id_member id.now modified) (members_in tree.now)) }
{
    let out = tree.push_between(out, cuts.creator as usize, cuts.id as usize)?;
    let out = push_text_member(out, "id", id)?;
    let out = push_modified(out, tree, cuts, modified)?;
    Ok(out)
}

/// Writes what stands behind `id`, with `modified`.
fn push_modified(
    out: Vec<u8>,
    tree: &KeptTree,
    cuts: NoteCuts,
    modified: Option<Moment>,
) -> Result<Vec<u8>, AllocError>
    requires cuts { HasCuts cuts (members_in tree.now) }
    ensures text { IfOk result (λ v. v.items ≡ out.items
        ++ spliced (codes "id") (modified_member modified) (members_in tree.now)) }
{
    match modified {
        Some(modified) => push_change(out, tree, cuts, modified),
        None => tree.push_above(out, cuts.id as usize),
    }
}

fn push_change(
    out: Vec<u8>,
    tree: &KeptTree,
    cuts: NoteCuts,
    modified: Moment,
) -> Result<Vec<u8>, AllocError>
    requires cuts { HasCuts cuts (members_in tree.now) }
    ensures text { IfOk result (λ v. v.items ≡ out.items
        ++ (commas (below (codes "modified") (above (codes "id") (members_in tree.now)))
        ++ (member_text (codes "modified") (moment_string modified)
        ++ commas (above (codes "modified") (members_in tree.now))))) }
{
    let out = tree.push_between(out, cuts.id as usize, cuts.modified as usize)?;
    let out = push_moment(out, "modified", modified)?;
    let out = tree.push_above(out, cuts.modified as usize)?;
    Ok(out)
}

fn push_moment(out: Vec<u8>, name: &str, moment: Moment) -> Result<Vec<u8>, AllocError>
    ensures text { IfOk result
        (λ v. v.items ≡ out.items ++ member_text name.now (moment_string moment)) }
{
    let text = moment_text(*out.allocator(), moment)?;
    let out = push_text_member(out, name, text.as_str())?;
    Ok(out)
}
