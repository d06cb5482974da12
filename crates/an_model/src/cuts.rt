ghost use Rattle.std.specs.Prelude.{◌≡◌, codes, false, length, true, IfOk};
ghost use Rattle.serde_json.specs.View.{view, members_view};
ghost use Rattle.serde_json.specs.Written.{has_float, members_have_float, compact_text};
ghost use Rattle.serde_json.specs.Data.{object};
ghost use Rattle.an_base.specs.Cut.{below, cut, is_object, members_in};
ghost use Rattle.an_base.specs.Tree.{ascend, names};
ghost use Rattle.an_base.specs.Write.{commas};
ghost use Rattle.an_model.specs.Cuts.{HasCuts};

use an_base::{close_members, push_members, push_members_above, to_u32};
use serde_json::{Map, Value};
use std::alloc::{AllocError, Global};

/// How many bytes of an annotation's members stand before the place of each member that the
/// server writes. Members of 4 GiB are refused as want of memory.
#[derive(Clone, Copy, Debug)]
pub struct NoteCuts {
    /// Before `@context`.
    pub context: u32,
    /// Before `created`.
    pub created: u32,
    /// Before `creator`.
    pub creator: u32,
    /// Before `id`.
    pub id: u32,
    /// Before `modified`.
    pub modified: u32,
}

/// The text of an annotation, with its cuts.
#[derive(Drop)]
pub(crate) struct CutText {
    pub(crate) text: Vec<u8>,
    pub(crate) cuts: NoteCuts,
}

/// The first members, each behind a comma, with the first cuts.
#[derive(Drop)]
struct FirstMembers {
    text: Vec<u8>,
    context: u32,
    created: u32,
    creator: u32,
}

/// The compact text of an object, with its cuts.
pub(crate) fn cut_text(alloc: Global, tree: &Value) -> Result<CutText, AllocError>
    requires object { is_object (view tree.now) ≡ true }
    requires whole { has_float (view tree.now) ≡ false }
    requires order { ascend (names (members_in (view tree.now))) ≡ true }
    ensures text { IfOk result (λ t. t.text.items ≡ compact_text (view tree.now)) }
    ensures cuts { IfOk result (λ t. HasCuts t.cuts (members_in (view tree.now))) }
{
    match tree {
        Value::Object(members) => {
            let front = write_front(alloc, members)?;
            let text = write_rest(alloc, front, members)?;
            Ok(text)
        }
        _ => unreachable!(),
    }
}

fn write_front(alloc: Global, members: &Map<String, Value>) -> Result<FirstMembers, AllocError>
    requires whole { members_have_float (members_view members.now.entries) ≡ false }
    requires order { ascend (names (members_view members.now.entries)) ≡ true }
    ensures text { IfOk result (λ f. f.text.items
        ≡ commas (below (codes "creator") (members_view members.now.entries))) }
    ensures context { IfOk result (λ f. f.context
        ≡ cut (codes "@context") (members_view members.now.entries)) }
    ensures created { IfOk result (λ f. f.created
        ≡ cut (codes "created") (members_view members.now.entries)) }
    ensures creator { IfOk result (λ f. f.creator
        ≡ cut (codes "creator") (members_view members.now.entries)) }
{
    let text = push_members(alloc, Vec::new(alloc), members, "", "@context")?;
    let context = to_u32(text.len())?;
    let text = push_members(alloc, text, members, "@context", "created")?;
    let created = to_u32(text.len())?;
    let text = push_members(alloc, text, members, "created", "creator")?;
    let creator = to_u32(text.len())?;
    Ok(FirstMembers {
        text,
        context,
        created,
        creator,
    })
}

fn write_rest(
    alloc: Global,
    front: FirstMembers,
    members: &Map<String, Value>,
) -> Result<CutText, AllocError>
    requires whole { members_have_float (members_view members.now.entries) ≡ false }
    requires order { ascend (names (members_view members.now.entries)) ≡ true }
    requires text { front.text.items
        ≡ commas (below (codes "creator") (members_view members.now.entries)) }
    requires context { front.context ≡ cut (codes "@context") (members_view members.now.entries) }
    requires created { front.created ≡ cut (codes "created") (members_view members.now.entries) }
    requires creator { front.creator ≡ cut (codes "creator") (members_view members.now.entries) }
    ensures text { IfOk result (λ t. t.text.items
        ≡ compact_text (object (members_view members.now.entries))) }
    ensures cuts { IfOk result (λ t. HasCuts t.cuts (members_view members.now.entries)) }
{
    let FirstMembers {
        text,
        context,
        created,
        creator,
    } = front;
    let text = push_members(alloc, text, members, "creator", "id")?;
    let id = to_u32(text.len())?;
    let text = push_members(alloc, text, members, "id", "modified")?;
    let modified = to_u32(text.len())?;
    let text = push_members_above(alloc, text, members, "modified")?;
    let text = close_members(text, 0)?;
    Ok(CutText {
        text,
        cuts: NoteCuts {
            context,
            created,
            creator,
            id,
            modified,
        },
    })
}
