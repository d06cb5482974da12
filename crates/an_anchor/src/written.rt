ghost use Rattle.std.specs.Prelude.{◌≡◌, ◌++◌, ◌≤◌, List, codes, map, vec_len, IfOk};
ghost use Rattle.serde_json.specs.Data.{Data, array};
ghost use Rattle.serde_json.specs.View.{items_of};
ghost use Rattle.serde_json.specs.Written.{compact_text};
ghost use Rattle.an_base.specs.Write.{commas, item_commas, item_text, member_text};
ghost use Rattle.an_anchor.specs.Comments.{anchors_tree, item_tree, orphans_tree, place_tree};
ghost use Rattle.an_anchor.specs.Comments.{state_name};
ghost use Rattle.an_anchor.specs.Walk.{count_members};

use crate::anchored::{Anchor, AnchorPlace, AnchorState};
use an_base::{
    Bytes, close_items, close_members, push_array_member, push_comma, push_name,
    push_number_member, push_text_member,
};
use an_list::{PagedList, Paging, page_iri};
use std::alloc::{AllocError, Global};

/// Writes a comment as an item of a page, with a comma before it: the target of this number of the
/// annotation of this IRI, and what its selectors come to.
pub(crate) fn push_item(
    out: Vec<u8>,
    iri: &str,
    target: usize,
    anchor: &Anchor,
) -> Result<Vec<u8>, AllocError>
    ensures text { IfOk result
        (λ v. v.items ≡ out.items ++ item_text (item_tree iri.now target anchor.now)) }
{
    let out = push_comma(out)?;
    let out = push_anchored(out, iri, target, anchor)?;
    Ok(out)
}

fn push_anchored(
    out: Vec<u8>,
    iri: &str,
    target: usize,
    anchor: &Anchor,
) -> Result<Vec<u8>, AllocError>
    ensures text { IfOk result
        (λ v. v.items ≡ out.items ++ compact_text (item_tree iri.now target anchor.now)) }
{
    let start = out.len();
    let out = push_text_member(out, "comment", iri)?;
    let out = push_places(out, anchor.places.as_slice())?;
    let out = push_text_member(out, "state", state_name(anchor.state))?;
    let out = push_number_member(out, "target", target as u64)?;
    let out = close_members(out, start)?;
    Ok(out)
}

fn state_name(state: AnchorState) -> &'static str
    ensures { result.now ≡ state_name state }
{
    match state {
        AnchorState::Whole => "whole",
        AnchorState::Found => "found",
        AnchorState::Exact => "exact",
        AnchorState::Moved => "moved",
        AnchorState::Orphan => "orphan",
    }
}

/// Writes places as the member of a comment.
fn push_places(out: Vec<u8>, places: &[AnchorPlace]) -> Result<Vec<u8>, AllocError>
    ensures text { IfOk result (λ v. v.items ≡ out.items
        ++ member_text (codes "places") (array (items_of (map place_tree places.now)))) }
    ensures grows { IfOk result (λ v. vec_len out ≤ vec_len v) }
{
    let out = push_name(out, "places")?;
    let start = out.len();
    let out = push_place_items(out, places)?;
    let out = close_items(out, start)?;
    Ok(out)
}

fn push_place_items(out: Vec<u8>, places: &[AnchorPlace]) -> Result<Vec<u8>, AllocError>
    ensures text { IfOk result (λ v. v.items
        ≡ out.items ++ item_commas (items_of (map place_tree places.now))) }
{
    let mut out = out;
    for place in places {
        out = push_place_item(out, *place)?;
    }
    Ok(out)
}

fn push_place_item(out: Vec<u8>, place: AnchorPlace) -> Result<Vec<u8>, AllocError>
    ensures text { IfOk result (λ v. v.items ≡ out.items ++ item_text (place_tree place)) }
{
    let out = push_comma(out)?;
    let out = push_place(out, place)?;
    Ok(out)
}

fn push_place(out: Vec<u8>, place: AnchorPlace) -> Result<Vec<u8>, AllocError>
    ensures text { IfOk result (λ v. v.items ≡ out.items ++ compact_text (place_tree place)) }
{
    let AnchorPlace { text, span } = place;
    let start = out.len();
    let out = push_number_member(out, "end", span.end as u64)?;
    let out = push_number_member(out, "start", span.start as u64)?;
    let out = push_number_member(out, "text", text as u64)?;
    let out = close_members(out, start)?;
    Ok(out)
}

/// The text of a page of comments with these items, its members in the order of their names.
pub(crate) fn anchors_text(
    alloc: Global,
    whole: &PagedList,
    paging: Paging,
    items: &[u8],
) -> Result<Bytes, AllocError>
    requires size { 1 ≤ paging.size }
    ensures text { (list : List Data) → items.now ≡ item_commas (items_of list) → IfOk result
        (λ text. text ≡ compact_text
        (anchors_tree whole.now paging.page paging.size paging.total list)) }
{
    let iri = page_iri(alloc, whole, paging.page as usize)?;
    let out = push_array_member(Vec::new(alloc), "anchors", items)?;
    let out = push_text_member(out, "id", iri.as_str())?;
    let out = push_count(out, paging)?;
    let out = close_members(out, 0)?;
    Ok(Bytes::from_vec(out))
}

/// The same of a page of orphans.
pub(crate) fn orphans_text(
    alloc: Global,
    whole: &PagedList,
    paging: Paging,
    items: &[u8],
) -> Result<Bytes, AllocError>
    requires size { 1 ≤ paging.size }
    ensures text { (list : List Data) → items.now ≡ item_commas (items_of list) → IfOk result
        (λ text. text ≡ compact_text
        (orphans_tree whole.now paging.page paging.size paging.total list)) }
{
    let iri = page_iri(alloc, whole, paging.page as usize)?;
    let out = push_text_member(Vec::new(alloc), "id", iri.as_str())?;
    let out = push_array_member(out, "orphans", items)?;
    let out = push_count(out, paging)?;
    let out = close_members(out, 0)?;
    Ok(Bytes::from_vec(out))
}

/// Writes how many pages and items the list has.
fn push_count(out: Vec<u8>, paging: Paging) -> Result<Vec<u8>, AllocError>
    requires size { 1 ≤ paging.size }
    ensures text { IfOk result (λ v. v.items ≡ out.items ++ commas (count_members paging)) }
{
    let out = push_number_member(out, "pages", paging.pages() as u64)?;
    let out = push_number_member(out, "total", paging.total as u64)?;
    Ok(out)
}
