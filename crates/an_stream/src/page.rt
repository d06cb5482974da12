ghost use Rattle.std.specs.Prelude.{◌≡◌, ◌≤◌, ◌++◌, codes, map, IfOk};
ghost use Rattle.serde_json.specs.Data.{number, unsigned};
ghost use Rattle.serde_json.specs.View.{items_of};
ghost use Rattle.serde_json.specs.Written.{compact_text};
ghost use Rattle.an_base.specs.Write.{commas, member_text};
ghost use Rattle.an_list.specs.Page.{page_count, start_of};
ghost use Rattle.an_stream.specs.Activity.{activity};
ghost use Rattle.an_stream.specs.Stream.{changes_whole, stream_page, stream_tree};
ghost use Rattle.an_stream.specs.PageText.{head_text, place_members};

use crate::activity::push_activities;
use an_base::{
    Bytes, Text, close_members, push_array_member, push_number_member, push_text_member,
};
use an_iri::changes_iri;
use an_list::{
    PageForm, PagedList, Paging, push_link_member, push_next, push_prev, push_thing_member,
};
use an_state::Seen;
use std::alloc::{AllocError, Global};

/// The context of changes (IIIF Change Discovery API 1.0).
const CHANGES_CONTEXT: &str = "http://iiif.io/api/discovery/1/context.json";

/// Most activities have room in so many bytes.
const ACTIVITY_ROOM: usize = 256;

/// What a page has besides its activities has room in so many bytes, where its IRI is short.
const PAGE_ROOM: usize = 1024;

/// The stream as a list that is served in pages.
pub(crate) fn changes_whole(alloc: Global, base: &str) -> Result<PagedList, AllocError>
    ensures whole { IfOk result (λ whole. whole ≡ changes_whole base.now) }
{
    let path = changes_iri(alloc, base)?;
    Ok(PagedList {
        path: Text::from_string(path),
        parameters: Text::from_string(String::new(alloc)),
    })
}

/// The text of a stream of so many pages and activities, its members in the order of their names.
pub(crate) fn stream_text(
    alloc: Global,
    whole: &PagedList,
    pages: usize,
    total: usize,
) -> Result<Bytes, AllocError>
    ensures text { IfOk result
        (λ text. text ≡ compact_text (stream_tree whole.now pages total)) }
{
    let form = PageForm::Changes;
    let out = push_text_member(Vec::new(alloc), "@context", CHANGES_CONTEXT)?;
    let out = push_link_member(alloc, out, "first", whole, form, 1)?;
    let out = push_text_member(out, "id", whole.path.as_str())?;
    let out = push_link_member(alloc, out, "last", whole, form, pages)?;
    let out = push_number_member(out, "totalItems", total as u64)?;
    let out = push_text_member(out, "type", "OrderedCollection")?;
    let out = close_members(out, 0)?;
    Ok(Bytes::from_vec(out))
}

/// The text of a page with these activities, its members in the order of their names. `base` is the
/// start of the IRIs of what was changed.
pub(crate) fn page_text(
    alloc: Global,
    base: &str,
    whole: &PagedList,
    paging: Paging,
    activities: &[Seen],
) -> Result<Bytes, AllocError>
    requires page { 1 ≤ paging.page }
    requires size { 1 ≤ paging.size }
    ensures text { IfOk result (λ text. text ≡ compact_text (stream_page whole.now
        (page_count paging.total paging.size) paging.page (start_of paging.page paging.size)
        (items_of (map (activity base.now) activities.now)))) }
{
    let listed = Vec::with_capacity(alloc, activities.len().saturating_mul(ACTIVITY_ROOM))?;
    let items = push_activities(alloc, listed, base, activities)?;
    let room = Vec::with_capacity(alloc, items.len().saturating_add(PAGE_ROOM))?;
    let out = push_head(alloc, room, whole, paging)?;
    let out = push_array_member(out, "orderedItems", items.as_slice())?;
    let out = push_place(alloc, out, whole, paging)?;
    let out = close_members(out, 0)?;
    Ok(Bytes::from_vec(out))
}

/// Writes the context, the page's IRI, and the link to the page after it.
fn push_head(
    alloc: Global,
    out: Vec<u8>,
    whole: &PagedList,
    paging: Paging,
) -> Result<Vec<u8>, AllocError>
    requires size { 1 ≤ paging.size }
    ensures text { IfOk result (λ v. v.items ≡ out.items
        ++ head_text whole.now (page_count paging.total paging.size) paging.page) }
{
    let out = push_text_member(out, "@context", CHANGES_CONTEXT)?;
    let number = paging.page as usize;
    let out = push_link_member(alloc, out, "id", whole, PageForm::Iri, number)?;
    let out = push_next(alloc, out, whole, PageForm::Changes, paging)?;
    Ok(out)
}

/// Writes the stream that the page is part of, the link to the page before it, where it starts, and
/// its type.
fn push_place(
    alloc: Global,
    out: Vec<u8>,
    whole: &PagedList,
    paging: Paging,
) -> Result<Vec<u8>, AllocError>
    requires page { 1 ≤ paging.page }
    ensures text { IfOk result (λ v. v.items ≡ out.items
        ++ commas (place_members whole.now paging.page (start_of paging.page paging.size))) }
{
    let out = push_thing_member(out, "partOf", whole.path.as_str(), "OrderedCollection")?;
    let out = push_prev(alloc, out, whole, PageForm::Changes, paging)?;
    let out = push_start(out, paging)?;
    let out = push_text_member(out, "type", "OrderedCollectionPage")?;
    Ok(out)
}

/// Writes how many changes stand on the pages before.
fn push_start(out: Vec<u8>, paging: Paging) -> Result<Vec<u8>, AllocError>
    requires page { 1 ≤ paging.page }
    ensures text { IfOk result (λ v. v.items ≡ out.items ++ member_text (codes "startIndex")
        (number (unsigned (start_of paging.page paging.size)))) }
{
    let out = push_number_member(out, "startIndex", paging.start())?;
    Ok(out)
}
