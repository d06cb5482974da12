ghost use Rattle.std.specs.Prelude.{◌≡◌, ◌≤◌, ◌++◌, codes, IfOk};
ghost use Rattle.serde_json.specs.Data.{Data, Items, array, item, no_items, string};
ghost use Rattle.serde_json.specs.Written.{compact_text};
ghost use Rattle.an_base.specs.Write.{item_commas, member_text};
ghost use Rattle.an_pages.specs.Container.{container_contexts, container_link, container_tree};
ghost use Rattle.an_pages.specs.Container.{container_types, held_page, own_page};
ghost use Rattle.an_pages.specs.ContainerText.{content_text, end_text, part_text};
ghost use Rattle.an_pages.specs.ContainerText.{whole_text};

use crate::note::NOTE_CONTEXT;
use an_base::{
    Bytes, close_members, push_array_member, push_name, push_number_member, push_text_member,
};
use an_list::{
    PageForm, PagedList, Paging, push_link_member, push_next, push_prev, push_text_item,
};
use std::alloc::{AllocError, Global};

/// The context of containers (Linked Data Platform 1.0).
const CONTAINER_CONTEXT: &str = "http://www.w3.org/ns/ldp.jsonld";

/// What a page has besides its items, and a container besides its page, has room in so many bytes,
/// where the IRIs are short.
const PAGE_ROOM: usize = 1024;

/// The text of a page as the container holds it, its members in the order of their names. `items`
/// are the texts of the page's items, each behind a comma.
pub(crate) fn held_text(
    alloc: Global,
    whole: &PagedList,
    paging: Paging,
    items: &[u8],
) -> Result<Vec<u8>, AllocError>
    requires page { 1 ≤ paging.page }
    requires size { 1 ≤ paging.size }
    ensures text { (list : Items) → items.now ≡ item_commas list → IfOk result (λ v. v.items
        ≡ compact_text (held_page whole.now paging.page paging.size paging.total list)) }
{
    let room = Vec::with_capacity(alloc, items.len().saturating_add(PAGE_ROOM))?;
    let out = push_content(alloc, room, whole, paging, items)?;
    let out = push_end(out, paging)?;
    let out = close_members(out, 0)?;
    Ok(out)
}

/// The text of a page as it is served on its own.
pub(crate) fn own_text(
    alloc: Global,
    whole: &PagedList,
    paging: Paging,
    items: &[u8],
) -> Result<Bytes, AllocError>
    requires page { 1 ≤ paging.page }
    requires size { 1 ≤ paging.size }
    ensures text { (list : Items) → items.now ≡ item_commas list → IfOk result (λ text. text
        ≡ compact_text (own_page whole.now paging.page paging.size paging.total list)) }
{
    let room = Vec::with_capacity(alloc, items.len().saturating_add(PAGE_ROOM))?;
    let out = push_text_member(room, "@context", NOTE_CONTEXT)?;
    let out = push_content(alloc, out, whole, paging, items)?;
    let out = push_part(alloc, out, whole, paging)?;
    let out = push_end(out, paging)?;
    let out = close_members(out, 0)?;
    Ok(Bytes::from_vec(out))
}

/// Writes the page's IRI, its items, and the IRI of the page after it.
fn push_content(
    alloc: Global,
    out: Vec<u8>,
    whole: &PagedList,
    paging: Paging,
    items: &[u8],
) -> Result<Vec<u8>, AllocError>
    requires size { 1 ≤ paging.size }
    ensures text { (list : Items) → items.now ≡ item_commas list → IfOk result (λ v. v.items
        ≡ out.items ++ content_text whole.now paging.page paging.size paging.total list) }
{
    let number = paging.page as usize;
    let out = push_link_member(alloc, out, "id", whole, PageForm::Iri, number)?;
    let out = push_array_member(out, "items", items)?;
    let out = push_next(alloc, out, whole, PageForm::Iri, paging)?;
    Ok(out)
}

/// Writes the container that the page is part of, and the IRI of the page before it.
fn push_part(
    alloc: Global,
    out: Vec<u8>,
    whole: &PagedList,
    paging: Paging,
) -> Result<Vec<u8>, AllocError>
    ensures text { IfOk result
        (λ v. v.items ≡ out.items ++ part_text whole.now paging.page paging.total) }
{
    let out = push_name(out, "partOf")?;
    let out = push_link(alloc, out, whole, paging.total)?;
    let out = push_prev(alloc, out, whole, PageForm::Iri, paging)?;
    Ok(out)
}

/// Writes the container, as a page of its own names it.
fn push_link(
    alloc: Global,
    out: Vec<u8>,
    whole: &PagedList,
    total: usize,
) -> Result<Vec<u8>, AllocError>
    ensures text { IfOk result
        (λ v. v.items ≡ out.items ++ compact_text (container_link whole.now total)) }
{
    let start = out.len();
    let out = push_text_member(out, "id", whole.path.as_str())?;
    let out = push_number_member(out, "total", total as u64)?;
    let out = push_types(alloc, out)?;
    let out = close_members(out, start)?;
    Ok(out)
}

/// Writes where the page starts, and its type.
fn push_end(out: Vec<u8>, paging: Paging) -> Result<Vec<u8>, AllocError>
    requires page { 1 ≤ paging.page }
    ensures text { IfOk result (λ v. v.items ≡ out.items ++ end_text paging.page paging.size) }
{
    let out = push_number_member(out, "startIndex", paging.start())?;
    let out = push_text_member(out, "type", "AnnotationPage")?;
    Ok(out)
}

/// The text of the container with its first page, of which this is the text.
pub(crate) fn container_text(
    alloc: Global,
    whole: &PagedList,
    paging: Paging,
    first: &[u8],
) -> Result<Bytes, AllocError>
    requires size { 1 ≤ paging.size }
    ensures text { (tree : Data) → first.now ≡ compact_text tree → IfOk result (λ text. text
        ≡ compact_text (container_tree whole.now tree paging.size paging.total)) }
{
    let room = Vec::with_capacity(alloc, first.len().saturating_add(PAGE_ROOM))?;
    let out = push_contexts(alloc, room)?;
    let out = push_first(out, first)?;
    let out = push_whole(alloc, out, whole, paging)?;
    let out = close_members(out, 0)?;
    Ok(Bytes::from_vec(out))
}

/// Writes the first page, of which this is the text.
fn push_first(out: Vec<u8>, first: &[u8]) -> Result<Vec<u8>, AllocError>
    ensures text { (tree : Data) → first.now ≡ compact_text tree → IfOk result
        (λ v. v.items ≡ out.items ++ member_text (codes "first") tree) }
{
    let mut out = push_name(out, "first")?;
    out.extend_from_slice(first)?;
    Ok(out)
}

/// Writes the container's IRI, that of its last page, how many annotations it has, and its types.
fn push_whole(
    alloc: Global,
    out: Vec<u8>,
    whole: &PagedList,
    paging: Paging,
) -> Result<Vec<u8>, AllocError>
    requires size { 1 ≤ paging.size }
    ensures text { IfOk result (λ v. v.items
        ≡ out.items ++ whole_text whole.now paging.size paging.total) }
{
    let out = push_text_member(out, "id", whole.path.as_str())?;
    let out = push_link_member(alloc, out, "last", whole, PageForm::Iri, paging.pages())?;
    let out = push_number_member(out, "total", paging.total as u64)?;
    let out = push_types(alloc, out)?;
    Ok(out)
}

fn push_types(alloc: Global, out: Vec<u8>) -> Result<Vec<u8>, AllocError>
    ensures text { IfOk result
        (λ v. v.items ≡ out.items ++ member_text (codes "type") container_types) }
{
    push_two_texts(alloc, out, "type", "BasicContainer", "AnnotationCollection")
}

fn push_contexts(alloc: Global, out: Vec<u8>) -> Result<Vec<u8>, AllocError>
    ensures text { IfOk result
        (λ v. v.items ≡ out.items ++ member_text (codes "@context") container_contexts) }
{
    push_two_texts(alloc, out, "@context", NOTE_CONTEXT, CONTAINER_CONTEXT)
}

/// Writes two texts as a member of this name.
fn push_two_texts(
    alloc: Global,
    out: Vec<u8>,
    name: &str,
    first: &str,
    second: &str,
) -> Result<Vec<u8>, AllocError>
    ensures text { IfOk result (λ v. v.items ≡ out.items ++ member_text name.now
        (array (item (string first.now) (item (string second.now) no_items)))) }
{
    let items = two_items(alloc, first, second)?;
    push_array_member(out, name, items.as_slice())
}

fn two_items(alloc: Global, first: &str, second: &str) -> Result<Vec<u8>, AllocError>
    ensures text { IfOk result (λ v. v.items
        ≡ item_commas (item (string first.now) (item (string second.now) no_items))) }
{
    let out = push_text_item(Vec::new(alloc), first)?;
    let out = push_text_item(out, second)?;
    Ok(out)
}
