ghost use Rattle.std.specs.Bool.{OnFalse};
ghost use Rattle.std.specs.Prelude.{◌≡◌, ◌++◌, ◌≤◌, codes, map, vec_len, IfOk};
ghost use Rattle.std.specs.Prelude.{string_bytes};
ghost use Rattle.serde_json.specs.Data.{Items, array, item, no_items, string};
ghost use Rattle.serde_json.specs.View.{items_of};
ghost use Rattle.serde_json.specs.Written.{compact_text};
ghost use Rattle.an_base.specs.Write.{commas, item_commas, item_text, member_text};
ghost use Rattle.an_list.specs.Page.{page_count, paging_of, start_of, lacks_page, page_after};
ghost use Rattle.an_list.specs.Page.{page_before};
ghost use Rattle.an_list.specs.Page.{whole_iri, page_iri, thing, page_named, page_link};
ghost use Rattle.an_list.specs.Page.{whole_link, link_after, link_before, marks_page};
ghost use Rattle.an_list.specs.Page.{marks_beside, texts_beside, list_page, page_of};
ghost use Rattle.an_list.specs.PageText.{head_text, content_text, text_if, place_members};

use crate::error::ReadError;
use crate::site::Site;
use an_base::{
    Bytes, Text, close_items, close_members, push_array_member, push_comma, push_name,
    push_number_member, push_text, push_text_member,
};
use std::alloc::{AllocError, Global};

/// How much room a page usually takes beside its items and its marks.
const FRAME: usize = 1024;

/// A list that is served in pages.
#[derive(Drop)]
pub struct PagedList {
    /// Its IRI without parameters.
    pub path: Text,
    /// Its parameters as a form writes them, of which there may be none.
    pub parameters: Text,
}

/// Which page of a list, from 1, how many items a page has at most, and how many the list has.
#[derive(Clone, Copy)]
pub struct Paging {
    pub page: u32,
    pub size: u32,
    pub total: usize,
}

impl Paging {
    /// How many items stand on the pages before.
    pub fn start(self) -> u64
        requires page { 1 ≤ self.page }
        ensures { result ≡ start_of self.page self.size }
    {
        u64::from(self.page - 1) * u64::from(self.size)
    }

    /// How many pages the list has.
    pub fn pages(self) -> usize
        requires size { 1 ≤ self.size }
        ensures count { result ≡ page_count self.total self.size }
        ensures some { 1 ≤ result }
    {
        self.total.div_ceil(self.size as usize).max(1)
    }

    /// The page of this number in a list of so many items, where it has one.
    pub fn checked(site: &Site, page: u32, total: usize) -> Result<Paging, ReadError>
        ensures page { result ≡ paging_of site.now page total }
        ensures first { IfOk result (λ paging. 1 ≤ paging.page) }
        ensures some { IfOk result (λ paging. 1 ≤ paging.size) }
        ensures few { IfOk result (λ paging. paging.size ≤ 100) }
    {
        let size = site.size();
        let paging = Paging { page, size, total };
        if paging.is_past() {
            let pages = paging.pages();
            Err(ReadError::NoPage { pages })
        } else {
            Ok(paging)
        }
    }

    fn is_past(self) -> bool
        requires size { 1 ≤ self.size }
        ensures past { result ≡ lacks_page (page_count self.total self.size) self.page }
        ensures first { OnFalse result (1 ≤ self.page) }
    {
        self.page < 1 || self.pages() < self.page as usize
    }

    /// The number of the page after this one, where there is one.
    pub fn after(self) -> Option<usize>
        requires size { 1 ≤ self.size }
        ensures page { result ≡ page_after (page_count self.total self.size) self.page }
    {
        let number = self.page as usize;
        if number < self.pages() {
            Some(number + 1)
        } else {
            None
        }
    }

    /// The number of the page before this one, where there is one.
    pub fn before(self) -> Option<usize>
        ensures page { result ≡ page_before self.page }
    {
        let number = self.page as usize;
        if 1 < number { Some(number - 1) } else { None }
    }
}

/// Those of a list that stand on the page.
pub fn page_of<T>(listed: &[T], paging: Paging) -> &[T]
    requires page { 1 ≤ paging.page }
    ensures page { result.now ≡ page_of paging.page paging.size listed.now }
{
    let start = (paging.start() as usize).min(listed.len());
    let end = start.saturating_add(paging.size as usize).min(listed.len());
    &listed[start..end]
}

/// How a page is named where another one, or the list, links to it.
#[derive(Clone, Copy)]
pub enum PageForm {
    /// Only by its IRI.
    Iri,
    /// By its IRI and its type, which is that of pages of annotations.
    Annotations,
    /// By its IRI and its type, which is that of pages of changes.
    Changes,
}

/// The text of a page of a list, its members in the order of their names. `items` are the texts of
/// the page's items, and `marks` those of the marks in them, each behind a comma; `ignored` are the
/// names of parameters that were ignored.
pub fn page_text(
    alloc: Global,
    context: &str,
    whole: &PagedList,
    paging: Paging,
    items: &[u8],
    marks: &[u8],
    ignored: &[Text],
) -> Result<Bytes, AllocError>
    requires page { 1 ≤ paging.page }
    requires size { 1 ≤ paging.size }
    ensures text { (list marked : Items) → items.now ≡ item_commas list
        → marks.now ≡ item_commas marked → IfOk result (λ text. text ≡ compact_text (list_page
        context.now whole.now paging.page paging.size paging.total list marked ignored.now)) }
{
    let room = items.len().saturating_add(marks.len());
    let out = Vec::with_capacity(alloc, room.saturating_add(FRAME))?;
    let out = push_head(alloc, out, context, whole, paging, marks)?;
    let out = push_content(alloc, out, whole, paging, items, ignored)?;
    let out = push_place(alloc, out, whole, paging)?;
    let out = close_members(out, 0)?;
    Ok(Bytes::from_vec(out))
}

/// Writes the context, the marks, and the page's IRI.
fn push_head(
    alloc: Global,
    out: Vec<u8>,
    context: &str,
    whole: &PagedList,
    paging: Paging,
    marks: &[u8],
) -> Result<Vec<u8>, AllocError>
    ensures text { (marked : Items) → marks.now ≡ item_commas marked → IfOk result (λ v. v.items
        ≡ out.items ++ head_text context.now whole.now paging.page marked) }
{
    let id = page_iri(alloc, whole, paging.page as usize)?;
    let out = push_text_member(out, "@context", context)?;
    let out = push_marks(alloc, out, id.as_str(), marks)?;
    let out = push_text_member(out, "id", id.as_str())?;
    Ok(out)
}

/// Writes the marks of the page of this IRI, where there are some.
fn push_marks(alloc: Global, out: Vec<u8>, page: &str, marks: &[u8]) -> Result<Vec<u8>, AllocError>
    ensures text { (marked : Items) → marks.now ≡ item_commas marked → IfOk result (λ v. v.items
        ≡ out.items ++ text_if (codes "annotations") (marks_beside page.now marked)) }
{
    if marks.is_empty() {
        Ok(out)
    } else {
        push_annotations(alloc, out, page, marks)
    }
}

/// Writes the page that the marks have, as the only one of an array.
fn push_annotations(
    alloc: Global,
    out: Vec<u8>,
    page: &str,
    marks: &[u8],
) -> Result<Vec<u8>, AllocError>
    ensures text { (marked : Items) → marks.now ≡ item_commas marked → IfOk result (λ v. v.items
        ≡ out.items ++ member_text (codes "annotations")
        (array (item (marks_page page.now marked) no_items))) }
{
    let out = push_name(out, "annotations")?;
    let start = out.len();
    let out = push_comma(out)?;
    let out = push_marks_page(alloc, out, page, marks)?;
    let out = close_items(out, start)?;
    Ok(out)
}

/// Writes the page that the marks have.
fn push_marks_page(
    alloc: Global,
    out: Vec<u8>,
    page: &str,
    marks: &[u8],
) -> Result<Vec<u8>, AllocError>
    ensures text { (marked : Items) → marks.now ≡ item_commas marked → IfOk result (λ v. v.items
        ≡ out.items ++ compact_text (marks_page page.now marked)) }
    ensures grows { IfOk result (λ v. vec_len out ≤ vec_len v) }
{
    let start = out.len();
    let id = format!(in alloc; "{page}#match")?;
    let out = push_text_member(out, "id", id.as_str())?;
    let out = push_marks_items(out, marks)?;
    let out = push_text_member(out, "type", "AnnotationPage")?;
    let out = close_members(out, start)?;
    Ok(out)
}

/// Writes the marks as the items of their page.
fn push_marks_items(out: Vec<u8>, marks: &[u8]) -> Result<Vec<u8>, AllocError>
    ensures text { (marked : Items) → marks.now ≡ item_commas marked → IfOk result
        (λ v. v.items ≡ out.items ++ member_text (codes "items") (array marked)) }
    ensures grows { IfOk result (λ v. vec_len out ≤ vec_len v) }
{
    let mut out = push_name(out, "items")?;
    let start = out.len();
    out.extend_from_slice(marks)?;
    let out = close_items(out, start)?;
    Ok(out)
}

/// Writes the names of parameters that were ignored, the page's items, and the link to the page
/// after it.
fn push_content(
    alloc: Global,
    out: Vec<u8>,
    whole: &PagedList,
    paging: Paging,
    items: &[u8],
    ignored: &[Text],
) -> Result<Vec<u8>, AllocError>
    requires size { 1 ≤ paging.size }
    ensures text { (list : Items) → items.now ≡ item_commas list → IfOk result (λ v. v.items
        ≡ out.items
        ++ content_text whole.now paging.page paging.size paging.total list ignored.now) }
{
    let out = push_ignored(out, ignored)?;
    let out = push_array_member(out, "items", items)?;
    let out = push_next(alloc, out, whole, PageForm::Annotations, paging)?;
    Ok(out)
}

/// Writes the names of parameters that were ignored, where there are some.
pub fn push_ignored(out: Vec<u8>, ignored: &[Text]) -> Result<Vec<u8>, AllocError>
    ensures text { IfOk result
        (λ v. v.items ≡ out.items ++ text_if (codes "ignored") (texts_beside ignored.now)) }
{
    if ignored.is_empty() {
        Ok(out)
    } else {
        push_texts_member(out, "ignored", ignored)
    }
}

/// Writes texts as a member of this name.
fn push_texts_member(out: Vec<u8>, name: &str, texts: &[Text]) -> Result<Vec<u8>, AllocError>
    ensures text { IfOk result (λ v. v.items
        ≡ out.items ++ member_text name.now (array (items_of (map string texts.now)))) }
{
    let out = push_name(out, name)?;
    let start = out.len();
    let out = push_text_items(out, texts)?;
    let out = close_items(out, start)?;
    Ok(out)
}

/// Writes texts as items, each behind a comma.
fn push_text_items(out: Vec<u8>, texts: &[Text]) -> Result<Vec<u8>, AllocError>
    ensures text { IfOk result
        (λ v. v.items ≡ out.items ++ item_commas (items_of (map string texts.now))) }
{
    let mut out = out;
    for text in texts {
        out = push_text_item(out, text.as_str())?;
    }
    Ok(out)
}

/// Writes a text as an item, behind a comma.
pub fn push_text_item(out: Vec<u8>, text: &str) -> Result<Vec<u8>, AllocError>
    ensures text { IfOk result (λ v. v.items ≡ out.items ++ item_text (string text.now)) }
{
    let out = push_comma(out)?;
    let out = push_text(out, text)?;
    Ok(out)
}

/// Writes the list that the page is part of, the link to the page before it, where it starts, and
/// its type.
fn push_place(
    alloc: Global,
    out: Vec<u8>,
    whole: &PagedList,
    paging: Paging,
) -> Result<Vec<u8>, AllocError>
    requires page { 1 ≤ paging.page }
    requires size { 1 ≤ paging.size }
    ensures text { IfOk result (λ v. v.items ≡ out.items
        ++ commas (place_members whole.now paging.page paging.size paging.total)) }
{
    let out = push_name(out, "partOf")?;
    let out = push_whole(alloc, out, whole, paging.pages(), paging.total)?;
    let out = push_prev(alloc, out, whole, PageForm::Annotations, paging)?;
    let out = push_number_member(out, "startIndex", paging.start())?;
    let out = push_text_member(out, "type", "AnnotationPage")?;
    Ok(out)
}

/// Writes the list, as a page of it names it.
fn push_whole(
    alloc: Global,
    out: Vec<u8>,
    whole: &PagedList,
    pages: usize,
    total: usize,
) -> Result<Vec<u8>, AllocError>
    ensures text { IfOk result
        (λ v. v.items ≡ out.items ++ compact_text (whole_link whole.now pages total)) }
{
    let start = out.len();
    let out = push_link_member(alloc, out, "first", whole, PageForm::Annotations, 1)?;
    let out = push_whole_id(alloc, out, whole)?;
    let out = push_link_member(alloc, out, "last", whole, PageForm::Annotations, pages)?;
    let out = push_number_member(out, "total", total as u64)?;
    let out = push_text_member(out, "type", "AnnotationCollection")?;
    let out = close_members(out, start)?;
    Ok(out)
}

fn push_whole_id(alloc: Global, out: Vec<u8>, whole: &PagedList) -> Result<Vec<u8>, AllocError>
    ensures text { IfOk result (λ v. v.items
        ≡ out.items ++ member_text (codes "id") (string (whole_iri whole.now))) }
{
    let id = whole_iri(alloc, whole)?;
    let out = push_text_member(out, "id", id.as_str())?;
    Ok(out)
}

// ---- links

/// Writes the link to the page after this one, where there is one.
pub fn push_next(
    alloc: Global,
    out: Vec<u8>,
    whole: &PagedList,
    form: PageForm,
    paging: Paging,
) -> Result<Vec<u8>, AllocError>
    requires size { 1 ≤ paging.size }
    ensures text { IfOk result (λ v. v.items ≡ out.items ++ text_if (codes "next")
        (link_after form whole.now (page_count paging.total paging.size) paging.page)) }
{
    match paging.after() {
        Some(number) => push_link_member(alloc, out, "next", whole, form, number),
        None => Ok(out),
    }
}

/// Writes the link to the page before this one, where there is one.
pub fn push_prev(
    alloc: Global,
    out: Vec<u8>,
    whole: &PagedList,
    form: PageForm,
    paging: Paging,
) -> Result<Vec<u8>, AllocError>
    ensures text { IfOk result (λ v. v.items
        ≡ out.items ++ text_if (codes "prev") (link_before form whole.now paging.page)) }
{
    match paging.before() {
        Some(number) => push_link_member(alloc, out, "prev", whole, form, number),
        None => Ok(out),
    }
}

/// Writes the page of this number, as another names it, as a member of this name.
pub fn push_link_member(
    alloc: Global,
    out: Vec<u8>,
    name: &str,
    whole: &PagedList,
    form: PageForm,
    number: usize,
) -> Result<Vec<u8>, AllocError>
    ensures text { IfOk result
        (λ v. v.items ≡ out.items ++ member_text name.now (page_link form whole.now number)) }
{
    let iri = page_iri(alloc, whole, number)?;
    let out = push_named_member(out, name, form, iri.as_str())?;
    Ok(out)
}

/// Writes the page of this IRI, as another names it, as a member of this name.
fn push_named_member(
    out: Vec<u8>,
    name: &str,
    form: PageForm,
    iri: &str,
) -> Result<Vec<u8>, AllocError>
    ensures text { IfOk result
        (λ v. v.items ≡ out.items ++ member_text name.now (page_named form iri.now)) }
{
    match form {
        PageForm::Iri => push_text_member(out, name, iri),
        PageForm::Annotations => push_thing_member(out, name, iri, "AnnotationPage"),
        PageForm::Changes => push_thing_member(out, name, iri, "OrderedCollectionPage"),
    }
}

/// Writes a thing of this IRI and type as a member of this name.
pub fn push_thing_member(
    out: Vec<u8>,
    name: &str,
    iri: &str,
    kind: &str,
) -> Result<Vec<u8>, AllocError>
    ensures text { IfOk result
        (λ v. v.items ≡ out.items ++ member_text name.now (thing iri.now kind.now)) }
{
    let out = push_name(out, name)?;
    let out = push_thing(out, iri, kind)?;
    Ok(out)
}

fn push_thing(out: Vec<u8>, iri: &str, kind: &str) -> Result<Vec<u8>, AllocError>
    ensures text { IfOk result
        (λ v. v.items ≡ out.items ++ compact_text (thing iri.now kind.now)) }
{
    let start = out.len();
    let out = push_text_member(out, "id", iri)?;
    let out = push_text_member(out, "type", kind)?;
    let out = close_members(out, start)?;
    Ok(out)
}

/// The IRI of the list.
pub(crate) fn whole_iri(alloc: Global, whole: &PagedList) -> Result<String, AllocError>
    ensures iri { IfOk result (λ iri. string_bytes iri ≡ whole_iri whole.now) }
{
    let path = whole.path.as_str();
    let parameters = whole.parameters.as_str();
    if parameters.is_empty() {
        format!(in alloc; "{path}")
    } else {
        format!(in alloc; "{path}?{parameters}")
    }
}

/// The IRI of a page of the list.
pub fn page_iri(alloc: Global, whole: &PagedList, number: usize) -> Result<String, AllocError>
    ensures iri { IfOk result (λ iri. string_bytes iri ≡ page_iri whole.now number) }
{
    let path = whole.path.as_str();
    let parameters = whole.parameters.as_str();
    if parameters.is_empty() {
        format!(in alloc; "{path}?page={number}")
    } else {
        format!(in alloc; "{path}?{parameters}&page={number}")
    }
}
