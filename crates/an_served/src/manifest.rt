ghost use Rattle.std.specs.Prelude.{◌≡◌, ◌+◌, ◌<◌, ◌≤◌, ◌++◌, codes, length, slice_range, take};
ghost use Rattle.std.specs.Prelude.{ℕ, List, [], ◌∷◌, drop, true, IfOk, IsTrue, Some, is_some};
ghost use Rattle.serde_json.specs.Data.{Data, Items, Members, array, item, no_items, object};
ghost use Rattle.serde_json.specs.Data.{string};
ghost use Rattle.serde_json.specs.Find.{get};
ghost use Rattle.serde_json.specs.Written.{compact_text};
ghost use Rattle.an_base.specs.Cut.{members_in};
ghost use Rattle.an_base.specs.Items.{trees_in};
ghost use Rattle.an_base.specs.Tree.{ascend, names};
ghost use Rattle.an_base.specs.Write.{member_text, item_commas};
ghost use Rattle.an_served.specs.ManifestParts.{piece, IsCutAt, heading_text, ending_text};
ghost use Rattle.an_served.specs.ManifestParts.{page_front};
ghost use Rattle.an_iri.specs.Iris.{manifest_iri};
ghost use Rattle.an_served.specs.Manifest.{with_last, with_one_more, search_service};
ghost use Rattle.an_served.specs.Manifest.{canvas_page, dressed_canvases, contexts, dressed};
ghost use Rattle.an_manifest.specs.Manifest.{canvases_in};

use crate::manifest_tree::search_service;
use an_base::{
    Name, close_items, close_members, push_array_member, push_name, push_number, push_text,
    push_text_member,
};
use an_iri::manifest_iri;
use an_manifest::{Cut, KeptSheet};
use std::alloc::{AllocError, Global};

/// The contexts of a served manifest, each behind a comma.
pub const CONTEXTS: &str =
    r#","http://iiif.io/api/search/2/context.json","http://iiif.io/api/presentation/3/context.json""#;

/// What a page of annotations adds to a canvas besides the server's base and the manifest's name,
/// where the number of the canvas has at most eight digits.
const PAGE_ROOM: usize = 96;

/// How many IRIs the services and the manifest itself have.
const IRIS: usize = 3;

/// What the contexts and the services add besides IRIs.
const HEADING_ROOM: usize = 256;

/// What stands behind the number of a canvas in the text of its page.
const PAGE_END: &str = r#"?page=1","type":"AnnotationPage"}"#;

/// Writes the text by which the manifest of this name is served: that of the tree which
/// `dress_manifest` makes of it.
pub fn push_manifest(
    alloc: Global,
    out: Vec<u8>,
    sheet: &KeptSheet,
    base: &str,
    name: &Name,
) -> Result<Vec<u8>, AllocError>
    ensures text { IfOk result
        (λ v. v.items ≡ out.items ++ compact_text (dressed base.now name.now sheet.now)) }
{
    let name = name.as_str();
    let mut out = out;
    let canvases = sheet.canvas_cuts().len();
    out.reserve(room_for(sheet.text().len(), canvases, base, name))?;
    let start = out.len();
    let out = push_heading(alloc, out, sheet, base, name)?;
    let out = push_items(alloc, out, sheet, base, name)?;
    let out = push_ending(alloc, out, sheet, base, name)?;
    let out = close_members(out, start)?;
    Ok(out)
}

/// How many bytes are reserved for a manifest whose kept text has so many, and so many canvases:
/// those that it is served in, where no IRI needs an escape, and the kept text once more. A reply
/// holds the text twice for a moment, and glibc's allocator gives both blocks back to the system
/// each time, page by page, where what it has free at its end is twice its largest block.
fn room_for(kept: usize, canvases: usize, base: &str, name: &str) -> usize
    ensures kept { kept ≤ result }
{
    let page = base
        .len()
        .saturating_add(name.len())
        .saturating_add(PAGE_ROOM);
    let pages = page.saturating_mul(canvases.saturating_add(IRIS));
    pages
        .saturating_add(HEADING_ROOM)
        .saturating_add(kept)
        .saturating_add(kept)
}

/// Writes the label of a manifest as a member, behind a comma (IIIF Presentation API 3.0, section
/// 3.1). Its text is copied.
pub fn push_label(out: Vec<u8>, sheet: &KeptSheet) -> Result<Vec<u8>, AllocError>
    ensures text { IfOk result (λ v. (label : Data) → get (codes "label") sheet.now ≡ Some label
        → v.items ≡ out.items ++ member_text (codes "label") label) }
    ensures label { IsTrue (is_some (get (codes "label") sheet.now)) }
{
    let text = sheet.text();
    let label = sheet.cuts().label;
    push_piece(out, text, label.below, label.above)
}

/// Writes the members before the canvases, with the contexts and the IRI.
fn push_heading(
    alloc: Global,
    out: Vec<u8>,
    sheet: &KeptSheet,
    base: &str,
    name: &str,
) -> Result<Vec<u8>, AllocError>
    ensures { IfOk result (λ v. v.items ≡ out.items
        ++ heading_text (members_in sheet.now) (array contexts)
        (string (manifest_iri base.now name.now))) }
{
    let text = sheet.text();
    let cuts = sheet.cuts();
    let out = push_piece(out, text, 0, cuts.context)?;
    let out = push_array_member(out, "@context", CONTEXTS.as_bytes())?;
    let out = push_piece(out, text, cuts.context, cuts.id)?;
    let out = push_iri(alloc, out, base, name)?;
    let out = push_piece(out, text, cuts.id, cuts.items.below)?;
    Ok(out)
}

fn push_iri(alloc: Global, out: Vec<u8>, base: &str, name: &str) -> Result<Vec<u8>, AllocError>
    ensures { IfOk result (λ v. v.items
        ≡ out.items ++ member_text (codes "id") (string (manifest_iri base.now name.now))) }
{
    let iri = manifest_iri(alloc, base, name)?;
    let out = push_text_member(out, "id", iri.as_str())?;
    Ok(out)
}

/// Writes the canvases.
fn push_items(
    alloc: Global,
    out: Vec<u8>,
    sheet: &KeptSheet,
    base: &str,
    name: &str,
) -> Result<Vec<u8>, AllocError>
    ensures { IfOk result (λ v. v.items ≡ out.items ++ member_text (codes "items")
        (array (dressed_canvases base.now name.now 1 (canvases_in sheet.now)))) }
{
    let out = push_name(out, "items")?;
    let start = out.len();
    let out = push_canvases(alloc, out, sheet, base, name)?;
    let out = close_items(out, start)?;
    Ok(out)
}

/// Writes the members behind the canvases, with the services.
fn push_ending(
    alloc: Global,
    out: Vec<u8>,
    sheet: &KeptSheet,
    base: &str,
    name: &str,
) -> Result<Vec<u8>, AllocError>
    ensures { IfOk result (λ v. v.items ≡ out.items ++ ending_text (members_in sheet.now)
        (array (with_last (search_service base.now name.now)
        (trees_in (codes "service") sheet.now)))) }
{
    let text = sheet.text();
    let cuts = sheet.cuts();
    let service = service_text(alloc, base, name)?;
    let out = push_piece(out, text, cuts.items.above, cuts.service.below)?;
    let out = push_one_more(out, text, cuts.service, "service", service.as_slice())?;
    let out = push_piece(
        out,
        text,
        cuts.service.above,
        cuts.service.size.saturating_sub(1),
    )?;
    Ok(out)
}

/// The text of the service that searches the annotations on the manifest.
fn service_text(alloc: Global, base: &str, name: &str) -> Result<Vec<u8>, AllocError>
    ensures { IfOk result (λ v. v.items ≡ compact_text (search_service base.now name.now)) }
{
    let service = search_service(alloc, base, name)?;
    service.to_vec(alloc)
}

/// Writes the canvases, each behind a comma and with the page of the annotations on it.
fn push_canvases(
    alloc: Global,
    out: Vec<u8>,
    sheet: &KeptSheet,
    base: &str,
    name: &str,
) -> Result<Vec<u8>, AllocError>
    ensures { IfOk result (λ v. v.items ≡ out.items
        ++ item_commas (dressed_canvases base.now name.now 1 (canvases_in sheet.now))) }
{
    let cuts = sheet.canvas_cuts();
    let items = sheet.cuts().items;
    let front = page_front(alloc, base, name)?;
    let mut page = Vec::new(alloc);
    let mut out = out;
    let mut rest = part_of(sheet.text(), items.first, items.last);
    let mut done = 0;
    for cut in cuts {
        done += 1;
        page = page_text(page, front.as_slice(), done)?;
        let (canvas, behind) = parted(rest, cut.size);
        out.push(b',')?;
        out = push_canvas(out, canvas, *cut, page.as_slice())?;
        rest = behind;
    }
    Ok(out)
}

/// The part of a text from one place to another.
fn part_of(text: &[u8], from: usize, to: usize) -> &[u8]
    requires order { from ≤ to }
    requires within { to ≤ length text.now }
    ensures { result.now ≡ slice_range text.now from to }
{
    &text[from..to]
}

/// What stands behind the first sign, to a number of bytes, and what is behind that.
fn parted(text: &[u8], size: usize) -> (&[u8], &[u8])
    requires within { size < length text.now }
    ensures front { result.0.now ≡ take size (drop 1 text.now) }
    ensures back { result.1.now ≡ drop (size + 1) text.now }
{
    text[1..].split_at(size)
}

/// Writes a canvas with a page of annotations behind those that it has.
fn push_canvas(out: Vec<u8>, text: &[u8], cut: Cut, page: &[u8]) -> Result<Vec<u8>, AllocError>
    ensures canvas { (members : Members) (one : Data) → ascend (names members) ≡ true
        → IsCutAt (codes "annotations") (object members) cut
        → text.now ≡ compact_text (object members) → page.now ≡ compact_text one
        → IfOk result (λ v. v.items
        ≡ out.items ++ compact_text (with_one_more (codes "annotations") one (object members))) }
{
    let start = out.len();
    let out = push_piece(out, text, 0, cut.below)?;
    let out = push_annotations(out, text, cut, page)?;
    let out = push_piece(out, text, cut.above, cut.size.saturating_sub(1))?;
    let out = close_members(out, start)?;
    Ok(out)
}

/// Writes the pages of annotations that a canvas has, and one behind them, behind a comma. Few
/// canvases have one.
fn push_annotations(out: Vec<u8>, text: &[u8], cut: Cut, page: &[u8]) -> Result<Vec<u8>, AllocError>
    ensures member { (values : Items) (one : Data)
        → piece text.now cut.first cut.last ≡ item_commas values → page.now ≡ compact_text one
        → IfOk result (λ v. v.items
        ≡ out.items ++ member_text (codes "annotations") (array (with_last one values))) }
    ensures grows { IfOk result (λ v. length out.items ≤ length v.items) }
{
    if cut.first < cut.last.min(text.len()) {
        return push_one_more(out, text, cut, "annotations", page);
    }
    push_only(out, page)
}

/// Writes the only page of annotations that a canvas has, behind a comma.
fn push_only(out: Vec<u8>, page: &[u8]) -> Result<Vec<u8>, AllocError>
    ensures member { (one : Data) → page.now ≡ compact_text one → IfOk result (λ v. v.items
        ≡ out.items ++ member_text (codes "annotations") (array (item one no_items))) }
    ensures grows { IfOk result (λ v. length out.items ≤ length v.items) }
{
    let mut out = out;
    out.extend_from_slice(b",\"annotations\":[")?;
    out.extend_from_slice(page)?;
    out.push(b']')?;
    Ok(out)
}

/// Writes a member with one value more behind those that it has, behind a comma.
fn push_one_more(
    out: Vec<u8>,
    text: &[u8],
    cut: Cut,
    name: &str,
    value: &[u8],
) -> Result<Vec<u8>, AllocError>
    ensures member { (values : Items) (one : Data)
        → piece text.now cut.first cut.last ≡ item_commas values → value.now ≡ compact_text one
        → IfOk result (λ v. v.items
        ≡ out.items ++ member_text name.now (array (with_last one values))) }
    ensures grows { IfOk result (λ v. length out.items ≤ length v.items) }
{
    let out = push_name(out, name)?;
    let start = out.len();
    let mut out = push_piece(out, text, cut.first, cut.last)?;
    out.push(b',')?;
    out.extend_from_slice(value)?;
    let out = close_items(out, start)?;
    Ok(out)
}

/// The text of the page of a canvas, up to the canvas's number.
fn page_front(alloc: Global, base: &str, name: &str) -> Result<Vec<u8>, AllocError>
    ensures { IfOk result (λ v. v.items ≡ page_front base.now name.now) }
{
    let iri = manifest_iri(alloc, base, name)?;
    let mut out = Vec::new(alloc);
    out.extend_from_slice(b"{\"id\":")?;
    let out = push_text(out, iri.as_str())?;
    let mut out = without_last(out);
    out.extend_from_slice(b"/canvases/")?;
    Ok(out)
}

/// A text without its last sign, which here is a quote: the text goes on before that.
fn without_last(text: Vec<u8>) -> Vec<u8>
    ensures { (front : List ℕ) (last : ℕ) → text.items ≡ front ++ last ∷ []
        → result.items ≡ front }
{
    let mut text = text;
    let _ = text.pop();
    text
}

/// The text of the first page of the annotations on a canvas, in the room of an earlier text.
fn page_text(room: Vec<u8>, front: &[u8], number: usize) -> Result<Vec<u8>, AllocError>
    ensures { (base name : List ℕ) → front.now ≡ page_front base name
        → IfOk result (λ v. v.items ≡ compact_text (canvas_page base name number)) }
{
    let mut out = room;
    out.clear();
    out.extend_from_slice(front)?;
    let mut out = push_number(out, number as u64)?;
    out.extend_from_slice(PAGE_END.as_bytes())?;
    Ok(out)
}

/// Writes what stands between two cuts of a text, behind a comma; nothing where nothing does.
fn push_piece(out: Vec<u8>, text: &[u8], from: usize, to: usize) -> Result<Vec<u8>, AllocError>
    ensures piece { IfOk result (λ v. v.items ≡ out.items ++ piece text.now from to) }
{
    let mut out = out;
    let end = to.min(text.len());
    if from < end {
        out.push(b',')?;
        out.extend_from_slice(&text[from + 1..end])?;
    }
    Ok(out)
}
