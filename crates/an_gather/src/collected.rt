ghost use Rattle.std.specs.Prelude.{◌≡◌, ◌++◌, ◌≤◌, [], IfOk, List, Ok, codes, map, vec_len};
ghost use Rattle.std.specs.List.{cons_option, filter_map};
ghost use Rattle.serde_json.specs.Data.{Data, array, item, no_items, string};
ghost use Rattle.serde_json.specs.View.{items_of};
ghost use Rattle.serde_json.specs.Written.{compact_text};
ghost use Rattle.an_base.specs.Outcome.{Gives};
ghost use Rattle.an_base.specs.Write.{item_commas, item_text, member_text};
ghost use Rattle.an_policy.specs.Audience.{identity};
ghost use Rattle.an_state.specs.View.{view_of};
ghost use Rattle.an_gather.specs.Collection.{collection_label, collection_of, collection_tree};
ghost use Rattle.an_gather.specs.Collection.{complete_service};
ghost use Rattle.an_gather.specs.Collection.{manifest_item, row_item, search_service};

use an_base::{
    Bytes, Name, close_items, close_members, push_array_member, push_comma, push_name,
    push_text_member,
};
use an_iri::{collection_iri, gather_complete_iri, gather_search_iri, manifest_iri};
use an_keyed::Keyed;
use an_list::{ReadError, Site, push_text_item};
use an_manifest::KeptSheet;
use an_policy::Who;
use an_served::{CONTEXTS, push_label};
use an_state::{Look, ManifestRow, shown_manifests};
use std::alloc::{AllocError, Global};

/// Most items have room in so many bytes.
const ITEM_ROOM: usize = 256;

/// What the collection has besides its items has room in so many bytes, where its base is short.
const WHOLE_ROOM: usize = 1024;

/// The collection of the manifests that the caller may read, each with its kept label (IIIF
/// Presentation API 3.0, section 5.1). No manifest is read back: its label is copied.
pub fn collection<T: Look>(
    alloc: Global,
    look: &T,
    who: &Who<'_>,
    site: &Site,
) -> Result<Bytes, ReadError>
    ensures answer { Gives (λ body. body) ReadError.Memory result
        (Ok (collection_of site.now (view_of (T.state look.now) (identity who.now)))) }
{
    Ok(shown_collection(alloc, look, who, site.base())?)
}

fn shown_collection<T: Look>(
    alloc: Global,
    look: &T,
    who: &Who<'_>,
    base: &str,
) -> Result<Bytes, AllocError>
    ensures { IfOk result (λ body. body ≡ compact_text (collection_tree base.now
        (filter_map (row_item base.now)
        (view_of (T.state look.now) (identity who.now)).manifests))) }
{
    let rows = shown_manifests(alloc, look, who)?;
    let room = Vec::with_capacity(alloc, rows.len().saturating_mul(ITEM_ROOM))?;
    let items = push_rows(alloc, room, base, rows.as_slice())?;
    collection_text(alloc, base, items.as_slice())
}

/// The text of the collection with these items, its members in the order of their names.
fn collection_text(alloc: Global, base: &str, items: &[u8]) -> Result<Bytes, AllocError>
    ensures text { (manifests : List Data) → items.now ≡ item_commas (items_of manifests)
        → IfOk result (λ text. text ≡ compact_text (collection_tree base.now manifests)) }
{
    let iri = collection_iri(alloc, base)?;
    let room = Vec::with_capacity(alloc, items.len().saturating_add(WHOLE_ROOM))?;
    let out = push_array_member(room, "@context", CONTEXTS.as_bytes())?;
    let out = push_text_member(out, "id", iri.as_str())?;
    let out = push_array_member(out, "items", items)?;
    let out = push_own_label(out)?;
    let out = push_services(alloc, out, base)?;
    let out = push_text_member(out, "type", "Collection")?;
    let out = close_members(out, 0)?;
    Ok(Bytes::from_vec(out))
}

/// Writes the label of the collection, which is in no language.
fn push_own_label(out: Vec<u8>) -> Result<Vec<u8>, AllocError>
    ensures text { IfOk result
        (λ v. v.items ≡ out.items ++ member_text (codes "label") collection_label) }
    ensures grows { IfOk result (λ v. vec_len out ≤ vec_len v) }
{
    let out = push_name(out, "label")?;
    let start = out.len();
    let out = push_none(out)?;
    let out = close_members(out, start)?;
    Ok(out)
}

fn push_none(out: Vec<u8>) -> Result<Vec<u8>, AllocError>
    ensures text { IfOk result (λ v. v.items ≡ out.items
        ++ member_text (codes "none") (array (item (string (codes "All")) no_items))) }
    ensures grows { IfOk result (λ v. vec_len out ≤ vec_len v) }
{
    let out = push_name(out, "none")?;
    let start = out.len();
    let out = push_text_item(out, "All")?;
    let out = close_items(out, start)?;
    Ok(out)
}

/// Writes the service that searches the annotations on all manifests, as the only one.
fn push_services(alloc: Global, out: Vec<u8>, base: &str) -> Result<Vec<u8>, AllocError>
    ensures text { IfOk result (λ v. v.items ≡ out.items
        ++ member_text (codes "service") (array (item (search_service base.now) no_items))) }
    ensures grows { IfOk result (λ v. vec_len out ≤ vec_len v) }
{
    let out = push_name(out, "service")?;
    let start = out.len();
    let out = push_comma(out)?;
    let out = push_search(alloc, out, base)?;
    let out = close_items(out, start)?;
    Ok(out)
}

/// Writes the service that searches, which names the one that completes words.
fn push_search(alloc: Global, out: Vec<u8>, base: &str) -> Result<Vec<u8>, AllocError>
    ensures text { IfOk result
        (λ v. v.items ≡ out.items ++ compact_text (search_service base.now)) }
    ensures grows { IfOk result (λ v. vec_len out ≤ vec_len v) }
{
    let start = out.len();
    let iri = gather_search_iri(alloc, base)?;
    let out = push_text_member(out, "id", iri.as_str())?;
    let out = push_completes(alloc, out, base)?;
    let out = push_text_member(out, "type", "SearchService2")?;
    let out = close_members(out, start)?;
    Ok(out)
}

/// Writes the service that completes words, as the only one.
fn push_completes(alloc: Global, out: Vec<u8>, base: &str) -> Result<Vec<u8>, AllocError>
    ensures text { IfOk result (λ v. v.items ≡ out.items
        ++ member_text (codes "service") (array (item (complete_service base.now) no_items))) }
    ensures grows { IfOk result (λ v. vec_len out ≤ vec_len v) }
{
    let out = push_name(out, "service")?;
    let start = out.len();
    let out = push_comma(out)?;
    let out = push_complete(alloc, out, base)?;
    let out = close_items(out, start)?;
    Ok(out)
}

fn push_complete(alloc: Global, out: Vec<u8>, base: &str) -> Result<Vec<u8>, AllocError>
    ensures text { IfOk result
        (λ v. v.items ≡ out.items ++ compact_text (complete_service base.now)) }
    ensures grows { IfOk result (λ v. vec_len out ≤ vec_len v) }
{
    let start = out.len();
    let iri = gather_complete_iri(alloc, base)?;
    let out = push_text_member(out, "id", iri.as_str())?;
    let out = push_text_member(out, "type", "AutoCompleteService2")?;
    let out = close_members(out, start)?;
    Ok(out)
}

/// Writes manifests as items, each with a comma before it.
fn push_rows(
    alloc: Global,
    out: Vec<u8>,
    base: &str,
    rows: &[&ManifestRow],
) -> Result<Vec<u8>, AllocError>
    ensures text { IfOk result (λ v. v.items ≡ out.items ++ item_commas (items_of
        (filter_map (row_item base.now) (map (λ row. row.now) rows.now)))) }
{
    let mut out = out;
    for row in rows {
        out = push_row(alloc, out, base, row)?;
    }
    Ok(out)
}

fn push_row(
    alloc: Global,
    out: Vec<u8>,
    base: &str,
    row: &ManifestRow,
) -> Result<Vec<u8>, AllocError>
    ensures text { IfOk result (λ v. v.items ≡ out.items ++ item_commas (items_of
        (cons_option (row_item base.now row.now) []))) }
{
    match row.sheet() {
        Some(sheet) => push_item(alloc, out, base, row.name(), sheet),
        None => Ok(out),
    }
}

fn push_item(
    alloc: Global,
    out: Vec<u8>,
    base: &str,
    name: &Name,
    sheet: &KeptSheet,
) -> Result<Vec<u8>, AllocError>
    ensures text { IfOk result
        (λ v. v.items ≡ out.items ++ item_text (manifest_item base.now name.now sheet.now)) }
{
    let out = push_comma(out)?;
    let out = push_manifest(alloc, out, base, name, sheet)?;
    Ok(out)
}

fn push_manifest(
    alloc: Global,
    out: Vec<u8>,
    base: &str,
    name: &Name,
    sheet: &KeptSheet,
) -> Result<Vec<u8>, AllocError>
    ensures text { IfOk result
        (λ v. v.items ≡ out.items ++ compact_text (manifest_item base.now name.now sheet.now)) }
{
    let iri = manifest_iri(alloc, base, name.as_str())?;
    let start = out.len();
    let out = push_text_member(out, "id", iri.as_str())?;
    let out = push_label(out, sheet)?;
    let out = push_text_member(out, "type", "Manifest")?;
    let out = close_members(out, start)?;
    Ok(out)
}
