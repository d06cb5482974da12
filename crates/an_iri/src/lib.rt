//! The IRIs of what the server gives. Each begins with the server's base.
//!
//! ```text
//! manifest_iri(alloc, "http://a.example", "m1")  Ok("http://a.example/manifests/m1")
//! ```
#![tactic(auto)]

ghost use Rattle.std.specs.Prelude.{◌≡◌, IfOk, string_bytes};
ghost use Rattle.an_iri.specs.Iris.{anchors_iri, canvas_iri, canvas_page_iri, changes_iri};
ghost use Rattle.an_iri.specs.Iris.{collection_iri, complete_iri, container_iri};
ghost use Rattle.an_iri.specs.Iris.{gather_complete_iri, gather_search_iri, manifest_iri, mark_iri};
ghost use Rattle.an_iri.specs.Iris.{note_iri};
ghost use Rattle.an_iri.specs.Iris.{orphans_iri, reader_iri, search_iri};

pub use names::{names_in, note_iris_are_unique, note_iris_read_back};

mod names;

use an_base::Name;
use std::alloc::{AllocError, Global};

/// The IRI of a reader.
pub fn reader_iri(alloc: Global, base: &str, name: &str) -> Result<String, AllocError>
    ensures iri { IfOk result (λ iri. string_bytes iri ≡ reader_iri base.now name.now) }
{
    format!(in alloc; "{base}/readers/{name}")
}

/// The IRI at which a manifest is served.
pub fn manifest_iri(alloc: Global, base: &str, name: &str) -> Result<String, AllocError>
    ensures iri { IfOk result (λ iri. string_bytes iri ≡ manifest_iri base.now name.now) }
{
    format!(in alloc; "{base}/manifests/{name}")
}

/// The IRI of an annotation.
pub fn note_iri(alloc: Global, base: &str, owner: &Name, name: &Name) -> Result<String, AllocError>
    ensures iri { IfOk result (λ iri. string_bytes iri ≡ note_iri base.now owner.now name.now) }
{
    let owner = owner.as_str();
    let name = name.as_str();
    format!(in alloc; "{base}/annotations/{owner}/{name}")
}

/// The IRI of the comments on an annotation, with where they hold.
pub fn anchors_iri(
    alloc: Global,
    base: &str,
    owner: &Name,
    name: &Name,
) -> Result<String, AllocError>
    ensures iri { IfOk result
        (λ iri. string_bytes iri ≡ anchors_iri base.now owner.now name.now) }
{
    let iri = note_iri(alloc, base, owner, name)?;
    let iri = iri.as_str();
    format!(in alloc; "{iri}/anchors")
}

/// The IRI of the comments on a manifest that have lost what they are about.
pub fn orphans_iri(alloc: Global, base: &str, name: &str) -> Result<String, AllocError>
    ensures iri { IfOk result (λ iri. string_bytes iri ≡ orphans_iri base.now name.now) }
{
    format!(in alloc; "{base}/manifests/{name}/orphans")
}

/// The IRI of the container of the annotations on a manifest.
pub fn container_iri(alloc: Global, base: &str, name: &str) -> Result<String, AllocError>
    ensures iri { IfOk result (λ iri. string_bytes iri ≡ container_iri base.now name.now) }
{
    format!(in alloc; "{base}/manifests/{name}/annotations/")
}

/// The IRI of the annotations on a canvas, by its number in the manifest, from 1.
pub fn canvas_iri(alloc: Global, base: &str, name: &str, number: u32) -> Result<String, AllocError>
    ensures iri { IfOk result (λ iri. string_bytes iri ≡ canvas_iri base.now name.now number) }
{
    format!(in alloc; "{base}/manifests/{name}/canvases/{number}")
}

/// The IRI of the first page of the annotations on a canvas, by its number in the manifest, from 1.
pub fn canvas_page_iri(
    alloc: Global,
    base: &str,
    name: &str,
    number: usize,
) -> Result<String, AllocError>
    ensures iri { IfOk result
        (λ iri. string_bytes iri ≡ canvas_page_iri base.now name.now number) }
{
    format!(in alloc; "{base}/manifests/{name}/canvases/{number}?page=1")
}

/// The IRI of the service that searches the annotations on a manifest.
pub fn search_iri(alloc: Global, base: &str, name: &str) -> Result<String, AllocError>
    ensures iri { IfOk result (λ iri. string_bytes iri ≡ search_iri base.now name.now) }
{
    format!(in alloc; "{base}/search/{name}")
}

/// The IRI of the service that completes words of the annotations on a manifest.
pub fn complete_iri(alloc: Global, base: &str, name: &str) -> Result<String, AllocError>
    ensures iri { IfOk result (λ iri. string_bytes iri ≡ complete_iri base.now name.now) }
{
    format!(in alloc; "{base}/autocomplete/{name}")
}

/// The IRI of the collection of all manifests.
pub fn collection_iri(alloc: Global, base: &str) -> Result<String, AllocError>
    ensures iri { IfOk result (λ iri. string_bytes iri ≡ collection_iri base.now) }
{
    format!(in alloc; "{base}/collection")
}

/// The IRI of the service that searches the annotations on all manifests.
pub fn gather_search_iri(alloc: Global, base: &str) -> Result<String, AllocError>
    ensures iri { IfOk result (λ iri. string_bytes iri ≡ gather_search_iri base.now) }
{
    format!(in alloc; "{base}/gather/search")
}

/// The IRI of the service that completes words of the annotations on all manifests.
pub fn gather_complete_iri(alloc: Global, base: &str) -> Result<String, AllocError>
    ensures iri { IfOk result (λ iri. string_bytes iri ≡ gather_complete_iri base.now) }
{
    format!(in alloc; "{base}/gather/autocomplete")
}

/// The IRI of the stream of changes.
pub fn changes_iri(alloc: Global, base: &str) -> Result<String, AllocError>
    ensures iri { IfOk result (λ iri. string_bytes iri ≡ changes_iri base.now) }
{
    format!(in alloc; "{base}/changes")
}

/// The IRI of a mark, by its number on the page of this IRI.
pub fn mark_iri(alloc: Global, page: &str, number: usize) -> Result<String, AllocError>
    ensures iri { IfOk result (λ iri. string_bytes iri ≡ mark_iri page.now number) }
{
    format!(in alloc; "{page}#match-{number}")
}
