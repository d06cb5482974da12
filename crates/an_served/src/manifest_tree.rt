ghost use Rattle.std.specs.Prelude.{◌≡◌, [], ◌∷◌, false, codes, option_map, IfOk, string_bytes};
ghost use Rattle.serde_json.specs.Data.{string, array};
ghost use Rattle.serde_json.specs.View.{view, items_view};
ghost use Rattle.serde_json.specs.Written.{has_float};
ghost use Rattle.an_base.specs.Items.{many_if};
ghost use Rattle.an_base.specs.Object.{with_member};
ghost use Rattle.an_base.specs.Tree.{one_or_many};
ghost use Rattle.an_manifest.specs.Manifest.{array_in};
ghost use Rattle.an_iri.specs.Iris.{manifest_iri};
ghost use Rattle.an_served.specs.Manifest.{with_last, with_one_more, complete_service};
ghost use Rattle.an_served.specs.Manifest.{search_service, canvas_page, dressed_canvases};
ghost use Rattle.an_served.specs.Manifest.{with_canvas_pages, contexts, dressed};

use crate::take::take_member;
use an_base::{Name, with_member};
use an_iri::{canvas_page_iri, complete_iri, manifest_iri, search_iri};
use an_manifest::Sheet;
use serde_json::{Value, json};
use std::alloc::{AllocError, Global};

/// The tree by which the manifest of this name is served: the one that is kept, with its IRI
/// below `base`, the services that search the annotations on it and complete words of them (IIIF
/// Content Search API 2.0, section 3), and in each canvas the page of the annotations on it (IIIF
/// Presentation API 3.0, section 5.3). Kept services and pages stand in front. `tree_text` writes
/// the tree, which may be deeper than one that is read.
#[tactic(auto, using(crate::proofs::ManifestTreeLemmas::has_float_dressed), unfolding(crate::specs::Manifest::dressed))]
pub fn dress_manifest(
    alloc: Global,
    sheet: &Sheet,
    base: &str,
    name: &Name,
) -> Result<Value, AllocError>
    ensures tree { IfOk result (λ v. view v ≡ dressed base.now name.now sheet.now) }
    ensures whole { IfOk result (λ v. has_float (view v) ≡ false) }
{
    let name = name.as_str();
    let tree = sheet.tree().clone()?;
    let tree = with_canvas_pages(alloc, tree, base, name)?;
    let tree = with_one_more(alloc, tree, "service", search_service(alloc, base, name)?)?;
    with_heading(alloc, tree, base, name)
}

fn with_heading(alloc: Global, tree: Value, base: &str, name: &str) -> Result<Value, AllocError>
    ensures { IfOk result (λ v. view v ≡ with_member (codes "@context") (array contexts)
        (with_member (codes "id") (string (manifest_iri base.now name.now)) (view tree))) }
{
    let tree = with_text(alloc, tree, "id", manifest_iri(alloc, base, name)?)?;
    with_member(alloc, tree, "@context", contexts(alloc)?)
}

fn with_text(alloc: Global, tree: Value, name: &str, text: String) -> Result<Value, AllocError>
    ensures { IfOk result (λ v. view v
        ≡ with_member name.now (string (string_bytes text)) (view tree)) }
{
    let value = Value::from(text);
    with_member(alloc, tree, name, value)
}

#[tactic(auto, unfolding(crate::specs::Manifest::contexts))]
fn contexts(alloc: Global) -> Result<Value, AllocError>
    ensures { IfOk result (λ v. view v ≡ array contexts) }
{
    json!(in alloc; [
        "http://iiif.io/api/search/2/context.json",
        "http://iiif.io/api/presentation/3/context.json"
    ])
}

/// The service that searches the annotations on the manifest.
pub(crate) fn search_service(alloc: Global, base: &str, name: &str) -> Result<Value, AllocError>
    ensures { IfOk result (λ v. view v ≡ search_service base.now name.now) }
{
    let id = search_iri(alloc, base, name)?;
    let complete = complete_service(alloc, base, name)?;
    json!(in alloc; {"id": id, "service": [complete], "type": "SearchService2"})
}

/// The service that completes words of the annotations on the manifest.
fn complete_service(alloc: Global, base: &str, name: &str) -> Result<Value, AllocError>
    ensures { IfOk result (λ v. view v ≡ complete_service base.now name.now) }
{
    let id = complete_iri(alloc, base, name)?;
    json!(in alloc; {"id": id, "type": "AutoCompleteService2"})
}

/// The manifest's tree with a page of annotations in each canvas.
fn with_canvas_pages(
    alloc: Global,
    tree: Value,
    base: &str,
    name: &str,
) -> Result<Value, AllocError>
    ensures { IfOk result (λ v. view v ≡ with_canvas_pages base.now name.now (view tree)) }
{
    let (rest, items) = take_member(tree, "items");
    let canvases = dressed_canvases(alloc, array_in(alloc, items), base, name)?;
    with_array(alloc, rest, "items", canvases)
}

fn with_array(
    alloc: Global,
    tree: Value,
    name: &str,
    items: Vec<Value>,
) -> Result<Value, AllocError>
    ensures { IfOk result (λ v. view v
        ≡ with_member name.now (array (items_view items.items)) (view tree)) }
{
    let value = Value::from(items);
    with_member(alloc, tree, name, value)
}

/// The items of an array; none of anything else.
fn array_in(alloc: Global, value: Option<Value>) -> Vec<Value>
    ensures { items_view result.items ≡ array_in (option_map view value) }
{
    match value {
        Some(Value::Array(items)) => items,
        _ => Vec::new(alloc),
    }
}

/// Each canvas with its page of annotations, numbered from 1.
fn dressed_canvases(
    alloc: Global,
    canvases: Vec<Value>,
    base: &str,
    name: &str,
) -> Result<Vec<Value>, AllocError>
    ensures { IfOk result (λ v. items_view v.items
        ≡ dressed_canvases base.now name.now 1 (items_view canvases.items)) }
{
    let count = canvases.len();
    let mut dressed = Vec::with_capacity(alloc, count)?;
    for canvas in canvases {
        let page = canvas_page(alloc, base, name, dressed.len() + 1)?;
        dressed.push(with_one_more(alloc, canvas, "annotations", page)?)?;
    }
    Ok(dressed)
}

/// The first page of the annotations on a canvas.
fn canvas_page(alloc: Global, base: &str, name: &str, number: usize) -> Result<Value, AllocError>
    ensures { IfOk result (λ v. view v ≡ canvas_page base.now name.now number) }
{
    let id = canvas_page_iri(alloc, base, name, number)?;
    json!(in alloc; {"id": id, "type": "AnnotationPage"})
}

/// The object with one value more behind those of its member, which may be absent, one or many.
fn with_one_more(alloc: Global, tree: Value, name: &str, value: Value) -> Result<Value, AllocError>
    ensures { IfOk result (λ v. view v ≡ with_one_more name.now (view value) (view tree)) }
{
    let (rest, kept) = take_member(tree, name);
    let values = with_last(alloc, kept, value)?;
    with_array(alloc, rest, name, values)
}

/// The values of a member that may be absent, one or many, and one behind them.
#[tactic(auto, using(crate::proofs::ManifestTreeLemmas::pushing))]
fn with_last(alloc: Global, kept: Option<Value>, value: Value) -> Result<Vec<Value>, AllocError>
    ensures { IfOk result (λ v. items_view v.items
        ≡ with_last (view value) (many_if (option_map view kept))) }
{
    let mut values = values_in(alloc, kept)?;
    values.push(value)?;
    Ok(values)
}

/// The values of a member that may be absent, one or many.
fn values_in(alloc: Global, kept: Option<Value>) -> Result<Vec<Value>, AllocError>
    ensures { IfOk result (λ v. items_view v.items ≡ many_if (option_map view kept)) }
{
    match kept {
        Some(value) => into_one_or_many(alloc, value),
        None => Ok(Vec::new(alloc)),
    }
}

/// An array's items, or the value alone.
fn into_one_or_many(alloc: Global, value: Value) -> Result<Vec<Value>, AllocError>
    ensures { IfOk result (λ v. items_view v.items ≡ one_or_many (view value)) }
{
    match value {
        Value::Array(items) => Ok(items),
        one => alone(alloc, one),
    }
}

fn alone(alloc: Global, value: Value) -> Result<Vec<Value>, AllocError>
    ensures { IfOk result (λ v. v.items ≡ value ∷ []) }
{
    let mut values = Vec::new(alloc);
    values.push(value)?;
    Ok(values)
}
