ghost use Rattle.std.specs.Prelude.{◌≡◌, Some, false, length, IfOk};
ghost use Rattle.serde_json.specs.Find.{as_array};
ghost use Rattle.serde_json.specs.View.{view, items_view};
ghost use Rattle.serde_json.specs.Written.{has_float, items_have_float};
ghost use Rattle.std.specs.Arc.{arc_slice_items};
ghost use Rattle.an_base.specs.Cut.{below, members_in};
ghost use Rattle.an_base.specs.Write.{commas};
ghost use Rattle.an_manifest.specs.Cuts.{first_cut, last_cut, no_cut, cut_if, cuts_at, canvas_cuts};
ghost use Rattle.an_manifest.specs.Cuts.{part_at, sheet_cuts};

use an_base::{push_members, push_name, push_value};
use serde_json::Value;
use std::alloc::{AllocError, Global};
use std::sync::ArcSlice;

/// Where the text of an object is cut around the values of a member, so that the member gets one
/// more. Each place is a number of bytes from the object's start.
#[derive(Clone, Copy, Debug)]
pub struct Cut {
    /// How long the object's text is.
    pub size: usize,
    /// Behind the members whose names stand before it.
    pub below: usize,
    /// Before the first of its values and the sign that stands before that.
    pub first: usize,
    /// Behind the last of its values.
    pub last: usize,
    /// Before the members whose names stand behind it.
    pub above: usize,
}

/// Where a member stands in the text of an object.
#[derive(Clone, Copy, Debug)]
pub struct Part {
    /// Behind the members whose names stand before it.
    pub below: usize,
    /// Before the members whose names stand behind it.
    pub above: usize,
}

/// Where the text of a manifest is cut.
#[derive(Clone, Copy, Debug)]
pub struct SheetCuts {
    /// Before the members whose names stand behind `@context`.
    pub context: usize,
    /// Before the members whose names stand behind `id`.
    pub id: usize,
    /// Around its canvases.
    pub items: Cut,
    /// Around its label.
    pub label: Part,
    /// Around its services.
    pub service: Cut,
}

/// The cuts of a manifest's text.
pub(crate) fn sheet_cuts(alloc: Global, tree: &Value) -> Result<SheetCuts, AllocError>
    requires whole { has_float (view tree.now) ≡ false }
    ensures cuts { IfOk result (λ cuts. cuts ≡ sheet_cuts (view tree.now)) }
{
    let context = text_before(alloc, tree, "@context")?.len();
    let id = text_before(alloc, tree, "id")?.len();
    let items = cuts_at(alloc, tree, "items")?;
    let label = part_at(alloc, tree, "label")?;
    let service = cuts_at(alloc, tree, "service")?;
    Ok(SheetCuts {
        context,
        id,
        items,
        label,
        service,
    })
}

/// The cuts of each canvas around its annotations.
pub(crate) fn canvas_cuts(alloc: Global, canvases: &[Value]) -> Result<ArcSlice<Cut>, AllocError>
    requires whole { items_have_float (items_view canvases.now) ≡ false }
    ensures cuts { IfOk result
        (λ cuts. arc_slice_items cuts ≡ canvas_cuts (items_view canvases.now)) }
{
    let mut cuts = Vec::with_capacity(alloc, canvases.len())?;
    for canvas in canvases {
        cuts.push(cuts_at(alloc, canvas, "annotations")?)?;
    }
    ArcSlice::from_vec(cuts)
}

/// The cuts of an object's text around the values of a member, or where they would stand.
#[tactic(auto, using(crate::proofs::CutCode::cutting), unfolding(crate::specs::Cuts::cuts_at))]
fn cuts_at(alloc: Global, tree: &Value, name: &str) -> Result<Cut, AllocError>
    requires whole { has_float (view tree.now) ≡ false }
    ensures cuts { IfOk result (λ cut. cut ≡ cuts_at name.now (view tree.now)) }
{
    let size = tree.to_vec(alloc)?.len();
    let before = text_before(alloc, tree, name)?;
    match tree.get(name) {
        Some(value) => cut_around(alloc, size, before, name, value),
        None => Ok(cut_at(size, before.len())),
    }
}

/// Where a member stands in an object's text, or would stand.
fn part_at(alloc: Global, tree: &Value, name: &str) -> Result<Part, AllocError>
    requires whole { has_float (view tree.now) ≡ false }
    ensures part { IfOk result (λ part. part ≡ part_at name.now (view tree.now)) }
{
    let cut = cuts_at(alloc, tree, name)?;
    Ok(Part {
        below: cut.below,
        above: cut.above,
    })
}

/// The cuts where a member would stand.
fn cut_at(size: usize, below: usize) -> Cut
    ensures { result ≡ no_cut size below }
{
    Cut {
        size,
        below,
        first: below,
        last: below,
        above: below,
    }
}

/// The cuts around the values of a member, behind the text of those before it.
fn cut_around(
    alloc: Global,
    size: usize,
    before: Vec<u8>,
    name: &str,
    value: &Value,
) -> Result<Cut, AllocError>
    requires whole { has_float (view value.now) ≡ false }
    ensures { IfOk result (λ cut.
        cut ≡ cut_if name.now size (length before.items) (Some (view value.now))) }
{
    let below = before.len();
    let out = push_name(before, name)?;
    let start = out.len();
    let out = push_value(alloc, out, value)?;
    let above = out.len();
    let (first, last) = around_values(value, start, above);
    Ok(Cut {
        size,
        below,
        first,
        last,
        above,
    })
}

/// The items of an array are cut out behind its bracket; another value behind the colon before it.
fn around_values(value: &Value, start: usize, end: usize) -> (usize, usize)
    ensures first { result.0 ≡ first_cut (as_array (view value.now)) start }
    ensures last { result.1 ≡ last_cut (as_array (view value.now)) start end }
{
    match value.as_array() {
        None => (start.saturating_sub(1), end),
        Some(items) => (start, last_item(items.as_slice(), start, end)),
    }
}

#[tactic(auto, using(crate::proofs::CutCode::cutting))]
fn last_item(items: &[Value], start: usize, end: usize) -> usize
    ensures { result ≡ last_cut (Some (items_view items.now)) start end }
{
    if items.is_empty() {
        start
    } else {
        end.saturating_sub(1)
    }
}

/// The text of the members whose names stand before this one, each behind a comma.
#[tactic(auto, using(crate::proofs::CutCode::cutting))]
fn text_before(alloc: Global, tree: &Value, name: &str) -> Result<Vec<u8>, AllocError>
    requires whole { has_float (view tree.now) ≡ false }
    ensures { IfOk result (λ v. v.items ≡ commas (below name.now (members_in (view tree.now)))) }
{
    let out = Vec::new(alloc);
    match tree.as_object() {
        Some(members) => push_members(alloc, out, members, "", name),
        None => Ok(out),
    }
}
