ghost use Rattle.std.specs.Prelude.{◌≡◌, ◌==◌, IfOk, option_map, not, position};
ghost use Rattle.std.specs.List.{after_first, before_first};
ghost use Rattle.std.specs.Result.{result_ok};
ghost use Rattle.serde_json.specs.View.{view, items_view};
ghost use Rattle.an_selectors.specs.Selector.{selector_of};
ghost use Rattle.an_model.specs.Targets.{iri_of, id_of, resource_of, target_iri, selector_trees};
ghost use Rattle.an_model.specs.Targets.{is_selector, selectors_of, fragment_of, target_at};
ghost use Rattle.an_model.specs.Targets.{target_of, is_target, bad_target, has_good_selectors};
ghost use Rattle.an_model.specs.Targets.{bad_selector, targets_of};

use an_base::{List, Text, TryCopy, trees_in};
use an_selectors::{Selector, SelectorError, Xywh, read_selector, read_xywh, selector_refusal};
use serde_json::Value;
use std::alloc::{AllocError, Global};

/// What an annotation is about (Web Annotation Data Model, sections 3.2 and 4).
#[derive(Debug, Drop, PartialEq, Eq)]
pub struct Target {
    /// The IRI of the resource, up to its first `#`.
    pub source: Text,
    /// The selectors of a specific resource, in their order.
    pub selectors: List<Selector>,
    /// The region of an image that the first fragment selector names, or without one the fragment
    /// of the IRI.
    pub region: Option<Xywh>,
}

impl TryCopy for Target {
    fn copy(&self) -> Result<Target, AllocError> {
        Ok(Target {
            source: self.source.copy()?,
            selectors: self.selectors.copy()?,
            region: self.region,
        })
    }
}

/// The place of the first target that is missing or malformed.
#[tactic(auto, unfolding(crate::specs::Targets::bad_target))]
pub(crate) fn bad_target(tree: &Value) -> Option<usize>
    ensures { result ≡ bad_target (view tree.now) }
{
    let targets = trees_in(tree, "target");
    if targets.is_empty() {
        return Some(0);
    }
    first_bad_target(targets)
}

fn first_bad_target(targets: &[Value]) -> Option<usize>
    ensures { result ≡ position (λ v. not (is_target (view v))) targets.now }
{
    targets.iter().position(|target| !is_target(target))
}

fn is_target(tree: &Value) -> bool
    ensures { result ≡ is_target (view tree.now) }
{
    target_iri(tree).is_some()
}

/// The place of the first target that has a malformed selector.
#[tactic(auto, unfolding(crate::specs::Targets::bad_selector))]
pub(crate) fn bad_selector(tree: &Value) -> Option<usize>
    ensures { result ≡ bad_selector (view tree.now) }
{
    first_bad_selector(trees_in(tree, "target"))
}

fn first_bad_selector(targets: &[Value]) -> Option<usize>
    ensures { result ≡ position (λ v. not (has_good_selectors (view v))) targets.now }
{
    targets
        .iter()
        .position(|target| !has_good_selectors(target))
}

fn has_good_selectors(tree: &Value) -> bool
    ensures { result ≡ has_good_selectors (view tree.now) }
{
    bad_among(selector_trees(tree)).is_none()
}

/// The place of the first tree that is no selector.
fn bad_among(trees: &[Value]) -> Option<usize>
    ensures { result ≡ position (λ v. not (is_selector (view v))) trees.now }
{
    trees.iter().position(|tree| !is_selector(tree))
}

fn is_selector(tree: &Value) -> bool
    ensures { result ≡ is_selector (view tree.now) }
{
    selector_refusal(tree).is_none()
}

/// The targets of an annotation, in their order.
#[tactic(auto, unfolding(crate::specs::Targets::targets_of))]
pub(crate) fn read_targets(alloc: Global, tree: &Value) -> Result<List<Target>, AllocError>
    ensures { IfOk result (λ targets. targets ≡ targets_of (view tree.now)) }
{
    let mut targets = Vec::new(alloc);
    for item in trees_in(tree, "target") {
        match read_target(alloc, item)? {
            Some(target) => targets.push(target)?,
            None => {}
        }
    }
    Ok(List::from_vec(targets))
}

fn read_target(alloc: Global, tree: &Value) -> Result<Option<Target>, AllocError>
    ensures { IfOk result (λ target. target ≡ target_of (view tree.now)) }
{
    match target_iri(tree) {
        Some(iri) => {
            let selectors = read_selectors(alloc, tree)?;
            Ok(Some(target_at(alloc, selectors, iri)?))
        }
        None => Ok(None),
    }
}

fn target_at(alloc: Global, selectors: List<Selector>, iri: &str) -> Result<Target, AllocError>
    ensures { IfOk result (λ target. target ≡ target_at selectors iri.now) }
{
    let region = read_xywh(fragment_of(iri, selectors.as_slice()));
    let source = Text::new(alloc, before_fragment(iri))?;
    Ok(Target {
        source,
        selectors,
        region,
    })
}

fn read_selectors(alloc: Global, tree: &Value) -> Result<List<Selector>, AllocError>
    ensures { IfOk result (λ selectors. selectors ≡ selectors_of (view tree.now)) }
{
    let mut selectors = Vec::new(alloc);
    for item in selector_trees(tree) {
        match selector_if_good(alloc, item)? {
            Some(selector) => selectors.push(selector)?,
            None => {}
        }
    }
    Ok(List::from_vec(selectors))
}

fn selector_if_good(alloc: Global, tree: &Value) -> Result<Option<Selector>, AllocError>
    ensures { IfOk result (λ selector. selector ≡ result_ok (selector_of (view tree.now))) }
{
    match read_selector(alloc, tree) {
        Ok(selector) => Ok(Some(selector)),
        Err(SelectorError::Memory) => Err(AllocError),
        Err(_) => Ok(None),
    }
}

/// The selectors of a specific resource; a target without a source has none.
fn selector_trees(tree: &Value) -> &[Value]
    ensures { items_view result.now ≡ selector_trees (view tree.now) }
{
    match tree.get("source") {
        Some(_) => trees_in(tree, "selector"),
        None => &[],
    }
}

/// The IRI of a target, with its fragment.
fn target_iri(tree: &Value) -> Option<&str>
    ensures { option_map (λ s. s.now) result ≡ target_iri (view tree.now) }
{
    match tree.get("source") {
        Some(source) => resource_of(source),
        None => resource_of(tree),
    }
}

fn resource_of(tree: &Value) -> Option<&str>
    ensures { option_map (λ s. s.now) result ≡ resource_of (view tree.now) }
{
    match iri_of(tree) {
        Some(iri) => Some(iri),
        None => id_of(tree),
    }
}

/// The member `id` of an object, where it is an IRI.
pub(crate) fn id_of(tree: &Value) -> Option<&str>
    ensures { option_map (λ s. s.now) result ≡ id_of (view tree.now) }
{
    match tree.get("id") {
        Some(id) => iri_of(id),
        None => None,
    }
}

/// A text that isn't empty.
pub(crate) fn iri_of(tree: &Value) -> Option<&str>
    ensures { option_map (λ s. s.now) result ≡ iri_of (view tree.now) }
{
    match tree.as_str() {
        Some(text) => if text.len() > 0 { Some(text) } else { None },
        None => None,
    }
}

/// The fragment that says the region: that of the first fragment selector, or without one what
/// follows the first `#` of the IRI.
fn fragment_of<'a>(iri: &'a str, selectors: &'a [Selector]) -> &'a str
    ensures { result.now ≡ fragment_of iri.now selectors.now }
{
    for selector in selectors {
        match selector {
            Selector::Fragment { value, .. } => return value.as_str(),
            Selector::Quote { .. } => {}
            Selector::Position { .. } => {}
            Selector::Other => {}
        }
    }
    behind_sign(iri)
}

fn behind_sign(iri: &str) -> &str
    ensures { result.now ≡ after_first (λ b. b == 35) iri.now }
{
    match iri.split_once('#') {
        Some((_, fragment)) => fragment,
        None => "",
    }
}

fn before_fragment(iri: &str) -> &str
    ensures { result.now ≡ before_first (λ b. b == 35) iri.now }
{
    match iri.split_once('#') {
        Some((source, _)) => source,
        None => iri,
    }
}
