ghost use Rattle.std.specs.Prelude.{◌≡◌, IfOk, option_map, option_and_then, option_to_list, not};
ghost use Rattle.std.specs.Prelude.{position};
ghost use Rattle.std.specs.List.{filter_map};
ghost use Rattle.serde_json.specs.View.{view, items_view};
ghost use Rattle.serde_json.specs.Find.{as_str};
ghost use Rattle.an_base.specs.Items.{items_list};
ghost use Rattle.an_model.specs.Bodies.{is_html, text_body, by_value, by_iri, by_id, by_text_or_id};
ghost use Rattle.an_model.specs.Bodies.{by_source, by_items, body_of, is_body, is_body_value};
ghost use Rattle.an_model.specs.Bodies.{bad_body, text_of_body, iri_of_body, texts_of, iris_of};
ghost use Rattle.an_model.specs.Lent.{owned};

use crate::target::{id_of, iri_of};
use an_base::{List, Text, text_in, trees_in};
use an_terms::plain_of_html;
use serde_json::Value;
use std::alloc::{AllocError, Global};

/// What a body says, lent by its tree.
#[derive(Drop)]
enum BodyPart<'a> {
    Plain(&'a str),
    Html(&'a str),
    Iri(&'a str),
    /// A choice between bodies.
    Unread,
}

/// The place of the first body that is malformed.
#[tactic(auto, unfolding(crate::specs::Bodies::bad_body))]
pub(crate) fn bad_body(tree: &Value) -> Option<usize>
    ensures { result ≡ bad_body (view tree.now) }
{
    match tree.get("bodyValue") {
        Some(value) => if is_body_value(tree, value) {
            None
        } else {
            Some(0)
        },
        None => first_bad_body(trees_in(tree, "body")),
    }
}

/// Whether a `bodyValue` is a text and stands in place of a body.
fn is_body_value(tree: &Value, value: &Value) -> bool
    ensures { result ≡ is_body_value (view tree.now) (view value.now) }
{
    value.is_string() && tree.get("body").is_none()
}

fn first_bad_body(bodies: &[Value]) -> Option<usize>
    ensures { result ≡ position (λ v. not (is_body (view v))) bodies.now }
{
    bodies.iter().position(|body| !is_body(body))
}

fn is_body(tree: &Value) -> bool
    ensures { result ≡ is_body (view tree.now) }
{
    body_part(tree).is_some()
}

/// The plain texts of the bodies, in order.
#[tactic(auto, unfolding(crate::specs::Bodies::texts_of))]
pub(crate) fn read_texts(alloc: Global, tree: &Value) -> Result<List<Text>, AllocError>
    ensures { IfOk result (λ texts. texts ≡ texts_of (view tree.now)) }
{
    match tree.get("bodyValue") {
        Some(value) => one_text(alloc, value),
        None => texts_among(alloc, trees_in(tree, "body")),
    }
}

fn one_text(alloc: Global, value: &Value) -> Result<List<Text>, AllocError>
    ensures { IfOk result (λ texts. texts ≡ option_to_list (as_str (view value.now))) }
{
    let mut texts = Vec::new(alloc);
    match value.as_str() {
        Some(text) => texts.push(Text::new(alloc, text)?)?,
        None => {}
    }
    Ok(List::from_vec(texts))
}

fn texts_among(alloc: Global, bodies: &[Value]) -> Result<List<Text>, AllocError>
    ensures { IfOk result (λ texts. texts
        ≡ filter_map text_of_body (filter_map body_of (items_list (items_view bodies.now)))) }
{
    let mut texts = Vec::new(alloc);
    for body in bodies {
        match read_text(alloc, body)? {
            Some(text) => texts.push(text)?,
            None => {}
        }
    }
    Ok(List::from_vec(texts))
}

/// The plain text of a body, if it has one.
fn read_text(alloc: Global, tree: &Value) -> Result<Option<Text>, AllocError>
    ensures { IfOk result (λ text. text ≡ option_and_then text_of_body (body_of (view tree.now))) }
{
    match body_part(tree) {
        Some(part) => text_of(alloc, part),
        None => Ok(None),
    }
}

fn text_of(alloc: Global, part: BodyPart<'_>) -> Result<Option<Text>, AllocError>
    ensures { IfOk result (λ text. text ≡ text_of_body (owned part.entry)) }
{
    match part {
        BodyPart::Plain(text) => Ok(Some(Text::new(alloc, text)?)),
        BodyPart::Html(text) => Ok(Some(plain_of_html(alloc, text)?)),
        BodyPart::Iri(_) => Ok(None),
        BodyPart::Unread => Ok(None),
    }
}

/// The IRIs of the bodies, in order.
#[tactic(auto, unfolding(crate::specs::Bodies::iris_of))]
pub(crate) fn read_iris(alloc: Global, tree: &Value) -> Result<List<Text>, AllocError>
    ensures { IfOk result (λ iris. iris ≡ iris_of (view tree.now)) }
{
    match tree.get("bodyValue") {
        Some(_) => Ok(List::new(alloc)),
        None => iris_among(alloc, trees_in(tree, "body")),
    }
}

fn iris_among(alloc: Global, bodies: &[Value]) -> Result<List<Text>, AllocError>
    ensures { IfOk result (λ iris. iris
        ≡ filter_map iri_of_body (filter_map body_of (items_list (items_view bodies.now)))) }
{
    let mut iris = Vec::new(alloc);
    for body in bodies {
        match body_iri(body) {
            Some(iri) => iris.push(Text::new(alloc, iri)?)?,
            None => {}
        }
    }
    Ok(List::from_vec(iris))
}

/// The IRI that a body is, if it is one.
fn body_iri(tree: &Value) -> Option<&str>
    ensures { option_map (λ s. s.now) result
        ≡ option_and_then iri_of_body (body_of (view tree.now)) }
{
    match body_part(tree) {
        Some(part) => iri_in(part),
        None => None,
    }
}

fn iri_in(part: BodyPart<'_>) -> Option<&str>
    ensures { option_map (λ s. s.now) result ≡ iri_of_body (owned part.entry) }
{
    match part {
        BodyPart::Plain(_) => None,
        BodyPart::Html(_) => None,
        BodyPart::Iri(iri) => Some(iri),
        BodyPart::Unread => None,
    }
}

/// What a body says: an IRI, or an object that is read by the first of these members that it has.
fn body_part(tree: &Value) -> Option<BodyPart<'_>>
    ensures { option_map owned result ≡ body_of (view tree.now) }
{
    match tree.get("value") {
        Some(value) => by_value(tree, value),
        None => match tree.get("source") {
            Some(source) => by_source(source),
            None => match tree.get("id") {
                Some(id) => by_iri(id),
                None => match tree.get("items") {
                    Some(items) => by_items(items),
                    None => by_iri(tree),
                },
            },
        },
    }
}

fn by_value<'a>(tree: &'a Value, value: &'a Value) -> Option<BodyPart<'a>>
    ensures { option_map owned result ≡ by_value (view tree.now) (view value.now) }
{
    match value.as_str() {
        Some(text) => Some(text_body(tree, text)),
        None => None,
    }
}

fn by_source(source: &Value) -> Option<BodyPart<'_>>
    ensures { option_map owned result ≡ by_source (view source.now) }
{
    if source.is_string() {
        by_iri(source)
    } else {
        by_text_or_id(source)
    }
}

fn by_text_or_id(tree: &Value) -> Option<BodyPart<'_>>
    ensures { option_map owned result ≡ by_text_or_id (view tree.now) }
{
    match text_in(tree, "value") {
        Some(text) => Some(text_body(tree, text)),
        None => by_id(tree),
    }
}

fn by_items(items: &Value) -> Option<BodyPart<'_>>
    ensures { option_map owned result ≡ by_items (view items.now) }
{
    if items.is_array() {
        Some(BodyPart::Unread)
    } else {
        None
    }
}

fn by_id(tree: &Value) -> Option<BodyPart<'_>>
    ensures { option_map owned result ≡ by_id (view tree.now) }
{
    match id_of(tree) {
        Some(iri) => Some(BodyPart::Iri(iri)),
        None => None,
    }
}

fn by_iri(tree: &Value) -> Option<BodyPart<'_>>
    ensures { option_map owned result ≡ by_iri (view tree.now) }
{
    match iri_of(tree) {
        Some(iri) => Some(BodyPart::Iri(iri)),
        None => None,
    }
}

/// A text with the format that the tree says.
fn text_body<'a>(tree: &Value, text: &'a str) -> BodyPart<'a>
    ensures { owned result ≡ text_body (view tree.now) text.now }
{
    if is_html(tree) {
        BodyPart::Html(text)
    } else {
        BodyPart::Plain(text)
    }
}

fn is_html(tree: &Value) -> bool
    ensures { result ≡ is_html (view tree.now) }
{
    match text_in(tree, "format") {
        Some(format) => format == "text/html",
        None => false,
    }
}
