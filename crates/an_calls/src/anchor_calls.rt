//! Rows on where the selectors of comments hold.
use crate::rows::{RowError, two_parts};
use crate::shown::or_none;
use crate::tree_calls::read;
use an_anchor::{Anchor, AnchorPlace, resolve_all};
use an_base::{List, Text};
use an_selectors::{Selector, read_selector};
use std::alloc::{AllocError, Global};

/// What each list of selectors comes to in the texts, which stand before the bar, with ` / `
/// between them. Lists have ` ; ` between them, and the trees of their selectors ` & `; `none` is a
/// list without any: `a heron / herons | {..} & {..} ; none`.
pub fn anchors(alloc: Global, argument: &str) -> Result<String, RowError> {
    let (texts, asked) = two_parts(argument)?;
    let texts = texts_in(alloc, texts)?;
    let asked = asked_in(alloc, asked)?;
    let anchors = resolve_all(alloc, texts.as_slice(), asked.as_slice())?;
    Ok(anchors_shown(alloc, anchors.as_slice())?)
}

fn texts_in(alloc: Global, argument: &str) -> Result<Vec<Text>, AllocError> {
    let mut texts = Vec::new(alloc);
    if !argument.is_empty() {
        for text in argument.split(" / ") {
            texts.push(Text::new(alloc, text)?)?;
        }
    }
    Ok(texts)
}

fn asked_in(alloc: Global, argument: &str) -> Result<Vec<List<Selector>>, RowError> {
    let mut asked = Vec::new(alloc);
    if !argument.is_empty() {
        for list in argument.split(" ; ") {
            asked.push(selectors_in(alloc, list)?)?;
        }
    }
    Ok(asked)
}

fn selectors_in(alloc: Global, list: &str) -> Result<List<Selector>, RowError> {
    let mut selectors = Vec::new(alloc);
    if list != "none" {
        for text in list.split(" & ") {
            selectors.push(selector_in(alloc, text)?)?;
        }
    }
    Ok(List::from_vec(selectors))
}

fn selector_in(alloc: Global, text: &str) -> Result<Selector, RowError> {
    let tree = read(alloc, text)?;
    read_selector(alloc, tree.as_value()).map_err(|_| RowError::Form)
}

/// Each state is shown with its places: `Found 0:6-7 1:0-1;`.
fn anchors_shown(alloc: Global, anchors: &[Anchor]) -> Result<String, AllocError> {
    let mut found = String::new(alloc);
    for anchor in anchors {
        write!(found, "{:?}", anchor.state)?;
        add_places(&mut found, anchor.places.as_slice())?;
        write!(found, ";")?;
    }
    or_none(alloc, found)
}

fn add_places(found: &mut String, places: &[AnchorPlace]) -> Result<(), AllocError> {
    for place in places {
        let span = place.span;
        write!(found, " {}:{}-{}", place.text, span.start, span.end)?;
    }
    Ok(())
}
