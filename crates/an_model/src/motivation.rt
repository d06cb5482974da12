ghost use Rattle.std.specs.Prelude.{◌≡◌, IfOk, chars, option_map, not, position};
ghost use Rattle.std.specs.Char.{is_whitespace};
ghost use Rattle.std.specs.List.{list_any};
ghost use Rattle.serde_json.specs.View.{view};
ghost use Rattle.an_model.specs.Note.{is_token, motivation_of, is_motivation, bad_motivation};
ghost use Rattle.an_model.specs.Note.{motivations_of};

use an_base::{List, Text, trees_in};
use serde_json::Value;
use std::alloc::{AllocError, Global};

/// The place of the first motivation that is none.
#[tactic(auto, unfolding(crate::specs::Note::bad_motivation))]
pub(crate) fn bad_motivation(tree: &Value) -> Option<usize>
    ensures { result ≡ bad_motivation (view tree.now) }
{
    first_bad_motivation(trees_in(tree, "motivation"))
}

fn first_bad_motivation(motivations: &[Value]) -> Option<usize>
    ensures { result ≡ position (λ v. not (is_motivation (view v))) motivations.now }
{
    motivations
        .iter()
        .position(|motivation| !is_motivation(motivation))
}

fn is_motivation(tree: &Value) -> bool
    ensures { result ≡ is_motivation (view tree.now) }
{
    motivation_of(tree).is_some()
}

/// The motivations of an annotation, in their order.
#[tactic(auto, unfolding(crate::specs::Note::motivations_of))]
pub(crate) fn read_motivations(alloc: Global, tree: &Value) -> Result<List<Text>, AllocError>
    ensures { IfOk result (λ motivations. motivations ≡ motivations_of (view tree.now)) }
{
    let mut motivations = Vec::new(alloc);
    for item in trees_in(tree, "motivation") {
        match motivation_of(item) {
            Some(motivation) => motivations.push(Text::new(alloc, motivation)?)?,
            None => {}
        }
    }
    Ok(List::from_vec(motivations))
}

fn motivation_of(tree: &Value) -> Option<&str>
    ensures { option_map (λ s. s.now) result ≡ motivation_of (view tree.now) }
{
    match tree.as_str() {
        Some(text) => if is_token(text) { Some(text) } else { None },
        None => None,
    }
}

/// A text that isn't empty and has no white space.
fn is_token(text: &str) -> bool
    ensures { result ≡ is_token text.now }
{
    text.len() > 0 && !has_white_space(text)
}

fn has_white_space(text: &str) -> bool
    ensures { result ≡ list_any is_whitespace (chars text.now) }
{
    text.chars().any(|c| c.is_whitespace())
}
