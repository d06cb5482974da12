ghost use Rattle.std.specs.Prelude.{◌≡◌, IfOk};
ghost use Rattle.std.specs.Result.{result_err};
ghost use Rattle.serde_json.specs.View.{view};
ghost use Rattle.an_base.specs.Outcome.{Gives};
ghost use Rattle.an_selectors.specs.Selector.{selector_of};
ghost use Rattle.an_selectors.specs.Lent.{owned};

use crate::lent::{Lent, lent_in};
use an_base::{Text, TryCopy};
use serde_json::Value;
use std::alloc::{AllocError, Global};

/// What a target selects of its source (Web Annotation Data Model, section 4.2).
#[derive(Debug, Drop, PartialEq, Eq)]
pub enum Selector {
    /// What a fragment names, by the rules that it conforms to (section 4.2.1).
    Fragment {
        value: Text,
        conforms: Option<Text>,
    },
    /// A part of a text, with what stands directly before and behind it (section 4.2.4).
    Quote {
        exact: Text,
        prefix: Text,
        suffix: Text,
    },
    /// A part of a text, in Unicode code points: the start is included, the end is not (section
    /// 4.2.5).
    Position {
        start: u32,
        end: u32,
    },
    /// Any other selector.
    Other,
}

/// Why a tree describes no selector.
#[derive(Clone, Copy, Debug, PartialEq, Eq)]
pub enum SelectorError {
    /// It is neither a string nor an object with a type.
    WrongType,
    /// A member is missing, or isn't what it has to be.
    Value,
    /// The start of a position is above its end.
    Order,
    Memory,
}

impl TryCopy for Selector {
    fn copy(&self) -> Result<Selector, AllocError> {
        match self {
            Selector::Fragment { value, conforms } => Ok(Selector::Fragment {
                value: value.copy()?,
                conforms: conforms.copy()?,
            }),
            Selector::Quote {
                exact,
                prefix,
                suffix,
            } => Ok(Selector::Quote {
                exact: exact.copy()?,
                prefix: prefix.copy()?,
                suffix: suffix.copy()?,
            }),
            Selector::Position { start, end } => Ok(Selector::Position {
                start: *start,
                end: *end,
            }),
            Selector::Other => Ok(Selector::Other),
        }
    }
}

/// The selector that a tree describes, or why it describes none (Web Annotation Data Model, section
/// 4.2). A string, which is the IRI of a selector, and an object of a type that isn't known are
/// `Other`.
pub fn read_selector(alloc: Global, tree: &Value) -> Result<Selector, SelectorError>
    ensures selector { Gives (λ s. s) SelectorError.Memory result (selector_of (view tree.now)) }
{
    let lent = lent_in(tree)?;
    match own(alloc, lent) {
        Ok(selector) => Ok(selector),
        Err(_) => Err(SelectorError::Memory),
    }
}

/// Why a tree describes no selector, if it describes none. Takes no memory.
pub fn selector_refusal(tree: &Value) -> Option<SelectorError>
    ensures refusal { result ≡ result_err (selector_of (view tree.now)) }
{
    match lent_in(tree) {
        Ok(_) => None,
        Err(error) => Some(error),
    }
}

fn own(alloc: Global, lent: Lent<'_>) -> Result<Selector, AllocError>
    ensures { IfOk result (λ s. s ≡ owned lent.entry) }
{
    match lent {
        Lent::Fragment { value, conforms } => own_fragment(alloc, value, conforms),
        Lent::Quote {
            exact,
            prefix,
            suffix,
        } => own_quote(alloc, exact, prefix, suffix),
        Lent::Position { start, end } => Ok(Selector::Position { start, end }),
        Lent::Other => Ok(Selector::Other),
    }
}

fn own_fragment(alloc: Global, value: &str, conforms: Option<&str>) -> Result<Selector, AllocError>
    ensures { IfOk result (λ s. s ≡ owned (Lent.Fragment value.entry conforms.entry)) }
{
    let value = Text::new(alloc, value)?;
    let conforms = match conforms {
        Some(text) => Some(Text::new(alloc, text)?),
        None => None,
    };
    Ok(Selector::Fragment { value, conforms })
}

fn own_quote(alloc: Global, exact: &str, prefix: &str, suffix: &str) -> Result<Selector, AllocError>
    ensures { IfOk result (λ s. s ≡ owned (Lent.Quote exact.entry prefix.entry suffix.entry)) }
{
    Ok(Selector::Quote {
        exact: Text::new(alloc, exact)?,
        prefix: Text::new(alloc, prefix)?,
        suffix: Text::new(alloc, suffix)?,
    })
}
