//! Rows on audiences and settings.
use crate::rows::{RowError, two_parts, two_words};
use crate::shown::written;
use crate::tree_calls::read;
use an_base::Name;
use an_list::read_site;
use an_policy::{
    Audience, Caller, Group, Inner, Reader, Who, group_named, inner_named, may, read_reader,
};
use std::alloc::Global;

/// The name that a text is.
pub fn name(alloc: Global, text: &str) -> Result<Name, RowError> {
    Name::new(alloc, text).map_err(|_| RowError::Form)
}

/// The reader of this name, or who writes or reads in nobody's name: `-`.
pub fn caller_named(alloc: Global, by: &str, nobody: Caller) -> Result<Caller, RowError> {
    if by == "-" {
        Ok(nobody)
    } else {
        Ok(Caller::Named(name(alloc, by)?))
    }
}

fn group(alloc: Global, text: &str) -> Result<Group, RowError> {
    group_named(alloc, text)?.ok_or(RowError::Form)
}

fn inner(alloc: Global, text: &str) -> Result<Inner, RowError> {
    inner_named(alloc, text)?.ok_or(RowError::Form)
}

/// Whether the caller may read what has the audience: `mara a | public b,c`.
pub fn may_read(alloc: Global, argument: &str) -> Result<String, RowError> {
    let (caller, groups) = two_parts(argument)?;
    let audience = owned_audience(alloc, groups, "mara")?;
    let is_allowed = caller_may(alloc, caller, &audience)?;
    Ok(written(alloc, &is_allowed)?)
}

/// What belongs to an owner and is shown to groups within a group: `public a,b`.
pub fn owned_audience(alloc: Global, groups: &str, owner: &str) -> Result<Audience, RowError> {
    let (outer, groups) = two_words(groups)?;
    Ok(Audience {
        outer: group(alloc, outer)?,
        inner: inner(alloc, groups)?,
        owner: Some(name(alloc, owner)?),
    })
}

fn caller_may(alloc: Global, caller: &str, audience: &Audience) -> Result<bool, RowError> {
    match caller {
        "-" => Ok(may(&Who::Anonymous, audience)),
        "operator" => Ok(may(&Who::Operator, audience)),
        _ => {
            let reader = member(alloc, caller)?;
            Ok(may(&Who::Signed(&reader), audience))
        }
    }
}

/// A reader of this name in a group: `mara a`.
fn member(alloc: Global, text: &str) -> Result<Reader, RowError> {
    let (named, group) = two_words(text)?;
    let text = format!(in alloc;
        "{{\"groups\":[\"{group}\"],\"role\":\"curator\",\"token\":\"tok-{named}-\",\"user\":\"u\"}}"
    )?;
    reader(alloc, named, text.as_str())
}

fn reader(alloc: Global, named: &str, text: &str) -> Result<Reader, RowError> {
    let tree = read(alloc, text)?;
    read_reader(alloc, tree.as_value(), name(alloc, named)?, 1).map_err(|_| RowError::Form)
}

/// The settings of two words, or why they are none.
pub fn settings(alloc: Global, argument: &str) -> Result<String, RowError> {
    let (base, size) = two_parts(argument)?;
    match read_site(alloc, base, size) {
        Ok(settings) => Ok(format!(in alloc; "{} {}", settings.base(), settings.size())?),
        Err(error) => Ok(written(alloc, &error)?),
    }
}
