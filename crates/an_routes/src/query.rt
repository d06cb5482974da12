ghost use Rattle.std.specs.Prelude.{◌≡◌, IfOk};
ghost use Rattle.an_routes.specs.Query.{given_of, version_of, manifest_of, group_of, inner_of};
ghost use Rattle.an_routes.specs.Query.{page_of, page_or_first, iris_of, region_of};

use an_base::{List, Name, name_in};
use an_code::{Code, Parameter};
use an_policy::{Group, Inner, group_named, inner_named};
use an_query::{Pair, number_in, query_pairs, twice_in, value_in};
use an_selectors::{Xywh, read_region_numbers};
use std::alloc::{AllocError, Global};

/// The pairs of a query, or the first refusal: a name or a value that isn't UTF-8, or else the
/// first of the parameters that are read that comes a second time.
#[tactic(auto, unfolding(crate::specs::Query::given_of))]
pub(crate) fn given_in(
    alloc: Global,
    reads: &[Parameter],
    query: &str,
) -> Result<Result<List<Pair>, Code>, AllocError>
    ensures { IfOk result (λ given. given ≡ given_of reads.now query.now) }
{
    match query_pairs(alloc, query)? {
        Some(pairs) => match twice_in(reads, pairs.as_slice()) {
            Some(name) => Ok(Err(Code::Twice { name })),
            None => Ok(Ok(pairs)),
        },
        None => Ok(Err(Code::Bytes)),
    }
}

// ---- what the values say

/// The number of a write, if it is given well.
pub(crate) fn version_of(given: &[Pair]) -> Option<u32>
    ensures { result ≡ version_of given.now }
{
    match value_in(Parameter::Version, given) {
        Some(text) => number_in(text.as_str()),
        None => None,
    }
}

/// The manifest of an annotation, if it is given well.
pub(crate) fn manifest_of(alloc: Global, given: &[Pair]) -> Result<Option<Name>, AllocError>
    ensures { IfOk result (λ name. name ≡ manifest_of given.now) }
{
    match value_in(Parameter::Manifest, given) {
        Some(text) => name_in(alloc, text.as_str()),
        None => Ok(None),
    }
}

/// The group, which is that of everybody where none is given.
pub(crate) fn group_of(alloc: Global, given: &[Pair]) -> Result<Option<Group>, AllocError>
    ensures { IfOk result (λ group. group ≡ group_of given.now) }
{
    match value_in(Parameter::Group, given) {
        Some(text) => group_named(alloc, text.as_str()),
        None => Ok(Some(Group::Public)),
    }
}

/// The inner groups, which are those of everybody where none are given.
pub(crate) fn inner_of(alloc: Global, given: &[Pair]) -> Result<Option<Inner>, AllocError>
    ensures { IfOk result (λ inner. inner ≡ inner_of given.now) }
{
    match value_in(Parameter::Group, given) {
        Some(text) => inner_named(alloc, text.as_str()),
        None => Ok(Some(Inner::Public)),
    }
}

/// The page that is asked for, if one is, or the refusal of what is no number of a page.
pub(crate) fn page_of(given: &[Pair]) -> Result<Option<u32>, Code>
    ensures { result ≡ page_of given.now }
{
    match value_in(Parameter::Page, given) {
        Some(text) => match number_in(text.as_str()) {
            Some(page) => Ok(Some(page)),
            None => Err(Code::Page),
        },
        None => Ok(None),
    }
}

/// The page that is asked for, the first where none is.
pub(crate) fn page_or_first(given: &[Pair]) -> Result<u32, Code>
    ensures { result ≡ page_or_first given.now }
{
    match page_of(given) {
        Ok(page) => Ok(page.unwrap_or(1)),
        Err(code) => Err(code),
    }
}

/// Whether annotations are asked for by their IRIs alone.
pub(crate) fn iris_of(given: &[Pair]) -> Result<bool, Code>
    ensures { result ≡ iris_of given.now }
{
    match value_in(Parameter::Iris, given) {
        Some(text) => if text.as_str() == "1" {
            Ok(true)
        } else {
            Err(Code::Iris)
        },
        None => Ok(false),
    }
}

/// The region that is asked for, if one is.
pub(crate) fn region_of(given: &[Pair]) -> Result<Option<Xywh>, Code>
    ensures { result ≡ region_of given.now }
{
    match value_in(Parameter::Xywh, given) {
        Some(text) => match read_region_numbers(text.as_str()) {
            Some(region) => Ok(Some(region)),
            None => Err(Code::Xywh),
        },
        None => Ok(None),
    }
}
