ghost use Rattle.std.specs.Prelude.{◌≡◌, IfOk, IsTrue, None};
ghost use Rattle.std.specs.Option.{option_copied};
ghost use Rattle.an_base.specs.Outcome.{Gives, first_of, unless, when};
ghost use Rattle.an_query.specs.Given.{value_of, is_number, is_bad_number};
ghost use Rattle.an_query.specs.Query.{query_refusals, query_in, query_of, page_in};
ghost use Rattle.an_code.specs.declared.parameter.Parameter.TheVariants as parameter;

use crate::dates::bad_date;
use crate::filters::{Filters, filters_in};
use crate::given::{copied_value, is_bad_number, number_in, others_in, twice_in, value_in};
use crate::pairs::{Pair, query_pairs};
use an_base::{List, Text};
use an_code::Parameter;
use std::alloc::{AllocError, Global};
use std::marker::Model;

/// The parameters of a search in one manifest.
pub const SEARCH_PARAMETERS: [Parameter; 5] = [
    Parameter::Q,
    Parameter::Motivation,
    Parameter::Date,
    Parameter::User,
    Parameter::Page,
];

/// The query of a search: the values that were given, decoded.
#[derive(Debug, Drop)]
pub struct Query {
    pub q: Option<Text>,
    pub filters: Filters,
    /// From 1 to 999,999,999.
    pub page: u32,
    /// The names of no parameter that is read, each where it first came.
    pub ignored: List<Text>,
}

impl Model for Query {
    ghost use Rattle.std.specs.Prelude.{IsTrue};
    ghost use Rattle.an_query.specs.Given.{is_number};
    ghost use Rattle.an_query.specs.Query.{QueryRecord};

    ghost Value = { QueryRecord };

    ghost view = { λ q. record {
      q = q.q;
      filters = q.filters;
      page = q.page;
      ignored = q.ignored;
    } };

    ghost invariant = { λ q. IsTrue (is_number q.page) };
}

/// Why a text is no query of a search.
#[derive(Clone, Copy, Debug, PartialEq, Eq)]
pub enum QueryError {
    /// A parameter comes twice; of several it is the one whose second coming stands first.
    Twice { name: Parameter },
    /// This piece of the date, from 0, isn't two texts of moments, joined by `/`.
    Date { at: usize },
    /// The page isn't decimal from 1 to 999,999,999 without leading zeros.
    Page,
    /// A name or a value, of whatever parameter, isn't UTF-8 once it is decoded.
    Bytes,
    Memory,
}

impl Query {
    ghost use Rattle.an_query.specs.Given.{is_number};

    /// What is searched for.
    pub fn q(&self) -> Option<&Text>
        ensures value { option_copied result ≡ self.now.q }
    {
        self.q.as_ref()
    }

    /// What is let pass.
    pub fn filters(&self) -> &Filters
        ensures value { result.now ≡ self.now.filters }
    {
        &self.filters
    }

    /// The page that is asked for.
    pub fn page(&self) -> u32
        ensures value { result ≡ self.now.page }
        ensures number { IsTrue (is_number result) }
    {
        self.page
    }

    /// The names of no parameter that is read.
    pub fn ignored(&self) -> &[Text]
        ensures value { result.now ≡ self.now.ignored }
    {
        self.ignored.as_slice()
    }
}

/// The query of a search that a text is (IIIF Content Search API 2.0; URL Standard, section 5.1)
/// where these parameters are read, or the first of the refusals in this order: `Bytes`, `Twice`,
/// `Date`, `Page`.
#[tactic(auto, unfolding(crate::specs::Query::query_of))]
pub fn read_query(alloc: Global, reads: &[Parameter], text: &str) -> Result<Query, QueryError>
    ensures query { Gives
        (λ query. query) QueryError.Memory result (query_of reads.now text.now) }
{
    match query_pairs(alloc, text) {
        Ok(Some(pairs)) => query_in(alloc, reads, pairs.as_slice()),
        Ok(None) => Err(QueryError::Bytes),
        Err(_) => Err(QueryError::Memory),
    }
}

/// The query that pairs give where these parameters are read, or the first of the refusals but for
/// `Bytes`.
pub fn query_in(alloc: Global, reads: &[Parameter], pairs: &[Pair]) -> Result<Query, QueryError>
    ensures query { Gives (λ query. query) QueryError.Memory result
        (unless (first_of (query_refusals reads.now pairs.now)) (query_in reads.now pairs.now)) }
{
    match refusal_in(reads, pairs) {
        Some(refusal) => Err(refusal),
        None => match filled(alloc, reads, pairs) {
            Ok(query) => Ok(query),
            Err(_) => Err(QueryError::Memory),
        },
    }
}

/// The first refusal of the pairs.
fn refusal_in(reads: &[Parameter], pairs: &[Pair]) -> Option<QueryError>
    ensures { result ≡ first_of (query_refusals reads.now pairs.now) }
{
    match twice_in(reads, pairs) {
        Some(name) => Some(QueryError::Twice { name }),
        None => match bad_date(value_in(Parameter::Date, pairs)) {
            Some(at) => Some(QueryError::Date { at }),
            None => bad_page(pairs),
        },
    }
}

fn bad_page(pairs: &[Pair]) -> Option<QueryError>
    ensures { result ≡ when (is_bad_number (value_of parameter.Page pairs.now)) QueryError.Page }
{
    if is_bad_number(value_in(Parameter::Page, pairs)) {
        Some(QueryError::Page)
    } else {
        None
    }
}

/// The query that the pairs give.
fn filled(alloc: Global, reads: &[Parameter], pairs: &[Pair]) -> Result<Query, AllocError>
    requires { first_of (query_refusals reads.now pairs.now) ≡ None }
    ensures { IfOk result (λ query. query ≡ query_in reads.now pairs.now) }
{
    Ok(Query {
        q: copied_value(Parameter::Q, pairs)?,
        filters: filters_in(pairs)?,
        page: page_in(pairs),
        ignored: others_in(alloc, reads, pairs)?,
    })
}

/// The page that is asked for, the first where none is.
fn page_in(pairs: &[Pair]) -> u32
    ensures page { result ≡ page_in pairs.now }
    ensures number { IsTrue (is_number result) }
{
    match value_in(Parameter::Page, pairs) {
        Some(value) => match number_in(value.as_str()) {
            Some(page) => page,
            None => 1,
        },
        None => 1,
    }
}
