ghost use Rattle.std.specs.Prelude.{◌≡◌, IfOk, None};
ghost use Rattle.std.specs.Option.{option_copied};
ghost use Rattle.an_base.specs.Outcome.{Gives, first_of, unless};
ghost use Rattle.an_code.specs.declared.parameter.Parameter.TheVariants as parameter;
ghost use Rattle.an_query.specs.Given.{value_of};
ghost use Rattle.an_gather.specs.Gather.{bad_names, gather_in, gather_of, gather_refusals, named};

use crate::names::bad_names;
use an_base::Text;
use an_code::Parameter;
use an_query::{Pair, Query, QueryError, copied_value, query_in, query_pairs, twice_in, value_in};
use std::alloc::Global;
use std::marker::Model;

/// The parameters of a search on several manifests.
pub const GATHER_PARAMETERS: [Parameter; 6] = [
    Parameter::Manifests,
    Parameter::Q,
    Parameter::Motivation,
    Parameter::Date,
    Parameter::User,
    Parameter::Page,
];

/// The query of a search on several manifests: the values that were given, decoded.
#[derive(Debug, Drop)]
pub struct Gather {
    /// Each of its pieces is a name.
    pub manifests: Option<Text>,
    pub query: Query,
}

impl Model for Gather {
    ghost use Rattle.std.specs.Prelude.{◌≡◌, None};
    ghost use Rattle.an_gather.specs.Gather.{GatherRecord, bad_names};

    ghost Value = { GatherRecord };

    ghost view = { λ g. record { manifests = g.manifests; query = g.query } };

    ghost invariant = { λ g. bad_names g.manifests ≡ None };
}

/// Why a text is no query of a search on several manifests.
#[derive(Clone, Copy, Debug, PartialEq, Eq)]
pub enum GatherError {
    /// This piece of the manifests, from 0, is no name.
    Manifests { at: usize },
    /// It is no query of a search.
    Query(QueryError),
}

impl Gather {
    /// The names of the manifests that are searched.
    pub fn manifests(&self) -> Option<&Text>
        ensures value { option_copied result ≡ self.now.manifests }
        ensures names { bad_names self.now.manifests ≡ None }
    {
        self.manifests.as_ref()
    }

    /// What is searched for.
    pub fn query(&self) -> &Query
        ensures value { result.now ≡ self.now.query }
    {
        &self.query
    }
}

/// The query of a search on several manifests that a text is (IIIF Content Search API 2.0; URL
/// Standard, section 5.1), or the first of the refusals in this order: `Bytes`, `Twice`,
/// `Manifests`, `Date`, `Page`.
#[tactic(auto, unfolding(crate::specs::Gather::gather_of))]
pub fn read_gather(alloc: Global, text: &str) -> Result<Gather, GatherError>
    ensures gather { Gives (λ gather. gather) (GatherError.Query QueryError.Memory) result
        (gather_of text.now) }
{
    match query_pairs(alloc, text) {
        Ok(Some(pairs)) => gather_in(alloc, pairs.as_slice()),
        Ok(None) => Err(GatherError::Query(QueryError::Bytes)),
        Err(_) => Err(GatherError::Query(QueryError::Memory)),
    }
}

fn gather_in(alloc: Global, pairs: &[Pair]) -> Result<Gather, GatherError>
    ensures { Gives (λ gather. gather) (GatherError.Query QueryError.Memory) result
        (unless (first_of (gather_refusals pairs.now)) (gather_in pairs.now)) }
{
    match twice_in(&GATHER_PARAMETERS, pairs) {
        Some(name) => Err(GatherError::Query(QueryError::Twice { name })),
        None => match bad_names(value_in(Parameter::Manifests, pairs)) {
            Some(at) => Err(GatherError::Manifests { at }),
            None => named(alloc, pairs),
        },
    }
}

/// The same, where no parameter comes twice and the names are good.
fn named(alloc: Global, pairs: &[Pair]) -> Result<Gather, GatherError>
    requires names { bad_names (value_of parameter.Manifests pairs.now) ≡ None }
    ensures { Gives (λ gather. gather) (GatherError.Query QueryError.Memory) result
        (named pairs.now) }
{
    match query_in(alloc, &GATHER_PARAMETERS, pairs) {
        Ok(query) => match copied_value(Parameter::Manifests, pairs) {
            Ok(manifests) => Ok(Gather { manifests, query }),
            Err(_) => Err(GatherError::Query(QueryError::Memory)),
        },
        Err(error) => Err(GatherError::Query(error)),
    }
}
