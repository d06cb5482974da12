ghost use Rattle.std.specs.Prelude.{◌≡◌, IfOk, None};
ghost use Rattle.std.specs.Option.{option_copied};
ghost use Rattle.an_base.specs.Outcome.{Gives, first_of, unless};
ghost use Rattle.an_code.specs.declared.parameter.Parameter.TheVariants as parameter;
ghost use Rattle.an_query.specs.Given.{value_of};
ghost use Rattle.an_gather.specs.Gather.{bad_names, gather_ask_in, gather_ask_of};
ghost use Rattle.an_gather.specs.Gather.{gather_ask_refusals, named_ask};

use crate::names::bad_names;
use an_base::Text;
use an_code::Parameter;
use an_complete::{Ask, AskError, ask_in};
use an_query::{Pair, copied_value, query_pairs, twice_in, value_in};
use std::alloc::Global;
use std::marker::Model;

/// The parameters of a completion on several manifests.
pub const GATHER_ASK_PARAMETERS: [Parameter; 6] = [
    Parameter::Manifests,
    Parameter::Q,
    Parameter::Min,
    Parameter::Motivation,
    Parameter::Date,
    Parameter::User,
];

/// The query of a completion on several manifests: the values that were given, decoded.
#[derive(Debug, Drop)]
pub struct GatherAsk {
    /// Each of its pieces is a name.
    pub manifests: Option<Text>,
    pub ask: Ask,
}

impl Model for GatherAsk {
    ghost use Rattle.std.specs.Prelude.{◌≡◌, None};
    ghost use Rattle.an_gather.specs.Gather.{GatherAskRecord, bad_names};

    ghost Value = { GatherAskRecord };

    ghost view = { λ g. record { manifests = g.manifests; ask = g.ask } };

    ghost invariant = { λ g. bad_names g.manifests ≡ None };
}

/// Why a text is no query of a completion on several manifests.
#[derive(Clone, Copy, Debug, PartialEq, Eq)]
pub enum GatherAskError {
    /// This piece of the manifests, from 0, is no name.
    Manifests { at: usize },
    /// It is no query of a completion.
    Ask(AskError),
}

impl GatherAsk {
    /// The names of the manifests whose terms are asked for.
    pub fn manifests(&self) -> Option<&Text>
        ensures value { option_copied result ≡ self.now.manifests }
        ensures names { bad_names self.now.manifests ≡ None }
    {
        self.manifests.as_ref()
    }

    /// Which terms are asked for.
    pub fn ask(&self) -> &Ask
        ensures value { result.now ≡ self.now.ask }
    {
        &self.ask
    }
}

/// The query of a completion on several manifests that a text is (IIIF Content Search API 2.0; URL
/// Standard, section 5.1), or the first of the refusals in this order: `Bytes`, `Twice`,
/// `Manifests`, `NoPrefix`, `Min`, `Date`.
#[tactic(auto, unfolding(crate::specs::Gather::gather_ask_of))]
pub fn read_gather_ask(alloc: Global, text: &str) -> Result<GatherAsk, GatherAskError>
    ensures ask { Gives (λ ask. ask) (GatherAskError.Ask AskError.Memory) result
        (gather_ask_of text.now) }
{
    match query_pairs(alloc, text) {
        Ok(Some(pairs)) => gather_ask_in(alloc, pairs.as_slice()),
        Ok(None) => Err(GatherAskError::Ask(AskError::Bytes)),
        Err(_) => Err(GatherAskError::Ask(AskError::Memory)),
    }
}

fn gather_ask_in(alloc: Global, pairs: &[Pair]) -> Result<GatherAsk, GatherAskError>
    ensures { Gives (λ ask. ask) (GatherAskError.Ask AskError.Memory) result
        (unless (first_of (gather_ask_refusals pairs.now)) (gather_ask_in pairs.now)) }
{
    match twice_in(&GATHER_ASK_PARAMETERS, pairs) {
        Some(name) => Err(GatherAskError::Ask(AskError::Twice { name })),
        None => match bad_names(value_in(Parameter::Manifests, pairs)) {
            Some(at) => Err(GatherAskError::Manifests { at }),
            None => named_ask(alloc, pairs),
        },
    }
}

/// The same, where no parameter comes twice and the names are good.
fn named_ask(alloc: Global, pairs: &[Pair]) -> Result<GatherAsk, GatherAskError>
    requires names { bad_names (value_of parameter.Manifests pairs.now) ≡ None }
    ensures { Gives (λ ask. ask) (GatherAskError.Ask AskError.Memory) result
        (named_ask pairs.now) }
{
    match ask_in(alloc, &GATHER_ASK_PARAMETERS, pairs) {
        Ok(ask) => match copied_value(Parameter::Manifests, pairs) {
            Ok(manifests) => Ok(GatherAsk { manifests, ask }),
            Err(_) => Err(GatherAskError::Ask(AskError::Memory)),
        },
        Err(error) => Err(GatherAskError::Ask(error)),
    }
}
