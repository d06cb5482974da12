ghost use Rattle.std.specs.Prelude.{◌≡◌, ◌∷◌, [], IfOk, IsTrue, None, option_and_then, option_map};
ghost use Rattle.std.specs.Prelude.{unwrap_or};
ghost use Rattle.std.specs.Option.{option_copied};
ghost use Rattle.an_base.specs.Outcome.{Gives, first_of, unless, when};
ghost use Rattle.an_query.specs.Dates.{bad_date};
ghost use Rattle.an_query.specs.Given.{value_of, is_bad_number, number_in};
ghost use Rattle.an_code.specs.declared.parameter.Parameter.TheVariants as parameter;
ghost use Rattle.an_complete.specs.Ask.{has_prefix, is_number_if, ask_refusals, ask_in, ask_of};

use an_base::{List, Text, TryCopy};
use an_code::Parameter;
use an_query::{
    Filters, Pair, bad_date, filters_in, is_bad_number, number_in, others_in, query_pairs,
    twice_in, value_in,
};
use an_terms::term_of;
use std::alloc::{AllocError, Global};
use std::marker::Model;

/// The parameters of a completion.
const ASK_PARAMETERS: [Parameter; 5] = [
    Parameter::Q,
    Parameter::Min,
    Parameter::Motivation,
    Parameter::Date,
    Parameter::User,
];

/// The query of a completion: the values that were given, decoded.
#[derive(Debug, Drop)]
pub struct Ask {
    /// What terms begin with once it is folded.
    pub q: Text,
    /// How often a term occurs at least: from 1 to 999,999,999.
    pub min: Option<u32>,
    pub filters: Filters,
    /// The names of no parameter that is read, each where it first came.
    pub ignored: List<Text>,
}

impl Model for Ask {
    ghost use Rattle.std.specs.Prelude.{IsTrue};
    ghost use Rattle.an_complete.specs.Ask.{AskRecord, is_number_if};

    ghost Value = { AskRecord };

    ghost view = { λ a. record {
      q = a.q;
      min = a.min;
      filters = a.filters;
      ignored = a.ignored;
    } };

    ghost invariant = { λ a. IsTrue (is_number_if a.min) };
}

/// Why a text is no query of a completion.
#[derive(Clone, Copy, Debug, PartialEq, Eq)]
pub enum AskError {
    /// There is no `q`, or its folded text is empty.
    NoPrefix,
    /// `min` isn't decimal from 1 to 999,999,999 without leading zeros.
    Min,
    /// A parameter comes twice; of several it is the one whose second coming stands first.
    Twice { name: Parameter },
    /// This piece of the date, from 0, isn't two texts of moments, joined by `/`.
    Date { at: usize },
    /// A name or a value, of whatever parameter, isn't UTF-8 once it is decoded.
    Bytes,
    Memory,
}

impl Ask {
    ghost use Rattle.an_complete.specs.Ask.{is_number_if};

    /// What terms begin with once it is folded.
    pub fn q(&self) -> &str
        ensures value { result.now ≡ self.now.q }
    {
        self.q.as_str()
    }

    /// How often a term occurs at least.
    pub fn min(&self) -> Option<u32>
        ensures value { result ≡ self.now.min }
        ensures number { IsTrue (is_number_if result) }
    {
        self.min
    }

    /// What is let pass.
    pub fn filters(&self) -> &Filters
        ensures value { result.now ≡ self.now.filters }
    {
        &self.filters
    }

    /// The names of no parameter that is read.
    pub fn ignored(&self) -> &[Text]
        ensures value { result.now ≡ self.now.ignored }
    {
        self.ignored.as_slice()
    }
}

/// The query of a completion that a text is (IIIF Content Search API 2.0; URL Standard, section
/// 5.1), or the first of the refusals in this order: `Bytes`, `Twice`, `NoPrefix`, `Min`, `Date`.
#[tactic(auto, unfolding(crate::specs::Ask::ask_of))]
pub fn read_ask(alloc: Global, text: &str) -> Result<Ask, AskError>
    ensures ask { Gives (λ ask. ask) AskError.Memory result (ask_of text.now) }
{
    match query_pairs(alloc, text) {
        Ok(Some(pairs)) => ask_in(alloc, &ASK_PARAMETERS, pairs.as_slice()),
        Ok(None) => Err(AskError::Bytes),
        Err(_) => Err(AskError::Memory),
    }
}

/// The query that pairs give where these parameters are read, or the first of the refusals but for
/// `Bytes`.
pub fn ask_in(alloc: Global, reads: &[Parameter], pairs: &[Pair]) -> Result<Ask, AskError>
    ensures ask { Gives (λ ask. ask) AskError.Memory result
        (unless (first_of (ask_refusals reads.now pairs.now)) (ask_in reads.now pairs.now)) }
{
    match refusal_in(alloc, reads, pairs) {
        Ok(Some(refusal)) => Err(refusal),
        Ok(None) => match filled(alloc, reads, pairs) {
            Ok(ask) => Ok(ask),
            Err(_) => Err(AskError::Memory),
        },
        Err(_) => Err(AskError::Memory),
    }
}

/// The first refusal of the pairs.
fn refusal_in(
    alloc: Global,
    reads: &[Parameter],
    pairs: &[Pair],
) -> Result<Option<AskError>, AllocError>
    ensures { IfOk result (λ refusal. refusal ≡ first_of (ask_refusals reads.now pairs.now)) }
{
    match twice_in(reads, pairs) {
        Some(name) => Ok(Some(AskError::Twice { name })),
        None => if has_prefix(alloc, value_in(Parameter::Q, pairs))? {
            Ok(bad_limits(pairs))
        } else {
            Ok(Some(AskError::NoPrefix))
        },
    }
}

/// Whether a value is given whose folded text isn't empty.
fn has_prefix(alloc: Global, q: Option<&Text>) -> Result<bool, AllocError>
    ensures { IfOk result (λ has. has ≡ has_prefix (option_copied q.entry)) }
{
    match q {
        Some(value) => {
            let prefix = term_of(alloc, value.as_str())?;
            Ok(!prefix.as_str().is_empty())
        }
        None => Ok(false),
    }
}

/// What is wrong with the number or the date.
fn bad_limits(pairs: &[Pair]) -> Option<AskError>
    ensures { result ≡ first_of
        (when (is_bad_number (value_of parameter.Min pairs.now)) AskError.Min
        ∷ option_map AskError.Date (bad_date (value_of parameter.Date pairs.now)) ∷ []) }
{
    if is_bad_number(value_in(Parameter::Min, pairs)) {
        return Some(AskError::Min);
    }
    match bad_date(value_in(Parameter::Date, pairs)) {
        Some(at) => Some(AskError::Date { at }),
        None => None,
    }
}

/// The query that the pairs give.
#[tactic(auto, using(crate::proofs::AskLemmas::has_ranges))]
fn filled(alloc: Global, reads: &[Parameter], pairs: &[Pair]) -> Result<Ask, AllocError>
    requires { first_of (ask_refusals reads.now pairs.now) ≡ None }
    ensures { IfOk result (λ ask. ask ≡ ask_in reads.now pairs.now) }
{
    Ok(Ask {
        q: prefix_in(alloc, pairs)?,
        min: min_in(pairs),
        filters: filters_in(pairs)?,
        ignored: others_in(alloc, reads, pairs)?,
    })
}

fn prefix_in(alloc: Global, pairs: &[Pair]) -> Result<Text, AllocError>
    ensures { IfOk result (λ q. q ≡ unwrap_or (value_of parameter.Q pairs.now) []) }
{
    match value_in(Parameter::Q, pairs) {
        Some(value) => value.copy(),
        None => Ok(Text::from_string(String::new(alloc))),
    }
}

/// The least number of occurrences that is asked for.
fn min_in(pairs: &[Pair]) -> Option<u32>
    ensures value { result ≡ option_and_then number_in (value_of parameter.Min pairs.now) }
    ensures number { IsTrue (is_number_if result) }
{
    match value_in(Parameter::Min, pairs) {
        Some(value) => number_in(value.as_str()),
        None => None,
    }
}
