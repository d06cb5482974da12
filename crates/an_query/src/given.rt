ghost use Rattle.std.specs.Prelude.{◌≡◌, ◌&&◌, ◌||◌, ℕ, IfOk, IfSome, IsTrue, List, OnOk};
ghost use Rattle.std.specs.Prelude.{bytes_eq, find, not};
ghost use Rattle.std.specs.Option.{option_copied};
ghost use Rattle.an_code.specs.Code.{parameter_text};
ghost use Rattle.an_query.specs.Lent.{is_lent};
ghost use Rattle.an_query.specs.Given.{parameter_in, has_name, value_of, repeated, is_bad_number};
ghost use Rattle.an_query.specs.Given.{twice_of, is_other, others_of, is_number, number_in};

use crate::lent::add_lent;
use crate::pairs::Pair;
use an_base::{List, Text, TryCopy, read_decimal};
use an_code::Parameter;
use std::alloc::{AllocError, Global};
use std::collections::BTreeSet;

/// The greatest number that a query gives.
const LAST_NUMBER: u32 = 999_999_999;

/// The value that is given to a parameter, where it first comes.
pub fn value_in(parameter: Parameter, pairs: &[Pair]) -> Option<&Text>
    ensures value { option_copied result ≡ value_of parameter pairs.now }
{
    match pair_of(parameter, pairs) {
        Some(pair) => Some(&pair.value),
        None => None,
    }
}

fn pair_of(parameter: Parameter, pairs: &[Pair]) -> Option<&Pair>
    ensures { option_copied result
        ≡ find (λ pair. bytes_eq pair.name (parameter_text parameter)) pairs.now }
{
    let name = parameter.text();
    pairs.iter().find(|pair| pair.name.as_str() == name)
}

/// A copy of the value that is given to a parameter, where it first comes.
pub fn copied_value(parameter: Parameter, pairs: &[Pair]) -> Result<Option<Text>, AllocError>
    ensures value { IfOk result (λ value. value ≡ value_of parameter pairs.now) }
{
    match value_in(parameter, pairs) {
        Some(value) => Ok(Some(value.copy()?)),
        None => Ok(None),
    }
}

/// The first of the parameters that are read that comes a second time. Takes no memory.
pub fn twice_in(reads: &[Parameter], pairs: &[Pair]) -> Option<Parameter>
    ensures twice { result ≡ twice_of reads.now pairs.now }
{
    for (at, pair) in pairs.iter().enumerate() {
        match repeated(reads, &pairs[..at], pair) {
            Some(parameter) => return Some(parameter),
            None => {}
        }
    }
    None
}

/// The parameter of a pair, if it came before.
fn repeated(reads: &[Parameter], before: &[Pair], pair: &Pair) -> Option<Parameter>
    ensures { result ≡ repeated reads.now before.now pair.now }
{
    // Few pairs are of a parameter, so the others before are seldom gone through.
    match parameter_in(reads, pair.name.as_str()) {
        Some(parameter) => if has_name(pair.name.as_str(), before) {
            Some(parameter)
        } else {
            None
        },
        None => None,
    }
}

fn parameter_in(reads: &[Parameter], name: &str) -> Option<Parameter>
    ensures { result ≡ parameter_in reads.now name.now }
{
    reads
        .iter()
        .find(|parameter| parameter.text() == name)
        .copied()
}

fn has_name(name: &str, pairs: &[Pair]) -> bool
    ensures { result ≡ has_name name.now pairs.now }
{
    pairs.iter().any(|pair| pair.name.as_str() == name)
}

/// The names that are those of no parameter that is read, each where it first comes. It compares a
/// name with few of the others.
pub fn others_in(
    alloc: Global,
    reads: &[Parameter],
    pairs: &[Pair],
) -> Result<List<Text>, AllocError>
    ensures others { IfOk result (λ others. others ≡ others_of reads.now pairs.now) }
{
    let mut others = Vec::new(alloc);
    let mut seen = BTreeSet::new(alloc);
    for pair in pairs {
        let name = &pair.name;
        if is_new(reads, &mut seen, name.as_str())? {
            others.push(name.copy()?)?;
        }
    }
    Ok(List::from_vec(others))
}

/// Whether the name is that of no parameter that is read, and hasn't come yet. Then it has come.
fn is_new<'a>(
    reads: &[Parameter],
    seen: &mut BTreeSet<&'a str>,
    name: &'a str,
) -> Result<bool, AllocError>
    ensures new { IfOk result (λ new. new
        ≡ (is_other reads.now name.now && not (is_lent name.now seen.old))) }
    ensures seen { OnOk result ((other : List ℕ) → is_lent other seen.new
        ≡ ((is_other reads.now name.now && bytes_eq name.now other) || is_lent other seen.old)) }
{
    if is_other(reads, name) {
        add_lent(seen, name)
    } else {
        Ok(false)
    }
}

fn is_other(reads: &[Parameter], name: &str) -> bool
    ensures { result ≡ is_other reads.now name.now }
{
    parameter_in(reads, name).is_none()
}

/// The number that a value is: decimal without leading zeros, from 1 to 999,999,999. Takes no
/// memory.
pub fn number_in(value: &str) -> Option<u32>
    ensures value { result ≡ number_in value.now }
    ensures range { IfSome result (λ n. IsTrue (is_number n)) }
{
    match read_decimal(value, LAST_NUMBER) {
        Some(number) => if 1 <= number { Some(number) } else { None },
        None => None,
    }
}

/// Whether a value is given that is no such number. Takes no memory.
pub fn is_bad_number(given: Option<&Text>) -> bool
    ensures bad { result ≡ is_bad_number (option_copied given.entry) }
{
    match given {
        Some(value) => number_in(value.as_str()).is_none(),
        None => false,
    }
}
