ghost use Rattle.std.specs.Prelude.{◌≡◌, ◌∷◌, ◌++◌, [], IfOk, OnOk, if◌then◌else◌, nat_eq, nat_lt};
ghost use Rattle.std.specs.List.{starts_with};
ghost use Rattle.an_slots.specs.Places.{Rises};
ghost use Rattle.an_slots.specs.Texts.{texts};
ghost use Rattle.an_postings.specs.Totals.{Climbs, told_from};

use crate::class_postings::TermPostings;
use crate::term_key::TermKey;
use an_base::{TermTotal, Text};
use std::alloc::{AllocError, Global};
use std::collections::BTreeMap;

/// The terms that begin with the prefix, ascending by bytes, each with its counts in these classes
/// together, or the greatest number of 64 bits where that is more; without those that are 0.
#[tactic(auto, unfolding(an_base::specs::Totals::capped))]
pub(crate) fn told_in(
    alloc: Global,
    terms: &BTreeMap<TermKey, TermPostings>,
    prefix: &str,
    classes: &[usize],
) -> Result<Vec<TermTotal>, AllocError>
    requires rises { Rises 0 classes.now }
    ensures told { IfOk result (λ told. told.items
        ≡ told_from prefix.now classes.now (texts terms.now.entries)) }
    ensures ascending { OnOk result (Climbs (texts terms.now.entries)) }
{
    let start = TermKey::of(alloc, prefix)?;
    let mut told = Vec::new(alloc);
    for (term, postings) in terms.range(start..) {
        if !has_prefix(term.as_str(), prefix) {
            return Ok(told);
        }
        push_told(&mut told, term.as_str(), postings.total(classes))?;
    }
    Ok(told)
}

fn has_prefix(term: &str, prefix: &str) -> bool
    ensures begins { result ≡ starts_with nat_eq term.now prefix.now }
{
    term.as_bytes().starts_with(prefix.as_bytes())
}

fn push_told(told: &mut Vec<TermTotal>, term: &str, total: u64) -> Result<(), AllocError>
    ensures ok { OnOk result (told.new.items ≡ told.old.items
        ++ (if nat_lt 0 total then (record { term = term.now; total = total }) ∷ [] else [])) }
{
    if total > 0 {
        let term = Text::new(*told.allocator(), term)?;
        told.push(TermTotal { term, total })?;
    }
    Ok(())
}
