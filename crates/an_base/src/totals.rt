ghost use Rattle.std.specs.Prelude.{◌≡◌, ◌+◌, ◌∷◌, [], List, ℕ, IfOk, OnOk, string_cmp, unwrap_or};
ghost use Rattle.std.specs.BTreeMap.{get, insert_entry};
ghost use Rattle.an_base.specs.Totals.{Adds, capped, counted, counted_all, counted_from, totals_of};
ghost use Rattle.an_base.specs.Totals.{with_prefix};

use crate::span::TermTotal;
use crate::term_list::TermList;
use crate::text::Text;
use std::alloc::{AllocError, Global};
use std::collections::BTreeMap;
use std::marker::Model;

/// How often each term occurs in what was added. Contracts see the totals, ascending by the bytes
/// of the terms.
#[derive(Drop)]
pub struct TermTotals {
    alloc: Global,
    terms: BTreeMap<String, u64>,
}

impl Model for TermTotals {
    ghost use Rattle.std.specs.Prelude.{List, map, string_bytes};
    ghost use Rattle.an_base.specs.declared.span.TermTotal.{TermTotal};

    ghost Value = { List TermTotal };

    ghost view = { λ t.
        map (λ e. record { term = string_bytes e.0; total = e.1 }) t.terms.entries };
}

impl TermTotals {
    /// No term, which takes no memory.
    #[tactic(auto, unfolding(crate::specs::Totals::totals_of))]
    pub fn new(alloc: Global) -> TermTotals
        ensures none { result ≡ [] }
        ensures totals { result ≡ totals_of [] }
    {
        TermTotals {
            alloc,
            terms: BTreeMap::new(alloc),
        }
    }

    /// A term occurs once more.
    pub fn add(&mut self, term: &str) -> Result<(), AllocError>
        ensures added { OnOk result (Adds self.old self.new (term.now ∷ [])) }
    {
        self.count(term, 1)
    }

    /// Adds the terms of a list that begin with the prefix, each as often as it occurs there. Where
    /// memory runs out, some of them are added.
    pub fn add_list(&mut self, list: &TermList, prefix: &str) -> Result<(), AllocError>
        ensures added { OnOk result ((terms : List (List ℕ)) → list.now ≡ totals_of terms
            → Adds self.old self.new (with_prefix prefix.now terms)) }
    {
        self.count_from(list, prefix)
    }

    /// Adds totals, each term as often as they say. Where memory runs out, some of them are added.
    pub fn add_totals(&mut self, totals: &[TermTotal]) -> Result<(), AllocError>
        ensures added { OnOk result ((terms : List (List ℕ)) → totals.now ≡ totals_of terms
            → Adds self.old self.new terms) }
    {
        self.count_all(totals)
    }

    /// The totals, ascending by the bytes of the terms.
    pub fn into_vec(self) -> Result<Vec<TermTotal>, AllocError>
        ensures totals { IfOk result (λ totals. totals.items ≡ self) }
    {
        let TermTotals { alloc, terms } = self;
        let mut totals = Vec::new(alloc);
        for (term, total) in terms {
            totals.push(TermTotal {
                term: Text::from_string(term),
                total,
            })?;
        }
        Ok(totals)
    }

    /// The same as a list, in no more memory than it needs.
    pub fn into_list(self) -> Result<TermList, AllocError>
        ensures totals { IfOk result (λ list. list ≡ self) }
    {
        let TermTotals { alloc, terms } = self;
        let mut list = TermList::new(alloc);
        for (term, total) in terms {
            list = list.followed_by(term.as_str(), total)?;
        }
        Ok(list.shrunk())
    }

    /// The terms with the prefix stand together, from the place of the prefix on.
    fn count_from(&mut self, list: &TermList, prefix: &str) -> Result<(), AllocError>
        ensures { OnOk result (self.new ≡ counted_from prefix.now self.old list.now) }
    {
        for place in list.place_of(prefix)..list.len() {
            if !list.begins(place, prefix) {
                return Ok(());
            }
            self.count(list.term(place), list.total(place))?;
        }
        Ok(())
    }

    /// Each term occurs so many times more as its total says.
    fn count_all(&mut self, totals: &[TermTotal]) -> Result<(), AllocError>
        ensures { OnOk result (self.new ≡ counted_all self.old totals.now) }
    {
        for total in totals {
            self.count(total.term.as_str(), total.total)?;
        }
        Ok(())
    }

    /// A term occurs so many times more.
    fn count(&mut self, term: &str, times: u64) -> Result<(), AllocError>
        ensures { OnOk result (self.new ≡ counted self.old term.now times) }
    {
        let term = String::from_str(self.alloc, term)?;
        count_in(&mut self.terms, term, times)
    }
}

/// The entry of the term, where there is none one of no times, takes so many times more.
#[tactic(auto, unfolding(crate::specs::Totals::capped))]
fn count_in(terms: &mut BTreeMap<String, u64>, term: String, times: u64) -> Result<(), AllocError>
    ensures { OnOk result (terms.new.entries ≡ insert_entry string_cmp terms.old.entries term
        (capped (unwrap_or (get string_cmp terms.old term) 0 + times))) }
{
    let total = terms.entry(term)?.or_insert(0);
    *total = total.saturating_add(times);
    Ok(())
}
