//! The nine lines of a trial.
ghost use Rattle.std.specs.Prelude.{◌≡◌, ◌<◌, ◌++◌, IfOk, flat_map, map, string_bytes};
ghost use Rattle.an_policy.specs.Audience.{identity};
ghost use Rattle.an_state.specs.View.{view_of, view_by};
ghost use Rattle.an_trial.specs.Trial.{first_line, report_of, totals_text, trial_text};
ghost use Rattle.an_trial.specs.Trial.{word_line, word_query};

use crate::names::name;
use crate::playing::play;
use crate::totals::{found_total, listed_total};
use an_base::{Bytes, Steps};
use an_policy::{Caller, Who};
use an_snapshot::Snapshot;
use an_state::Look;
use std::alloc::{AllocError, Global};
use std::marker::Brand;
use std::sync::ledger::{Blank, Ledger};

/// What a trial of so many annotations from a seed prints. First comes how many annotations there
/// are and how many of them a search without parameters finds for everybody (IIIF Content Search
/// API 2.0). A line for each word follows, ascending: how many annotations a search for the word
/// finds, and how often a completion of it says that its term occurs, for everybody and then for
/// the reader who put them. Its only error is want of memory.
pub fn trial(alloc: Global, count: u32, seed: u32) -> Result<Bytes, AllocError>
    ensures text { IfOk result (λ text. text ≡ trial_text count seed) }
{
    let desk = play(alloc, count, seed)?;
    let text = report_uncounted(alloc, desk.look(), count);
    drop(desk.into_keeper());
    text
}

/// The lines of a state. Nobody counts the steps of its searches.
fn report_uncounted(alloc: Global, look: &Snapshot, count: u32) -> Result<Bytes, AllocError>
    ensures { IfOk result (λ text. text ≡ report_of look.now.state count) }
{
    let text = report::<Brand>(alloc, Blank::new(1), look, count)?;
    Ok(Bytes::from_vec(text))
}

/// The lines of a state, with a ledger for the steps of its searches.
#[tactic(auto, unfolding(crate::specs::Trial::report_of))]
fn report<L: Ledger>(
    alloc: Global,
    blank: Blank,
    look: &Snapshot,
    count: u32,
) -> Result<Vec<u8>, AllocError>
    requires name { blank.name ≡ L.name }
    requires parts { blank.parts ≡ L.parts }
    requires some { 0 < blank.parts }
    ensures { IfOk result (λ text. text.items ≡ report_of look.now.state count) }
{
    let mut steps = Steps::<L>::new(blank);
    let line = first_line(alloc, look, count, &mut steps)?;
    let words = [
        "crane", "egret", "gull", "heron", "ibis", "stork", "swan", "tern",
    ];
    push_word_lines(alloc, line.into_bytes(), look, &words, &mut steps)
}

fn first_line<L: Ledger>(
    alloc: Global,
    look: &Snapshot,
    count: u32,
    steps: &mut Steps<L>,
) -> Result<String, AllocError>
    ensures { IfOk result (λ line. string_bytes line ≡ first_line look.now.state count) }
{
    let found = found_total(alloc, look, &Who::Anonymous, "", steps)?;
    format!(in alloc; "notes {count} public {found}\n")
}

/// Writes a line for each of the words.
fn push_word_lines<L: Ledger>(
    alloc: Global,
    text: Vec<u8>,
    look: &Snapshot,
    words: &[&str],
    steps: &mut Steps<L>,
) -> Result<Vec<u8>, AllocError>
    ensures { IfOk result (λ v. v.items ≡ text.items
        ++ flat_map (word_line look.now.state) (map (λ word. word.now) words.now)) }
{
    let mut text = text;
    for word in words {
        let line = word_line(alloc, look, word, steps)?;
        text.extend_from_slice(line.as_str().as_bytes())?;
    }
    Ok(text)
}

/// The line of a word.
fn word_line<L: Ledger>(
    alloc: Global,
    look: &Snapshot,
    word: &str,
    steps: &mut Steps<L>,
) -> Result<String, AllocError>
    ensures { IfOk result (λ line. string_bytes line ≡ word_line look.now.state word.now) }
{
    let reader = Caller::Named(name(alloc, "t")?);
    let everybody = totals_text(alloc, look, &Caller::Anonymous, word, steps)?;
    let reader = totals_text(alloc, look, &reader, word, steps)?;
    format!(in alloc; "{word}{everybody}{reader}\n")
}

/// The totals of a word for a caller, each behind a space.
fn totals_text<L: Ledger>(
    alloc: Global,
    look: &Snapshot,
    caller: &Caller,
    word: &str,
    steps: &mut Steps<L>,
) -> Result<String, AllocError>
    ensures { IfOk result (λ text. string_bytes text
        ≡ totals_text (view_by look.now.state caller.now) word.now) }
{
    let query = word_query(alloc, word)?;
    let who = reading(look, caller);
    let found = found_total(alloc, look, &who, query.as_str(), steps)?;
    let listed = listed_total(alloc, look, &who, query.as_str(), word, steps)?;
    format!(in alloc; " {found} {listed}")
}

fn word_query(alloc: Global, word: &str) -> Result<String, AllocError>
    ensures { IfOk result (λ query. string_bytes query ≡ word_query word.now) }
{
    format!(in alloc; "q={word}")
}

/// Who reads as this caller. One who isn't known reads what everybody reads.
fn reading<'a>(look: &'a Snapshot, caller: &Caller) -> Who<'a>
    ensures { (view_of look.now.state (identity result)).notes
        ≡ (view_by look.now.state caller.now).notes }
{
    match look.who(caller) {
        Some(who) => who,
        None => Who::Anonymous,
    }
}
