//! Rows on a snapshot: writes are played into a plain book and into a snapshot, which must answer
//! alike whatever is asked.
ghost use Rattle.std.specs.Prelude.{IfOk, IsTrue};
ghost use Rattle.an_routes.specs.Commands.{is_sendable_write};
ghost use Rattle.an_state.specs.Commands.{is_sendable};

use crate::differences::differences;
use crate::index_calls::add_terms;
use crate::numbers::number;
use crate::policy_calls::{caller_named, name};
use crate::rounds::{Rounds, line_in, rounds_of};
use crate::rows::{Answers, RowError, two_words};
use crate::shown::{or_none, written};
use crate::step_calls::steps;
use an_base::{Moment, Name, moment_of};
use an_http::method_of;
use an_machine::{Decided, Refused, decide};
use an_policy::{Caller, Who};
use an_routes::{Route, WriteRoute, command_of, route};
use an_snapshot::Snapshot;
use an_state::{Book, Command, Entry, Look};
use std::alloc::{AllocError, Global};

/// A book and a snapshot of the same entries, and where they were found to differ first.
#[derive(Drop)]
struct Twins {
    plain: Book,
    listed: Snapshot,
    found: String,
}

/// Answers rows on a snapshot: `lines`, which plays the lines that were given first and compares
/// all answers behind each, `rounds 10 30 4 97`, which plays the others in rounds, what the
/// snapshot answers a caller, asked so many times, as `places - m1 heron 1` and
/// `terms mara m1 he 1`, and how many rows an answer fetches, as `steps 2 - /search/m1?q=heron`.
#[derive(Drop)]
pub struct TwinRows {
    twins: Twins,
    first: String,
    others: String,
}

impl TwinRows {
    /// Of nothing yet, with the lines that its rows play.
    pub fn new(alloc: Global, first: &[u8], others: &[u8]) -> Result<TwinRows, AllocError> {
        let first = String::from_utf8_lossy(alloc, first)?;
        Ok(TwinRows {
            others: String::from_utf8_lossy(alloc, others)?,
            first,
            twins: Twins {
                plain: Book::new(alloc),
                listed: Snapshot::new(alloc),
                found: String::new(alloc),
            },
        })
    }
}

impl Answers for TwinRows {
    fn answer(&mut self, alloc: Global, argument: &str) -> Result<String, RowError> {
        if argument == "lines" {
            return self.twins.play(alloc, self.first.as_str());
        }
        let (verb, rest) = two_words(argument)?;
        match verb {
            "rounds" => self
                .twins
                .play_rounds(alloc, self.others.as_str(), rounds_of(rest)?),
            "steps" => steps(alloc, &self.twins.listed, rest),
            _ => asked(alloc, &self.twins.listed, verb, rest),
        }
    }
}

impl Twins {
    /// Plays lines, and compares all answers behind each.
    fn play(&mut self, alloc: Global, lines: &str) -> Result<String, RowError> {
        for line in lines.lines() {
            self.write(alloc, line)?;
            self.compare(alloc)?;
        }
        self.told(alloc)
    }

    /// Plays the lines in rounds.
    fn play_rounds(
        &mut self,
        alloc: Global,
        lines: &str,
        rounds: Rounds,
    ) -> Result<String, RowError> {
        for round in 0..rounds.count {
            for line in lines.lines() {
                self.play_line(alloc, line, rounds, round)?;
            }
        }
        self.told(alloc)
    }

    /// Plays a line of a round for each object that it names.
    fn play_line(
        &mut self,
        alloc: Global,
        line: &str,
        rounds: Rounds,
        round: u32,
    ) -> Result<(), RowError> {
        for object in 0..rounds.objects_of(line) {
            let line = line_in(alloc, line, rounds, round, object)?;
            self.write(alloc, line.as_str())?;
            if rounds.compares_at(self.listed.count()) {
                self.compare(alloc)?;
            }
        }
        Ok(())
    }

    /// Plays a line. One that is refused, or that was done before, changes nothing.
    fn write(&mut self, alloc: Global, line: &str) -> Result<(), RowError> {
        let (moment, rest) = two_words(line)?;
        let (by, rest) = two_words(rest)?;
        let (method, rest) = two_words(rest)?;
        let (target, tree) = rest.split_once(" ").unwrap_or((rest, ""));
        let moment = moment_of(moment).map_err(|_| RowError::Form)?;
        let caller = caller_named(alloc, by, Caller::Operator)?;
        let command = command_in(alloc, method, target, tree)?;
        self.decide(alloc, moment, &caller, &command)
    }

    fn decide(
        &mut self,
        alloc: Global,
        moment: Moment,
        caller: &Caller,
        command: &Command,
    ) -> Result<(), RowError>
        requires { IsTrue (is_sendable command.now) }
    {
        match decide(alloc, &self.plain, moment, caller, command) {
            Ok(Decided { entry, .. }) => self.put(entry),
            Err(Refused::Memory) => Err(RowError::Memory),
            Err(_) => Ok(()),
        }
    }

    fn put(&mut self, entry: Option<Entry>) -> Result<(), RowError> {
        let Some(entry) = entry else {
            return Ok(());
        };
        self.plain.room(&entry)?;
        self.listed.room(&entry)?;
        self.listed.apply(&entry)?;
        self.plain.apply(entry);
        Ok(())
    }

    /// Compares all answers, where none differed before.
    fn compare(&mut self, alloc: Global) -> Result<(), RowError> {
        if self.found.as_str().is_empty() {
            self.found = differences(alloc, &self.plain, &self.listed)?;
        }
        Ok(())
    }

    /// How many entries there are, and where the answers differ, if they do.
    fn told(&self, alloc: Global) -> Result<String, RowError> {
        let count = self.listed.count();
        let found = self.found.as_str();
        Ok(format!(in alloc; "{count} entries{found}")?)
    }
}

// ---- lines

/// The command of a line that writes.
#[tactic(auto, using(an_routes::proofs::SendableLemmas::sendable))]
fn command_in(alloc: Global, method: &str, target: &str, tree: &str) -> Result<Command, RowError>
    ensures { IfOk result (λ command. IsTrue (is_sendable command)) }
{
    let write = write_in(alloc, method, target)?;
    match command_of(alloc, write, tree.as_bytes())? {
        Ok(command) => Ok(command),
        Err(_) => Err(RowError::Form),
    }
}

#[tactic(auto, using(an_routes::proofs::SendableLemmas::sendable))]
fn write_in(alloc: Global, method: &str, target: &str) -> Result<WriteRoute, RowError>
    ensures { IfOk result (λ write. IsTrue (is_sendable_write write)) }
{
    match route(alloc, method_of(method), target) {
        Ok(Route::Write(write)) => Ok(write),
        _ => Err(RowError::Form),
    }
}

// ---- what is asked

/// In place of a manifest's name: any manifest that the caller may read.
const ANY: &str = "*";

fn asked(alloc: Global, listed: &Snapshot, verb: &str, argument: &str) -> Result<String, RowError> {
    let (by, rest) = two_words(argument)?;
    let (manifest, rest) = two_words(rest)?;
    let caller = caller_named(alloc, by, Caller::Anonymous)?;
    let who = listed.who(&caller).ok_or(RowError::Form)?;
    if manifest == ANY {
        return asked_by(alloc, listed, verb, &who, None, rest);
    }
    let manifest = name(alloc, manifest)?;
    asked_by(alloc, listed, verb, &who, Some(&manifest), rest)
}

fn asked_by(
    alloc: Global,
    listed: &Snapshot,
    verb: &str,
    who: &Who<'_>,
    manifest: Option<&Name>,
    rest: &str,
) -> Result<String, RowError> {
    let (word, times) = two_words(rest)?;
    let times = number::<u32>(times)?;
    match verb {
        "places" => Ok(places(alloc, listed, who, manifest, word, times)?),
        "terms" => Ok(terms(alloc, listed, who, manifest, word, times)?),
        _ => Err(RowError::Form),
    }
}

/// The places of a word, where each answer is the same.
fn places(
    alloc: Global,
    listed: &Snapshot,
    who: &Who<'_>,
    manifest: Option<&Name>,
    word: &str,
    times: u32,
) -> Result<String, AllocError> {
    let first = listed.with_term(alloc, who, manifest, word)?;
    for _ in 1..times {
        let again = listed.with_term(alloc, who, manifest, word)?;
        if again.as_slice() != first.as_slice() {
            return String::from_str(alloc, "another answer");
        }
    }
    written(alloc, &first)
}

/// The terms that begin so, where each answer is the same.
fn terms(
    alloc: Global,
    listed: &Snapshot,
    who: &Who<'_>,
    manifest: Option<&Name>,
    prefix: &str,
    times: u32,
) -> Result<String, AllocError> {
    let first = listed.terms_from(alloc, who, manifest, prefix)?;
    for _ in 1..times {
        let again = listed.terms_from(alloc, who, manifest, prefix)?;
        if again.as_slice() != first.as_slice() {
            return String::from_str(alloc, "another answer");
        }
    }
    let mut told = String::new(alloc);
    add_terms(&mut told, first.as_slice())?;
    or_none(alloc, told)
}
