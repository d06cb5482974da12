//! Inputs that a rule of numbers makes: lines that are played in rounds, for one object after the
//! other.
use crate::numbers::number;
use crate::rows::{RowError, two_words};
use std::alloc::{AllocError, Global};

/// How lines are played.
#[derive(Clone, Copy)]
pub struct Rounds {
    pub count: u32,
    /// For how many objects a line is played in each round.
    pub objects: u32,
    /// How often an object is written in a round.
    pub writes: u32,
    /// Behind how many entries all answers are compared; with 0 they aren't.
    pub every: u128,
}

/// Rounds, objects, writes of an object in a round, and behind how many entries all answers are
/// compared: `10 30 4 97`.
pub fn rounds_of(text: &str) -> Result<Rounds, RowError> {
    let (count, rest) = two_words(text)?;
    let (objects, rest) = two_words(rest)?;
    let (writes, every) = two_words(rest)?;
    Ok(Rounds {
        count: number(count)?,
        objects: number(objects)?,
        writes: number(writes)?,
        every: number(every)?,
    })
}

impl Rounds {
    /// For how many objects a line is played: once where it names none.
    pub fn objects_of(self, line: &str) -> u32 {
        if line.contains("<k>") {
            self.objects
        } else {
            1
        }
    }

    /// Whether all answers are compared behind so many entries.
    pub fn compares_at(self, entries: u128) -> bool {
        entries.checked_rem(self.every) == Some(0)
    }
}

/// A line in a round, for an object. For `<k>` stands the number of the object, for `<+2>` that of
/// its second write in the round, and for `<heron|swan|gull>` one of the words, the next one for
/// the next object and in the next round.
pub fn line_in(
    alloc: Global,
    line: &str,
    rounds: Rounds,
    round: u32,
    object: u32,
) -> Result<String, RowError> {
    let first = round.saturating_mul(rounds.writes);
    let mut found = String::new(alloc);
    for part in line.split("<") {
        match part.split_once(">") {
            Some((mark, text)) => {
                add_mark(&mut found, mark, first, round, object)?;
                found.push_str(text)?;
            }
            None => found.push_str(part)?,
        }
    }
    Ok(found)
}

fn add_mark(
    found: &mut String,
    mark: &str,
    first: u32,
    round: u32,
    object: u32,
) -> Result<(), RowError> {
    if let Some(write) = mark.strip_prefix("+") {
        let version = first.saturating_add(number::<u32>(write)?);
        return Ok(write!(found, "{version}")?);
    }
    Ok(add_chosen(found, mark, round, object)?)
}

fn add_chosen(found: &mut String, mark: &str, round: u32, object: u32) -> Result<(), AllocError> {
    if mark == "k" {
        return write!(found, "{object}");
    }
    found.push_str(chosen(mark, round.saturating_add(object)))
}

/// One of the words that stand between bars, behind the last of which the first comes again.
fn chosen(words: &str, number: u32) -> &str {
    let count = words.split("|").count();
    let at = (number as usize).checked_rem(count).unwrap_or(0);
    words.split("|").nth(at).unwrap_or("")
}
