//! The rows of a case, each an argument, ` -> ` and an answer.
ghost use Rattle.std.specs.Prelude.{◌≡◌, ◌++◌, codes, OnOk};

use an_calls::{Answers, RowError};
use std::alloc::{AllocError, Global};
use std::str::from_utf8;

/// The rows again, each with the answer that it is given.
pub fn answer_rows<A: Answers>(
    alloc: Global,
    answers: &mut A,
    rows: &[u8],
) -> Result<Vec<u8>, AllocError> {
    let mut found = Vec::new(alloc);
    add_answers(alloc, &mut found, answers, from_utf8(rows).unwrap_or(""))?;
    Ok(found)
}

fn add_answers<A: Answers>(
    alloc: Global,
    found: &mut Vec<u8>,
    answers: &mut A,
    rows: &str,
) -> Result<(), AllocError> {
    for row in rows.lines() {
        let argument = argument_of(row);
        let answer = answers.answer(alloc, argument);
        add_row(found, argument, answer_text(&answer))?;
    }
    Ok(())
}

/// What stands before the answer of a row.
fn argument_of(row: &str) -> &str {
    match row.rsplit_once(" -> ") {
        Some((argument, _)) => argument,
        None => row,
    }
}

fn answer_text(answer: &Result<String, RowError>) -> &str {
    match answer {
        Ok(text) => text.as_str(),
        Err(error) => error.text(),
    }
}

fn add_row(rows: &mut Vec<u8>, argument: &str, answer: &str) -> Result<(), AllocError>
    ensures { OnOk result (rows.new.items
        ≡ rows.old.items ++ argument.now ++ codes " -> " ++ answer.now ++ codes "\n") }
{
    rows.extend_from_slice(argument.as_bytes())?;
    rows.extend_from_slice(" -> ".as_bytes())?;
    rows.extend_from_slice(answer.as_bytes())?;
    rows.extend_from_slice("\n".as_bytes())
}
