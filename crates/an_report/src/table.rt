//! Tables of rows, each with the answer that is due.
use crate::outcome::{Outcome, report};
use std::alloc::{AllocError, Global};
use std::io;

/// A row of a table.
#[derive(Clone, Copy)]
pub struct Row<'a> {
    pub asked: &'a str,
    /// The answer that is due.
    pub due: &'a str,
}

/// Reads a line of a table, with the text of lines that stands above it, and answers the row that
/// it is. It is a comment behind `#`; `lines`, which begins another text of lines; a line of that
/// text behind `| `; or a row, with ` -> ` before the answer that is due.
pub fn read_row<'a>(lines: &mut String, line: &'a str) -> Result<Option<Row<'a>>, AllocError> {
    if let Some(line) = line.strip_prefix("| ") {
        lines.push_str(line)?;
        lines.push_str("\n")?;
        return Ok(None);
    }
    if line == "lines" {
        lines.clear();
        return Ok(None);
    }
    if line.is_empty() || line.starts_with("#") {
        return Ok(None);
    }
    let (asked, due) = line.rsplit_once(" -> ").unwrap_or((line, ""));
    Ok(Some(Row { asked, due }))
}

/// Whether the answer of a row is the one that is due. Prints what came out otherwise.
pub fn is_right<R: Print + AllocGlobal>(rt: &R, row: &Row<'_>, found: &str) -> io::Result<bool> {
    let due = outcome(rt.alloc(), row.due)?;
    report(rt, row.asked, &due, &outcome(rt.alloc(), found)?)
}

fn outcome(alloc: Global, text: &str) -> Result<Outcome, AllocError> {
    Ok(Outcome {
        status: 0,
        output: Vec::from_slice(alloc, text.as_bytes())?,
    })
}
