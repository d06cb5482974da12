ghost use Rattle.std.specs.Prelude.{◌≡◌, IfOk, string_bytes};
ghost use Rattle.an_lines.specs.Stop.{refusal_line};

use an_code::Code;
use std::alloc::{AllocError, Global};

/// The number of a line, from 1, and why it is refused.
#[derive(Clone, Copy, Debug)]
pub(crate) struct Stop {
    pub line: usize,
    pub why: Code,
}

/// An input that is too large is refused before its first line.
pub(crate) const TOO_LARGE: Stop = Stop {
    line: 0,
    why: Code::Input,
};

/// A harvest of a stream whose last page can't be asked for is refused.
pub(crate) const TOO_LONG: Stop = Stop {
    line: 0,
    why: Code::Page,
};

/// The refusal of a line, as it is printed.
pub(crate) fn refusal_line(alloc: Global, stop: Stop) -> Result<String, AllocError>
    ensures { IfOk result (λ text. string_bytes text ≡ refusal_line stop) }
{
    let line = stop.line;
    let code = stop.why.text();
    format!(in alloc; "line {line} refused: {code}\n")
}
