ghost use Rattle.std.specs.Prelude.{◌≡◌, ◌<◌, ◌≤◌, ◌↔◌, [], ◌∷◌, drop};
ghost use Rattle.std.specs.Prelude.{length, IsNone, IfNone, IfSome};
ghost use Rattle.std.specs.Str.Lines.{strip_carriage_return};
ghost use Rattle.an_lines.specs.Split.{lines_of};

use memchr::memchr;

/// The first line of an input, and how many bytes it takes with its end; none where the input is
/// empty.
pub(crate) fn first_line(input: &[u8]) -> Option<(&[u8], usize)>
    ensures none { IsNone result ↔ (input.now ≡ []) }
    ensures no_lines { IfNone result (lines_of input.now ≡ []) }
    ensures first { IfSome result
        (λ first. lines_of input.now ≡ first.0.now ∷ lines_of (drop first.1 input.now)) }
    ensures some { IfSome result (λ first. 0 < first.1) }
    ensures within { IfSome result (λ first. first.1 ≤ length input.now) }
{
    if input.is_empty() {
        return None;
    }
    match memchr(b'\n', input) {
        None => Some((input, input.len())),
        Some(at) => Some((without_return(&input[..at]), at + 1)),
    }
}

/// A line without the one CR at its end, if it has one.
fn without_return(line: &[u8]) -> &[u8]
    ensures { result.now ≡ strip_carriage_return line.now }
{
    match line.last() {
        Some(b'\r') => &line[..line.len() - 1],
        _ => line,
    }
}
