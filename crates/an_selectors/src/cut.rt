ghost use Rattle.std.specs.Prelude.{◌≡◌, ◌+◌, ◌<◌, length, take, drop, chars, encode_utf8_all};
ghost use Rattle.an_selectors.specs.Walk.{IsPointOf, IsRestOf};

/// A point of a text: the byte at which the text may be cut, and how many code points stand before
/// it.
#[derive(Clone, Copy)]
pub(crate) struct Point {
    pub at: usize,
    pub number: usize,
}

/// A text up to a number of code points, or to its end, and what follows them.
pub(crate) fn cut_behind(text: &str, count: usize) -> (&str, &str)
    ensures text { result.0.now ≡ encode_utf8_all (take count (chars text.now)) }
    ensures front { chars result.0.now ≡ take count (chars text.now) }
    ensures back { chars result.1.now ≡ drop count (chars text.now) }
{
    let rest = rest_behind(text, count);
    text.split_at(text.len() - rest.len())
}

/// What follows a number of code points.
fn rest_behind(text: &str, count: usize) -> &str
    ensures { IsRestOf text.now count result.now }
{
    let mut rest = text.chars();
    for _ in 0..count {
        match rest.next() {
            Some(_) => {}
            None => return rest.as_str(),
        }
    }
    rest.as_str()
}

/// The point one code point behind.
pub(crate) fn point_behind(text: &str, point: Point) -> Point
    requires is { IsPointOf text.now point }
    requires some { point.at < length text.now }
    ensures is { IsPointOf text.now result }
    ensures next { result.number ≡ point.number + 1 }
{
    match text[point.at..].chars().next() {
        Some(c) => Point {
            at: point.at + c.len_utf8(),
            number: point.number + 1,
        },
        None => unreachable!(),
    }
}
