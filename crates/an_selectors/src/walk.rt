ghost use Rattle.std.specs.Prelude.{◌+◌, ◌<◌, length, chars, IfSome, MatchOption};
ghost use Rattle.an_selectors.specs.Walk.{IsPointOf, IsNext, IsAfter, StandsAt, StandsNowhere};

use crate::cut::{Point, point_behind};
use an_base::char_count;

/// The first point, from another on, at which the needle stands.
pub(crate) fn next_point(text: &str, from: Point, needle: &str) -> Option<Point>
    requires { IsPointOf text.now from }
    ensures { MatchOption result
        (StandsNowhere (chars needle.now) (chars text.now) from.number (length (chars text.now)))
        (IsNext needle.now text.now from.number) }
{
    let rest = &text[from.at..];
    match rest.find(needle) {
        Some(skipped) => Some(Point {
            at: from.at + skipped,
            number: from.number + char_count(&rest[..skipped]),
        }),
        None => None,
    }
}

/// The first point behind another at which the needle stands. It stands at this one too, and
/// before it last at `last`, or nowhere.
pub(crate) fn point_after(text: &str, needle: &str, last: Point, point: Point) -> Option<Point>
    requires last { IsAfter needle.now text.now last point }
    requires stands { StandsAt needle.now text.now point }
    requires some { 0 < length needle.now }
    ensures { MatchOption result
        (StandsNowhere (chars needle.now) (chars text.now)
        (point.number + 1) (length (chars text.now)))
        (IsNext needle.now text.now (point.number + 1)) }
{
    match point_repeated(text, needle, last, point) {
        Some(next) => Some(next),
        None => next_point(text, point_behind(text, point), needle),
    }
}

/// The same, where it is as far away as `last`, and the two aren't further apart than the needle is
/// long. Then only what stands behind the needle is compared, so that a text that repeats itself is
/// searched in linear time.
fn point_repeated(text: &str, needle: &str, last: Point, point: Point) -> Option<Point>
    requires last { IsAfter needle.now text.now last point }
    requires stands { StandsAt needle.now text.now point }
    ensures { IfSome result (IsNext needle.now text.now (point.number + 1)) }
{
    let gap = point.at - last.at;
    if gap == 0 || needle.len() < gap {
        return None;
    }
    let end = &needle.as_bytes()[needle.len() - gap..];
    let rest = &text.as_bytes()[point.at + needle.len()..];
    if rest.starts_with(end) {
        Some(Point {
            at: point.at + gap,
            number: point.number + (point.number - last.number),
        })
    } else {
        None
    }
}
