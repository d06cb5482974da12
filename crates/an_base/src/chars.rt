ghost use Rattle.std.specs.Prelude.{◌≡◌, ◌≤◌, chars, length};

/// How many Unicode code points a text has.
pub fn char_count(text: &str) -> usize
    ensures count { result ≡ length (chars text.now) }
    ensures bound { result ≤ length text.now }
{
    text.chars().count()
}
