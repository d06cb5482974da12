ghost use Rattle.std.specs.Prelude.{◌≡◌, [], ◌∷◌, ◌++◌, ◌==◌, ◌&&◌, ◌-◌, if◌then◌else◌, nat_lt};
ghost use Rattle.std.specs.Prelude.{not, chars, count_by, encode_utf8_all, string_bytes, IfOk};
ghost use Rattle.std.specs.Prelude.{OnOk};
ghost use Rattle.an_terms.specs.Html.{plain_of_html};

use an_base::Text;
use std::alloc::{AllocError, Global};

/// The plain text of an HTML text: each tag, from a `<` to the next `>`, is one space, and a `<`
/// without a later `>` stays. Character references stay as they are written. The only error is
/// want of memory.
pub fn plain_of_html(alloc: Global, text: &str) -> Result<Text, AllocError>
    ensures plain { IfOk result (λ t. t ≡ plain_of_html text.now) }
{
    let mut kept = String::new(alloc);
    let mut ends = end_count(text);
    let mut inside = false;
    for c in text.chars() {
        ends = ends_behind(ends, c);
        let opens = opens_tag(c, ends);
        push_outside(&mut kept, inside, opens, c)?;
        inside = is_inside_behind(inside, opens, c);
    }
    Ok(Text::from_string(kept))
}

/// How many `>` the text has.
fn end_count(text: &str) -> usize
    ensures { result ≡ count_by (λ c. c == 62) (chars text.now) }
{
    text.chars().filter(|c| *c == '>').count()
}

/// How many `>` are left behind a code point, of those from it on.
fn ends_behind(ends: usize, c: char) -> usize
    ensures { result ≡ ends - (if c == 62 then 1 else 0) }
{
    if c == '>' {
        ends.saturating_sub(1)
    } else {
        ends
    }
}

/// Whether a code point outside of tags opens one, with so many `>` behind it.
fn opens_tag(c: char, ends: usize) -> bool
    ensures { result ≡ (c == 60 && nat_lt 0 ends) }
{
    c == '<' && ends > 0
}

/// Keeps a code point outside of tags, or the space that a tag leaves where it opens.
fn push_outside(kept: &mut String, inside: bool, opens: bool, c: char) -> Result<(), AllocError>
    ensures { OnOk result (string_bytes kept.new ≡ string_bytes kept.old
        ++ encode_utf8_all (if inside then [] else ((if opens then 32 else c) ∷ []))) }
{
    if inside {
        return Ok(());
    }
    kept.push(if opens { ' ' } else { c })
}

/// Whether what follows a code point is inside a tag.
fn is_inside_behind(inside: bool, opens: bool, c: char) -> bool
    ensures { result ≡ (if inside then not (c == 62) else opens) }
{
    if inside { c != '>' } else { opens }
}
