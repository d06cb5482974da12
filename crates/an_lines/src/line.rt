ghost use Rattle.std.specs.Prelude.{◌≡◌, ◌<◌, option_map};
ghost use Rattle.an_lines.specs.Line.{lent_words, words_to, words_for, words_after, words_of};

use an_base::{Moment, moment_of};
use an_http::{Method, method_of};
use an_routes::cut;

/// The words of a line.
#[derive(Clone, Copy, Debug)]
pub(crate) struct LineWords<'a> {
    pub moment: Moment,
    pub by: &'a str,
    pub method: Method,
    pub target: &'a str,
    pub tree: &'a str,
}

/// The words of a line, if it has those of a line.
#[tactic(auto, unfolding(crate::specs::Line::words_of))]
pub(crate) fn words_of(text: &str) -> Option<LineWords<'_>>
    ensures { option_map lent_words result ≡ words_of text.now }
{
    match cut(text, ' ') {
        Some((moment, rest)) => match moment_of(moment) {
            Ok(moment) => words_after(moment, rest),
            Err(_) => None,
        },
        None => None,
    }
}

fn words_after(moment: Moment, rest: &str) -> Option<LineWords<'_>>
    ensures { option_map lent_words result ≡ words_after moment rest.now }
{
    let (by, rest) = cut(rest, ' ')?;
    let (method, rest) = cut(rest, ' ')?;
    let method = method_of(method)?;
    words_for(moment, by, method, rest)
}

/// The words behind the method.
fn words_for<'a>(
    moment: Moment,
    by: &'a str,
    method: Method,
    rest: &'a str,
) -> Option<LineWords<'a>>
    ensures { option_map lent_words result ≡ words_for moment by.now method rest.now }
{
    let parts = cut(rest, ' ');
    match method {
        Method::Get => match parts {
            Some(_) => None,
            None => words_to(moment, by, Method::Get, rest, ""),
        },
        Method::Put => match parts {
            Some((target, tree)) => words_to(moment, by, Method::Put, target, tree),
            None => None,
        },
        Method::Delete => match parts {
            Some(_) => None,
            None => words_to(moment, by, Method::Delete, rest, ""),
        },
        Method::Head => None,
        Method::Options => None,
    }
}

fn words_to<'a>(
    moment: Moment,
    by: &'a str,
    method: Method,
    target: &'a str,
    tree: &'a str,
) -> Option<LineWords<'a>>
    ensures { option_map lent_words result
        ≡ words_to moment by.now method target.now tree.now }
{
    if target.is_empty() {
        return None;
    }
    Some(LineWords {
        moment,
        by,
        method,
        target,
        tree,
    })
}
