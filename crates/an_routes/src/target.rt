ghost use Rattle.std.specs.Prelude.{◌≡◌, ◌<◌, ◌==◌, IfOk, map, option_map};
ghost use Rattle.std.specs.List.{slice_split};
ghost use Rattle.an_routes.specs.Target.{cut_at, target_parts, segments_of};

use an_base::Text;
use an_query::escaped_text;
use std::alloc::{AllocError, Global};

/// The path of a target behind its first `/`, and its query, which is empty where there is none.
/// There are none where the target doesn't begin with `/`.
pub(crate) fn target_parts(target: &str) -> Option<(&str, &str)>
    ensures { option_map (λ p. (p.0.now, p.1.now)) result ≡ target_parts target.now }
{
    match cut(target, '/') {
        Some((before, behind)) => if before.is_empty() {
            match cut(behind, '?') {
                Some((path, query)) => Some((path, query)),
                None => Some((behind, "")),
            }
        } else {
            None
        },
        None => None,
    }
}

/// The segments of a path, each with its escapes decoded; none where one of them isn't UTF-8 then.
#[tactic(auto, using(an_query::proofs::PairLemmas::pairs_left))]
pub(crate) fn segments_of(alloc: Global, path: &str) -> Result<Option<Vec<Text>>, AllocError>
    ensures { IfOk result (λ segments. option_map (λ v. v.items) segments ≡ segments_of path.now) }
{
    let raw = pieces(alloc, path)?;
    let mut segments = Vec::new(alloc);
    for piece in raw.as_slice() {
        match escaped_text(alloc, piece.as_bytes())? {
            Some(text) => segments.push(text)?,
            None => return Ok(None),
        }
    }
    Ok(Some(segments))
}

fn pieces(alloc: Global, path: &str) -> Result<Vec<&str>, AllocError>
    ensures { IfOk result (λ v. map (λ x. x.now) v.items ≡ slice_split (λ b. b == 47) path.now) }
{
    path.split('/').collect(alloc)
}

/// What stands before the first such sign, which is ASCII, and what behind it; nothing where there
/// is no such sign.
pub fn cut(text: &str, sign: char) -> Option<(&str, &str)>
    requires ascii { sign < 128 }
    ensures cut { option_map (λ p. (p.0.now, p.1.now)) result ≡ cut_at sign text.now }
{
    text.split_once(sign)
}
