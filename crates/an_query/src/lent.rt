ghost use Rattle.std.specs.Prelude.{◌≡◌, ℕ, List, Bool, IfOk, OnOk, not, ◌||◌, bytes_eq};
ghost use Rattle.an_query.specs.Lent.{is_lent};

use std::alloc::AllocError;
use std::collections::BTreeSet;

/// Adds a lent text to others, and says whether it is new.
pub(crate) fn add_lent<'a>(texts: &mut BTreeSet<&'a str>, text: &'a str) -> Result<bool, AllocError>
    ensures new { IfOk result (λ new. new ≡ not (is_lent text.now texts.old)) }
    ensures added { OnOk result ((other : List ℕ)
        → is_lent other texts.new ≡ (bytes_eq text.now other || is_lent other texts.old)) }
{
    let new = texts.insert(text)?;
    Ok(new)
}
