ghost use Rattle.std.specs.Prelude.{◌≡◌, IfOk};
ghost use Rattle.std.specs.Str.{IsAscii, str_to_ascii_lowercase};
ghost use Rattle.an_terms.specs.Terms.{term_of};

use an_base::Text;
use caseless::default_case_fold_str;
use std::alloc::{AllocError, Global};
use unicode_normalization::{to_nfc, to_nfd};

/// The term of a word: its canonical decomposition with full case folding, composed again, so that
/// words that differ in case or by canonical equivalence have one term (The Unicode Standard,
/// section 3.13; UAX #15). The only error is want of memory.
pub fn term_of(alloc: Global, word: &str) -> Result<Text, AllocError>
    ensures term { IfOk result (λ t. t ≡ term_of word.now) }
    ensures ascii { IfOk result (λ t. IsAscii word.now → t ≡ str_to_ascii_lowercase word.now) }
{
    // The usual word: nothing to decompose or to compose.
    if word.is_ascii() {
        return Ok(Text::from_string(word.to_ascii_lowercase(alloc)?));
    }
    folded(alloc, word)
}

/// The term by its three steps.
fn folded(alloc: Global, word: &str) -> Result<Text, AllocError>
    ensures { IfOk result (λ t. t ≡ term_of word.now) }
{
    let decomposed = to_nfd(alloc, word)?;
    let folded = default_case_fold_str(alloc, decomposed.as_str())?;
    let composed = to_nfc(alloc, folded.as_str())?;
    Ok(Text::from_string(composed))
}
