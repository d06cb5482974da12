ghost use Rattle.std.specs.Prelude.{◌≡◌, ◌∷◌, [], ◌<◌, ◌/◌, ◌%◌, IfSome};
ghost use Rattle.an_calls.specs.Hex.{hex_sign};

use crate::rows::RowError;
use std::alloc::Global;

/// The bytes that are written as pairs of digits and letters from a to f, with spaces between them.
pub fn hex_bytes(alloc: Global, text: &str) -> Result<Vec<u8>, RowError> {
    let mut bytes = Vec::new(alloc);
    for pair in text.split_ascii_whitespace() {
        bytes.push(hex_byte(pair.as_bytes()).ok_or(RowError::Form)?)?;
    }
    Ok(bytes)
}

fn hex_byte(pair: &[u8]) -> Option<u8>
    ensures { IfSome result
        (λ byte. pair.now ≡ hex_sign (byte / 16) ∷ hex_sign (byte % 16) ∷ []) }
{
    match pair {
        [high, low] => Some(16 * hex_digit(*high)? + hex_digit(*low)?),
        _ => None,
    }
}

fn hex_digit(sign: u8) -> Option<u8>
    ensures sign { IfSome result (λ digit. sign ≡ hex_sign digit) }
    ensures below { IfSome result (λ digit. digit < 16) }
{
    match sign {
        b'0'..=b'9' => Some(sign - b'0'),
        b'a'..=b'f' => Some(sign - b'a' + 10),
        _ => None,
    }
}
