ghost use Rattle.std.specs.Prelude.{◌≡◌};
ghost use Rattle.std.specs.List.{list_all};
ghost use Rattle.an_base.specs.Token.{is_token, is_token_sign};

/// Whether these bytes are a reader's token: 8 to 64 letters and digits of ASCII, `-` and `_`.
/// Takes no memory.
pub fn is_token(text: &[u8]) -> bool
    ensures { result ≡ is_token text.now }
{
    8 <= text.len() && text.len() <= 64 && has_token_signs(text)
}

fn has_token_signs(text: &[u8]) -> bool
    ensures { result ≡ list_all is_token_sign text.now }
{
    text.iter().all(|b| is_token_sign(*b))
}

fn is_token_sign(byte: u8) -> bool
    ensures { result ≡ is_token_sign byte }
{
    matches!(byte, b'a'..=b'z' | b'A'..=b'Z' | b'0'..=b'9' | b'-' | b'_')
}
