ghost use Rattle.std.specs.Prelude.{◌≡◌, decimal, IfSome};
ghost use Rattle.std.specs.Char.{is_ascii_digit};
ghost use Rattle.std.specs.List.{list_all};
ghost use Rattle.an_base.specs.Decimal.{is_decimal, decimal_of};

/// The number that a text writes in decimal, without a sign and without leading zeros, if it is at
/// most `greatest`. Takes no memory.
#[tactic(auto, using(crate::proofs::DecimalLemmas::decimal_is_text))]
pub fn read_decimal(text: &str, greatest: u32) -> Option<u32>
    ensures value { result ≡ decimal_of greatest text.now }
    ensures own_text { IfSome result (λ n. decimal n ≡ text.now) }
{
    if !is_decimal(text.as_bytes()) {
        return None;
    }
    match text.parse::<u32>() {
        Ok(number) => if number <= greatest {
            Some(number)
        } else {
            None
        },
        Err(_) => None,
    }
}

fn is_decimal(bytes: &[u8]) -> bool
    ensures { result ≡ is_decimal bytes.now }
{
    !bytes.is_empty() && has_digits_alone(bytes) && (bytes[0] != b'0' || bytes.len() == 1)
}

fn has_digits_alone(bytes: &[u8]) -> bool
    ensures { result ≡ list_all is_ascii_digit bytes.now }
{
    bytes.iter().all(|b| b.is_ascii_digit())
}
