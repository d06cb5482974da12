ghost use Rattle.std.specs.Prelude.{◌≡◌, map, length, IfOk};
ghost use Rattle.std.specs.List.{All};
ghost use Rattle.httparse.specs.Spans.{IsHeaderWithin, header_bytes};
ghost use Rattle.an_message.specs.Framing.{is_same_name, values_of};

use httparse::spans::HeaderSpan;
use std::alloc::{AllocError, Global};

/// The values of the fields of this name, in their order, where those fields stand in these bytes.
pub fn values_in<'a>(
    alloc: Global,
    text: &'a [u8],
    fields: &[HeaderSpan],
    name: &[u8],
) -> Result<Vec<&'a [u8]>, AllocError>
    requires { All (IsHeaderWithin (length text.now)) fields.now }
    ensures values { IfOk result (λ v. map (λ value. value.now) v.items
        ≡ values_of name.now (map (header_bytes text.now) fields.now)) }
{
    let mut values = Vec::new(alloc);
    for field in fields {
        if is_same_name(field.name.of(text), name) {
            values.push(field.value.of(text))?;
        }
    }
    Ok(values)
}

/// Whether these are the same letters, in any case of ASCII.
#[tactic(auto, using(crate::proofs::NameLemmas::same_letters))]
pub fn is_same_name(one: &[u8], other: &[u8]) -> bool
    ensures { result ≡ is_same_name one.now other.now }
{
    one.eq_ignore_ascii_case(other)
}
