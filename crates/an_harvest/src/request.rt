ghost use Rattle.std.specs.Prelude.{◌≡◌, IfOk, Some, None, option_map, string_bytes};
ghost use Rattle.an_harvest.specs.Reply.{request_bytes};

use std::alloc::{AllocError, Global};

/// The request for a target, with a token where there is one.
pub(crate) fn request_text(
    alloc: Global,
    target: &str,
    token: Option<&str>,
) -> Result<String, AllocError>
    ensures text { IfOk result (λ text. string_bytes text
        ≡ request_bytes target.now (option_map (λ t. t.now) token.entry)) }
{
    match token {
        Some(token) => with_token(alloc, target, token),
        None => without_token(alloc, target),
    }
}

fn with_token(alloc: Global, target: &str, token: &str) -> Result<String, AllocError>
    ensures text { IfOk result
        (λ text. string_bytes text ≡ request_bytes target.now (Some token.now)) }
{
    format!(in alloc;
        "GET {target} HTTP/1.1\r\nHost: localhost\r\nAuthorization: Bearer {token}\r\n\r\n"
    )
}

fn without_token(alloc: Global, target: &str) -> Result<String, AllocError>
    ensures text { IfOk result (λ text. string_bytes text ≡ request_bytes target.now None) }
{
    format!(in alloc; "GET {target} HTTP/1.1\r\nHost: localhost\r\n\r\n")
}
