ghost use Rattle.std.specs.Prelude.{◌≡◌};
ghost use Rattle.an_http.specs.Method.{method_of, method_text};

/// A method that some path has (RFC 9110, section 9.3).
#[derive(Clone, Copy, Debug, PartialEq, Eq)]
pub enum Method {
    Get,
    /// GET without the body of the reply.
    Head,
    Options,
    Put,
    Delete,
}

impl Method {
    /// Its name.
    pub fn text(self) -> &'static str
        ensures text { result.now ≡ method_text self }
    {
        match self {
            Method::Get => "GET",
            Method::Head => "HEAD",
            Method::Options => "OPTIONS",
            Method::Put => "PUT",
            Method::Delete => "DELETE",
        }
    }
}

/// The method of this name, whose case counts (RFC 9110, section 9.1). There is none where no path
/// has it.
pub fn method_of(text: &str) -> Option<Method>
    ensures method { result ≡ method_of text.now }
{
    match text {
        "GET" => Some(Method::Get),
        "HEAD" => Some(Method::Head),
        "OPTIONS" => Some(Method::Options),
        "PUT" => Some(Method::Put),
        "DELETE" => Some(Method::Delete),
        _ => None,
    }
}
