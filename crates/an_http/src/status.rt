ghost use Rattle.std.specs.Prelude.{◌≡◌};
ghost use Rattle.an_http.specs.Status.{status_of, number_of, phrase_of};

use an_code::Code;

/// The status of a reply (RFC 9110, section 15).
#[derive(Clone, Copy, Debug, PartialEq, Eq)]
pub enum Status {
    Ok,
    Created,
    NoContent,
    BadRequest,
    Unauthorized,
    Forbidden,
    NotFound,
    MethodNotAllowed,
    Conflict,
    Gone,
    LengthRequired,
    ContentTooLarge,
    InternalServerError,
    NotImplemented,
    ServiceUnavailable,
}

impl Status {
    /// Its number, of three digits.
    pub fn number(self) -> u16
        ensures number { result ≡ number_of self }
    {
        match self {
            Status::Ok => 200,
            Status::Created => 201,
            Status::NoContent => 204,
            Status::BadRequest => 400,
            Status::Unauthorized => 401,
            Status::Forbidden => 403,
            Status::NotFound => 404,
            Status::MethodNotAllowed => 405,
            Status::Conflict => 409,
            Status::Gone => 410,
            Status::LengthRequired => 411,
            Status::ContentTooLarge => 413,
            Status::InternalServerError => 500,
            Status::NotImplemented => 501,
            Status::ServiceUnavailable => 503,
        }
    }

    /// The phrase that its status line ends with.
    pub fn phrase(self) -> &'static str
        ensures phrase { result.now ≡ phrase_of self }
    {
        match self {
            Status::Ok => "OK",
            Status::Created => "Created",
            Status::NoContent => "No Content",
            Status::BadRequest => "Bad Request",
            Status::Unauthorized => "Unauthorized",
            Status::Forbidden => "Forbidden",
            Status::NotFound => "Not Found",
            Status::MethodNotAllowed => "Method Not Allowed",
            Status::Conflict => "Conflict",
            Status::Gone => "Gone",
            Status::LengthRequired => "Length Required",
            Status::ContentTooLarge => "Content Too Large",
            Status::InternalServerError => "Internal Server Error",
            Status::NotImplemented => "Not Implemented",
            Status::ServiceUnavailable => "Service Unavailable",
        }
    }
}

/// The status of the reply to what is refused with this code.
pub fn status_of(refusal: Code) -> Status
    ensures status { result ≡ status_of refusal }
{
    match refusal {
        Code::NotSigned => Status::Unauthorized,
        Code::NotWriter => Status::Forbidden,
        Code::NotOwn => Status::Forbidden,
        Code::NotMember => Status::Forbidden,
        Code::Route => Status::NotFound,
        Code::Absent => Status::NotFound,
        Code::NoPage { pages: _ } => Status::NotFound,
        Code::Method => Status::MethodNotAllowed,
        Code::GroupFixed => Status::Conflict,
        Code::TokenTaken => Status::Conflict,
        Code::Version { current: _ } => Status::Conflict,
        Code::Gone => Status::Gone,
        Code::LengthRequired => Status::LengthRequired,
        Code::Large => Status::ContentTooLarge,
        Code::Keeper => Status::InternalServerError,
        Code::Transfer => Status::NotImplemented,
        _ => Status::BadRequest,
    }
}
