//! Requests in, replies out: HTTP/1.1 over one link (RFC 9110 and RFC 9112).
//!
//! ```text
//! next_request(alloc, &mut link, &mut buffer)
//!     Ok(Next::Request(request))      a whole request came, in whatever pieces; it is taken
//!     Ok(Next::Bad { status, code })  it is refused: a reply is due, and the connection closes
//!     Ok(Next::End)                   the input ended between requests
//!     Err(LinkError::ReadFault)       the link failed a read, and has counted it
//! ```
#![tactic(auto)]

pub use an_world::LinkError;
pub use buffer::Buffer;
pub use errors::{error_body, refusal_reply};
pub use laws::{cuts_are_unique, cuts_go_on, requests_are_short};
pub use method::{Method, method_of};
pub use next::{Next, next_request};
pub use put::{PutError, put_memory_reply, put_reply};
pub use reply::{Allow, Extra, Media, Reply};
pub use request::{Auth, Request};
pub use status::{Status, status_of};

mod buffer;
mod errors;
mod fields;
mod head;
mod laws;
mod method;
mod next;
mod plan;
mod put;
mod reply;
mod request;
mod status;
