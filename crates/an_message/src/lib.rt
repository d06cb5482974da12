//! How a message of HTTP is cut, whether it is a request or a reply: where its head ends, which
//! fields the head has, how long the body is. Who calls gives the limits.
//!
//! ```text
//! fill_head(&mut link, &mut held, 16_384)
//!     Ok(HeadFill::Found(18))  `held` begins with a head of 18 bytes
//!     Ok(HeadFill::Long)       no head ends in the first 16,384 bytes
//!     Ok(HeadFill::Ended)      the input ended before a head did
//! ```
#![tactic(auto)]

pub use fields::{is_same_name, values_in};
pub use fill::{HeadFill, fill_head, fill_to};
pub use held::remove_front;
pub use length::read_length;

mod fields;
mod fill;
mod head;
mod held;
mod length;
